//! Cases of sources, documents, sinks and clocks: what each call on one answers, in order.

use anyhow::Context;
use es_io::{
    Clock, Document, Documents, FileDocument, ListClock, MemoryDocument, MemorySink, MemorySource,
    Sink, Source, StdSink, StdSource, SystemClock, write_all,
};
use es_model::{Bytes, CallFault, Failed, Moment, Moments, Text};
use es_suite::given;
use es_suite::told::{self, Items, Members};
use serde_json::Value;
use std::alloc::Global;
use std::rt::{Clock as WallClock, Files};

// What a buffer of so many bytes holds after a read into it, and how many bytes were read.
fn read<S: Source>(alloc: Global, source: &mut S, room: u64) -> anyhow::Result<Value> {
    let mut buffer = vec![in alloc; b'-'; room as usize]?;
    let count = source.read(buffer.as_mut_slice());
    let mut told = Members::new(alloc);
    told.put_bytes("buffer", buffer.as_slice());
    match count {
        Ok(count) => told.put("count", count as u64),
        Err(Failed) => told.put("fault", "failed"),
    }
    told.end()
}

fn begun(alloc: Global, begun: Result<(), CallFault>) -> anyhow::Result<Value> {
    match begun {
        Ok(()) => told::text(alloc, "begun"),
        Err(CallFault::Failed) => told::fault(alloc, "failed"),
        Err(CallFault::NoMemory) => told::no_memory(),
    }
}

// The answer of documents to a step: a name to begin, or room to read into.
fn step<D: Document>(alloc: Global, document: &mut D, step: &Value) -> anyhow::Result<Value> {
    if let Some(room) = step.as_u64() {
        return read(alloc, document, room);
    }
    let name = Text::from_str(alloc, step.as_str().context("no name")?)?;
    begun(alloc, document.begin(&name))
}

// The answers of documents to steps.
fn steps<D: Document>(alloc: Global, document: &mut D, steps: &[Value]) -> anyhow::Result<Value> {
    let mut answers = Items::new(alloc);
    for given in steps {
        answers.put(step(alloc, document, given)?);
    }
    answers.end()
}

// A document with its name.
fn with_name(alloc: Global, pair: &Value) -> anyhow::Result<(Text, Bytes)> {
    let bytes = given::member(pair, "bytes")?;
    let name = given::owned(alloc, pair, "name")?;
    let bytes = given::bytes(alloc, bytes)?;
    Ok((name, bytes))
}

// Documents with their names.
fn named(alloc: Global, pairs: &[Value]) -> anyhow::Result<Documents> {
    let mut documents = Documents::new(alloc);
    for pair in pairs {
        documents.push(with_name(alloc, pair)?)?;
    }
    Ok(documents)
}

// Documents in memory.
fn documents(alloc: Global, case: &Value) -> anyhow::Result<Value> {
    let trees = given::items(case, "steps")?;
    let pairs = given::items(case, "documents")?;
    let failing = given::calls(alloc, case, "failing")?;
    let documents = named(alloc, pairs)?;
    let mut document = MemoryDocument::new(alloc, documents, failing);
    steps(alloc, &mut document, trees)
}

// What is read of a source into some rooms.
fn reads<S: Source>(alloc: Global, source: &mut S, rooms: &[Value]) -> anyhow::Result<Value> {
    let mut answers = Items::new(alloc);
    for room in rooms {
        answers.put(read(alloc, source, room.as_u64().context("no room")?)?);
    }
    answers.end()
}

// A source in memory.
fn source(alloc: Global, case: &Value) -> anyhow::Result<Value> {
    let rooms = given::items(case, "rooms")?;
    let failing = given::calls(alloc, case, "failing")?;
    let bytes = given::bytes(alloc, given::member(case, "source")?)?;
    let mut source = MemorySource::new(bytes, failing);
    reads(alloc, &mut source, rooms)
}

// The answer to bytes that are written whole, or handed on.
fn done(alloc: Global, word: &str, done: Result<(), Failed>) -> anyhow::Result<Value> {
    match done {
        Ok(()) => told::text(alloc, word),
        Err(Failed) => told::fault(alloc, "failed"),
    }
}

// The answer to bytes that are written as far as they go.
fn count(alloc: Global, count: Result<usize, Failed>) -> anyhow::Result<Value> {
    match count {
        Ok(count) => Ok(Value::from(count as u64)),
        Err(Failed) => told::fault(alloc, "failed"),
    }
}

// The answer of a sink to a step.
fn written<T: Sink>(alloc: Global, sink: &mut T, step: &Value) -> anyhow::Result<Value> {
    if let Some(text) = step.get("all").and_then(Value::as_str) {
        done(alloc, "written", write_all(sink, text.as_bytes()))
    } else if let Some(text) = step.get("write").and_then(Value::as_str) {
        count(alloc, sink.write(text.as_bytes()))
    } else {
        done(alloc, "flushed", sink.flush())
    }
}

// The answers of a sink in memory, and last what was written.
fn writes(alloc: Global, sink: &mut MemorySink, steps: &[Value]) -> anyhow::Result<Value> {
    let mut answers = Items::new(alloc);
    for step in steps {
        answers.put(written(alloc, sink, step)?);
    }
    answers.put_bytes(sink.bytes());
    answers.end()
}

// A sink in memory.
fn sink(alloc: Global, case: &Value) -> anyhow::Result<Value> {
    let steps = given::items(case, "steps")?;
    let room = given::number(case, "sink")?;
    let failing = given::calls(alloc, case, "failing")?;
    let mut sink = MemorySink::new(alloc, room, failing)?;
    writes(alloc, &mut sink, steps)
}

// Moments at so many microseconds.
fn moments(alloc: Global, trees: &[Value]) -> anyhow::Result<Moments> {
    let mut moments = Moments::new(alloc);
    for micros in trees {
        let moment = Moment::new(micros.as_i64().context("no number")?);
        moments.push(moment.context("no moment")?)?;
    }
    Ok(moments)
}

// The readings of a clock.
fn clock(alloc: Global, case: &Value) -> anyhow::Result<Value> {
    let (count, after) = (
        given::number(case, "readings")?,
        given::moment(case, "after")?,
    );
    let mut clock = ListClock::new(moments(alloc, given::items(case, "clock")?)?, after);
    let mut answers = Items::new(alloc);
    for _ in 0..count {
        answers.put(clock.now().micros());
    }
    answers.end()
}

// The standard streams, of which the output takes nothing, and the system's clock, which is past a moment.
fn standard<R: Files + Print + Input + WallClock>(
    rt: &R,
    alloc: Global,
    past: Moment,
) -> anyhow::Result<Value> {
    let _source = StdSource::new(rt);
    let mut sink = StdSink::new(rt);
    let mut told = Members::new(alloc);
    told.put("written", sink.write(b"").is_ok());
    told.put("flushed", sink.flush().is_ok());
    told.put("past", SystemClock::new(rt).now().micros() > past.micros());
    told.end()
}

// Files as documents.
fn files<R: Files>(rt: &R, alloc: Global, trees: &[Value]) -> anyhow::Result<Value> {
    let mut files = FileDocument::new(rt);
    steps(alloc, &mut files, trees)
}

/// The answer of a case.
pub(crate) fn answer<R: Files + Print + Input + WallClock>(
    rt: &R,
    alloc: Global,
    case: &Value,
) -> anyhow::Result<Value> {
    if case.get("documents").is_some() {
        documents(alloc, case)
    } else if case.get("files").is_some() {
        files(rt, alloc, given::items(case, "files")?)
    } else if case.get("source").is_some() {
        source(alloc, case)
    } else if case.get("sink").is_some() {
        sink(alloc, case)
    } else if case.get("clock").is_some() {
        clock(alloc, case)
    } else {
        standard(rt, alloc, given::moment(case, "past")?)
    }
}
