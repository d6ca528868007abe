//! Cases of whole runs over objects in memory, and of the numbers of their ends.

use crate::fused_stores::FusedStores;
use crate::snapshots::snapshots_told;
use crate::stores::stores;
use crate::systems::{clock, failing};
use anyhow::Context;
use es_io::{Documents, ListClock, MemoryDocument, MemorySink, MemorySource};
use es_lines::End;
use es_memory::MemoryStores;
use es_model::{Bytes, Text};
use es_recorder::Stores;
use es_steps::recordings::history_told;
use es_suite::given;
use es_suite::told::Members;
use es_top::{Status, evsys_single};
use serde_json::Value;
use std::alloc::Global;

/// The objects of a run but for its stores.
#[derive(Drop)]
pub(crate) struct Objects {
    words: Vec<String>,
    system: MemoryDocument,
    lines: MemorySource,
    out: MemorySink,
    clock: ListClock,
}

// Adds a text, and spaces behind it up to a length.
fn add_long(text: &mut String, line: &str, length: u64) -> anyhow::Result<()> {
    text.push_str(line)?;
    for _ in line.len() as u64..length {
        text.push(' ')?;
    }
    Ok(())
}

// Adds a line: an object, a text, or a text with the length up to which spaces follow it.
fn add_line(alloc: Global, text: &mut String, line: &Value) -> anyhow::Result<()> {
    if let Some(line) = line.as_str() {
        text.push_str(line)?;
    } else if let Some(length) = line.get(1).and_then(Value::as_u64) {
        let line = line.get(0).and_then(Value::as_str);
        add_long(text, line.context("no line")?, length)?;
    } else {
        text.push_str(line.to_string(alloc)?.as_str())?;
    }
    text.push('\n')?;
    Ok(())
}

// The bytes of some lines.
fn bytes_of(alloc: Global, lines: &[Value]) -> anyhow::Result<Bytes> {
    let mut text = String::new(alloc);
    for line in lines {
        add_line(alloc, &mut text, line)?;
    }
    Ok(Bytes::from_vec(text.into_bytes()))
}

fn words_of(alloc: Global, case: &Value) -> anyhow::Result<Vec<String>> {
    let mut words = Vec::new(alloc);
    for word in given::items(case, "words")? {
        words.push(String::from_str(alloc, word.as_str().context("no word")?)?)?;
    }
    Ok(words)
}

// The base as the one document.
fn documents(alloc: Global, base: &Value) -> anyhow::Result<Documents> {
    let text = base.to_string(alloc)?;
    let name = Text::from_str(alloc, "system.json")?;
    let mut documents = Documents::new(alloc);
    documents.push((name, Bytes::from_vec(text.into_bytes())))?;
    Ok(documents)
}

fn system(alloc: Global, base: &Value, case: &Value) -> anyhow::Result<MemoryDocument> {
    let failing = failing(alloc, case, "system")?;
    let documents = documents(alloc, base)?;
    Ok(MemoryDocument::new(alloc, documents, failing))
}

fn lines(alloc: Global, case: &Value) -> anyhow::Result<MemorySource> {
    let failing = failing(alloc, case, "lines")?;
    let bytes = bytes_of(alloc, given::items(case, "run")?)?;
    Ok(MemorySource::new(bytes, failing))
}

fn out(alloc: Global, case: &Value) -> anyhow::Result<MemorySink> {
    let failing = failing(alloc, case, "out")?;
    let room = given::number_or(case, "room", 9999);
    Ok(MemorySink::new(alloc, room, failing)?)
}

/// The objects of a case.
pub(crate) fn objects_of(alloc: Global, base: &Value, case: &Value) -> anyhow::Result<Objects> {
    let words = words_of(alloc, case)?;
    let system = system(alloc, base, case)?;
    let lines = lines(alloc, case)?;
    let out = out(alloc, case)?;
    let clock = clock(alloc, case)?;
    Ok(Objects {
        words,
        system,
        lines,
        out,
        clock,
    })
}

/// The one call of the whole program.
pub(crate) fn run<M: Stores>(alloc: Global, objects: &mut Objects, stores: &mut M) -> Status {
    evsys_single(
        alloc,
        objects.words.as_slice(),
        &mut objects.system,
        &mut objects.lines,
        &mut objects.out,
        stores,
        &mut objects.clock,
    )
}

// The number of a run's end, and the stores after it. Where the case has fuses its recorders stand behind them.
fn run_over(
    alloc: Global,
    objects: &mut Objects,
    mut stores: MemoryStores,
    case: &Value,
) -> anyhow::Result<(u8, MemoryStores)> {
    if case.get("fuses").is_none() {
        let code = run(alloc, objects, &mut stores).code();
        return Ok((code, stores));
    }
    let mut fused = FusedStores::new(alloc, stores, given::items(case, "fuses")?)?;
    let code = run(alloc, objects, &mut fused).code();
    Ok((code, fused.into_inner()))
}

// Tells what the stores hold of an application, which is opened again, and its snapshots where there are any.
fn put_held(
    alloc: Global,
    held: &mut Members,
    kept: &mut Members,
    stores: &mut MemoryStores,
    app: &str,
) -> anyhow::Result<bool> {
    let name = Text::from_str(alloc, app)?;
    let recorder = stores.open(None, &name, 1000)?;
    let (history, snapshots) = recorder.into_parts();
    held.put_items(app, history_told(alloc, history.as_slice()));
    if snapshots.as_slice().is_empty() {
        return Ok(false);
    }
    kept.put_items(app, snapshots_told(alloc, snapshots.as_slice()));
    Ok(true)
}

/// Tells what the stores hold of some applications, and the snapshots of those that have any.
pub(crate) fn put_stores(
    alloc: Global,
    told: &mut Members,
    stores: &mut MemoryStores,
    apps: &[Value],
) -> anyhow::Result<()> {
    let mut held = Members::new(alloc);
    let mut kept = Members::new(alloc);
    let mut has_any = false;
    for app in apps {
        let app = app.as_str().context("no name")?;
        has_any |= put_held(alloc, &mut held, &mut kept, stores, app)?;
    }
    told.put_members("held", held);
    if has_any {
        told.put_members("snapshots", kept);
    }
    Ok(())
}

/// The status of a run over some lines, what is written, and what the stores hold of some applications.
pub(crate) fn answer(alloc: Global, base: &Value, case: &Value) -> anyhow::Result<Value> {
    let mut objects = objects_of(alloc, base, case)?;
    let (code, mut stores) = run_over(alloc, &mut objects, stores(alloc, case)?, case)?;
    let apps = given::items_if_any(case, "apps");
    let mut told = Members::new(alloc);
    put_stores(alloc, &mut told, &mut stores, apps)?;
    told.put("status", code);
    told.put_bytes("written", objects.out.bytes());
    told.end()
}

// The end of a run whose end line is of one word.
fn end_of(word: &str) -> Option<End> {
    match word {
        "memory" => Some(End::Memory),
        "usage" => Some(End::Usage),
        "system" => Some(End::System),
        "input" => Some(End::Input),
        "recorder" => Some(End::Recorder),
        "over" => Some(End::Over),
        _ => None,
    }
}

/// The number of an end, or of a failing sink.
pub(crate) fn code_of(case: &Value) -> anyhow::Result<Value> {
    let word = given::text(case, "status")?;
    if word == "sink" {
        return Ok(Value::from(Status::Sink.code()));
    }
    let end = end_of(word).context("no such end")?;
    Ok(Value::from(Status::from(end).code()))
}
