//! Cases of the lines of an input: those of a source that gives so many bytes a call, or that fails.

use es_io::{Lines, LinesFault, MemorySource, Piece, Source, Step};
use es_model::{Bytes, Failed};
use es_suite::given;
use es_suite::told::{self, Items, Members};
use serde_json::Value;
use std::alloc::Global;

// A source that gives at most so many bytes a call.
#[derive(Drop)]
struct Pieces {
    bytes: Bytes,
    at: usize,
    most: usize,
}

impl Source for Pieces {
    ghost use Rattle.std.specs.Prelude.{None};

    ghost left = { λ _. None };

    ghost faults = { λ _. 0 };

    ghost documents = { λ _. None };

    fn read(&mut self, into: &mut [u8]) -> Result<usize, Failed> {
        let bytes = self.bytes.as_slice();
        if self.at >= bytes.len() {
            return Ok(0);
        }
        let rest = &bytes[self.at..];
        let count = rest.len().min(into.len()).min(self.most);
        into[..count].copy_from_slice(&rest[..count]);
        self.at += count;
        Ok(count)
    }
}

// A line, or how many bytes a great one has.
fn of_line(alloc: Global, line: &[u8]) -> anyhow::Result<Value> {
    let mut told = Members::new(alloc);
    if line.len() > 1000 {
        told.put("bytes", line.len() as u64);
    } else {
        told.put_bytes("line", line);
    }
    told.end()
}

// What comes next.
fn told_of(alloc: Global, next: Result<Step, LinesFault>) -> anyhow::Result<Value> {
    match next {
        Ok(Step::Line(line)) => of_line(alloc, line.as_slice()),
        Ok(Step::Long) => told::text(alloc, "long"),
        Ok(Step::End) => told::text(alloc, "end"),
        Ok(Step::Over) => told::text(alloc, "over"),
        Err(LinesFault::Read) => told::text(alloc, "failed"),
        Err(LinesFault::NoMemory) => told::no_memory(),
    }
}

// So many first steps of the lines of a source.
fn steps<S: Source>(
    alloc: Global,
    source: &mut S,
    limits: (u64, u64),
    count: u64,
) -> anyhow::Result<Value> {
    let piece = Piece::new(alloc)?;
    let mut lines = Lines::new(alloc, piece, source, limits.0, limits.1);
    let mut steps = Items::new(alloc);
    for _ in 0..count {
        steps.put(told_of(alloc, lines.next())?);
    }
    let _source = lines.into_source();
    steps.end()
}

// The steps of an input that comes in pieces.
fn of_pieces(
    alloc: Global,
    case: &Value,
    most: usize,
    limits: (u64, u64),
    count: u64,
) -> anyhow::Result<Value> {
    let bytes = given::bytes(alloc, given::member(case, "input")?)?;
    let mut source = Pieces { bytes, at: 0, most };
    steps(alloc, &mut source, limits, count)
}

// The steps of an input in memory, of which some calls may fail.
fn of_memory(alloc: Global, case: &Value, limits: (u64, u64), count: u64) -> anyhow::Result<Value> {
    let failing = given::calls(alloc, case, "failing")?;
    let bytes = given::bytes(alloc, given::member(case, "input")?)?;
    let mut source = MemorySource::new(bytes, failing);
    steps(alloc, &mut source, limits, count)
}

/// The answer of a case.
pub(crate) fn answer(alloc: Global, case: &Value) -> anyhow::Result<Value> {
    let limits = (
        given::number(case, "line_limit")?,
        given::number(case, "total_limit")?,
    );
    let count = given::number(case, "steps")?;
    if let Some(most) = case.get("most").and_then(Value::as_u64) {
        of_pieces(alloc, case, most as usize, limits, count)
    } else {
        of_memory(alloc, case, limits, count)
    }
}
