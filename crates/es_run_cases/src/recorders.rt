//! Cases of a recorder in memory: what it answers to some steps, in order. Behind a fuse the steps
//! `then` are those of the recorder that the fuse gives back.

use crate::snapshots::snapshots;
use anyhow::Context;
use es_memory::{FuseRecorder, MemoryRecorder, is_formed};
use es_model::Snapshots;
use es_model::limits::NUMBERS_END;
use es_steps::recordings::history;
use es_steps::steps;
use es_suite::given;
use es_suite::told::Items;
use serde_json::Value;
use std::alloc::Global;

// A recorder with a history and snapshots.
fn with(
    alloc: Global,
    held: &[Value],
    snapshots: Snapshots,
    capacity: u64,
) -> anyhow::Result<MemoryRecorder> {
    let history = history(alloc, held)?;
    if capacity < NUMBERS_END && is_formed(&history) {
        Ok(MemoryRecorder::with(alloc, history, snapshots, capacity)?)
    } else {
        Err(anyhow::anyhow!("a history that isn't formed, or too great a capacity"))
    }
}

/// A recorder with the history of a case, its snapshots and its capacity.
pub(crate) fn recorder(alloc: Global, case: &Value) -> anyhow::Result<MemoryRecorder> {
    let held = given::items_if_any(case, "held");
    let snapshots = snapshots(alloc, case)?;
    let capacity = given::number_or(case, "capacity", 9);
    if capacity >= NUMBERS_END {
        Err(anyhow::anyhow!("too great a capacity"))
    } else if held.is_empty() && snapshots.as_slice().is_empty() {
        Ok(MemoryRecorder::new(alloc, capacity))
    } else {
        with(alloc, held, snapshots, capacity)
    }
}

// Puts a recorder behind a fuse, and takes it out again after some steps.
fn fused(
    alloc: Global,
    recorder: MemoryRecorder,
    fuse: &Value,
    trees: &[Value],
    answers: &mut Items,
) -> anyhow::Result<MemoryRecorder> {
    let calls = given::number(fuse, "calls")?;
    let after = fuse.get("after").and_then(Value::as_bool);
    let mut fuse = FuseRecorder::new(recorder, calls, after.context("no effect")?);
    steps::answers(alloc, &mut fuse, trees, answers)?;
    Ok(fuse.into_inner())
}

// Lets a recorder answer some steps, behind a fuse where the case has one.
fn stepped(
    alloc: Global,
    mut recorder: MemoryRecorder,
    case: &Value,
    answers: &mut Items,
) -> anyhow::Result<MemoryRecorder> {
    let trees = given::items(case, "recorder")?;
    match case.get("fuse") {
        Some(fuse) => fused(alloc, recorder, fuse, trees, answers),
        None => {
            steps::answers(alloc, &mut recorder, trees, answers)?;
            Ok(recorder)
        }
    }
}

/// What a recorder answers to each step.
pub(crate) fn answer(alloc: Global, case: &Value) -> anyhow::Result<Value> {
    let mut answers = Items::new(alloc);
    let mut recorder = stepped(alloc, recorder(alloc, case)?, case, &mut answers)?;
    let then = given::items_if_any(case, "then");
    steps::answers(alloc, &mut recorder, then, &mut answers)?;
    answers.end()
}
