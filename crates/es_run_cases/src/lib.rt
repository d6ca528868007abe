//! The cases of recorders in memory and of what stands on them: stores, decisions, applications, drains, and
//! whole runs.
#![tactic(auto)]

mod applications;
mod drains;
mod fused_stores;
mod recorders;
mod runners;
mod runs;
mod several;
mod snapshots;
mod stops;
mod stores;
mod systems;
mod verdicts;
mod worlds;

use serde_json::Value;
use std::alloc::Global;

/// The answer of a case, by its file and the document that stands before it, which is null where none does.
pub fn answer(alloc: Global, file: &str, base: &Value, case: &Value) -> anyhow::Result<Value> {
    match file {
        "applications.jsonl" | "questions.jsonl" | "snapshots.jsonl" => {
            applications::answer(alloc, base, case)
        }
        "decisions.jsonl" | "verdicts.jsonl" => verdicts::answer(alloc, base, case),
        "drains.jsonl" => drains::answer(alloc, base, case),
        "formed.jsonl" => stores::formed(alloc, case),
        "fuses.jsonl" | "recorders.jsonl" => recorders::answer(alloc, case),
        "chains.jsonl" | "faults.jsonl" | "lines.jsonl" | "openings.jsonl" | "runs.jsonl" => {
            runs::answer(alloc, base, case)
        }
        "runners.jsonl" => runners::answer(alloc, base, case),
        "statuses.jsonl" => runs::code_of(case),
        "stops.jsonl" => stops::answer(alloc, base, case),
        "stores.jsonl" => stores::answer(alloc, case),
        "worlds.jsonl" => worlds::answer(alloc, base, case),
        _ => Err(anyhow::anyhow!("no kind of cases")),
    }
}
