//! The cases of values as texts, records, names, small collections, the outside, and recorders in tables: those
//! of the crates that know of no system.
#![tactic(auto)]

mod atoms;
mod collections;
mod copies;
mod inputs;
mod names;
mod outside;
mod records;
mod stores;

use serde_json::Value;
use std::alloc::Global;
use std::rt::{Clock, Files};

/// The answer of a case, by its file. The files, streams and clock are those of the program.
pub fn answer<R: Files + Print + Input + Clock>(
    rt: &R,
    alloc: Global,
    file: &str,
    case: &Value,
) -> anyhow::Result<Value> {
    match file {
        "atoms.jsonl" => atoms::answer(alloc, case),
        "collections.jsonl" => collections::answer(alloc, case),
        "copies.jsonl" => copies::answer(alloc, case),
        "damage.jsonl" | "layouts.jsonl" | "recorders.jsonl" | "tables.jsonl" => {
            stores::answer(alloc, case)
        }
        "inputs.jsonl" => inputs::answer(alloc, case),
        "names.jsonl" => names::answer(alloc, case),
        "outside.jsonl" => outside::answer(rt, alloc, case),
        "records.jsonl" => records::answer(alloc, case),
        _ => Err(anyhow::anyhow!("no kind of cases")),
    }
}
