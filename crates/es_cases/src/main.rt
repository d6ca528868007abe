//! Runs the cases of all crates: those of values and recorders in tables, those of systems, and those of runs. A file of cases is
//! named after the crate that answers them.
#![tactic(auto)]

use es_suite::Suite;
use serde_json::Value;
use std::alloc::Global;
use std::rt::{Clock, Files};

// All cases, with the files, streams and clock at hand.
#[derive(Drop)]
struct Cases<'a, R> {
    rt: &'a R,
}

impl<'a, R: Files + Print + Input + Clock> Suite for Cases<'a, R> {
    fn answer(
        &self,
        alloc: Global,
        file: &str,
        base: &Value,
        case: &Value,
    ) -> anyhow::Result<Value> {
        if let Some(file) = file.strip_prefix("value_") {
            return es_value_cases::answer(self.rt, alloc, file, case);
        }
        if let Some(file) = file.strip_prefix("system_") {
            return es_system_cases::answer(alloc, file, base, case);
        }
        match file.strip_prefix("run_") {
            Some(file) => es_run_cases::answer(alloc, file, base, case),
            None => Err(anyhow::anyhow!("no kind of cases")),
        }
    }
}

fn main(rt: HostRuntime) -> anyhow::Result<()> {
    es_suite::run(&rt, &Cases { rt: &rt })
}
