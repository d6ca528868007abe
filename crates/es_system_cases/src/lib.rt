//! The cases of systems: of expressions and their values, of declarations, of what is stored and folded
//! under one, of lines, and of the texts that answer them.
#![tactic(auto)]

mod documents;
mod expressions;
mod folds;
mod lines;
mod mapping;
mod texts;
mod values;

use serde_json::Value;
use std::alloc::Global;

/// The answer of a case, by its file and the document that stands before it, which is null where none does.
pub fn answer(alloc: Global, file: &str, base: &Value, case: &Value) -> anyhow::Result<Value> {
    match file {
        "declarations.jsonl" | "large.jsonl" => documents::answer(alloc, base, case),
        "expressions.jsonl" => expressions::answer(alloc, case),
        "folds.jsonl" => folds::answer(alloc, base, case),
        "lines.jsonl" | "questions.jsonl" => lines::answer(alloc, base, case),
        "mapping.jsonl" => mapping::answer(alloc, base, case),
        "replies.jsonl" | "texts.jsonl" => texts::answer(alloc, case),
        "values.jsonl" => values::answer(alloc, case),
        _ => Err(anyhow::anyhow!("no kind of cases")),
    }
}
