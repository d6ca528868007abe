//! The run over files of cases.

use crate::given;
use serde_json::Value;
use std::alloc::Global;
use std::rt::{Env, Files};
use std::{env, fs};

/// What answers the cases of files.
pub trait Suite {
    /// The answer of a case, by its file and the document that stands before it, which is null where none does.
    fn answer(
        &self,
        alloc: Global,
        file: &str,
        base: &Value,
        case: &Value,
    ) -> anyhow::Result<Value>;
}

// How many cases there were, and how many had a wrong answer.
#[derive(Drop)]
struct Tally {
    cases: u64,
    wrong: u64,
}

// Both answers, where they differ.
fn differing(alloc: Global, answer: &Value, wanted: &Value) -> anyhow::Result<Option<String>> {
    if answer == wanted {
        Ok(None)
    } else {
        Ok(Some(format!(in alloc; "{answer}, and not {wanted}")?))
    }
}

// What is wrong with the answer of a case, if something is.
fn wrong<S: Suite>(
    suite: &S,
    alloc: Global,
    file: &str,
    base: &Value,
    case: &Value,
) -> anyhow::Result<Option<String>> {
    let wanted = given::member(case, "wanted")?;
    let answer = suite.answer(alloc, file, base, case)?;
    differing(alloc, &answer, wanted)
}

// What is wrong with the tree of a line, if something is. One with a base sets it, and is no case.
fn run_tree<S: Suite>(
    suite: &S,
    alloc: Global,
    file: &str,
    base: &mut Value,
    case: &Value,
    tally: &mut Tally,
) -> anyhow::Result<Option<String>> {
    if case.get("from").is_some() {
        return Ok(None);
    }
    if let Some(document) = case.get("base") {
        *base = document.clone()?;
        return Ok(None);
    }
    tally.cases = tally.cases.saturating_add(1);
    wrong(suite, alloc, file, base, case)
}

// What is wrong with a line of a file, if something is.
fn run_line<S: Suite>(
    suite: &S,
    alloc: Global,
    file: &str,
    base: &mut Value,
    line: &str,
    tally: &mut Tally,
) -> anyhow::Result<Option<String>> {
    let case = Value::from_str(alloc, line)?;
    run_tree(suite, alloc, file, base, &case, tally)
}

// Whether the first line of a file says where its wanted answers come from.
fn has_source(alloc: Global, text: &str) -> anyhow::Result<bool> {
    let first = Value::from_str(alloc, text.lines().next().unwrap_or(""))?;
    Ok(first.get("from").and_then(Value::as_str).is_some())
}

// Prints what is wrong with a line, and tells whether something is.
fn is_wrong(
    rt: &impl Print,
    file: &str,
    place: u64,
    found: anyhow::Result<Option<String>>,
) -> anyhow::Result<bool> {
    match found {
        Ok(None) => return Ok(false),
        Ok(Some(text)) => println!(rt; "{file}:{place}: {text}")?,
        Err(error) => println!(rt; "{file}:{place}: {error:#}")?,
    }
    Ok(true)
}

// Runs the cases of the lines of a file, and prints what is wrong.
fn run_lines<S: Suite>(
    rt: &(impl Print + AllocGlobal),
    suite: &S,
    file: &str,
    text: &str,
) -> anyhow::Result<Tally> {
    let alloc = rt.alloc();
    let mut base = Value::Null;
    let mut tally = Tally { cases: 0, wrong: 0 };
    for (place, line) in (1u64..).zip(text.lines()) {
        let found = run_line(suite, alloc, file, &mut base, line, &mut tally);
        if is_wrong(rt, file, place, found)? {
            tally.wrong = tally.wrong.saturating_add(1);
        }
    }
    Ok(tally)
}

// Runs the cases of a file's text.
fn run_text<S: Suite>(
    rt: &(impl Print + AllocGlobal),
    suite: &S,
    file: &str,
    text: &str,
) -> anyhow::Result<()> {
    if !has_source(rt.alloc(), text)? {
        println!(rt; "{file}: the first line doesn't say where the wanted answers come from")?;
    }
    let tally = run_lines(rt, suite, file, text)?;
    println!(rt; "{file}: {} cases, {} wrong", tally.cases, tally.wrong)?;
    Ok(())
}

// Runs the cases of a file.
fn run_file<S: Suite>(
    rt: &(impl Files + Print + AllocGlobal),
    suite: &S,
    file: &str,
) -> anyhow::Result<()> {
    let text = fs::read_to_string(rt, file)?;
    run_text(rt, suite, file, text.as_str())
}

/// Runs the cases of the files that the words name, one JSON object a line, and prints each whose answer isn't
/// the wanted one, and how many there were in each file. A file's first line says by `from` where its wanted answers
/// come from, and a line with `base` gives the document that later cases are about.
pub fn run<S: Suite>(
    rt: &(impl Env + Files + Print + AllocGlobal),
    suite: &S,
) -> anyhow::Result<()> {
    for file in env::args(rt)?.skip(1) {
        run_file(rt, suite, file.as_str())?;
    }
    Ok(())
}
