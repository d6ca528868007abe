//! Cases of the small collections: names in rising order, lists, bytes, texts, and numbers of calls
//! that fail.

use anyhow::Context;
use es_model::{Bytes, Counts, Duplicate, Faults, List};
use es_suite::given;
use es_suite::told::{self, Items, Members};
use serde_json::Value;
use std::alloc::Global;

// The answer of a step on names with numbers: the number of a name, if there is one.
fn step(alloc: Global, counts: &mut Counts, step: &Value) -> anyhow::Result<Option<u64>> {
    if let Some(number) = step.get("as").and_then(Value::as_u64) {
        counts.put(given::owned(alloc, step, "put")?, number)?;
        Ok(None)
    } else if let Some(name) = step.get("remove").and_then(Value::as_str) {
        Ok(counts.remove(name))
    } else {
        Ok(counts.get(given::text(step, "get")?).copied())
    }
}

// Tells a copy of names with their numbers.
fn put_copy(answers: &mut Items, counts: &Counts) -> anyhow::Result<()> {
    let copy = counts.copy()?;
    for (name, number) in copy.as_slice() {
        answers.put(name.as_str());
        answers.put(*number);
    }
    Ok(())
}

// The answers of steps, and the names with their numbers at the end, one after the other.
fn names(alloc: Global, steps: &[Value]) -> anyhow::Result<Value> {
    let mut counts = Counts::new(alloc);
    let mut answers = Items::new(alloc);
    for given in steps {
        answers.put(step(alloc, &mut counts, given)?);
    }
    put_copy(&mut answers, &counts)?;
    answers.end()
}

// Numbers that were pushed, copied, and taken out and in again, and how many they are.
fn list(alloc: Global, numbers: &[Value]) -> anyhow::Result<Value> {
    let mut list = List::<u64>::new(alloc);
    for number in numbers {
        list.push(number.as_u64().context("no number")?)?;
    }
    let copy = List::from_vec(list.copy()?.into_vec());
    let mut told = Items::new(alloc);
    told.put(list.len() as u64);
    for item in copy.as_slice() {
        told.put(*item);
    }
    told.end()
}

// A first byte and more, copied, and taken out and in again.
fn bytes(alloc: Global, first: u8, more: &Bytes) -> anyhow::Result<Value> {
    let mut bytes = Bytes::new(alloc);
    bytes.push(first)?;
    bytes.extend(more.as_slice())?;
    let again = Bytes::from_vec(bytes.copy()?.into_vec());
    let whole = Bytes::from_slice(alloc, again.as_slice())?;
    let digits = hex::encode(alloc, whole.as_slice())?;
    told::text(alloc, digits.as_str())
}

// The same of a byte and of bytes that are given.
fn of_bytes(alloc: Global, first: u64, more: &Value) -> anyhow::Result<Value> {
    let first = u8::try_from(first).ok().context("no byte")?;
    let more = given::bytes(alloc, more)?;
    bytes(alloc, first, &more)
}

// A text, copied.
fn of_text(alloc: Global, case: &Value) -> anyhow::Result<Value> {
    let text = given::owned(alloc, case, "text")?;
    let copy = text.copy()?;
    told::text(alloc, copy.as_str())
}

// Whether each of so many calls succeeds.
fn faults(alloc: Global, case: &Value) -> anyhow::Result<Value> {
    let count = given::number(case, "calls")?;
    let mut faults = Faults::new(given::calls(alloc, case, "failing")?);
    let mut answers = Items::new(alloc);
    for _ in 0..count {
        answers.put(faults.call().is_ok());
    }
    answers.end()
}

/// The answer of a case.
pub(crate) fn answer(alloc: Global, case: &Value) -> anyhow::Result<Value> {
    if case.get("names").is_some() {
        names(alloc, given::items(case, "names")?)
    } else if case.get("list").is_some() {
        list(alloc, given::items(case, "list")?)
    } else if let Some(first) = case.get("byte").and_then(Value::as_u64) {
        of_bytes(alloc, first, given::member(case, "more")?)
    } else if case.get("text").is_some() {
        of_text(alloc, case)
    } else {
        faults(alloc, case)
    }
}
