//! Cases of names: which forms a text has, its halves, the topic of an event, and the words of operators.

use es_model::names::{
    NameForm, halves, halves_at_first, has_name_length, is_name, is_spelled, topic_of,
};
use es_model::operators::Operator;
use es_suite::given;
use es_suite::told::{self, Members};
use serde_json::Value;
use std::alloc::Global;

// Which forms a text has as a name and by its letters alone, and whether it has the length of one.
fn forms(alloc: Global, name: &str) -> anyhow::Result<Value> {
    let mut told = Members::new(alloc);
    told.put("plain", is_name(NameForm::Plain, name));
    told.put("field", is_name(NameForm::Field, name));
    told.put("code", is_name(NameForm::Code, name));
    told.put("class", is_name(NameForm::Class, name));
    told.put("lower", is_spelled(NameForm::Plain, name));
    told.put("upper", is_spelled(NameForm::Class, name));
    told.put("length", has_name_length(name));
    told.end()
}

// The halves of a text at its one point, where it has one, and at its first one.
fn points(alloc: Global, text: &str) -> anyhow::Result<Value> {
    let mut told = Members::new(alloc);
    if let Some((before, after)) = halves(text) {
        told.put("before", before);
        told.put("after", after);
    }
    let (first, rest) = halves_at_first(text);
    told.put("first", first);
    told.put("rest", rest);
    told.end()
}

// Over how many operands the operator of a word is, none where there is none.
fn operands(word: &str) -> Value {
    match Operator::of_word(word) {
        Some(Operator::One(_)) => Value::from(1u64),
        Some(Operator::Two(_)) => Value::from(2u64),
        Some(Operator::Choice) => Value::from(3u64),
        None => Value::Null,
    }
}

// The topic of an event of a class.
fn topic(alloc: Global, class: &str, event: &str) -> anyhow::Result<Value> {
    let topic = topic_of(alloc, class, event)?;
    told::text(alloc, topic.as_str())
}

/// The answer of a case.
pub(crate) fn answer(alloc: Global, case: &Value) -> anyhow::Result<Value> {
    if let Some(name) = case.get("name").and_then(Value::as_str) {
        forms(alloc, name)
    } else if let Some(text) = case.get("points").and_then(Value::as_str) {
        points(alloc, text)
    } else if let Some(word) = case.get("word").and_then(Value::as_str) {
        Ok(operands(word))
    } else {
        topic(
            alloc,
            given::text(case, "class")?,
            given::text(case, "event")?,
        )
    }
}
