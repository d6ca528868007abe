//! What a case gives: the members of an object as texts, numbers, ids, moments and values.

use anyhow::Context;
use es_model::{Bytes, Calls, Fields, Moment, StoredEvent, Text};
use es_transcode::{decode_tree, id_of};
use serde_json::Value;
use std::alloc::Global;
use uuid::Uuid;

/// A member that has to be there.
pub fn member<'a>(tree: &'a Value, name: &str) -> anyhow::Result<&'a Value> {
    tree.get(name).context("a member is missing")
}

pub fn text<'a>(tree: &'a Value, name: &str) -> anyhow::Result<&'a str> {
    let text = member(tree, name)?.as_str();
    text.context("no text")
}

pub fn owned(alloc: Global, tree: &Value, name: &str) -> anyhow::Result<Text> {
    Ok(Text::from_str(alloc, text(tree, name)?)?)
}

pub fn number(tree: &Value, name: &str) -> anyhow::Result<u64> {
    let number = member(tree, name)?.as_u64();
    number.context("no number")
}

/// A number that may be below 0.
pub fn integer(tree: &Value, name: &str) -> anyhow::Result<i64> {
    let number = member(tree, name)?.as_i64();
    number.context("no integer")
}

pub fn items<'a>(tree: &'a Value, name: &str) -> anyhow::Result<&'a [Value]> {
    let items = member(tree, name)?.as_array();
    Ok(items.context("no array")?.as_slice())
}

/// The items of a list, none where the member is absent.
pub fn items_if_any<'a>(tree: &'a Value, name: &str) -> &'a [Value] {
    match tree.get(name).and_then(Value::as_array) {
        Some(items) => items.as_slice(),
        None => &[],
    }
}

/// A number, or another one where the member is absent.
pub fn number_or(tree: &Value, name: &str, other: u64) -> u64 {
    tree.get(name).and_then(Value::as_u64).unwrap_or(other)
}

/// Numbers of calls, none where the member is absent.
pub fn calls(alloc: Global, tree: &Value, name: &str) -> anyhow::Result<Calls> {
    let mut calls = Calls::new(alloc);
    if tree.get(name).is_none() {
        return Ok(calls);
    }
    for item in items(tree, name)?.iter() {
        calls.push(item.as_u64().context("no number of a call")?)?;
    }
    Ok(calls)
}

/// An id in any of its spellings.
pub fn id(tree: &Value, name: &str) -> anyhow::Result<Uuid> {
    id_of(text(tree, name)?).context("no id")
}

pub fn moment(tree: &Value, name: &str) -> anyhow::Result<Moment> {
    Moment::new(integer(tree, name)?).context("no moment")
}

/// The fields of a record.
pub fn fields(alloc: Global, tree: &Value, name: &str) -> anyhow::Result<Fields> {
    Ok(decode_tree(alloc, member(tree, name)?)?)
}

// Adds a part of some bytes: a text, or one that stands so often, by itself or around its number.
fn push_part(alloc: Global, bytes: &mut Bytes, part: &Value) -> anyhow::Result<()> {
    if let Some(text) = part.as_str() {
        return Ok(bytes.extend(text.as_bytes())?);
    }
    let times = number(part, "times")?;
    let end = part.get("end").and_then(Value::as_str);
    let text = text(part, "text")?;
    for place in 0..times {
        bytes.extend(text.as_bytes())?;
        if let Some(end) = end {
            let number = format!(in alloc; "{place}{end}")?;
            bytes.extend(number.as_str().as_bytes())?;
        }
    }
    Ok(())
}

/// Bytes as a text, as parts, or as hexadecimal digits.
pub fn bytes(alloc: Global, tree: &Value) -> anyhow::Result<Bytes> {
    let mut bytes = Bytes::new(alloc);
    if let Some(text) = tree.as_str() {
        bytes.extend(text.as_bytes())?;
    } else if let Some(parts) = tree.as_array() {
        for part in parts.iter() {
            push_part(alloc, &mut bytes, part)?;
        }
    } else {
        return Ok(Bytes::from_vec(hex::decode(alloc, text(tree, "hex")?)?));
    }
    Ok(bytes)
}

/// A stored event.
pub fn stored(alloc: Global, tree: &Value) -> anyhow::Result<StoredEvent> {
    let originator_id = id(tree, "id")?;
    let originator_version = number(tree, "version")?;
    let topic = owned(alloc, tree, "topic")?;
    let state = bytes(alloc, member(tree, "state")?)?;
    Ok(StoredEvent {
        originator_id,
        originator_version,
        topic,
        state,
    })
}
