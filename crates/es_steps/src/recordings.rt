//! Recordings of a case, and recordings as they are told, in one form: the moment `at`, an object with a
//! `command` or with a `leader` and an `id`, and each event as the number of its originator, its
//! version, its topic and its state.

ghost use Rattle.std.specs.Prelude.{IsTrue};
ghost use Rattle.es_recorder.specs.Insert.{IsInsertable};

use anyhow::Context;
use es_model::limits::NUMBERS_END;
use es_model::{Bytes, Cause, Moment, Recording, Recordings, StoredEvent, StoredEvents, Text};
use es_suite::given;
use es_suite::told::{Items, Members};
use serde_json::Value;
use std::alloc::Global;
use uuid::Uuid;

/// The id of an originator with this number.
pub fn originator(number: u64) -> Uuid {
    Uuid::from_u128(u128::from(number))
}

/// The number at a place of a list.
pub fn number_at(row: &Value, place: usize) -> anyhow::Result<u64> {
    let number = row.get(place).and_then(Value::as_u64);
    number.context("no number at a place")
}

// The state of an event, which is empty where none is given.
fn state(alloc: Global, row: &Value) -> anyhow::Result<Bytes> {
    match row.get(3) {
        Some(state) => given::bytes(alloc, state),
        None => Ok(Bytes::new(alloc)),
    }
}

/// An event. Without a topic it is that of an opened account, and its state is empty.
pub fn event(alloc: Global, row: &Value) -> anyhow::Result<StoredEvent> {
    let number = number_at(row, 0)?;
    let originator_version = number_at(row, 1)?;
    let topic = row.get(2).and_then(Value::as_str);
    let topic = Text::from_str(alloc, topic.unwrap_or("Account.Opened"))?;
    let state = state(alloc, row)?;
    Ok(StoredEvent {
        originator_id: originator(number),
        originator_version,
        topic,
        state,
    })
}

// The text of a command.
fn command(alloc: Global, tree: &Value) -> anyhow::Result<Cause> {
    let text = tree.get("command").and_then(Value::as_str).unwrap_or("");
    let text = Bytes::from_slice(alloc, text.as_bytes())?;
    Ok(Cause::Command { text })
}

// A notification where a leader is named, else a command.
fn cause(alloc: Global, tree: &Value) -> anyhow::Result<Cause> {
    if tree.get("leader").is_none() {
        return command(alloc, tree);
    }
    let id = given::number(tree, "id")?;
    let leader = given::owned(alloc, tree, "leader")?;
    Ok(Cause::Notification { leader, id })
}

fn events(alloc: Global, rows: &[Value]) -> anyhow::Result<StoredEvents> {
    let mut events = StoredEvents::new(alloc);
    for row in rows {
        events.push(event(alloc, row)?)?;
    }
    Ok(events)
}

/// A recording. Without a moment it is at 0.
pub fn recording(alloc: Global, tree: &Value) -> anyhow::Result<Recording> {
    let at = Moment::nearest(tree.get("at").and_then(Value::as_i64).unwrap_or(0));
    let cause = cause(alloc, tree)?;
    let events = events(alloc, given::items_if_any(tree, "events"))?;
    Ok(Recording { cause, at, events })
}

/// Recordings in the order of a list.
pub fn history(alloc: Global, rows: &[Value]) -> anyhow::Result<Recordings> {
    let mut history = Recordings::new(alloc);
    for row in rows {
        history.push(recording(alloc, row)?)?;
    }
    Ok(history)
}

/// Whether a recording may be handed to `insert`.
pub fn is_insertable(recording: &Recording) -> bool
    ensures { IsTrue result → IsInsertable recording.now }
{
    let is_small = match &recording.cause {
        Cause::Command { text: _ } => true,
        Cause::Notification { leader: _, id } => *id < NUMBERS_END,
    };
    is_small
        && recording
            .events
            .as_slice()
            .iter()
            .all(|e| e.originator_version < 1 << 63)
}

// The last eight bytes of an id, as a number.
fn number_of(id: Uuid) -> u64 {
    (id.as_u128() & u128::from(u64::MAX)) as u64
}

// Tells a state as the text that it is, or as its hexadecimal digits.
fn put_state(alloc: Global, told: &mut Items, state: &[u8]) {
    if str::from_utf8(state).is_err()
        && let Ok(digits) = hex::encode(alloc, state)
    {
        let mut hex = Members::new(alloc);
        hex.put("hex", digits.as_str());
        told.put_members(hex);
    } else {
        told.put_bytes(state);
    }
}

fn event_told(alloc: Global, event: &StoredEvent) -> Items {
    let mut told = Items::new(alloc);
    told.put(number_of(event.originator_id));
    told.put(event.originator_version);
    told.put(event.topic.as_str());
    put_state(alloc, &mut told, event.state.as_slice());
    told
}

/// Events as they are told.
pub fn events_told(alloc: Global, events: &[StoredEvent]) -> Items {
    let mut told = Items::new(alloc);
    for event in events {
        told.put_items(event_told(alloc, event));
    }
    told
}

fn recording_told(alloc: Global, recording: &Recording) -> Members {
    let mut told = Members::new(alloc);
    told.put("at", recording.at.micros());
    told.put_items("events", events_told(alloc, recording.events.as_slice()));
    match &recording.cause {
        Cause::Command { text } => told.put_bytes("command", text.as_slice()),
        Cause::Notification { leader, id } => {
            told.put("id", *id);
            told.put("leader", leader.as_str());
        }
    }
    told
}

/// A history as it is told.
pub fn history_told(alloc: Global, history: &[Recording]) -> Items {
    let mut told = Items::new(alloc);
    for recording in history {
        told.put_members(recording_told(alloc, recording));
    }
    told
}
