//! What a recorder answers to one step of a case. An originator is told by its last byte.

ghost use Rattle.std.specs.Prelude.{◌<◌, ◌^◌, IsTrue};
ghost use Rattle.es_model.specs.Snapshots.{IsSmallSnapshot};

use crate::recordings::{is_insertable, number_at, originator, recording};
use anyhow::Context;
use es_model::limits::NUMBERS_END;
use es_model::{Bytes, CallFault, Moment, Notification, Snapshot, StoredEvent, Text};
use es_recorder::{AggregateRecorder, ApplicationRecorder, InsertFault, Inserted, ProcessRecorder};
use es_suite::given;
use es_suite::told::{self, Items};
use serde_json::Value;
use std::alloc::Global;
use uuid::Uuid;

// A number as it is told.
fn number(alloc: Global, answer: Result<u64, CallFault>) -> anyhow::Result<Value> {
    match answer {
        Ok(number) => Ok(Value::from(number)),
        Err(fault) => told::failed(alloc, &fault),
    }
}

// A number that may not be there.
fn number_if_any(alloc: Global, answer: Result<Option<u64>, CallFault>) -> anyhow::Result<Value> {
    match answer {
        Ok(Some(number)) => Ok(Value::from(number)),
        Ok(None) => Ok(Value::Null),
        Err(fault) => told::failed(alloc, &fault),
    }
}

// An originator's last byte.
fn byte_of(id: &Uuid) -> u64 {
    u64::from(id.as_bytes()[15])
}

// Why a leader's notification isn't the next one.
fn tracking(alloc: Global, leader: &Text, id: u64, tracked: u64) -> anyhow::Result<Value> {
    let mut told = Items::new(alloc);
    told.put(leader.as_str());
    told.put(id);
    told.put(tracked);
    told::lone(alloc, "tracking", told)
}

// Some numbers with what they are of.
fn numbers(alloc: Global, name: &str, numbers: &[u64]) -> anyhow::Result<Value> {
    told::lone(alloc, name, told::numbers(alloc, numbers))
}

// Why a recording wasn't added.
fn refusal(alloc: Global, fault: &InsertFault) -> anyhow::Result<Value> {
    match fault {
        InsertFault::Conflict {
            id,
            version,
            latest,
        } => numbers(alloc, "conflict", &[byte_of(id), *version, *latest]),
        InsertFault::Tracking {
            leader,
            id,
            tracked,
        } => tracking(alloc, leader, *id, *tracked),
        InsertFault::Full { last, capacity } => numbers(alloc, "full", &[*last, *capacity]),
        InsertFault::Failed => told::text(alloc, "failed"),
        InsertFault::NoMemory => told::no_memory(),
    }
}

// What `insert` answers.
fn added(alloc: Global, answer: &Result<Inserted, InsertFault>) -> anyhow::Result<Value> {
    match answer {
        Ok(added) => numbers(alloc, "added", &[added.recording, added.first, added.last]),
        Err(fault) => refusal(alloc, fault),
    }
}

fn insert<R: ProcessRecorder>(
    alloc: Global,
    recorder: &mut R,
    tree: &Value,
) -> anyhow::Result<Value> {
    let new = recording(alloc, tree)?;
    if is_insertable(&new) {
        added(alloc, &recorder.insert(&new))
    } else {
        Err(anyhow::anyhow!("too great a number"))
    }
}

// Events by their originators and versions.
fn events_told(alloc: Global, events: &[StoredEvent]) -> anyhow::Result<Value> {
    let mut rows = Items::new(alloc);
    for event in events {
        let numbers = [byte_of(&event.originator_id), event.originator_version];
        rows.put_items(told::numbers(alloc, &numbers));
    }
    rows.end()
}

// Events of an originator, by their versions.
fn events<R: AggregateRecorder>(
    alloc: Global,
    recorder: &mut R,
    step: &Value,
    id: u64,
) -> anyhow::Result<Value> {
    let gt = step.get("gt").and_then(Value::as_u64);
    let lte = step.get("lte").and_then(Value::as_u64);
    let desc = step.get("desc").and_then(Value::as_bool).unwrap_or(false);
    let limit = step.get("limit").and_then(Value::as_u64);
    match recorder.select_events(originator(id), gt, lte, desc, limit) {
        Ok(events) => events_told(alloc, events.as_slice()),
        Err(fault) => told::failed(alloc, &fault),
    }
}

// Notifications by their ids and the originators and versions of their events.
fn notifications_told(alloc: Global, found: &[Notification]) -> anyhow::Result<Value> {
    let mut rows = Items::new(alloc);
    for found in found {
        let event = &found.event;
        let numbers = [
            found.id,
            byte_of(&event.originator_id),
            event.originator_version,
        ];
        rows.put_items(told::numbers(alloc, &numbers));
    }
    rows.end()
}

// The notifications from a number on, so many at most.
fn notifications<R: ApplicationRecorder>(
    alloc: Global,
    recorder: &mut R,
    asked: &Value,
) -> anyhow::Result<Value> {
    let start = number_at(asked, 0)?;
    let limit = number_at(asked, 1)?;
    match recorder.select_notifications(start, limit) {
        Ok(found) => notifications_told(alloc, found.as_slice()),
        Err(fault) => told::failed(alloc, &fault),
    }
}

// The notification id of an originator's version, or null.
fn place<R: ApplicationRecorder>(
    alloc: Global,
    recorder: &mut R,
    asked: &Value,
) -> anyhow::Result<Value> {
    let id = number_at(asked, 0)?;
    let version = number_at(asked, 1)?;
    number_if_any(alloc, recorder.notification_of(originator(id), version))
}

// Whether a leader's notification is among the causes.
fn tracks<R: ProcessRecorder>(
    alloc: Global,
    recorder: &mut R,
    step: &Value,
    id: u64,
) -> anyhow::Result<Value> {
    let leader = given::owned(alloc, step, "leader")?;
    match recorder.has_tracking_id(&leader, id) {
        Ok(found) => Ok(Value::from(found)),
        Err(fault) => told::failed(alloc, &fault),
    }
}

// The greatest id of a leader that is tracked.
fn tracked<R: ProcessRecorder>(
    alloc: Global,
    recorder: &mut R,
    step: &Value,
) -> anyhow::Result<Value> {
    let leader = given::owned(alloc, step, "tracked")?;
    number(alloc, recorder.max_tracking_id(&leader))
}

// A snapshot, given as the number of its originator, its version and its state.
fn snapshot(alloc: Global, row: &Value) -> anyhow::Result<Snapshot> {
    let id = number_at(row, 0)?;
    let originator_version = number_at(row, 1)?;
    let state = row.get(2).and_then(Value::as_str).context("no state")?;
    let topic = Text::from_str(alloc, "Account")?;
    let state = Bytes::from_slice(alloc, state.as_bytes())?;
    Ok(Snapshot {
        originator_id: originator(id),
        originator_version,
        topic,
        class_version: 1,
        created_on: Moment::nearest(0),
        modified_on: Moment::nearest(1),
        state,
    })
}

// Whether a snapshot may be handed to `insert_snapshot`.
fn is_small(snapshot: &Snapshot) -> bool
    ensures { IsTrue result → IsSmallSnapshot snapshot.now }
{
    snapshot.originator_version < NUMBERS_END && snapshot.class_version < NUMBERS_END
}

// Puts a snapshot.
fn put<R: AggregateRecorder>(
    alloc: Global,
    recorder: &mut R,
    new: &Snapshot,
) -> anyhow::Result<Value> {
    if !is_small(new) {
        return Err(anyhow::anyhow!("too great a number"));
    }
    match recorder.insert_snapshot(new) {
        Ok(()) => told::text(alloc, "put"),
        Err(fault) => told::failed(alloc, &fault),
    }
}

// The state of a snapshot, or null.
fn state_of(alloc: Global, found: &Result<Option<Snapshot>, CallFault>) -> anyhow::Result<Value> {
    match found {
        Ok(Some(snapshot)) => told::bytes(alloc, snapshot.state.as_slice()),
        Ok(None) => Ok(Value::Null),
        Err(fault) => told::failed(alloc, fault),
    }
}

// What is asked of one aggregate.
fn of_aggregate<R: ProcessRecorder>(
    alloc: Global,
    recorder: &mut R,
    step: &Value,
) -> anyhow::Result<Value> {
    if let Some(id) = step.get("events").and_then(Value::as_u64) {
        events(alloc, recorder, step, id)
    } else if let Some(id) = step.get("latest").and_then(Value::as_u64) {
        number(alloc, recorder.latest_version(originator(id)))
    } else if let Some(row) = step.get("snapshot") {
        put(alloc, recorder, &snapshot(alloc, row)?)
    } else if let Some(id) = step.get("newest").and_then(Value::as_u64) {
        let lte = step.get("lte").and_then(Value::as_u64);
        state_of(alloc, &recorder.select_snapshot(originator(id), lte))
    } else {
        let number = given::number(step, "snapshot_at")?;
        state_of(alloc, &recorder.snapshot_at(number))
    }
}

/// The answer to a step.
pub fn answer<R: ProcessRecorder>(
    alloc: Global,
    recorder: &mut R,
    step: &Value,
) -> anyhow::Result<Value> {
    if let Some(tree) = step.get("insert") {
        insert(alloc, recorder, tree)
    } else if step.get("recordings").is_some() {
        number(alloc, recorder.recordings())
    } else if step.get("last").is_some() {
        number(alloc, recorder.max_notification_id())
    } else if step.get("tracked").is_some() {
        tracked(alloc, recorder, step)
    } else if let Some(id) = step.get("tracks").and_then(Value::as_u64) {
        tracks(alloc, recorder, step, id)
    } else if let Some(asked) = step.get("notifications") {
        notifications(alloc, recorder, asked)
    } else if let Some(asked) = step.get("place") {
        place(alloc, recorder, asked)
    } else {
        of_aggregate(alloc, recorder, step)
    }
}

/// The answers to some steps, in order.
pub fn answers<R: ProcessRecorder>(
    alloc: Global,
    recorder: &mut R,
    steps: &[Value],
    answers: &mut Items,
) -> anyhow::Result<()> {
    for step in steps {
        answers.put(answer(alloc, recorder, step)?);
    }
    Ok(())
}
