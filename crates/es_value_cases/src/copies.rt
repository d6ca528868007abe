//! Cases of what is recorded: a copy of a recording, of a notification, and of snapshots as they were put,
//! each told as the list of its parts.

ghost use Rattle.std.specs.Prelude.{◌≡◌, true};
ghost use Rattle.es_model.specs.Snapshots.{IsSmallSnapshot};

use es_model::{
    Cause, Duplicate, Notification, Recording, Snapshot, Snapshots, StoredEvent, StoredEvents,
};
use es_suite::given;
use es_suite::told::Items;
use serde_json::Value;
use std::alloc::Global;

// Tells a stored event.
fn put_event(told: &mut Items, event: &StoredEvent) {
    told.put_id(event.originator_id);
    told.put(event.originator_version);
    told.put(event.topic.as_str());
    told.put_bytes(event.state.as_slice());
}

// A command by its text, or a notification by its leader and its id.
fn cause(alloc: Global, tree: &Value) -> anyhow::Result<Cause> {
    if let Some(id) = tree.get("id").and_then(Value::as_u64) {
        let leader = given::owned(alloc, tree, "leader")?;
        Ok(Cause::Notification { leader, id })
    } else {
        let text = given::bytes(alloc, given::member(tree, "command")?)?;
        Ok(Cause::Command { text })
    }
}

// Tells what caused a recording.
fn put_cause(told: &mut Items, cause: &Cause) {
    match cause {
        Cause::Command { text } => told.put_bytes(text.as_slice()),
        Cause::Notification { leader, id } => {
            told.put(leader.as_str());
            told.put(*id);
        }
    }
}

fn events(alloc: Global, trees: &[Value]) -> anyhow::Result<StoredEvents> {
    let mut events = StoredEvents::new(alloc);
    for tree in trees {
        events.push(given::stored(alloc, tree)?)?;
    }
    Ok(events)
}

// The moment, the cause and the events of a recording.
fn recording_told(alloc: Global, recording: &Recording) -> anyhow::Result<Value> {
    let at = recording.at.copy()?;
    let mut told = Items::new(alloc);
    told.put(at.micros());
    put_cause(&mut told, &recording.cause);
    for event in recording.events.as_slice() {
        put_event(&mut told, event);
    }
    told.end()
}

// The same of its copy.
fn recording_copied(alloc: Global, recording: &Recording) -> anyhow::Result<Value> {
    let copy = recording.copy()?;
    recording_told(alloc, &copy)
}

fn recording(alloc: Global, tree: &Value) -> anyhow::Result<Value> {
    let at = given::moment(tree, "at")?;
    let trees = given::items(tree, "events")?;
    let cause = cause(alloc, given::member(tree, "cause")?)?;
    let events = events(alloc, trees)?;
    recording_copied(alloc, &Recording { cause, at, events })
}

// The id and the event of the copy of a notification.
fn notification_copied(alloc: Global, notification: &Notification) -> anyhow::Result<Value> {
    let copy = notification.copy()?;
    let mut told = Items::new(alloc);
    told.put(copy.id);
    put_event(&mut told, &copy.event);
    told.end()
}

fn notification(alloc: Global, tree: &Value) -> anyhow::Result<Value> {
    let id = given::number(tree, "number")?;
    let event = given::stored(alloc, given::member(tree, "event")?)?;
    notification_copied(alloc, &Notification { id, event })
}

fn snapshot(alloc: Global, tree: &Value) -> anyhow::Result<Snapshot> {
    let originator_id = given::id(tree, "id")?;
    let originator_version = given::number(tree, "version")?;
    let class_version = given::number(tree, "class_version")?;
    let created_on = given::moment(tree, "created_on")?;
    let modified_on = given::moment(tree, "modified_on")?;
    let state = given::member(tree, "state")?;
    let topic = given::owned(alloc, tree, "topic")?;
    let state = given::bytes(alloc, state)?;
    Ok(Snapshot {
        originator_id,
        originator_version,
        topic,
        class_version,
        created_on,
        modified_on,
        state,
    })
}

// Tells a snapshot.
fn put_snapshot(told: &mut Items, snapshot: &Snapshot) {
    told.put_id(snapshot.originator_id);
    told.put(snapshot.originator_version);
    told.put(snapshot.topic.as_str());
    told.put(snapshot.class_version);
    told.put(snapshot.created_on.micros());
    told.put(snapshot.modified_on.micros());
    told.put_bytes(snapshot.state.as_slice());
}

// Whether the numbers of a snapshot are such as a store has.
fn is_small(snapshot: &Snapshot) -> bool
    ensures { result ≡ true → IsSmallSnapshot snapshot.now }
{
    snapshot.originator_version < 1 << 62 && snapshot.class_version < 1 << 62
}

// Puts a snapshot.
fn put(alloc: Global, snapshots: &mut Snapshots, tree: &Value) -> anyhow::Result<()> {
    let snapshot = snapshot(alloc, tree)?;
    if is_small(&snapshot) {
        Ok(snapshots.put(snapshot)?)
    } else {
        Err(anyhow::anyhow!("too great a number"))
    }
}

// A copy of the snapshots that are there after some were put.
fn snapshots(alloc: Global, trees: &[Value]) -> anyhow::Result<Snapshots> {
    let mut snapshots = Snapshots::new(alloc);
    for tree in trees {
        put(alloc, &mut snapshots, tree)?;
    }
    Ok(snapshots.copy()?)
}

// Tells snapshots one after the other.
fn told_of(alloc: Global, snapshots: &Snapshots) -> anyhow::Result<Value> {
    let mut told = Items::new(alloc);
    for snapshot in snapshots.as_slice() {
        put_snapshot(&mut told, snapshot);
    }
    told.end()
}

/// The answer of a case.
pub(crate) fn answer(alloc: Global, case: &Value) -> anyhow::Result<Value> {
    if let Some(tree) = case.get("recording") {
        recording(alloc, tree)
    } else if let Some(tree) = case.get("notification") {
        notification(alloc, tree)
    } else {
        told_of(alloc, &snapshots(alloc, given::items(case, "snapshots")?)?)
    }
}
