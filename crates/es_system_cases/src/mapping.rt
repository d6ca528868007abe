//! Cases of stored events: what is stored of a domain event and read back, what a stored one stands for,
//! and the edits of an upcast.

use crate::documents::system;
use crate::values::record;
use anyhow::Context;
use es_mapper::{MapFault, to_domain, to_stored, upcast};
use es_model::{DomainEvent, Edit, Fields, StoredEvent, System};
use es_suite::given;
use es_suite::told::{self, Members};
use serde_json::Value;
use std::alloc::Global;

/// A domain event.
pub(crate) fn event(alloc: Global, tree: &Value) -> anyhow::Result<DomainEvent> {
    let originator_id = given::id(tree, "id")?;
    let originator_version = given::number(tree, "version")?;
    let timestamp = given::moment(tree, "at")?;
    let topic = given::owned(alloc, tree, "topic")?;
    let fields = given::fields(alloc, tree, "fields")?;
    Ok(DomainEvent {
        originator_id,
        originator_version,
        timestamp,
        topic,
        fields,
    })
}

// A domain event as it is told.
fn told_of(alloc: Global, event: &DomainEvent) -> anyhow::Result<Value> {
    let fields = record(alloc, &event.fields)?;
    let mut told = Members::new(alloc);
    told.put("fields", fields);
    told.put_id("id", event.originator_id);
    told.put("version", event.originator_version);
    told.put("at", event.timestamp.micros());
    told.put("topic", event.topic.as_str());
    told.end()
}

// Why a stored event stands for no domain event.
fn faulty(alloc: Global, fault: MapFault) -> anyhow::Result<Value> {
    let mut told = Members::new(alloc);
    match fault {
        MapFault::Topic => told.put("fault", "Topic"),
        MapFault::Decode(fault) => told.put("fault", told::of_record(fault)),
        MapFault::Newer { stored, declared } => {
            told.put("stored", stored);
            told.put("declared", declared);
        }
        MapFault::Fields => told.put("fault", "Fields"),
        MapFault::NoMemory => told.put("fault", "out of memory"),
    }
    told.end()
}

// The domain event that a stored one stands for.
fn mapped(alloc: Global, sys: &System, stored: &StoredEvent) -> anyhow::Result<Value> {
    match to_domain(alloc, sys, stored) {
        Ok(event) => told_of(alloc, &event),
        Err(fault) => faulty(alloc, fault),
    }
}

// A stored event, with what is read back from it.
fn both(alloc: Global, back: Value, stored: &StoredEvent) -> anyhow::Result<Value> {
    let mut told = Members::new(alloc);
    told.put("back", back);
    told.put_bytes("state", stored.state.as_slice());
    told.put("topic", stored.topic.as_str());
    told.put("version", stored.originator_version);
    told.end()
}

// The state that is stored of an event, and what is read back from it.
fn kept(alloc: Global, sys: &System, event: &DomainEvent) -> anyhow::Result<Value> {
    let stored = to_stored(alloc, sys, event)?;
    let back = mapped(alloc, sys, &stored)?;
    both(alloc, back, &stored)
}

// Fields after some edits.
fn after(alloc: Global, edits: &[Edit], fields: &mut Fields) -> anyhow::Result<Value> {
    upcast(edits, fields)?;
    record(alloc, fields)
}

// The fields after the edits of the first upcast of the first class's Created event.
fn edited(alloc: Global, sys: &System, case: &Value) -> anyhow::Result<Value> {
    let class = sys.classes.as_slice().first().context("no class")?;
    let upcasts = class.created.upcasts.as_slice();
    let edits = upcasts.first().context("no upcast")?;
    let mut fields = given::fields(alloc, case, "edited")?;
    after(alloc, edits.as_slice(), &mut fields)
}

// What is kept of an event that is given.
fn of_event(alloc: Global, sys: &System, tree: &Value) -> anyhow::Result<Value> {
    let event = event(alloc, tree)?;
    kept(alloc, sys, &event)
}

// What a stored event that is given stands for.
fn of_stored(alloc: Global, sys: &System, tree: &Value) -> anyhow::Result<Value> {
    let stored = given::stored(alloc, tree)?;
    mapped(alloc, sys, &stored)
}

// The answer under a system.
fn under(alloc: Global, sys: &System, case: &Value) -> anyhow::Result<Value> {
    if let Some(tree) = case.get("event") {
        of_event(alloc, sys, tree)
    } else if let Some(tree) = case.get("stored") {
        of_stored(alloc, sys, tree)
    } else {
        edited(alloc, sys, case)
    }
}

/// The answer of a case.
pub(crate) fn answer(alloc: Global, base: &Value, case: &Value) -> anyhow::Result<Value> {
    let sys = system(alloc, base)?;
    under(alloc, &sys, case)
}
