//! Cases of the fold: what begins with an event and goes on by others.

ghost use Rattle.std.specs.Prelude.{◌≡◌, true};
ghost use Rattle.es_expr.specs.Checked.{IsCheckedSystem};
ghost use Rattle.es_domain.specs.Steps.{FitsItsTopic, HasItsFields};

use crate::values::record;
use crate::{documents, mapping};
use es_domain::{Aggregate, ApplyFault};
use es_model::{DomainEvent, Duplicate, System, are_of_kinds};
use es_suite::given;
use es_suite::told::{Items, Members};
use serde_json::Value;
use std::alloc::Global;

// Whether an event has the fields of its topic.
fn fits_its_topic(sys: &System, event: &DomainEvent) -> bool
    ensures { result ≡ true → FitsItsTopic sys.now event.now }
{
    match sys.event(event.topic.as_str()) {
        Some((_, class)) => are_of_kinds(&event.fields, &class.fields),
        None => true,
    }
}

// Whether an aggregate has the fields of its class.
fn has_its_fields(sys: &System, aggregate: &Aggregate) -> bool
    ensures { result ≡ true → HasItsFields sys.now aggregate.now }
{
    match sys.class(aggregate.class.as_str()) {
        Some(class) => are_of_kinds(&aggregate.fields, &class.fields),
        None => false,
    }
}

// An aggregate with the tree of its fields.
fn with_fields(alloc: Global, aggregate: &Aggregate, fields: Value) -> anyhow::Result<Value> {
    let mut told = Members::new(alloc);
    told.put("fields", fields);
    told.put_id("id", aggregate.id);
    told.put("version", aggregate.version);
    told.put("class", aggregate.class.as_str());
    told.put("created_on", aggregate.created_on.micros());
    told.put("modified_on", aggregate.modified_on.micros());
    told.put("pending", aggregate.pending.len() as u64);
    told.end()
}

// An aggregate as its events have made it, by a copy.
fn told_of(alloc: Global, aggregate: &Aggregate) -> anyhow::Result<Value> {
    let copy = aggregate.copy()?;
    let fields = record(alloc, &copy.fields)?;
    with_fields(alloc, &copy, fields)
}

// Why an event can't be applied.
fn faulty(alloc: Global, fault: ApplyFault) -> anyhow::Result<Value> {
    let mut told = Members::new(alloc);
    match fault {
        ApplyFault::Topic => told.put("fault", "topic"),
        ApplyFault::OriginatorId => told.put("fault", "originator_id"),
        ApplyFault::OriginatorVersion { expected, given } => {
            told.put("expected", expected);
            told.put("given", given);
        }
        ApplyFault::Overflow => told.put("fault", "overflow"),
        ApplyFault::NoMemory => told.put("fault", "out of memory"),
    }
    told.end()
}

// How an aggregate goes on by an event.
fn applied(
    alloc: Global,
    sys: &System,
    aggregate: &mut Aggregate,
    event: &DomainEvent,
) -> anyhow::Result<Value>
    requires { IsCheckedSystem sys.now }
{
    if !fits_its_topic(sys, event) || !has_its_fields(sys, aggregate) || aggregate.version > 99 {
        return Err(anyhow::anyhow!("no event of the aggregate"));
    }
    match aggregate.apply(sys, event) {
        Ok(()) => told_of(alloc, aggregate),
        Err(fault) => faulty(alloc, fault),
    }
}

// How an aggregate goes on by a copy of an event.
fn applied_copy(
    alloc: Global,
    sys: &System,
    aggregate: &mut Aggregate,
    event: &DomainEvent,
) -> anyhow::Result<Value>
    requires { IsCheckedSystem sys.now }
{
    let copy = event.copy()?;
    applied(alloc, sys, aggregate, &copy)
}

// How an aggregate goes on by the event of a tree.
fn goes_on(
    alloc: Global,
    sys: &System,
    aggregate: &mut Aggregate,
    tree: &Value,
) -> anyhow::Result<Value>
    requires { IsCheckedSystem sys.now }
{
    let event = mapping::event(alloc, tree)?;
    applied_copy(alloc, sys, aggregate, &event)
}

// What each later event makes of an aggregate.
fn folded(
    alloc: Global,
    sys: &System,
    aggregate: &mut Aggregate,
    later: &[Value],
) -> anyhow::Result<Value>
    requires { IsCheckedSystem sys.now }
{
    let mut answers = Items::new(alloc);
    answers.put(told_of(alloc, aggregate)?);
    for tree in later {
        answers.put(goes_on(alloc, sys, aggregate, tree)?);
    }
    answers.end()
}

// What begins with the first event, and goes on by the later ones.
fn begun(alloc: Global, sys: &System, first: &Value, later: &[Value]) -> anyhow::Result<Value>
    requires { IsCheckedSystem sys.now }
{
    let first = mapping::event(alloc, first)?;
    if !fits_its_topic(sys, &first) {
        return Err(anyhow::anyhow!("no declared event"));
    }
    match Aggregate::begin(alloc, sys, &first) {
        Ok(mut aggregate) => folded(alloc, sys, &mut aggregate, later),
        Err(fault) => faulty(alloc, fault),
    }
}

/// The answer of a case.
pub(crate) fn answer(alloc: Global, base: &Value, case: &Value) -> anyhow::Result<Value> {
    let sys = documents::system(alloc, base)?;
    match given::items(case, "fold")?.split_first() {
        Some((first, later)) => begun(alloc, &sys, first, later),
        None => Err(anyhow::anyhow!("no event")),
    }
}
