ghost use Rattle.std.specs.Prelude.{◌≡◌, ◌<◌, ◌^◌, IfOk, OnOk};
ghost use Rattle.es_model.specs.Declaration.{event_named};
ghost use Rattle.es_mapper.specs.Mapping.{version_of, class_value, version_value, with_some, stamped, state_of, stored, IsDeclared, IsEvent};

use es_model::{
    Atom, Class, DomainEvent, Duplicate, EventClass, Fields, NoMemory, StoredEvent, System, Text,
    Value,
};
use es_transcode::encode_record;
use std::alloc::Global;

/// The declared class version of an event.
pub(crate) fn declared_version(event: &EventClass) -> u64
    ensures value { result ≡ version_of event.now }
    ensures few { result < 2 ^ 63 }
{
    event.upcasts.as_slice().len() as u64 + 1
}

// The fields of an event, and its moment.
fn stamped(alloc: Global, event: &DomainEvent) -> Result<Fields, NoMemory>
    ensures { IfOk result (λ r. r ≡ stamped event.now) }
{
    let mut fields = event.fields.copy()?;
    let moment = Value::One(Atom::Moment(event.timestamp));
    fields.put(Text::from_str(alloc, "timestamp")?, moment)?;
    Ok(fields)
}

fn class_value(class: &Class, topic: &str) -> Result<Option<Value>, NoMemory>
    ensures { IfOk result (λ o. o ≡ class_value class.now topic.now) }
{
    if class.is_created(topic) {
        Ok(Some(Value::One(Atom::Text(class.name.copy()?))))
    } else {
        Ok(None)
    }
}

fn version_value(event: &EventClass) -> Option<Value>
    ensures { result ≡ version_value event.now }
{
    let version = declared_version(event);
    if version > 1 {
        Some(Value::One(Atom::Int(version as i64)))
    } else {
        None
    }
}

fn put_some(
    alloc: Global,
    fields: &mut Fields,
    name: &str,
    value: Option<Value>,
) -> Result<(), NoMemory>
    ensures { OnOk result (fields.new ≡ with_some value name.now fields.old) }
{
    match value {
        Some(value) => fields.put(Text::from_str(alloc, name)?, value),
        None => Ok(()),
    }
}

// The record of an event's state.
fn state_of(alloc: Global, sys: &System, event: &DomainEvent) -> Result<Fields, NoMemory>
    ensures { IfOk result (λ r. r ≡ state_of (event_named sys.now.classes event.now.topic) event.now) }
{
    let mut fields = stamped(alloc, event)?;
    match sys.event(event.topic.as_str()) {
        Some((class, declared)) => {
            let class = class_value(class, event.topic.as_str())?;
            put_some(alloc, &mut fields, "originator_topic", class)?;
            put_some(alloc, &mut fields, "class_version", version_value(declared))?;
            Ok(fields)
        }
        None => Ok(fields),
    }
}

/// An event as it is stored. Where it is declared, it is the domain event of what it is stored as.
pub fn to_stored(alloc: Global, sys: &System, event: &DomainEvent) -> Result<StoredEvent, NoMemory>
    ensures stored { IfOk result (λ s. s ≡ stored sys.now event.now) }
    ensures back { IfOk result (λ s. IsDeclared sys.now event.now → IsEvent sys.now s event.now) }
{
    let state = state_of(alloc, sys, event)?;
    Ok(StoredEvent {
        originator_id: event.originator_id,
        originator_version: event.originator_version,
        topic: event.topic.copy()?,
        state: encode_record(alloc, &state)?,
    })
}
