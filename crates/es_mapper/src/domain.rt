ghost use Rattle.std.specs.Prelude.{◌≡◌, ◌≢◌, ◌≤◌, IfOk, OnOk, IfErr, Some, length};
ghost use Rattle.es_model.specs.Declaration.{event_named};
ghost use Rattle.es_model.specs.declared.declaration.System as system_type;
ghost use Rattle.es_model.specs.declared.declaration.Class as class_type;
ghost use Rattle.es_model.specs.declared.domain_event.DomainEvent as event_type;
ghost use Rattle.es_transcode.specs.declared.fault.DecodeFault.TheVariants as decode_faults;
ghost use Rattle.es_mapper.specs.declared.fault.MapFault.TheVariants as faults;
ghost use Rattle.es_mapper.specs.Mapped.{event_of, Gives};
ghost use Rattle.es_mapper.specs.Mapping.{version_of, steps_from, upcast_by, without_head, fields_of, IsEvent, IsMapped, IsRead, IsHeaded};

use crate::head::head_of;
use crate::stored::declared_version;
use crate::{MapFault, upcast};
use es_model::{
    Class, DomainEvent, Duplicate, Edit, EventClass, Fields, List, Moment, NoMemory, StoredEvent,
    System, are_of_kinds,
};
use es_transcode::{DecodeFault, decode_record};
use std::alloc::Global;

// Takes out the three members that stand in a state beside the fields.
fn take_head(fields: &mut Fields)
    ensures { fields.new ≡ without_head fields.old }
{
    fields.remove("class_version");
    fields.remove("originator_topic");
    fields.remove("timestamp");
}

fn upcast_by(steps: &[List<Edit>], fields: &mut Fields) -> Result<(), NoMemory>
    ensures { OnOk result (fields.new ≡ upcast_by steps.now fields.old) }
{
    for edits in steps {
        upcast(edits.as_slice(), fields)?;
    }
    Ok(())
}

// The fields of a state of a class version, as those of the declared version.
fn fields_of(event: &EventClass, version: u64, state: Fields) -> Result<Fields, NoMemory>
    requires first { 1 ≤ version }
    requires last { version ≤ version_of event.now }
    ensures { IfOk result (λ r. r ≡ fields_of event.now version state) }
{
    let mut fields = state;
    take_head(&mut fields);
    upcast_by(
        &event.upcasts.as_slice()[(version - 1) as usize..],
        &mut fields,
    )?;
    Ok(fields)
}

// The domain event of a stored one whose state has these three members.
fn with_fields(
    event: &EventClass,
    stored: &StoredEvent,
    head: (u64, Moment),
    state: Fields,
) -> Result<DomainEvent, MapFault>
    requires first { 1 ≤ head.0 }
    requires last { head.0 ≤ version_of event.now }
    ensures { (sys : system_type.System) (c : class_type.Class) → IsHeaded sys stored.now c event.now state head.0 head.1 → IsMapped sys stored.now result }
{
    let fields = fields_of(event, head.0, state)?;
    if !are_of_kinds(&fields, &event.fields) {
        return Err(MapFault::Fields);
    }
    Ok(DomainEvent {
        originator_id: stored.originator_id,
        originator_version: stored.originator_version,
        timestamp: head.1,
        topic: stored.topic.copy()?,
        fields,
    })
}

// The domain event of a stored one whose state is read as a record.
fn with_state(
    class: &Class,
    event: &EventClass,
    stored: &StoredEvent,
    state: Fields,
) -> Result<DomainEvent, MapFault>
    ensures { (sys : system_type.System) → IsRead sys stored.now class.now event.now state → IsMapped sys stored.now result }
{
    let Some(head) = head_of(&state, class, stored.topic.as_str()) else {
        return Err(MapFault::Fields);
    };
    let declared = declared_version(event);
    if head.0 > declared {
        return Err(MapFault::Newer {
            stored: head.0,
            declared,
        });
    }
    with_fields(event, stored, head, state)
}

// How a fault of a state is told. Want of memory is told as itself.
fn refusal_of(fault: DecodeFault) -> MapFault
    ensures memory { fault ≡ decode_faults.NoMemory → result ≡ faults.NoMemory }
    ensures refusal { fault ≢ decode_faults.NoMemory → result ≡ faults.Decode fault }
{
    match fault {
        DecodeFault::NoMemory => MapFault::NoMemory,
        _ => MapFault::Decode(fault),
    }
}

// The domain event of a stored one of a declared event.
fn with_class(
    alloc: Global,
    class: &Class,
    event: &EventClass,
    stored: &StoredEvent,
) -> Result<DomainEvent, MapFault>
    ensures { (sys : system_type.System) → event_named sys.classes stored.now.topic ≡ Some (class.now, event.now) → IsMapped sys stored.now result }
{
    match decode_record(alloc, stored.state.as_slice()) {
        Ok(state) => with_state(class, event, stored, state),
        Err(fault) => Err(refusal_of(fault)),
    }
}

/// The domain event that a stored one stands for.
pub fn to_domain(alloc: Global, sys: &System, stored: &StoredEvent) -> Result<DomainEvent, MapFault>
    ensures mapped { IsMapped sys.now stored.now result }
    ensures one { IfOk result (λ e. (f : event_type.DomainEvent) → IsEvent sys.now stored.now f → e ≡ f) }
    ensures none { IfErr result (λ f. f ≢ faults.NoMemory → (e : event_type.DomainEvent) → ¬ IsEvent sys.now stored.now e) }
    ensures event { Gives (event_of sys.now stored.now) result }
{
    match sys.event(stored.topic.as_str()) {
        Some((class, event)) => with_class(alloc, class, event, stored),
        None => Err(MapFault::Topic),
    }
}
