//! One step of the fold of an aggregate's events.
ghost use Rattle.std.specs.Prelude.{◌≡◌, ◌<◌, ◌^◌, IsTrue, Some, IfOk};
ghost use Rattle.std.specs.Option.{option_copied};
ghost use Rattle.es_model.specs.Declaration.{class_named, event_named};
ghost use Rattle.es_model.specs.Rising.{IsRising};
ghost use Rattle.es_model.specs.Values.{are_of_kinds};
ghost use Rattle.es_expr.specs.Checked.{IsCheckedSystem};
ghost use Rattle.es_domain.specs.inner.Evaluation.{AreChecked, GivesValues};
ghost use Rattle.es_domain.specs.inner.Firing.{IsLater};
ghost use Rattle.es_domain.specs.Fold.{created_with, fields_at_first, fields_then, first_env, later_in, begun_by, id_value, moment_value, version_value};
ghost use Rattle.es_domain.specs.Steps.{Triggers, Applies, HasItsFields, IsOfClass};

use crate::environment::{assign_env, created_env};
use crate::values::{fields_after, values_of};
use crate::{Aggregate, ApplyFault, TriggerFault};
use es_model::{
    Atom, Class, DomainEvent, DomainEvents, Duplicate, EventClass, Fields, Moment, Rising, System,
    Value,
};
use std::alloc::Global;
use uuid::Uuid;

// An id as a value.
pub(crate) fn id_value(id: Uuid) -> Value
    ensures { result ≡ id_value id }
{
    Value::One(Atom::Uuid(id))
}

// A moment as a value.
pub(crate) fn moment_value(moment: Moment) -> Value
    ensures { result ≡ moment_value moment }
{
    Value::One(Atom::Moment(moment))
}

// A version, or a notification id, as a value.
pub(crate) fn version_value(version: u64) -> Value
    requires { version < 2 ^ 63 }
    ensures { result ≡ version_value version }
{
    Value::One(Atom::Int(version as i64))
}

// The names rise.
pub(crate) fn rises<T>(names: &Rising<T>)
    ensures { IsRising names.now }
{
    let _ = names.as_slice();
}

// The later event of a class with a topic.
pub(crate) fn later_event<'a>(sys: &'a System, class: &str, topic: &str) -> Option<&'a EventClass>
    ensures { option_copied result ≡ later_in (class_named sys.now.classes class.now) topic.now }
{
    let class = sys.class(class)?;
    if class.is_created(topic) {
        None
    } else {
        class.event(topic)
    }
}

// The aggregate that a Created event makes.
pub(crate) fn created(
    alloc: Global,
    class: &Class,
    event_class: &EventClass,
    event: &DomainEvent,
) -> Result<Aggregate, TriggerFault>
    requires { AreChecked class.now.fields event_class.now.assigns (first_env event.now) }
    ensures outcome { Triggers (created_with class.now event.now (fields_at_first event_class.now event.now)) result }
    ensures class { IfOk result (λ a. a.class ≡ class.now.name) }
    ensures fields { IfOk result (λ a. IsTrue (are_of_kinds a.fields class.now.fields)) }
{
    let id = id_value(event.originator_id);
    let env = created_env(alloc, &event.fields, id, moment_value(event.timestamp))?;
    let fields = values_of(alloc, &event_class.assigns, &env)?;
    Ok(Aggregate {
        id: event.originator_id,
        version: 1,
        class: class.name.copy()?,
        created_on: event.timestamp,
        modified_on: event.timestamp,
        fields,
        pending: DomainEvents::new(alloc),
    })
}

// The fields of an aggregate after a later event of its class.
pub(crate) fn fields_then(
    alloc: Global,
    sys: &System,
    aggregate: &Aggregate,
    event_class: &EventClass,
    fields: &Fields,
    at: Moment,
) -> Result<Fields, TriggerFault>
    requires checked { IsCheckedSystem sys.now }
    requires itself { HasItsFields sys.now aggregate.now }
    requires version { aggregate.now.version < 2 ^ 63 }
    requires later { IsLater sys.now aggregate.now event_class.now }
    requires fields { IsTrue (are_of_kinds fields.now event_class.now.fields) }
    ensures values { GivesValues (fields_then aggregate.now event_class.now fields.now at) result }
    ensures kinds { IfOk result (IsOfClass (class_named sys.now.classes aggregate.now.class)) }
{
    rises(&aggregate.fields);
    let id = id_value(aggregate.id);
    let version = version_value(aggregate.version);
    let env = assign_env(
        alloc,
        fields,
        id,
        moment_value(at),
        &aggregate.fields,
        version,
    )?;
    fields_after(alloc, &aggregate.fields, &event_class.assigns, &env)
}

// The aggregate that begins with an event of a class.
pub(crate) fn begin_by(
    alloc: Global,
    sys: &System,
    class: &Class,
    event_class: &EventClass,
    event: &DomainEvent,
) -> Result<Aggregate, ApplyFault>
    requires checked { IsCheckedSystem sys.now }
    requires declared { event_named sys.now.classes event.now.topic ≡ Some (class.now, event_class.now) }
    requires fields { IsTrue (are_of_kinds event.now.fields event_class.now.fields) }
    ensures outcome { Applies (begun_by (Some (class.now, event_class.now)) event.now) result }
    ensures fields { IfOk result (HasItsFields sys.now) }
{
    if !class.is_created(event.topic.as_str()) {
        return Err(ApplyFault::Topic);
    }
    if event.originator_version != 1 {
        return Err(ApplyFault::OriginatorVersion {
            expected: 1,
            given: event.originator_version,
        });
    }
    rises(&class.fields);
    rises(&event_class.assigns);
    match created(alloc, class, event_class, event) {
        Ok(aggregate) => Ok(aggregate),
        Err(fault) => Err(fault.into()),
    }
}
