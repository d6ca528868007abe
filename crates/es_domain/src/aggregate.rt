ghost use Rattle.std.specs.Prelude.{◌≡◌, ◌<◌, ◌-◌, ◌^◌, IfOk};
ghost use Rattle.es_model.specs.Declaration.{class_named};
ghost use Rattle.es_expr.specs.Checked.{IsCheckedSystem};
ghost use Rattle.es_domain.specs.Fold.{begun, stepped, later_in};
ghost use Rattle.es_domain.specs.Steps.{HasItsFields, FitsItsTopic, IsOfEvent, created_in, first_event, next_event, with_pending, collected, Applies, Changes, Triggers, TriggersOn};

use crate::fold::{begin_by, created, fields_then, later_event, rises};
use es_expr::EvalFault;
use es_model::{DomainEvent, DomainEvents, Duplicate, Fields, Moment, NoMemory, System, Text};
use std::alloc::Global;
use thiserror::Error;
use uuid::Uuid;

/// An aggregate as its events have made it, and the events that were triggered and not collected yet.
#[derive(Debug, Drop)]
pub struct Aggregate {
    pub id: Uuid,
    pub version: u64,
    pub class: Text,
    pub created_on: Moment,
    pub modified_on: Moment,
    pub fields: Fields,
    pub pending: DomainEvents,
}

/// Why an event wasn't applied, in the order in which the causes are tried.
#[derive(Clone, Copy, Debug, PartialEq, Eq, Error)]
pub enum ApplyFault {
    /// It is not an event that may come here.
    #[error("the event is of another topic")]
    Topic,
    #[error("the event is of another originator")]
    OriginatorId,
    #[error("the event is of another version")]
    OriginatorVersion { expected: u64, given: u64 },
    /// An assignment passes a limit.
    #[error("an assignment overflows")]
    Overflow,
    #[error("out of memory")]
    NoMemory,
}

/// Why an event wasn't triggered.
#[derive(Clone, Copy, Debug, PartialEq, Eq, Error)]
pub enum TriggerFault {
    /// An assignment passes a limit.
    #[error("an assignment overflows")]
    Overflow,
    #[error("out of memory")]
    NoMemory,
}

impl From<NoMemory> for TriggerFault {
    ghost use Rattle.std.specs.Prelude.{◌≡◌};
    ghost use Rattle.es_domain.specs.declared.aggregate.TriggerFault.TheVariants as faults;

    ghost from_gives = { λ _ e. e ≡ faults.NoMemory };

    fn from(_: NoMemory) -> TriggerFault {
        TriggerFault::NoMemory
    }
}

impl From<EvalFault> for TriggerFault {
    ghost use Rattle.std.specs.Prelude.{◌≡◌};
    ghost use Rattle.es_domain.specs.Faults.{fault_of};

    ghost from_gives = { λ fault e. e ≡ fault_of fault };

    fn from(fault: EvalFault) -> TriggerFault {
        match fault {
            EvalFault::Overflow => TriggerFault::Overflow,
            EvalFault::NoMemory => TriggerFault::NoMemory,
        }
    }
}

impl From<TriggerFault> for ApplyFault {
    ghost use Rattle.std.specs.Prelude.{◌≡◌};
    ghost use Rattle.es_domain.specs.Faults.{apply_fault_of};

    ghost from_gives = { λ fault e. e ≡ apply_fault_of fault };

    fn from(fault: TriggerFault) -> ApplyFault {
        match fault {
            TriggerFault::Overflow => ApplyFault::Overflow,
            TriggerFault::NoMemory => ApplyFault::NoMemory,
        }
    }
}

// A copy of the parts of an aggregate that take memory.
fn parts(aggregate: &Aggregate) -> Result<(Text, Fields, DomainEvents), NoMemory>
    ensures { IfOk result (λ p. (p.0 ≡ aggregate.now.class) × (p.1 ≡ aggregate.now.fields) × (p.2 ≡ aggregate.now.pending)) }
{
    Ok((
        aggregate.class.copy()?,
        aggregate.fields.copy()?,
        aggregate.pending.copy()?,
    ))
}

impl Duplicate for Aggregate {
    fn copy(&self) -> Result<Aggregate, NoMemory> {
        let (class, fields, pending) = parts(self)?;
        Ok(Aggregate {
            id: self.id,
            version: self.version,
            class,
            created_on: self.created_on,
            modified_on: self.modified_on,
            fields,
            pending,
        })
    }
}

impl Aggregate {
    /// A new aggregate of a class, with its Created event pending.
    pub fn create(
        alloc: Global,
        sys: &System,
        class: &Text,
        id: Uuid,
        fields: &Fields,
        at: Moment,
    ) -> Result<Aggregate, TriggerFault>
        requires checked { IsCheckedSystem sys.now }
        requires fields { IsOfEvent (created_in (class_named sys.now.classes class.now)) fields.now }
        ensures outcome { let e = first_event sys.now class.now id fields.now at in Triggers (with_pending e (begun sys.now e)) result }
        ensures fields { IfOk result (HasItsFields sys.now) }
    {
        let Some(class) = sys.class(class.as_str()) else {
            unreachable!()
        };
        rises(&class.fields);
        rises(&class.created.assigns);
        let event = DomainEvent {
            originator_id: id,
            originator_version: 1,
            timestamp: at,
            topic: class.created.topic.copy()?,
            fields: fields.copy()?,
        };
        let mut aggregate = created(alloc, class, &class.created, &event)?;
        aggregate.pending.push(event)?;
        Ok(aggregate)
    }

    /// Applies the next event and puts it at the end of the pending ones.
    pub fn trigger(
        &mut self,
        sys: &System,
        topic: &Text,
        fields: &Fields,
        at: Moment,
    ) -> Result<(), TriggerFault>
        requires checked { IsCheckedSystem sys.now }
        requires itself { HasItsFields sys.now self.old }
        requires version { self.old.version < 2 ^ 63 - 1 }
        requires fields { IsOfEvent (later_in (class_named sys.now.classes self.old.class) topic.now) fields.now }
        ensures outcome { let e = next_event self.old topic.now fields.now at in TriggersOn (with_pending e (stepped sys.now self.old e)) self.old self.new result }
        ensures fields { HasItsFields sys.now self.new }
    {
        let alloc = self.fields.allocator();
        let later = later_event(sys, self.class.as_str(), topic.as_str());
        let Some(event_class) = later else {
            unreachable!()
        };
        let after = fields_then(alloc, sys, self, event_class, fields, at)?;
        let version = self.version + 1;
        self.pending.push(DomainEvent {
            originator_id: self.id,
            originator_version: version,
            timestamp: at,
            topic: topic.copy()?,
            fields: fields.copy()?,
        })?;
        self.version = version;
        self.modified_on = at;
        self.fields = after;
        Ok(())
    }

    /// Takes all pending events, in order.
    pub fn collect_events(&mut self) -> DomainEvents
        ensures events { result ≡ self.old.pending }
        ensures rest { self.new ≡ collected self.old }
    {
        let alloc = self.pending.allocator();
        std::mem::replace(&mut self.pending, DomainEvents::new(alloc))
    }

    /// The aggregate that begins with an event.
    pub fn begin(alloc: Global, sys: &System, event: &DomainEvent) -> Result<Aggregate, ApplyFault>
        requires checked { IsCheckedSystem sys.now }
        requires event { FitsItsTopic sys.now event.now }
        ensures outcome { Applies (begun sys.now event.now) result }
        ensures fields { IfOk result (HasItsFields sys.now) }
    {
        match sys.event(event.topic.as_str()) {
            Some((class, event_class)) => begin_by(alloc, sys, class, event_class, event),
            None => Err(ApplyFault::Topic),
        }
    }

    /// Applies the next event.
    pub fn apply(&mut self, sys: &System, event: &DomainEvent) -> Result<(), ApplyFault>
        requires checked { IsCheckedSystem sys.now }
        requires event { FitsItsTopic sys.now event.now }
        requires itself { HasItsFields sys.now self.old }
        requires version { self.old.version < 2 ^ 63 - 1 }
        ensures outcome { Changes (stepped sys.now self.old event.now) self.old self.new result }
        ensures fields { HasItsFields sys.now self.new }
    {
        let later = later_event(sys, self.class.as_str(), event.topic.as_str());
        let Some(event_class) = later else {
            return Err(ApplyFault::Topic);
        };
        if event.originator_id != self.id {
            return Err(ApplyFault::OriginatorId);
        }
        let expected = self.version + 1;
        let given = event.originator_version;
        if given != expected {
            return Err(ApplyFault::OriginatorVersion { expected, given });
        }
        let alloc = self.fields.allocator();
        let at = event.timestamp;
        let fields = match fields_then(alloc, sys, self, event_class, &event.fields, at) {
            Ok(fields) => fields,
            Err(fault) => return Err(fault.into()),
        };
        self.version = given;
        self.modified_on = at;
        self.fields = fields;
        Ok(())
    }
}
