ghost use Rattle.std.specs.Prelude.{◌≡◌, ◌<◌, ◌-◌, ◌^◌, All, IfOk, IfSome, None};
ghost use Rattle.es_expr.specs.Checked.{IsCheckedSystem};
ghost use Rattle.es_mapper.specs.Mapped.{event_of};
ghost use Rattle.es_domain.specs.Effect.{made};
ghost use Rattle.es_domain.specs.Fold.{advanced};
ghost use Rattle.es_domain.specs.inner.Overlay.{IsBelow};
ghost use Rattle.es_domain.specs.Steps.{HasItsFields, FitsItsTopic};
ghost use Rattle.es_repo.specs.inner.Reader.{folded_from, IsWhole};
ghost use Rattle.es_repo.specs.Readings.{advanced_by};

use es_domain::{Aggregate, ApplyFault};
use es_mapper::{MapFault, to_domain};
use es_model::{DomainEvent, NoMemory, StoredEvent, System};
use std::alloc::Global;

/// What events make: an aggregate, or none, or the version of the first of them that has no meaning.
#[derive(Drop)]
pub(crate) enum Folded {
    Whole(Option<Aggregate>),
    Stuck(u64),
}

// The domain event of a stored one, if it has one.
fn meaning(
    alloc: Global,
    sys: &System,
    stored: &StoredEvent,
) -> Result<Option<DomainEvent>, NoMemory>
    ensures event { IfOk result (λ e. e ≡ event_of sys.now stored.now) }
    ensures fits { IfOk result (λ e. IfSome e (FitsItsTopic sys.now)) }
{
    match to_domain(alloc, sys, stored) {
        Ok(event) => Ok(Some(event)),
        Err(MapFault::Topic) => Ok(None),
        Err(MapFault::Decode(_)) => Ok(None),
        Err(MapFault::Newer { .. }) => Ok(None),
        Err(MapFault::Fields) => Ok(None),
        Err(MapFault::NoMemory) => Err(NoMemory),
    }
}

// The aggregate that begins with an event, if one does.
fn begun(alloc: Global, sys: &System, event: &DomainEvent) -> Result<Option<Aggregate>, NoMemory>
    requires checked { IsCheckedSystem sys.now }
    requires event { FitsItsTopic sys.now event.now }
    ensures made { IfOk result (λ a. a ≡ made (advanced sys.now None event.now)) }
    ensures fields { IfOk result (λ a. IfSome a (HasItsFields sys.now)) }
{
    match Aggregate::begin(alloc, sys, event) {
        Ok(aggregate) => Ok(Some(aggregate)),
        Err(ApplyFault::Topic) => Ok(None),
        Err(ApplyFault::OriginatorId) => Ok(None),
        Err(ApplyFault::OriginatorVersion { .. }) => Ok(None),
        Err(ApplyFault::Overflow) => Ok(None),
        Err(ApplyFault::NoMemory) => Err(NoMemory),
    }
}

// An aggregate after an event, if it may come there.
fn applied(
    sys: &System,
    mut aggregate: Aggregate,
    event: &DomainEvent,
) -> Result<Option<Aggregate>, NoMemory>
    requires checked { IsCheckedSystem sys.now }
    requires event { FitsItsTopic sys.now event.now }
    requires fields { HasItsFields sys.now aggregate }
    requires version { aggregate.version < 2 ^ 63 - 1 }
    ensures made { IfOk result (λ a. a ≡ made (advanced sys.now (Some aggregate) event.now)) }
    ensures fields { IfOk result (λ a. IfSome a (HasItsFields sys.now)) }
{
    match aggregate.apply(sys, event) {
        Ok(()) => Ok(Some(aggregate)),
        Err(ApplyFault::Topic) => Ok(None),
        Err(ApplyFault::OriginatorId) => Ok(None),
        Err(ApplyFault::OriginatorVersion { .. }) => Ok(None),
        Err(ApplyFault::Overflow) => Ok(None),
        Err(ApplyFault::NoMemory) => Err(NoMemory),
    }
}

// What an event makes of no aggregate, or of one.
fn advanced(
    alloc: Global,
    sys: &System,
    found: Option<Aggregate>,
    event: &DomainEvent,
) -> Result<Option<Aggregate>, NoMemory>
    requires checked { IsCheckedSystem sys.now }
    requires event { FitsItsTopic sys.now event.now }
    requires found { IfSome found (IsBelow sys.now (2 ^ 62)) }
    ensures made { IfOk result (λ a. a ≡ made (advanced sys.now found event.now)) }
    ensures fields { IfOk result (λ a. IfSome a (HasItsFields sys.now)) }
{
    match found {
        None => begun(alloc, sys, event),
        Some(aggregate) => applied(sys, aggregate, event),
    }
}

// What a stored event makes of no aggregate, or of one, if it has a meaning there.
fn after_event(
    alloc: Global,
    sys: &System,
    found: Option<Aggregate>,
    stored: &StoredEvent,
) -> Result<Option<Aggregate>, NoMemory>
    requires checked { IsCheckedSystem sys.now }
    requires found { IfSome found (IsBelow sys.now (2 ^ 62)) }
    requires version { stored.now.originator_version < 2 ^ 62 }
    ensures made { IfOk result (λ a. a ≡ advanced_by sys.now found (event_of sys.now stored.now)) }
    ensures found { IfOk result (λ a. IfSome a (IsBelow sys.now (2 ^ 62))) }
{
    match meaning(alloc, sys, stored)? {
        Some(event) => advanced(alloc, sys, found, &event),
        None => Ok(None),
    }
}

/// What events make, one after the other.
pub(crate) fn fold_events(
    alloc: Global,
    sys: &System,
    events: &[StoredEvent],
) -> Result<Folded, NoMemory>
    requires checked { IsCheckedSystem sys.now }
    requires versions { All (λ e. e.originator_version < 2 ^ 62) events.now }
    ensures folded { IfOk result (λ f. f ≡ folded_from sys.now None events.now) }
    ensures found { IfOk result (IsWhole sys.now) }
{
    let mut found = None;
    for event in events {
        match after_event(alloc, sys, found, event)? {
            Some(aggregate) => found = Some(aggregate),
            None => return Ok(Folded::Stuck(event.originator_version)),
        }
    }
    Ok(Folded::Whole(found))
}
