ghost use Rattle.std.specs.Prelude.{◌≡◌, All, IfOk, map, Err};
ghost use Rattle.es_model.specs.declared.memory.CallFault.TheVariants as call_faults;
ghost use Rattle.es_expr.specs.Checked.{IsCheckedSystem};
ghost use Rattle.es_mapper.specs.Mapping.{stored};
ghost use Rattle.es_domain.specs.Decision.{Decided, Decides, AreNewEvents, IsNewEvent};
ghost use Rattle.es_domain.specs.declared.find.FindFault.TheVariants as find_faults;
ghost use Rattle.es_repo.specs.Verdicts.{verdict_of, IsSmallVerdict};
ghost use Rattle.es_repo.specs.inner.Stored.{AreReadBack, IsReadBack};

use es_domain::{Decision, FindFault};
use es_mapper::to_stored;
use es_model::{CallFault, DomainEvent, NoMemory, StoredEvent, StoredEvents, System, Text};
use std::alloc::Global;

/// What is decided: new events as they are stored, a refusal by its code and the number of the policy's
/// rule, counted from 1 and 0 for a command, or the first event that has no meaning, by its
/// notification id.
#[derive(Debug, Drop)]
pub enum Verdict {
    Events(StoredEvents),
    Refused { code: Text, rule: u64 },
    Unreadable { id: u64 },
}

// An event as it is stored. A new one is read back as itself: that its fields rise is told where they are read.
fn one_stored(alloc: Global, sys: &System, event: &DomainEvent) -> Result<StoredEvent, NoMemory>
    ensures stored { IfOk result (λ s. s ≡ stored sys.now event.now) }
    ensures back { IsCheckedSystem sys.now → IsNewEvent sys.now event.now → IfOk result (λ _. IsReadBack sys.now event.now) }
{
    let _ = event.fields.as_slice();
    to_stored(alloc, sys, event)
}

// Events as they are stored.
fn all_stored(alloc: Global, sys: &System, events: &[DomainEvent]) -> Result<StoredEvents, NoMemory>
    ensures stored { IfOk result (λ es. es ≡ map (stored sys.now) events.now) }
    ensures back { IsCheckedSystem sys.now → All (IsNewEvent sys.now) events.now → IfOk result (λ _. All (IsReadBack sys.now) events.now) }
{
    let mut all = StoredEvents::new(alloc);
    for event in events {
        all.push(one_stored(alloc, sys, event)?)?;
    }
    Ok(all)
}

// The verdict of a decision.
fn verdict_on(alloc: Global, sys: &System, decision: Decision) -> Result<Verdict, CallFault>
    ensures verdict { IfOk result (λ v. v ≡ verdict_of sys.now (Ok decision)) }
    ensures small { AreNewEvents sys.now decision → IfOk result IsSmallVerdict }
    ensures back { IsCheckedSystem sys.now → AreNewEvents sys.now decision → IfOk result (λ _. AreReadBack sys.now decision) }
    ensures memory { ¬ result ≡ Err call_faults.Failed }
{
    match decision {
        Decision::Events(events) => match all_stored(alloc, sys, events.as_slice()) {
            Ok(events) => Ok(Verdict::Events(events)),
            Err(NoMemory) => Err(CallFault::NoMemory),
        },
        Decision::Refused { code, rule } => Ok(Verdict::Refused { code, rule }),
    }
}

/// The verdict of what a command or a policy was found to decide.
pub(crate) fn verdict_in(
    alloc: Global,
    sys: &System,
    decided: Result<Decision, FindFault>,
) -> Result<Verdict, CallFault>
    ensures verdict { (wanted : Decided) → Decides wanted decided → IfOk result (λ v. v ≡ verdict_of sys.now wanted) }
    ensures small { IfOk decided (AreNewEvents sys.now) → IfOk result IsSmallVerdict }
    ensures back { (wanted : Decided) → Decides wanted decided → IsCheckedSystem sys.now → IfOk decided (AreNewEvents sys.now) → IfOk result (λ _. IfOk wanted (AreReadBack sys.now)) }
    ensures failed { result ≡ Err call_faults.Failed → decided ≡ Err find_faults.Failed }
{
    match decided {
        Ok(decision) => verdict_on(alloc, sys, decision),
        Err(FindFault::Unreadable { id }) => Ok(Verdict::Unreadable { id }),
        Err(FindFault::Failed) => Err(CallFault::Failed),
        Err(FindFault::NoMemory) => Err(CallFault::NoMemory),
    }
}
