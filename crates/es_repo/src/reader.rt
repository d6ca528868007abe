ghost use Rattle.std.specs.Prelude.{◌≡◌, ℕ, false, Option, IfOk, IfSome, Some, None, Ok, Err, OnOk, OnErr};
ghost use Rattle.es_model.specs.History.{log};
ghost use Rattle.es_model.specs.declared.declaration.System.{System};
ghost use Rattle.es_expr.specs.Checked.{IsCheckedSystem};
ghost use Rattle.es_domain.specs.Readings.{unreadable, IsFound, FindHasCause};
ghost use Rattle.es_domain.specs.declared.find.FindFault.TheVariants as find_faults;
ghost use Rattle.es_recorder.specs.Selections.{notification_of, select_events};
ghost use Rattle.es_repo.specs.Readings.{reading_at};
ghost use Rattle.es_repo.specs.Same.{IsSameRecorder};
ghost use Rattle.es_repo.specs.inner.Reader.{folded_from, is_among, IsWhole, noted, Notes, Reads};

use crate::folding::{Folded, fold_events};
use es_domain::{Aggregate, Aggregates, FindFault};
use es_model::{CallFault, List, NoMemory, System};
use es_recorder::ApplicationRecorder;
use std::alloc::Global;
use uuid::Uuid;

/// A reader of the aggregates that a recorder keeps. It folds all events of an id.
#[derive(Drop)]
pub(crate) struct Reader<'a, R> {
    pub(crate) alloc: Global,
    pub(crate) sys: &'a System,
    pub(crate) recorder: &'a mut R,
    pub(crate) asked: List<Uuid>,
}

impl<'a, R> Reader<'a, R> {
    /// Gives the recorder back.
    pub(crate) fn into_recorder(self) -> &'a mut R
        ensures same_reference { result.ghost_name ≡ self.entry.recorder.ghost_name }
        ensures recorder { result.now ≡ self.entry.recorder.now }
    {
        let Reader {
            alloc: _,
            sys: _,
            recorder,
            asked: _,
        } = self;
        recorder
    }
}

// That an event of a version has no meaning, by its notification id; 0 where the recorder knows none.
fn stuck_at<R: ApplicationRecorder>(
    recorder: &mut R,
    id: Uuid,
    version: u64,
) -> Result<Option<Aggregate>, FindFault>
    ensures reading { IfSome (R.history recorder.old) (λ h. (n : ℕ) → notification_of (log h) id version ≡ Some n → Reads (unreadable n) result) }
    ensures none { IfOk result (λ _. ⊥) }
    ensures same { IsSameRecorder R.history R.settled R.snapshots R.capacity recorder.old recorder.new }
    ensures cause { FindHasCause (R.faults recorder.old) (R.faults recorder.new) result }
{
    match recorder.notification_of(id, version) {
        Ok(Some(id)) => Err(FindFault::Unreadable { id }),
        Ok(None) => Err(FindFault::Unreadable { id: 0 }),
        Err(CallFault::Failed) => Err(FindFault::Failed),
        Err(CallFault::NoMemory) => Err(FindFault::NoMemory),
    }
}

// An aggregate, where it is the one of an id. The events of a recorder that doesn't tell them may be another's.
fn of_id(id: Uuid, found: Option<Aggregate>) -> Result<Option<Aggregate>, FindFault>
    ensures same { IfSome found (λ a. a.id ≡ id) → result ≡ Ok found }
    ensures id { IfOk result (λ o. (o ≡ found) × IfSome o (λ a. a.id ≡ id)) }
    ensures failed { ¬ result ≡ Err find_faults.Failed }
{
    match found {
        Some(aggregate) => {
            if aggregate.id == id {
                Ok(Some(aggregate))
            } else {
                Err(FindFault::Unreadable { id: 0 })
            }
        }
        None => Ok(None),
    }
}

// What is answered by what the events of an id make.
fn answer<R: ApplicationRecorder>(
    recorder: &mut R,
    id: Uuid,
    folded: Folded,
) -> Result<Option<Aggregate>, FindFault>
    ensures reading { (sys : System) (version : Option ℕ) → IfSome (R.history recorder.old) (λ h. folded ≡ folded_from sys None (select_events (log h) id None version false None) → Reads (reading_at sys (log h) id version) result) }
    ensures found { (sys : System) → IsWhole sys folded → IfOk result (λ found. IfSome found (IsFound sys id)) }
    ensures same { IsSameRecorder R.history R.settled R.snapshots R.capacity recorder.old recorder.new }
    ensures cause { FindHasCause (R.faults recorder.old) (R.faults recorder.new) result }
{
    match folded {
        Folded::Whole(found) => of_id(id, found),
        Folded::Stuck(version) => stuck_at(recorder, id, version),
    }
}

/// The aggregate of an id at a version, by all its events up to it; at its latest one where none is given.
pub(crate) fn read<R: ApplicationRecorder>(
    alloc: Global,
    sys: &System,
    recorder: &mut R,
    id: Uuid,
    version: Option<u64>,
) -> Result<Option<Aggregate>, FindFault>
    requires checked { IsCheckedSystem sys.now }
    ensures reading { IfSome (R.history recorder.old) (λ h. Reads (reading_at sys.now (log h) id version) result) }
    ensures found { IfOk result (λ found. IfSome found (IsFound sys.now id)) }
    ensures same { IsSameRecorder R.history R.settled R.snapshots R.capacity recorder.old recorder.new }
    ensures cause { FindHasCause (R.faults recorder.old) (R.faults recorder.new) result }
{
    let events = match recorder.select_events(id, None, version, false, None) {
        Ok(events) => events,
        Err(CallFault::Failed) => return Err(FindFault::Failed),
        Err(CallFault::NoMemory) => return Err(FindFault::NoMemory),
    };
    match fold_events(alloc, sys, events.as_slice()) {
        Ok(folded) => answer(recorder, id, folded),
        Err(NoMemory) => Err(FindFault::NoMemory),
    }
}

fn is_among(asked: &[Uuid], id: Uuid) -> bool
    ensures { result ≡ is_among asked.now id }
{
    asked.iter().any(|known| *known == id)
}

// Notes that an id was asked for.
fn note(asked: &mut List<Uuid>, id: Uuid) -> Result<(), NoMemory>
    ensures ok { OnOk result (asked.new ≡ noted asked.old id) }
    ensures err { OnErr result (asked.new ≡ asked.old) }
{
    if is_among(asked.as_slice(), id) {
        return Ok(());
    }
    asked.push(id)
}

// An answer whose id is noted, where one was found.
fn with_note(
    asked: &mut List<Uuid>,
    id: Uuid,
    answer: Result<Option<Aggregate>, FindFault>,
) -> Result<Option<Aggregate>, FindFault>
    ensures notes { Notes asked.old id answer asked.new result }
    ensures ok { IfOk result (λ o. answer ≡ Ok o) }
    ensures failed { result ≡ Err find_faults.Failed → answer ≡ Err find_faults.Failed }
{
    match answer {
        Ok(found) => match note(asked, id) {
            Ok(()) => Ok(found),
            Err(NoMemory) => Err(FindFault::NoMemory),
        },
        Err(FindFault::Unreadable { id: entry }) => match note(asked, id) {
            Ok(()) => Err(FindFault::Unreadable { id: entry }),
            Err(NoMemory) => Err(FindFault::NoMemory),
        },
        Err(FindFault::Failed) => Err(FindFault::Failed),
        Err(FindFault::NoMemory) => Err(FindFault::NoMemory),
    }
}

impl<'a, R: ApplicationRecorder> Aggregates for Reader<'a, R> {
    ghost use Rattle.es_repo.specs.inner.Reader.{Kept, kept_of, told_of};

    ghost system = { λ r. r.sys.now };

    ghost told = { λ r. told_of r.asked (R.history r.recorder.now) };

    ghost Kept = { Kept };

    ghost kept = { λ r. kept_of R.history R.settled R.snapshots R.capacity r };

    ghost faults = { λ r. R.faults r.recorder.now };

    fn find(&mut self, id: Uuid) -> Result<Option<Aggregate>, FindFault> {
        let answer = read(self.alloc, self.sys, self.recorder, id, None);
        with_note(&mut self.asked, id, answer)
    }
}
