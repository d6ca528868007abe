ghost use Rattle.std.specs.Prelude.{◌≡◌, ◌⊎◌, ◌<◌, ◌^◌, Some, None, [], IfOk, IfSome, IfErr, IsOk, IsOkUnless, OnOk, length};
ghost use Rattle.std.proofs.Props.{props};
ghost use Rattle.es_model.specs.History.{log, IsFormed};
ghost use Rattle.es_memory.specs.inner.Index.{Stands};

use crate::history::{conflict_of, count_events, overflow_of, repeat_of};
use crate::index::{Index, grown, index_of};
use crate::lookups::{
    find_events, find_latest, find_notifications, find_place, find_tracked, has_tracked,
};
use crate::snapshots::{copy_at, newest_copy};
use es_model::limits::NUMBERS_END;
use es_model::{
    CallFault, Duplicate, NoMemory, Notifications, Recording, Recordings, Snapshot, Snapshots,
    StoredEvents, Text,
};
use es_recorder::{AggregateRecorder, ApplicationRecorder, InsertFault, Inserted, ProcessRecorder};
use std::alloc::Global;
use std::mem;
use uuid::Uuid;

/// A recorder in memory. It never fails. It keeps an index of its history, by which it finds what is
/// asked for; where memory for that is wanting it goes on without, and goes over all that it holds.
#[derive(Drop)]
pub struct MemoryRecorder {
    alloc: Global,
    history: Recordings,
    snapshots: Snapshots,
    index: Option<Index>,
    events: u64,
    capacity: u64,
    ghost indexed: { IfSome index (Stands history) } by { Prim.hlevel props },
    ghost counted: { events ≡ length (log history) },
    ghost formed: { IsFormed history },
    ghost bounded: { capacity < 2 ^ 62 },
}

impl MemoryRecorder {
    /// A recorder that holds nothing, and may hold so many events.
    pub fn new(alloc: Global, capacity: u64) -> MemoryRecorder
        requires { capacity < 2 ^ 62 }
        ensures history { ⟦<MemoryRecorder as AggregateRecorder>⟧.history result ≡ Some [] }
        ensures snapshots { ⟦<MemoryRecorder as AggregateRecorder>⟧.snapshots result ≡ Some [] }
        ensures capacity { ⟦<MemoryRecorder as AggregateRecorder>⟧.capacity result ≡ capacity }
    {
        MemoryRecorder {
            alloc,
            history: Recordings::new(alloc),
            snapshots: Snapshots::new(alloc),
            index: Some(Index::new(alloc)),
            events: 0,
            capacity,
        }
    }

    /// A recorder with this history and these snapshots. It never fails: where memory for an index is
    /// wanting it goes on without.
    pub fn with(
        alloc: Global,
        history: Recordings,
        snapshots: Snapshots,
        capacity: u64,
    ) -> Result<MemoryRecorder, NoMemory>
        requires formed { IsFormed history }
        requires small { capacity < 2 ^ 62 }
        ensures ok { IsOk result }
        ensures history { IfOk result (λ r. ⟦<MemoryRecorder as AggregateRecorder>⟧.history r ≡ Some history) }
        ensures snapshots { IfOk result (λ r. ⟦<MemoryRecorder as AggregateRecorder>⟧.snapshots r ≡ Some snapshots.items) }
        ensures capacity { IfOk result (λ r. ⟦<MemoryRecorder as AggregateRecorder>⟧.capacity r ≡ capacity) }
    {
        let Some(events) = count_events(history.as_slice()) else {
            return Err(NoMemory);
        };
        Ok(MemoryRecorder::of_counted(alloc, history, snapshots, events, capacity))
    }

    // A recorder with a history whose events are counted.
    pub(crate) fn of_counted(
        alloc: Global,
        history: Recordings,
        snapshots: Snapshots,
        events: u64,
        capacity: u64,
    ) -> MemoryRecorder
        requires counted { events ≡ length (log history) }
        requires formed { IsFormed history }
        requires small { capacity < 2 ^ 62 }
        ensures history { ⟦<MemoryRecorder as AggregateRecorder>⟧.history result ≡ Some history }
        ensures snapshots { ⟦<MemoryRecorder as AggregateRecorder>⟧.snapshots result ≡ Some snapshots.items }
        ensures capacity { ⟦<MemoryRecorder as AggregateRecorder>⟧.capacity result ≡ capacity }
    {
        let index = index_of(alloc, history.as_slice());
        MemoryRecorder {
            alloc,
            history,
            snapshots,
            index,
            events,
            capacity,
        }
    }

    /// Gives back the history and the snapshots.
    pub fn into_parts(self) -> (Recordings, Snapshots)
        ensures history { ⟦<MemoryRecorder as AggregateRecorder>⟧.history self ≡ Some result.0 }
        ensures snapshots { ⟦<MemoryRecorder as AggregateRecorder>⟧.snapshots self ≡ Some result.1.items }
        ensures formed { IsFormed result.0 }
    {
        let MemoryRecorder {
            alloc: _,
            history,
            snapshots,
            index: _,
            events: _,
            capacity: _,
        } = self;
        (history, snapshots)
    }
}

impl MemoryRecorder {
    ghost use Rattle.es_recorder.specs.Insert.{refusal, inserted};

    // Why a recording can't be added, where it can't.
    fn refuse(&self, recording: &Recording) -> Result<(), InsertFault>
        ensures ok { OnOk result (refusal self.now.capacity self.now.history recording.now ≡ None) }
        ensures refused { IfErr result (λ fault. (fault ≡ InsertFault.NoMemory) ⊎ (refusal self.now.capacity self.now.history recording.now ≡ Some fault)) }
    {
        let history = self.history.as_slice();
        let events = recording.events.as_slice();
        if let Some(conflict) = conflict_of(history, &self.index, events) {
            return Err(conflict);
        }
        match repeat_of(history, &self.index, &recording.cause) {
            Ok(None) => {}
            Ok(Some(repeat)) => return Err(repeat),
            Err(NoMemory) => return Err(InsertFault::NoMemory),
        }
        match overflow_of(self.capacity, self.events, events) {
            None => Ok(()),
            Some(full) => Err(full),
        }
    }
}

impl AggregateRecorder for MemoryRecorder {
    ghost use Rattle.std.specs.Prelude.{Some, None, Ok, true};
    ghost use Rattle.std.proofs.Common.{refl};
    ghost use Rattle.es_model.specs.declared.memory.CallFault.TheVariants as fault;
    ghost use Rattle.es_model.specs.History.{latest};
    ghost use Rattle.es_model.specs.Snapshots.{IsSmallSnapshot};
    ghost use Rattle.es_recorder.specs.Selections as selections;
    ghost use Rattle.es_recorder.specs.Selections.{select_events, AreVersions, snapshots_upto, IsNewest};
    ghost use Rattle.es_recorder.specs.Stable.{IsPrefixTold-same};

    ghost history = { λ r. Some r.history };

    ghost stable = { λ r. Some r.history };

    ghost settled = { λ _. true };

    ghost snapshots = { λ r. Some r.snapshots.items };

    ghost capacity = { λ r. r.capacity };

    ghost selected = { λ _. None };

    ghost faults = { λ _. 0 };

    ghost formed = { λ r. r.formed };

    ghost stable_is_front = { λ r. IsPrefixTold-same (Some r.history) };

    ghost settled_is_whole = { λ r settled. refl };

    ghost snapshots_once = { λ r. r.snapshots.once };

    fn select_events(
        &mut self,
        id: Uuid,
        gt: Option<u64>,
        lte: Option<u64>,
        desc: bool,
        limit: Option<u64>,
    ) -> Result<StoredEvents, CallFault>
        ensures value { IfOk result (λ es. es ≡ select_events (log self.old.history) id gt lte desc limit) }
        ensures numbers { IfOk result (AreVersions limit) }
        ensures same { self.new ≡ self.old }
        ensures memory { IsOkUnless result fault.NoMemory }
    {
        let history = self.history.as_slice();
        Ok(find_events(self.alloc, history, &self.index, id, gt, lte, desc, limit)?)
    }

    // It takes no memory, and never fails.
    fn latest_version(&mut self, id: Uuid) -> Result<u64, CallFault>
        ensures value { result ≡ Ok (latest (log self.old.history) id) }
        ensures small { IfOk result (λ version. version < 2 ^ 62) }
        ensures same { self.new ≡ self.old }
    {
        Ok(find_latest(self.history.as_slice(), &self.index, id))
    }

    fn insert_snapshot(&mut self, snapshot: &Snapshot) -> Result<(), CallFault> {
        Ok(self.snapshots.put(snapshot.copy()?)?)
    }

    fn select_snapshot(&mut self, id: Uuid, lte: Option<u64>) -> Result<Option<Snapshot>, CallFault>
        ensures value { IfOk result (IsNewest (snapshots_upto self.old.snapshots.items id lte)) }
        ensures small { IfOk result (λ found. IfSome found IsSmallSnapshot) }
        ensures same { self.new ≡ self.old }
        ensures memory { IsOkUnless result fault.NoMemory }
    {
        Ok(newest_copy(self.snapshots.as_slice(), id, lte)?)
    }

    fn snapshot_at(&mut self, number: u64) -> Result<Option<Snapshot>, CallFault>
        ensures value { IfOk result (λ found. found ≡ selections.snapshot_at self.old.snapshots.items number) }
        ensures small { IfOk result (λ found. IfSome found IsSmallSnapshot) }
        ensures same { self.new ≡ self.old }
        ensures memory { IsOkUnless result fault.NoMemory }
    {
        Ok(copy_at(self.snapshots.as_slice(), number)?)
    }
}

impl ApplicationRecorder for MemoryRecorder {
    ghost use Rattle.std.specs.Prelude.{Ok};
    ghost use Rattle.es_model.specs.declared.memory.CallFault.TheVariants as fault;
    ghost use Rattle.es_recorder.specs.Selections as selections;

    fn select_notifications(&mut self, start: u64, limit: u64) -> Result<Notifications, CallFault>
        ensures value { IfOk result (λ ns. ns ≡ selections.select_notifications (log self.old.history) start limit) }
        ensures numbers { IfOk result (selections.AreSelected start limit) }
        ensures same { self.new ≡ self.old }
        ensures memory { IsOkUnless result fault.NoMemory }
    {
        let history = self.history.as_slice();
        Ok(find_notifications(self.alloc, history, &self.index, start, limit)?)
    }

    // It takes no memory, and never fails.
    fn max_notification_id(&mut self) -> Result<u64, CallFault>
        ensures value { result ≡ Ok (length (log self.old.history)) }
        ensures small { IfOk result (λ id. id < 2 ^ 62) }
        ensures same { self.new ≡ self.old }
    {
        Ok(self.events)
    }

    // It takes no memory, and never fails.
    fn notification_of(&mut self, id: Uuid, version: u64) -> Result<Option<u64>, CallFault>
        ensures value { result ≡ Ok (selections.notification_of (log self.old.history) id version) }
        ensures small { IfOk result (λ found. IfSome found (λ n. n < 2 ^ 62)) }
        ensures same { self.new ≡ self.old }
    {
        Ok(find_place(self.history.as_slice(), &self.index, id, version))
    }

    // It takes no memory, and never fails.
    fn recordings(&mut self) -> Result<u64, CallFault>
        ensures value { result ≡ Ok (length self.old.history) }
        ensures small { IfOk result (λ n. n < 2 ^ 62) }
        ensures same { self.new ≡ self.old }
    {
        Ok(self.history.len() as u64)
    }
}

impl ProcessRecorder for MemoryRecorder {
    ghost use Rattle.std.specs.Prelude.{Ok};
    ghost use Rattle.es_model.specs.Tracking.{tracked_in};
    ghost use Rattle.es_recorder.specs.Selections.{tracks};

    // It takes no memory, and never fails.
    fn max_tracking_id(&mut self, leader: &Text) -> Result<u64, CallFault>
        ensures value { result ≡ Ok (tracked_in self.old.history leader.now) }
        ensures small { IfOk result (λ id. id < 2 ^ 62) }
        ensures same { self.new ≡ self.old }
    {
        Ok(find_tracked(self.history.as_slice(), &self.index, leader))
    }

    // It takes no memory, and never fails.
    fn has_tracking_id(&mut self, leader: &Text, id: u64) -> Result<bool, CallFault>
        ensures value { result ≡ Ok (tracks self.old.history leader.now id) }
        ensures same { self.new ≡ self.old }
    {
        Ok(has_tracked(self.history.as_slice(), &self.index, leader, id))
    }

    fn insert(&mut self, recording: &Recording) -> Result<Inserted, InsertFault> {
        match self.refuse(recording) {
            Ok(()) => {}
            Err(fault) => return Err(fault),
        }
        let number = self.history.len() as u64 + 1;
        if number >= NUMBERS_END {
            return Err(InsertFault::NoMemory);
        }
        let Ok(copy) = recording.copy() else {
            return Err(InsertFault::NoMemory);
        };
        let last = self.events + recording.events.len() as u64;
        let inserted = Inserted {
            recording: number,
            first: self.events + 1,
            last,
        };
        match self.history.push(copy) {
            Ok(()) => {
                let index = mem::replace(&mut self.index, None);
                self.index = grown(
                    self.alloc,
                    index,
                    number as usize - 1,
                    self.events,
                    recording,
                );
                self.events = last;
                Ok(inserted)
            }
            Err(NoMemory) => Err(InsertFault::NoMemory),
        }
    }
}
