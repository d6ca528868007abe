ghost use Rattle.std.specs.Prelude.{◌≡◌, ◌<◌, ◌^◌, Some, None, Ok, Err, false, nat_lt, if◌then◌else◌, IfOk, IfSome, OnOk, OnErr, true, length};
ghost use Rattle.es_model.specs.Causes.{HasCause, CallHasCause};
ghost use Rattle.es_model.specs.History.{log, latest};
ghost use Rattle.es_model.specs.Snapshots.{IsSmallSnapshot};
ghost use Rattle.es_memory.specs.Fuses.{calls_left, takes_effect, burnt, answer, FailsAt};

use crate::MemoryRecorder;
use es_model::{CallFault, Failed, Notifications, Recording, Snapshot, StoredEvents, Text};
use es_recorder::{AggregateRecorder, ApplicationRecorder, InsertFault, Inserted, ProcessRecorder};
use uuid::Uuid;

/// A recorder in memory that fails from one of its calls on. It passes so many calls, the next one
/// fails, before or after it took effect, and every later one fails without effect.
#[derive(Drop)]
pub struct FuseRecorder {
    inner: MemoryRecorder,
    left: u64,
    after: bool,
    faults: u64,
}

impl FuseRecorder {
    /// Passes so many calls. `after` says whether the call that fails then takes effect.
    pub fn new(inner: MemoryRecorder, calls: u64, after: bool) -> FuseRecorder
        ensures history { ⟦<FuseRecorder as AggregateRecorder>⟧.history result ≡ ⟦<MemoryRecorder as AggregateRecorder>⟧.history inner }
        ensures snapshots { ⟦<FuseRecorder as AggregateRecorder>⟧.snapshots result ≡ ⟦<MemoryRecorder as AggregateRecorder>⟧.snapshots inner }
        ensures capacity { ⟦<FuseRecorder as AggregateRecorder>⟧.capacity result ≡ ⟦<MemoryRecorder as AggregateRecorder>⟧.capacity inner }
        ensures faults { ⟦<FuseRecorder as AggregateRecorder>⟧.faults result ≡ 0 }
        ensures calls { calls_left result ≡ calls }
        ensures after { takes_effect result ≡ after }
    {
        FuseRecorder {
            inner,
            left: calls,
            after,
            faults: 0,
        }
    }

    /// The recorder behind the fuse.
    pub fn into_inner(self) -> MemoryRecorder
        ensures history { ⟦<MemoryRecorder as AggregateRecorder>⟧.history result ≡ ⟦<FuseRecorder as AggregateRecorder>⟧.history self }
        ensures snapshots { ⟦<MemoryRecorder as AggregateRecorder>⟧.snapshots result ≡ ⟦<FuseRecorder as AggregateRecorder>⟧.snapshots self }
        ensures capacity { ⟦<MemoryRecorder as AggregateRecorder>⟧.capacity result ≡ ⟦<FuseRecorder as AggregateRecorder>⟧.capacity self }
    {
        let FuseRecorder {
            inner,
            left: _,
            after: _,
            faults: _,
        } = self;
        inner
    }

    // Counts a call, which fails where none is left.
    fn pass(&mut self) -> Result<(), Failed>
        ensures state { self.new ≡ burnt self.old }
        ensures passed { OnOk result (nat_lt 0 self.old.left ≡ true) }
        ensures failed { OnErr result (nat_lt 0 self.old.left ≡ false) }
        ensures cause { HasCause self.old.faults self.new.faults result }
    {
        if self.left > 0 {
            self.left -= 1;
            return Ok(());
        }
        self.after = false;
        self.faults = self.faults.saturating_add(1);
        Err(Failed)
    }
}

impl AggregateRecorder for FuseRecorder {
    ghost use Rattle.std.proofs.Common.{refl};
    ghost use Rattle.es_model.specs.declared.memory.CallFault.TheVariants as fault;
    ghost use Rattle.es_recorder.specs.Puts.{PutsTold};
    ghost use Rattle.es_recorder.specs.Selections.{select_events, AreVersions, snapshots_upto, IsNewest};
    ghost use Rattle.es_recorder.specs.Selections as selections;
    ghost use Rattle.es_recorder.specs.Stable.{IsPrefixTold-same};

    ghost history = { λ r. Some r.inner.history };

    ghost stable = { λ r. Some r.inner.history };

    ghost settled = { λ _. true };

    ghost snapshots = { λ r. Some r.inner.snapshots.items };

    ghost capacity = { λ r. r.inner.capacity };

    ghost selected = { λ _. None };

    ghost faults = { λ r. r.faults };

    ghost formed = { λ r. r.inner.formed };

    ghost stable_is_front = { λ r. IsPrefixTold-same (Some r.inner.history) };

    ghost settled_is_whole = { λ r settled. refl };

    ghost snapshots_once = { λ r. r.inner.snapshots.once };

    fn select_events(
        &mut self,
        id: Uuid,
        gt: Option<u64>,
        lte: Option<u64>,
        desc: bool,
        limit: Option<u64>,
    ) -> Result<StoredEvents, CallFault>
        ensures value { IfOk result (λ es. es ≡ select_events (log self.old.inner.history) id gt lte desc limit) }
        ensures numbers { IfOk result (AreVersions limit) }
        ensures cause { CallHasCause self.old.faults self.new.faults result }
        ensures state { self.new ≡ burnt self.old }
        ensures fails { FailsAt self.old fault.Failed result }
    {
        if self.pass().is_err() {
            return Err(CallFault::Failed);
        }
        self.inner.select_events(id, gt, lte, desc, limit)
    }

    fn latest_version(&mut self, id: Uuid) -> Result<u64, CallFault>
        ensures value { result ≡ answer self.old (latest (log self.old.inner.history) id) }
        ensures small { IfOk result (λ version. version < 2 ^ 62) }
        ensures cause { CallHasCause self.old.faults self.new.faults result }
        ensures state { self.new ≡ burnt self.old }
    {
        if self.pass().is_err() {
            return Err(CallFault::Failed);
        }
        self.inner.latest_version(id)
    }

    fn insert_snapshot(&mut self, snapshot: &Snapshot) -> Result<(), CallFault>
        requires { IsSmallSnapshot snapshot.now }
        ensures puts { PutsTold (Some self.old.inner.snapshots.items) snapshot.now (Some self.new.inner.snapshots.items) result }
        ensures same_history { self.new.inner.history ≡ self.old.inner.history }
        ensures same_capacity { self.new.inner.capacity ≡ self.old.inner.capacity }
        ensures cause { CallHasCause self.old.faults self.new.faults result }
        ensures state { self.new ≡ record (burnt self.old) { inner = self.new.inner } }
        ensures fails { FailsAt self.old fault.Failed result }
        ensures early { calls_left self.old ≡ 0 → takes_effect self.old ≡ false → self.new ≡ burnt self.old }
    {
        let takes_effect = self.after;
        if self.pass().is_err() {
            if takes_effect {
                let _ = self.inner.insert_snapshot(snapshot);
            }
            return Err(CallFault::Failed);
        }
        self.inner.insert_snapshot(snapshot)
    }

    fn select_snapshot(&mut self, id: Uuid, lte: Option<u64>) -> Result<Option<Snapshot>, CallFault>
        ensures value { IfOk result (IsNewest (snapshots_upto self.old.inner.snapshots.items id lte)) }
        ensures small { IfOk result (λ found. IfSome found IsSmallSnapshot) }
        ensures cause { CallHasCause self.old.faults self.new.faults result }
        ensures state { self.new ≡ burnt self.old }
        ensures fails { FailsAt self.old fault.Failed result }
    {
        if self.pass().is_err() {
            return Err(CallFault::Failed);
        }
        self.inner.select_snapshot(id, lte)
    }

    fn snapshot_at(&mut self, number: u64) -> Result<Option<Snapshot>, CallFault>
        ensures value { IfOk result (λ found. found ≡ selections.snapshot_at self.old.inner.snapshots.items number) }
        ensures small { IfOk result (λ found. IfSome found IsSmallSnapshot) }
        ensures cause { CallHasCause self.old.faults self.new.faults result }
        ensures state { self.new ≡ burnt self.old }
        ensures fails { FailsAt self.old fault.Failed result }
    {
        if self.pass().is_err() {
            return Err(CallFault::Failed);
        }
        self.inner.snapshot_at(number)
    }
}

impl ApplicationRecorder for FuseRecorder {
    ghost use Rattle.es_model.specs.declared.memory.CallFault.TheVariants as fault;
    ghost use Rattle.es_recorder.specs.Selections as selections;

    fn select_notifications(&mut self, start: u64, limit: u64) -> Result<Notifications, CallFault>
        ensures value { IfOk result (λ ns. ns ≡ selections.select_notifications (log self.old.inner.history) start limit) }
        ensures numbers { IfOk result (selections.AreSelected start limit) }
        ensures cause { CallHasCause self.old.faults self.new.faults result }
        ensures state { self.new ≡ burnt self.old }
        ensures fails { FailsAt self.old fault.Failed result }
    {
        if self.pass().is_err() {
            return Err(CallFault::Failed);
        }
        self.inner.select_notifications(start, limit)
    }

    fn max_notification_id(&mut self) -> Result<u64, CallFault>
        ensures value { result ≡ answer self.old (length (log self.old.inner.history)) }
        ensures small { IfOk result (λ id. id < 2 ^ 62) }
        ensures cause { CallHasCause self.old.faults self.new.faults result }
        ensures state { self.new ≡ burnt self.old }
    {
        if self.pass().is_err() {
            return Err(CallFault::Failed);
        }
        self.inner.max_notification_id()
    }

    fn notification_of(&mut self, id: Uuid, version: u64) -> Result<Option<u64>, CallFault>
        ensures value { result ≡ answer self.old (selections.notification_of (log self.old.inner.history) id version) }
        ensures small { IfOk result (λ found. IfSome found (λ n. n < 2 ^ 62)) }
        ensures cause { CallHasCause self.old.faults self.new.faults result }
        ensures state { self.new ≡ burnt self.old }
    {
        if self.pass().is_err() {
            return Err(CallFault::Failed);
        }
        self.inner.notification_of(id, version)
    }

    fn recordings(&mut self) -> Result<u64, CallFault>
        ensures value { result ≡ answer self.old (length self.old.inner.history) }
        ensures small { IfOk result (λ n. n < 2 ^ 62) }
        ensures cause { CallHasCause self.old.faults self.new.faults result }
        ensures state { self.new ≡ burnt self.old }
    {
        if self.pass().is_err() {
            return Err(CallFault::Failed);
        }
        self.inner.recordings()
    }
}

impl ProcessRecorder for FuseRecorder {
    ghost use Rattle.es_model.specs.Tracking.{tracked_in};
    ghost use Rattle.es_recorder.specs.declared.recorder.InsertFault.TheVariants as fault;
    ghost use Rattle.es_recorder.specs.Insert.{IsInsertable, InsertsTold, IsSmall, PassesCapacity, InsertHasCause};
    ghost use Rattle.es_recorder.specs.Selections.{tracks};

    fn max_tracking_id(&mut self, leader: &Text) -> Result<u64, CallFault>
        ensures value { result ≡ answer self.old (tracked_in self.old.inner.history leader.now) }
        ensures small { IfOk result (λ id. id < 2 ^ 62) }
        ensures cause { CallHasCause self.old.faults self.new.faults result }
        ensures state { self.new ≡ burnt self.old }
    {
        if self.pass().is_err() {
            return Err(CallFault::Failed);
        }
        self.inner.max_tracking_id(leader)
    }

    fn has_tracking_id(&mut self, leader: &Text, id: u64) -> Result<bool, CallFault>
        ensures value { result ≡ answer self.old (tracks self.old.inner.history leader.now id) }
        ensures cause { CallHasCause self.old.faults self.new.faults result }
        ensures state { self.new ≡ burnt self.old }
    {
        if self.pass().is_err() {
            return Err(CallFault::Failed);
        }
        self.inner.has_tracking_id(leader, id)
    }

    fn insert(&mut self, recording: &Recording) -> Result<Inserted, InsertFault>
        requires { IsInsertable recording.now }
        ensures inserts { InsertsTold self.old.inner.capacity (Some self.old.inner.history) recording.now (Some self.new.inner.history) result }
        ensures same_snapshots { self.new.inner.snapshots.items ≡ self.old.inner.snapshots.items }
        ensures same_capacity { self.new.inner.capacity ≡ self.old.inner.capacity }
        ensures small { IsSmall result }
        ensures full { PassesCapacity self.old.inner.capacity recording.now result }
        ensures cause { InsertHasCause self.old.faults self.new.faults result }
        ensures state { self.new ≡ record (burnt self.old) { inner = self.new.inner } }
        ensures fails { FailsAt self.old fault.Failed result }
        ensures early { calls_left self.old ≡ 0 → takes_effect self.old ≡ false → self.new ≡ burnt self.old }
    {
        let takes_effect = self.after;
        if self.pass().is_err() {
            if takes_effect {
                let _ = self.inner.insert(recording);
            }
            return Err(InsertFault::Failed);
        }
        self.inner.insert(recording)
    }
}
