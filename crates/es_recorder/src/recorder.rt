ghost use Rattle.std.specs.Prelude.{◌≡◌, ◌<◌, ◌^◌, ℕ, Bool, true, List, Option, IfSome, IfOk, length};
ghost use Rattle.es_model.specs.declared.event.Recording.{Recording};
ghost use Rattle.es_model.specs.declared.snapshot.Snapshot.{Snapshot};
ghost use Rattle.es_model.specs.Causes.{CallHasCause};
ghost use Rattle.es_model.specs.History.{log, latest, IsFormed};
ghost use Rattle.es_model.specs.Snapshots.{AreSnapshots, IsSmallSnapshot};
ghost use Rattle.es_model.specs.Tracking.{tracked_in};
ghost use Rattle.es_recorder.specs.HandedOut.{count_after};
ghost use Rattle.es_recorder.specs.Keeps.{Keeps, KeepsHeld, KeepsRecordings, KeepsSnapshots};
ghost use Rattle.es_recorder.specs.Puts.{PutsTold};
ghost use Rattle.es_recorder.specs.Selections.{select_events, AreVersions, select_notifications, AreSelected, notification_of, tracks, snapshots_upto, IsNewest, snapshot_at};
ghost use Rattle.es_recorder.specs.Stable.{IsPrefixTold};

use es_model::{CallFault, Notifications, Recording, Snapshot, StoredEvents, Text};
use thiserror::Error;
use uuid::Uuid;

/// The number of a recording, and the notification ids of its first and last event. Without events
/// `first` is one more than `last`.
#[derive(Clone, Copy, Debug, PartialEq, Eq)]
pub struct Inserted {
    pub recording: u64,
    pub first: u64,
    pub last: u64,
}

/// Why a recording wasn't added, in the order in which the causes are tried.
#[derive(Debug, Drop, Error)]
pub enum InsertFault {
    /// The first event whose version isn't one more than the latest of its originator.
    #[error("an event is not the next version of its originator")]
    Conflict { id: Uuid, version: u64, latest: u64 },
    /// The notification of the cause is tracked already.
    #[error("a notification is tracked already")]
    Tracking { leader: Text, id: u64, tracked: u64 },
    /// The events don't fit any more.
    #[error("the recorder is full")]
    Full { last: u64, capacity: u64 },
    #[error("the recorder failed")]
    Failed,
    #[error("out of memory")]
    NoMemory,
}

/// What keeps the recordings of one application, seen by its aggregates.
pub trait AggregateRecorder {
    /// The recordings, where they are told.
    ghost history: { Self → Option (List Recording) };

    /// What a stop surely leaves of them, where it is told.
    ghost stable: { Self → Option (List Recording) };

    /// Whether a stop surely leaves all of them: that is so from the beginning, and until an insert has failed.
    ghost settled: { Self → Bool };

    /// The snapshots in the order in which they were put, where they are told.
    ghost snapshots: { Self → Option (List Snapshot) };

    /// How many events it may hold.
    ghost capacity: { Self → ℕ };

    /// How many events it has handed out, where it is told.
    ghost selected: { Self → Option ℕ };

    /// How often it has failed.
    ghost faults: { Self → ℕ };

    /// The events of an originator with versions above `gt` and at most `lte`, by rising versions, or
    /// by falling ones where `desc` is set: the first `limit` of them.
    fn select_events(
        &mut self,
        id: Uuid,
        gt: Option<u64>,
        lte: Option<u64>,
        desc: bool,
        limit: Option<u64>,
    ) -> Result<StoredEvents, CallFault>
        ensures value { IfSome (history self.old) (λ h. IfOk result (λ es. es ≡ select_events (log h) id gt lte desc limit)) }
        ensures numbers { IfOk result (AreVersions limit) }
        ensures same { KeepsHeld history stable settled snapshots capacity self.old self.new result }
        ensures selected { selected self.new ≡ count_after (selected self.old) result }
        ensures cause { CallHasCause (faults self.old) (faults self.new) result };

    /// The number of events of an originator.
    fn latest_version(&mut self, id: Uuid) -> Result<u64, CallFault>
        ensures value { IfSome (history self.old) (λ h. IfOk result (λ version. version ≡ latest (log h) id)) }
        ensures small { IfOk result (λ version. version < 2 ^ 62) }
        ensures same { Keeps history stable settled snapshots selected capacity self.old self.new result }
        ensures cause { CallHasCause (faults self.old) (faults self.new) result };

    /// Puts a snapshot last, and takes away the one of the same aggregate and version.
    fn insert_snapshot(&mut self, snapshot: &Snapshot) -> Result<(), CallFault>
        requires { IsSmallSnapshot snapshot.now }
        ensures puts { PutsTold (snapshots self.old) snapshot.now (snapshots self.new) result }
        ensures same { KeepsRecordings history stable settled selected capacity self.old self.new result }
        ensures cause { CallHasCause (faults self.old) (faults self.new) result };

    /// The snapshot of an aggregate with the greatest version that is at most `lte`.
    fn select_snapshot(&mut self, id: Uuid, lte: Option<u64>) -> Result<Option<Snapshot>, CallFault>
        ensures value { IfSome (snapshots self.old) (λ ss. IfOk result (λ found. IsNewest (snapshots_upto ss id lte) found)) }
        ensures small { IfOk result (λ found. IfSome found IsSmallSnapshot) }
        ensures same { Keeps history stable settled snapshots selected capacity self.old self.new result }
        ensures cause { CallHasCause (faults self.old) (faults self.new) result };

    /// The snapshot at a place of the list, from 1.
    fn snapshot_at(&mut self, number: u64) -> Result<Option<Snapshot>, CallFault>
        ensures value { IfSome (snapshots self.old) (λ ss. IfOk result (λ found. found ≡ snapshot_at ss number)) }
        ensures small { IfOk result (λ found. IfSome found IsSmallSnapshot) }
        ensures same { Keeps history stable settled snapshots selected capacity self.old self.new result }
        ensures cause { CallHasCause (faults self.old) (faults self.new) result };

    /// A history that is told is formed.
    ghost formed: { (r : Self) → IfSome (history r) IsFormed };

    /// What a stop leaves is a front of the history.
    ghost stable_is_front: { (r : Self) → IsPrefixTold (stable r) (history r) };

    /// It is the whole history where that is said.
    ghost settled_is_whole: { (r : Self) → settled r ≡ true → stable r ≡ history r };

    /// Snapshots that are told have each pair of id and version once, and small numbers.
    ghost snapshots_once: { (r : Self) → IfSome (snapshots r) AreSnapshots };
}

/// The same, seen by the whole application.
pub trait ApplicationRecorder: AggregateRecorder {
    /// The notifications of the log with ids from `start`, at most `limit`, in order.
    fn select_notifications(&mut self, start: u64, limit: u64) -> Result<Notifications, CallFault>
        ensures value { IfSome (Self.history self.old) (λ h. IfOk result (λ ns. ns ≡ select_notifications (log h) start limit)) }
        ensures numbers { IfOk result (AreSelected start limit) }
        ensures same { KeepsHeld Self.history Self.stable Self.settled Self.snapshots Self.capacity self.old self.new result }
        ensures selected { Self.selected self.new ≡ count_after (Self.selected self.old) result }
        ensures cause { CallHasCause (Self.faults self.old) (Self.faults self.new) result };

    /// The length of the log.
    fn max_notification_id(&mut self) -> Result<u64, CallFault>
        ensures value { IfSome (Self.history self.old) (λ h. IfOk result (λ id. id ≡ length (log h))) }
        ensures small { IfOk result (λ id. id < 2 ^ 62) }
        ensures same { Keeps Self.history Self.stable Self.settled Self.snapshots Self.selected Self.capacity self.old self.new result }
        ensures cause { CallHasCause (Self.faults self.old) (Self.faults self.new) result };

    /// The notification id of an originator's event of a version, which is its place in the log.
    fn notification_of(&mut self, id: Uuid, version: u64) -> Result<Option<u64>, CallFault>
        ensures value { IfSome (Self.history self.old) (λ h. IfOk result (λ found. found ≡ notification_of (log h) id version)) }
        ensures small { IfOk result (λ found. IfSome found (λ n. n < 2 ^ 62)) }
        ensures same { Keeps Self.history Self.stable Self.settled Self.snapshots Self.selected Self.capacity self.old self.new result }
        ensures cause { CallHasCause (Self.faults self.old) (Self.faults self.new) result };

    /// The length of the history.
    fn recordings(&mut self) -> Result<u64, CallFault>
        ensures value { IfSome (Self.history self.old) (λ h. IfOk result (λ n. n ≡ length h)) }
        ensures small { IfOk result (λ n. n < 2 ^ 62) }
        ensures same { Keeps Self.history Self.stable Self.settled Self.snapshots Self.selected Self.capacity self.old self.new result }
        ensures cause { CallHasCause (Self.faults self.old) (Self.faults self.new) result };
}

/// The same, where recordings are added.
pub trait ProcessRecorder: ApplicationRecorder {
    ghost use Rattle.es_recorder.specs.Insert.{IsInsertable, InsertsTold, StableAfter, SettledAfter, IsSmall, PassesCapacity, RefusesTold, InsertHasCause};

    /// The greatest notification id of a leader among the causes, 0 where there is none.
    fn max_tracking_id(&mut self, leader: &Text) -> Result<u64, CallFault>
        ensures value { IfSome (Self.history self.old) (λ h. IfOk result (λ id. id ≡ tracked_in h leader.now)) }
        ensures small { IfOk result (λ id. id < 2 ^ 62) }
        ensures same { Keeps Self.history Self.stable Self.settled Self.snapshots Self.selected Self.capacity self.old self.new result }
        ensures cause { CallHasCause (Self.faults self.old) (Self.faults self.new) result };

    /// Whether a cause is this notification of a leader.
    fn has_tracking_id(&mut self, leader: &Text, id: u64) -> Result<bool, CallFault>
        ensures value { IfSome (Self.history self.old) (λ h. IfOk result (λ found. found ≡ tracks h leader.now id)) }
        ensures same { Keeps Self.history Self.stable Self.settled Self.snapshots Self.selected Self.capacity self.old self.new result }
        ensures cause { CallHasCause (Self.faults self.old) (Self.faults self.new) result };

    /// Adds a recording whole, or refuses it. A recorder that doesn't tell its history counts what
    /// would be `Conflict` or `Tracking` as a fault.
    fn insert(&mut self, recording: &Recording) -> Result<Inserted, InsertFault>
        requires { IsInsertable recording.now }
        ensures inserts { InsertsTold (Self.capacity self.old) (Self.history self.old) recording.now (Self.history self.new) result }
        ensures stable { StableAfter (Self.stable self.old) (Self.stable self.new) (Self.history self.new) result }
        ensures settled { SettledAfter (Self.settled self.old) (Self.settled self.new) result }
        ensures same { KeepsSnapshots Self.snapshots Self.selected Self.capacity self.old self.new }
        ensures small { IsSmall result }
        ensures full { PassesCapacity (Self.capacity self.old) recording.now result }
        ensures refuses { RefusesTold (Self.history self.old) result }
        ensures cause { InsertHasCause (Self.faults self.old) (Self.faults self.new) result };
}
