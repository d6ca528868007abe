ghost use Rattle.std.specs.Prelude.{◌≡◌, ◌≤◌, ◌<◌, ◌^◌, false, None, IfOk, IfErr};
ghost use Rattle.es_model.specs.Causes.{Rose, CallHasCause};

use crate::refusing::{is_full, refusal};
use crate::stop::{Stop, counted};
use crate::{layout, reading, writing};
use es_model::limits::NUMBERS_END;
use es_model::{CallFault, Notifications, Recording, Snapshot, StoredEvents, Text};
use es_recorder::{AggregateRecorder, ApplicationRecorder, InsertFault, Inserted, ProcessRecorder};
use sqlite::{Alter, Connection};
use std::alloc::Global;
use uuid::Uuid;

/// A recorder over a connection, whose tables nobody else writes while it is in use. It keeps its
/// greatest numbers, and reads the rest where it is asked.
#[derive(Drop)]
pub struct SqliteRecorder<S: Alter> {
    connection: Connection<S>,
    alloc: Global,
    capacity: u64,
    faults: u64,
    recordings: u64,
    events: u64,
    snapshots: u64,
    ghost between: { connection.in_transaction ≡ false },
    ghost bounded: { capacity < 2 ^ 62 },
    ghost few: { recordings < 2 ^ 62 },
    ghost few_events: { events < 2 ^ 62 },
    ghost few_snapshots: { snapshots < 2 ^ 62 },
}

impl<S: Alter + Drop> SqliteRecorder<S> {
    /// A recorder over a connection. An empty database gets the tables; one that has other tables,
    /// or whose layout is another, is a fault that is counted in `count`, and the connection is
    /// given back.
    pub fn adopt(
        alloc: Global,
        mut connection: Connection<S>,
        capacity: u64,
        count: &mut u64,
    ) -> Result<SqliteRecorder<S>, (Connection<S>, CallFault)>
        requires { capacity < 2 ^ 62 }
        ensures capacity { IfOk result (λ r. ⟦<SqliteRecorder<S> as AggregateRecorder>⟧.capacity r ≡ capacity) }
        ensures fresh { IfOk result (λ r. ⟦<SqliteRecorder<S> as AggregateRecorder>⟧.faults r ≡ 0) }
        ensures later { count.old ≤ count.new }
        ensures failed { IfErr result (λ refused. refused.1 ≡ CallFault.Failed → Rose count.old count.new) }
    {
        match layout::take(&mut connection) {
            Ok(greatest) => Ok(SqliteRecorder {
                connection,
                alloc,
                capacity,
                faults: 0,
                recordings: greatest.recording,
                events: greatest.notification,
                snapshots: greatest.snapshot,
            }),
            Err(stop) => Err((connection, counted(count, stop))),
        }
    }

    /// The connection, in which no transaction is open.
    pub fn release(self) -> Connection<S>
        ensures { result.in_transaction ≡ false }
    {
        let SqliteRecorder {
            connection,
            alloc: _,
            capacity: _,
            faults: _,
            recordings: _,
            events: _,
            snapshots: _,
        } = self;
        connection
    }
}

// A fault of the database as one of an insert.
fn insert_fault(fault: CallFault) -> InsertFault
    ensures failed { fault ≡ CallFault.Failed → result ≡ InsertFault.Failed }
    ensures memory { fault ≡ CallFault.NoMemory → result ≡ InsertFault.NoMemory }
{
    match fault {
        CallFault::Failed => InsertFault::Failed,
        CallFault::NoMemory => InsertFault::NoMemory,
    }
}

impl<S: Alter> SqliteRecorder<S> {
    ghost use Rattle.es_recorder.specs.Insert.{IsInsertable, InsertHasCause, IsSmall, PassesCapacity, RefusesTold};

    /// How often it has failed.
    pub fn faults(&self) -> u64
        ensures { result ≡ ⟦<SqliteRecorder<S> as AggregateRecorder>⟧.faults self.now }
    {
        self.faults
    }

    // Adds a recording that comes next, if its events fit.
    fn add(&mut self, recording: &Recording) -> Result<Inserted, InsertFault>
        requires { IsInsertable recording.now }
        ensures capacity { self.new.capacity ≡ self.old.capacity }
        ensures small { IsSmall result }
        ensures full { PassesCapacity self.old.capacity recording.now result }
        ensures refuses { RefusesTold None result }
        ensures cause { InsertHasCause self.old.faults self.new.faults result }
    {
        let events = recording.events.as_slice();
        if is_full(self.capacity, self.events, events) {
            return Err(InsertFault::Full {
                last: self.events,
                capacity: self.capacity,
            });
        }
        let numbers = Inserted {
            recording: self.recordings + 1,
            first: self.events + 1,
            last: self.events + events.len() as u64,
        };
        if numbers.recording >= NUMBERS_END {
            return Err(insert_fault(counted(&mut self.faults, Stop::Fault)));
        }
        match writing::add(&mut self.connection, recording, &numbers) {
            Ok(()) => {
                self.recordings = numbers.recording;
                self.events = numbers.last;
                Ok(numbers)
            }
            Err(stop) => Err(insert_fault(counted(&mut self.faults, stop))),
        }
    }
}

impl<S: Alter> AggregateRecorder for SqliteRecorder<S> {
    ghost use Rattle.std.specs.Prelude.{None, true};
    ghost use Rattle.std.proofs.Common.{refl};

    ghost history = { λ _. None };

    ghost stable = { λ _. None };

    ghost settled = { λ _. true };

    ghost snapshots = { λ _. None };

    ghost capacity = { λ r. r.capacity };

    ghost selected = { λ _. None };

    ghost faults = { λ r. r.faults };

    ghost formed = { λ _. tt };

    ghost stable_is_front = { λ _. tt };

    ghost settled_is_whole = { λ r settled. refl };

    ghost snapshots_once = { λ _. tt };

    fn select_events(
        &mut self,
        id: Uuid,
        gt: Option<u64>,
        lte: Option<u64>,
        desc: bool,
        limit: Option<u64>,
    ) -> Result<StoredEvents, CallFault> {
        match reading::events(&mut self.connection, self.alloc, id, gt, lte, desc, limit) {
            Ok(events) => Ok(events),
            Err(stop) => Err(counted(&mut self.faults, stop)),
        }
    }

    fn latest_version(&mut self, id: Uuid) -> Result<u64, CallFault> {
        match reading::latest(&mut self.connection, id) {
            Ok(version) => Ok(version),
            Err(stop) => Err(counted(&mut self.faults, stop)),
        }
    }

    fn insert_snapshot(&mut self, snapshot: &Snapshot) -> Result<(), CallFault> {
        let number = self.snapshots + 1;
        if number >= NUMBERS_END {
            return Err(counted(&mut self.faults, Stop::Fault));
        }
        match writing::add_snapshot(&mut self.connection, number, snapshot) {
            Ok(()) => {
                self.snapshots = number;
                Ok(())
            }
            Err(stop) => Err(counted(&mut self.faults, stop)),
        }
    }

    fn select_snapshot(
        &mut self,
        id: Uuid,
        lte: Option<u64>,
    ) -> Result<Option<Snapshot>, CallFault> {
        match reading::newest(&mut self.connection, self.alloc, id, lte) {
            Ok(found) => Ok(found),
            Err(stop) => Err(counted(&mut self.faults, stop)),
        }
    }

    fn snapshot_at(&mut self, number: u64) -> Result<Option<Snapshot>, CallFault> {
        match reading::snapshot_at(&mut self.connection, self.alloc, number) {
            Ok(found) => Ok(found),
            Err(stop) => Err(counted(&mut self.faults, stop)),
        }
    }
}

impl<S: Alter> ApplicationRecorder for SqliteRecorder<S> {
    fn select_notifications(&mut self, start: u64, limit: u64) -> Result<Notifications, CallFault> {
        match reading::notifications(&mut self.connection, self.alloc, start, limit) {
            Ok(notifications) => Ok(notifications),
            Err(stop) => Err(counted(&mut self.faults, stop)),
        }
    }

    // It reads nothing, and never fails.
    fn max_notification_id(&mut self) -> Result<u64, CallFault> {
        Ok(self.events)
    }

    fn notification_of(&mut self, id: Uuid, version: u64) -> Result<Option<u64>, CallFault> {
        match reading::place(&mut self.connection, id, version) {
            Ok(found) => Ok(found),
            Err(stop) => Err(counted(&mut self.faults, stop)),
        }
    }

    // It reads nothing, and never fails.
    fn recordings(&mut self) -> Result<u64, CallFault> {
        Ok(self.recordings)
    }
}

impl<S: Alter> ProcessRecorder for SqliteRecorder<S> {
    fn max_tracking_id(&mut self, leader: &Text) -> Result<u64, CallFault> {
        match reading::tracked(&mut self.connection, leader) {
            Ok(id) => Ok(id),
            Err(stop) => Err(counted(&mut self.faults, stop)),
        }
    }

    fn has_tracking_id(&mut self, leader: &Text, id: u64) -> Result<bool, CallFault> {
        match reading::is_cause(&mut self.connection, leader, id) {
            Ok(found) => Ok(found),
            Err(stop) => Err(counted(&mut self.faults, stop)),
        }
    }

    // What refuses a recording by what is held is counted as a fault, since that isn't told.
    fn insert(&mut self, recording: &Recording) -> Result<Inserted, InsertFault> {
        match refusal(&mut self.connection, recording) {
            Ok(None) => self.add(recording),
            Ok(Some(_refusal)) => Err(insert_fault(counted(&mut self.faults, Stop::Fault))),
            Err(stop) => Err(insert_fault(counted(&mut self.faults, stop))),
        }
    }
}
