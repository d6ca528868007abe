//! What is written to the tables: each statement in a function of its own, and the transactions
//! round them. A transaction that isn't committed leaves nothing.

ghost use Rattle.std.specs.Prelude.{◌≡◌, ◌≤◌, ◌<◌, ◌^◌, ◌+◌, false, length, All};
ghost use Rattle.sqlite.specs.State.{Survives};
ghost use Rattle.sqlite.specs.Held.{state};
ghost use Rattle.es_model.specs.Snapshots.{IsSmallSnapshot};
ghost use Rattle.es_recorder.specs.Insert.{IsInsertable, IdIsSmall};
ghost use Rattle.es_sqlite.specs.Commits.{CommitsOnce, CommitsNothing, IsCommitted};

use crate::statements::{
    DELETE_SNAPSHOT, INSERT_EVENT, INSERT_RECORDING, INSERT_SNAPSHOT, INSERT_TRACKING,
    UPDATE_TRACKING,
};
use crate::stop::Stop;
use crate::values::cause_values;
use es_model::{Cause, Recording, Snapshot, StoredEvent};
use es_recorder::Inserted;
use sqlite::types::ValueRef;
use sqlite::{Alter, Connection, Error, Transaction};

fn put_recording<S: Alter>(
    tx: &mut Transaction<'_, S>,
    number: u64,
    recording: &Recording,
) -> Result<usize, Error>
    requires number { number < 2 ^ 62 }
    requires cause { IdIsSmall recording.now.cause }
    ensures same_reference { tx.new.conn.ghost_name ≡ tx.old.conn.ghost_name }
    ensures survives { Survives (state S.Store tx.old.conn.now) (state S.Store tx.new.conn.now) (λ _. ⊥) }
{
    let [command, leader, position] = cause_values(&recording.cause);
    tx.execute(
        INSERT_RECORDING,
        &[
            ValueRef::Int(number as i64),
            ValueRef::Int(recording.at.micros()),
            command,
            leader,
            position,
        ],
    )
}

fn put_event<S: Alter>(
    tx: &mut Transaction<'_, S>,
    notification: u64,
    recording: u64,
    event: &StoredEvent,
) -> Result<usize, Error>
    requires notification { notification < 2 ^ 62 }
    requires recording { recording < 2 ^ 62 }
    requires version { event.now.originator_version < 2 ^ 63 }
    ensures same_reference { tx.new.conn.ghost_name ≡ tx.old.conn.ghost_name }
    ensures survives { Survives (state S.Store tx.old.conn.now) (state S.Store tx.new.conn.now) (λ _. ⊥) }
{
    tx.execute(
        INSERT_EVENT,
        &[
            ValueRef::Int(notification as i64),
            ValueRef::Int(recording as i64),
            ValueRef::Blob(event.originator_id.as_bytes().as_slice()),
            ValueRef::Int(event.originator_version as i64),
            ValueRef::Text(event.topic.as_str().as_bytes()),
            ValueRef::Blob(event.state.as_slice()),
        ],
    )
}

fn put_events<S: Alter>(
    tx: &mut Transaction<'_, S>,
    first: u64,
    recording: u64,
    events: &[StoredEvent],
) -> Result<(), Error>
    requires first { first + length events.now ≤ 2 ^ 62 }
    requires recording { recording < 2 ^ 62 }
    requires versions { All (λ e. e.originator_version < 2 ^ 63) events.now }
    ensures same_reference { tx.new.conn.ghost_name ≡ tx.old.conn.ghost_name }
    ensures survives { Survives (state S.Store tx.old.conn.now) (state S.Store tx.new.conn.now) (λ _. ⊥) }
{
    let mut notification = first;
    for event in events {
        put_event(tx, notification, recording, event)?;
        notification += 1;
    }
    Ok(())
}

fn add_tracking<S: Alter>(
    tx: &mut Transaction<'_, S>,
    leader: &str,
    position: i64,
) -> Result<usize, Error>
    ensures same_reference { tx.new.conn.ghost_name ≡ tx.old.conn.ghost_name }
    ensures survives { Survives (state S.Store tx.old.conn.now) (state S.Store tx.new.conn.now) (λ _. ⊥) }
{
    tx.execute(
        INSERT_TRACKING,
        &[ValueRef::Text(leader.as_bytes()), ValueRef::Int(position)],
    )
}

// Answers how many leaders there are of that name.
fn change_tracking<S: Alter>(
    tx: &mut Transaction<'_, S>,
    leader: &str,
    position: i64,
) -> Result<usize, Error>
    ensures same_reference { tx.new.conn.ghost_name ≡ tx.old.conn.ghost_name }
    ensures survives { Survives (state S.Store tx.old.conn.now) (state S.Store tx.new.conn.now) (λ _. ⊥) }
{
    tx.execute(
        UPDATE_TRACKING,
        &[ValueRef::Text(leader.as_bytes()), ValueRef::Int(position)],
    )
}

// Tracks a leader up to a position.
fn put_tracking<S: Alter>(
    tx: &mut Transaction<'_, S>,
    leader: &str,
    position: i64,
) -> Result<usize, Error>
    ensures same_reference { tx.new.conn.ghost_name ≡ tx.old.conn.ghost_name }
    ensures survives { Survives (state S.Store tx.old.conn.now) (state S.Store tx.new.conn.now) (λ _. ⊥) }
{
    let changed = change_tracking(tx, leader, position)?;
    if changed > 0 {
        return Ok(changed);
    }
    add_tracking(tx, leader, position)
}

// Tracks the notification of a cause.
fn track<S: Alter>(tx: &mut Transaction<'_, S>, cause: &Cause) -> Result<usize, Error>
    requires { IdIsSmall cause.now }
    ensures same_reference { tx.new.conn.ghost_name ≡ tx.old.conn.ghost_name }
    ensures survives { Survives (state S.Store tx.old.conn.now) (state S.Store tx.new.conn.now) (λ _. ⊥) }
{
    match cause {
        Cause::Command { text: _ } => Ok(0),
        Cause::Notification { leader, id } => put_tracking(tx, leader.as_str(), *id as i64),
    }
}

// Writes all rows of a recording.
fn put_rows<S: Alter>(
    tx: &mut Transaction<'_, S>,
    recording: &Recording,
    numbers: &Inserted,
) -> Result<usize, Error>
    requires insertable { IsInsertable recording.now }
    requires number { numbers.now.recording < 2 ^ 62 }
    requires first { numbers.now.first + length recording.now.events ≤ 2 ^ 62 }
    ensures same_reference { tx.new.conn.ghost_name ≡ tx.old.conn.ghost_name }
    ensures survives { Survives (state S.Store tx.old.conn.now) (state S.Store tx.new.conn.now) (λ _. ⊥) }
{
    put_recording(tx, numbers.recording, recording)?;
    put_events(
        tx,
        numbers.first,
        numbers.recording,
        recording.events.as_slice(),
    )?;
    track(tx, &recording.cause)
}

/// Adds a recording with its events and its tracking. Where the commit fails, the recording may
/// still be there after a stop, so want of memory in it is a fault too.
pub(crate) fn add<S: Alter>(
    conn: &mut Connection<S>,
    recording: &Recording,
    numbers: &Inserted,
) -> Result<(), Stop>
    requires between { conn.old.in_transaction ≡ false }
    requires insertable { IsInsertable recording.now }
    requires number { numbers.now.recording < 2 ^ 62 }
    requires first { numbers.now.first + length recording.now.events ≤ 2 ^ 62 }
    ensures between { conn.new.in_transaction ≡ false }
    ensures once { CommitsOnce (state S.Store conn.old) (state S.Store conn.new) }
    ensures memory { CommitsNothing (state S.Store conn.old) (state S.Store conn.new) result }
    ensures committed { IsCommitted (state S.Store conn.new) result }
{
    let mut tx = conn.transaction();
    put_rows(&mut tx, recording, numbers)?;
    let added = tx.commit();
    match added {
        Ok(()) => Ok(()),
        Err(_uncertain) => Err(Stop::Fault),
    }
}

fn drop_snapshot<S: Alter>(tx: &mut Transaction<'_, S>, snapshot: &Snapshot) -> Result<usize, Error>
    requires { IsSmallSnapshot snapshot.now }
    ensures same_reference { tx.new.conn.ghost_name ≡ tx.old.conn.ghost_name }
    ensures survives { Survives (state S.Store tx.old.conn.now) (state S.Store tx.new.conn.now) (λ _. ⊥) }
{
    tx.execute(
        DELETE_SNAPSHOT,
        &[
            ValueRef::Blob(snapshot.originator_id.as_bytes().as_slice()),
            ValueRef::Int(snapshot.originator_version as i64),
        ],
    )
}

fn put_snapshot<S: Alter>(
    tx: &mut Transaction<'_, S>,
    number: u64,
    snapshot: &Snapshot,
) -> Result<usize, Error>
    requires number { number < 2 ^ 62 }
    requires small { IsSmallSnapshot snapshot.now }
    ensures same_reference { tx.new.conn.ghost_name ≡ tx.old.conn.ghost_name }
    ensures survives { Survives (state S.Store tx.old.conn.now) (state S.Store tx.new.conn.now) (λ _. ⊥) }
{
    tx.execute(
        INSERT_SNAPSHOT,
        &[
            ValueRef::Int(number as i64),
            ValueRef::Blob(snapshot.originator_id.as_bytes().as_slice()),
            ValueRef::Int(snapshot.originator_version as i64),
            ValueRef::Text(snapshot.topic.as_str().as_bytes()),
            ValueRef::Int(snapshot.class_version as i64),
            ValueRef::Int(snapshot.created_on.micros()),
            ValueRef::Int(snapshot.modified_on.micros()),
            ValueRef::Blob(snapshot.state.as_slice()),
        ],
    )
}

// Takes away the snapshot of the same aggregate and version, and writes the new one.
fn replace_snapshot<S: Alter>(
    tx: &mut Transaction<'_, S>,
    number: u64,
    snapshot: &Snapshot,
) -> Result<usize, Error>
    requires number { number < 2 ^ 62 }
    requires small { IsSmallSnapshot snapshot.now }
    ensures same_reference { tx.new.conn.ghost_name ≡ tx.old.conn.ghost_name }
    ensures survives { Survives (state S.Store tx.old.conn.now) (state S.Store tx.new.conn.now) (λ _. ⊥) }
{
    drop_snapshot(tx, snapshot)?;
    put_snapshot(tx, number, snapshot)
}

/// Puts a snapshot last, in place of the one of its aggregate and version.
pub(crate) fn add_snapshot<S: Alter>(
    conn: &mut Connection<S>,
    number: u64,
    snapshot: &Snapshot,
) -> Result<(), Stop>
    requires between { conn.old.in_transaction ≡ false }
    requires number { number < 2 ^ 62 }
    requires small { IsSmallSnapshot snapshot.now }
    ensures between { conn.new.in_transaction ≡ false }
    ensures once { CommitsOnce (state S.Store conn.old) (state S.Store conn.new) }
    ensures memory { CommitsNothing (state S.Store conn.old) (state S.Store conn.new) result }
    ensures committed { IsCommitted (state S.Store conn.new) result }
{
    let mut tx = conn.transaction();
    replace_snapshot(&mut tx, number, snapshot)?;
    let put = tx.commit();
    match put {
        Ok(()) => Ok(()),
        Err(_) => Err(Stop::Fault),
    }
}
