//! Why a recording can't be added, in the order in which the reasons are tried.

ghost use Rattle.std.specs.Prelude.{◌≡◌, ◌≤◌, ◌<◌, ◌^◌, ◌+◌, false, length, IsTrue};

use crate::reading::{latest, tracked};
use crate::stop::Stop;
use es_model::{Cause, Duplicate, Recording, StoredEvent};
use es_recorder::InsertFault;
use sqlite::{Alter, Connection};
use std::alloc::Global;
use uuid::Uuid;

// How many events are of an originator.
fn count_of(events: &[StoredEvent], id: Uuid) -> u64
    ensures { result ≤ length events.now }
{
    let mut count = 0u64;
    for event in events {
        if event.originator_id == id {
            count += 1;
        }
    }
    count
}

// The first event that isn't the next version of its originator.
fn conflict_of<S: Alter>(
    conn: &mut Connection<S>,
    events: &[StoredEvent],
) -> Result<Option<InsertFault>, Stop>
    ensures mode { conn.old.in_transaction ≡ false → conn.new.in_transaction ≡ false }
{
    for at in 0..events.len() {
        let id = events[at].originator_id;
        let version = events[at].originator_version;
        let latest = latest(conn, id)? + count_of(&events[..at], id);
        if version != latest + 1 {
            return Ok(Some(InsertFault::Conflict {
                id,
                version,
                latest,
            }));
        }
    }
    Ok(None)
}

// A cause that is tracked already.
fn repeat_of<S: Alter>(conn: &mut Connection<S>, cause: &Cause) -> Result<Option<InsertFault>, Stop>
    ensures mode { conn.old.in_transaction ≡ false → conn.new.in_transaction ≡ false }
{
    match cause {
        Cause::Command { text: _ } => Ok(None),
        Cause::Notification { leader, id } => {
            let tracked = tracked(conn, leader)?;
            if *id > tracked {
                return Ok(None);
            }
            Ok(Some(InsertFault::Tracking {
                leader: leader.copy()?,
                id: *id,
                tracked,
            }))
        }
    }
}

/// Why a recording doesn't come next, if it doesn't.
pub(crate) fn refusal<S: Alter>(
    conn: &mut Connection<S>,
    recording: &Recording,
) -> Result<Option<InsertFault>, Stop>
    ensures mode { conn.old.in_transaction ≡ false → conn.new.in_transaction ≡ false }
{
    match conflict_of(conn, recording.events.as_slice())? {
        Some(conflict) => Ok(Some(conflict)),
        None => repeat_of(conn, &recording.cause),
    }
}

/// Whether so many new events don't fit after the last one.
pub(crate) fn is_full(capacity: u64, last: u64, events: &[StoredEvent]) -> bool
    requires { capacity < 2 ^ 62 }
    ensures full { IsTrue result → (0 < length events.now) × (capacity < last + length events.now) }
    ensures fits { result ≡ false → last < 2 ^ 62 → last + length events.now < 2 ^ 62 }
{
    let new = events.len() as u64;
    new > 0 && (last > capacity || new > capacity - last)
}
