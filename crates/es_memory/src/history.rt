ghost use Rattle.std.specs.Prelude.{◌≡◌, ◌<◌, ◌≤◌, ◌^◌, ◌↔◌, ◌&&◌, [], IfOk, IfSome, IfNone, IsTrue, length};
ghost use Rattle.es_model.specs.History.{log, IsFormed, versions_follow, causes_follow, cause_follows};
ghost use Rattle.es_recorder.specs.Insert.{first_conflict, repeated, too_many};
ghost use Rattle.es_memory.specs.inner.Index.{Stands};

use crate::index::{Index, grown};
use crate::lookups::{find_latest, find_tracked};
use crate::walks::own_count;
use es_model::limits::NUMBERS_END;
use es_model::{Cause, Duplicate, NoMemory, Recording, Recordings, StoredEvent};
use es_recorder::InsertFault;
use std::alloc::Global;

// The first event that isn't the next version of its originator.
pub fn conflict_of(
    history: &[Recording],
    index: &Option<Index>,
    events: &[StoredEvent],
) -> Option<InsertFault>
    requires few { length (log history.now) < 2 ^ 62 }
    requires stands { IfSome index.now (Stands history.now) }
    ensures { result ≡ first_conflict (log history.now) events.now }
{
    for (i, event) in events.iter().enumerate() {
        let id = event.originator_id;
        let latest = find_latest(history, index, id) + own_count(&events[..i], id) as u64;
        if event.originator_version != latest + 1 {
            return Some(InsertFault::Conflict {
                id,
                version: event.originator_version,
                latest,
            });
        }
    }
    None
}

// A notification that is tracked already.
pub fn repeat_of(
    history: &[Recording],
    index: &Option<Index>,
    cause: &Cause,
) -> Result<Option<InsertFault>, NoMemory>
    requires follow { IsTrue (causes_follow [] history.now) }
    requires stands { IfSome index.now (Stands history.now) }
    ensures { IfOk result (λ found. found ≡ repeated history.now cause.now) }
{
    match cause {
        Cause::Command { text: _ } => Ok(None),
        Cause::Notification { leader, id } => {
            let tracked = find_tracked(history, index, leader);
            if *id <= tracked {
                Ok(Some(InsertFault::Tracking {
                    leader: leader.copy()?,
                    id: *id,
                    tracked,
                }))
            } else {
                Ok(None)
            }
        }
    }
}

// Events that don't fit any more.
pub fn overflow_of(capacity: u64, last: u64, events: &[StoredEvent]) -> Option<InsertFault>
    requires { last < 2 ^ 62 }
    ensures { result ≡ too_many capacity last events.now }
{
    if !events.is_empty() && capacity < last + events.len() as u64 {
        Some(InsertFault::Full { last, capacity })
    } else {
        None
    }
}

// How many events there are, unless they are too many.
pub fn count_events(history: &[Recording]) -> Option<u64>
    ensures few { IfSome result (λ n. (n ≡ length (log history.now)) × (n < 2 ^ 62)) }
    ensures many { IfNone result (2 ^ 62 ≤ length (log history.now)) }
{
    let mut count = 0u64;
    for recording in history {
        let more = recording.events.len() as u64;
        if more >= NUMBERS_END - count {
            return None;
        }
        count += more;
    }
    Some(count)
}

// Whether a cause may come after a history.
fn cause_comes(history: &[Recording], index: &Option<Index>, cause: &Cause) -> bool
    requires follow { IsTrue (causes_follow [] history.now) }
    requires stands { IfSome index.now (Stands history.now) }
    ensures { result ≡ cause_follows history.now cause.now }
{
    match cause {
        Cause::Command { text: _ } => true,
        Cause::Notification { leader, id } => {
            find_tracked(history, index, leader) < *id && *id < NUMBERS_END
        }
    }
}

// Whether the versions of events may come after a history.
fn versions_come(history: &[Recording], index: &Option<Index>, events: &[StoredEvent]) -> bool
    requires few { length (log history.now) < 2 ^ 62 }
    requires stands { IfSome index.now (Stands history.now) }
    ensures { result ≡ versions_follow (log history.now) events.now }
{
    conflict_of(history, index, events).is_none()
}

// Whether a recording may come after a history.
fn comes(history: &[Recording], index: &Option<Index>, recording: &Recording) -> bool
    requires few { length (log history.now) < 2 ^ 62 }
    requires follow { IsTrue (causes_follow [] history.now) }
    requires stands { IfSome index.now (Stands history.now) }
    ensures { result ≡ (versions_follow (log history.now) recording.now.events && cause_follows history.now recording.now.cause) }
{
    versions_come(history, index, recording.events.as_slice())
        && cause_comes(history, index, &recording.cause)
}

// Whether each version and each cause may come after what is before it.
fn all_come(alloc: Global, history: &[Recording]) -> bool
    requires { length (log history.now) < 2 ^ 62 }
    ensures { result ≡ (versions_follow [] (log history.now) && causes_follow [] history.now) }
{
    let mut index = Some(Index::new(alloc));
    let mut before = 0u64;
    for (i, recording) in history.iter().enumerate() {
        if !comes(&history[..i], &index, recording) {
            return false;
        }
        index = grown(alloc, index, i, before, recording);
        before += recording.events.len() as u64;
    }
    true
}

/// Whether a recorder may hold this history. Where memory for an index is wanting it takes longer.
pub fn is_formed(history: &Recordings) -> bool
    ensures { IsTrue result ↔ IsFormed history.now }
{
    let recordings = history.as_slice();
    if recordings.len() as u64 >= NUMBERS_END || count_events(recordings).is_none() {
        return false;
    }
    all_come(history.allocator(), recordings)
}
