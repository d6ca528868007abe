ghost use Rattle.std.specs.Prelude.{◌≡◌, ◌<◌, ◌≤◌, ◌+◌, ◌++◌, ◌^◌, ◌&&◌, IfOk, IfSome, OnOk, length, reverse, take, if◌then◌else◌};
ghost use Rattle.std.specs.List.{position_from};
ghost use Rattle.es_model.specs.History.{log};
ghost use Rattle.es_recorder.specs.Selections.{is_above, is_upto, first_of, events_between, select_events, ids_from, numbered_from, select_notifications, is_version, notification_of};

use es_model::{
    Duplicate, NoMemory, Notification, Notifications, Recording, StoredEvent, StoredEvents,
};
use std::alloc::Global;
use uuid::Uuid;

// Whether a version is at most a bound that is given.
pub fn is_at_most(version: u64, lte: Option<u64>) -> bool
    ensures { result ≡ is_upto lte version }
{
    match lte {
        Some(lte) => version <= lte,
        None => true,
    }
}

// Whether a version is above one bound and at most the other.
fn is_between(version: u64, gt: Option<u64>, lte: Option<u64>) -> bool
    ensures { result ≡ (is_above gt version && is_upto lte version) }
{
    let is_past = match gt {
        Some(gt) => gt < version,
        None => true,
    };
    is_past && is_at_most(version, lte)
}

// Adds the events of an originator with versions between the bounds.
fn add_between(
    found: &mut StoredEvents,
    events: &[StoredEvent],
    id: Uuid,
    gt: Option<u64>,
    lte: Option<u64>,
) -> Result<(), NoMemory>
    ensures { OnOk result (found.new ≡ found.old ++ events_between events.now id gt lte) }
{
    for event in events {
        if event.originator_id == id && is_between(event.originator_version, gt, lte) {
            found.push(event.copy()?)?;
        }
    }
    Ok(())
}

// The first events, in this order or from the last one on.
pub fn ordered(found: StoredEvents, desc: bool, limit: Option<u64>) -> StoredEvents
    ensures { result ≡ first_of limit (if desc then reverse found else found) }
{
    let mut events = found.into_vec();
    if desc {
        events.reverse();
    }
    if let Some(limit) = limit {
        events.truncate(limit as usize);
    }
    StoredEvents::from_vec(events)
}

// The events of an originator with versions between the bounds, in order, the first of them.
pub fn events_of(
    alloc: Global,
    history: &[Recording],
    id: Uuid,
    gt: Option<u64>,
    lte: Option<u64>,
    desc: bool,
    limit: Option<u64>,
) -> Result<StoredEvents, NoMemory>
    ensures { IfOk result (λ es. es ≡ select_events (log history.now) id gt lte desc limit) }
{
    let mut found = StoredEvents::new(alloc);
    for recording in history {
        add_between(&mut found, recording.events.as_slice(), id, gt, lte)?;
    }
    Ok(ordered(found, desc, limit))
}

// Adds the notifications of events after so many others, with ids from `start` on, up to `limit`
// in all.
fn add_notifications(
    found: &mut Notifications,
    events: &[StoredEvent],
    before: u64,
    start: u64,
    limit: u64,
) -> Result<(), NoMemory>
    requires room { before + length events.now < 2 ^ 62 }
    requires few { length found.old ≤ limit }
    ensures added { OnOk result (found.new ≡ take limit (found.old ++ ids_from start (numbered_from (before + 1) events.now))) }
    ensures few { length found.new ≤ limit }
{
    for (i, event) in events.iter().enumerate() {
        let id = before + i as u64 + 1;
        if start <= id && (found.len() as u64) < limit {
            found.push(Notification {
                id,
                event: event.copy()?,
            })?;
        }
    }
    Ok(())
}

// The notifications with ids from `start` on, at most `limit`.
pub fn notifications_of(
    alloc: Global,
    history: &[Recording],
    start: u64,
    limit: u64,
) -> Result<Notifications, NoMemory>
    requires { length (log history.now) < 2 ^ 62 }
    ensures { IfOk result (λ ns. ns ≡ select_notifications (log history.now) start limit) }
{
    let mut found = Notifications::new(alloc);
    let mut before = 0u64;
    for recording in history {
        if found.len() as u64 >= limit {
            return Ok(found);
        }
        let events = recording.events.as_slice();
        add_notifications(&mut found, events, before, start, limit)?;
        before += events.len() as u64;
    }
    Ok(found)
}

// The place among events, from 0, of the first of an originator with a version.
fn first_place(events: &[StoredEvent], id: Uuid, version: u64) -> Option<usize>
    ensures place { result ≡ position_from (is_version id version) 0 events.now }
    ensures within { IfSome result (λ at. at < length events.now) }
{
    events.iter().position(|e| e.originator_id == id && e.originator_version == version)
}

// The place in the log, from 1, of the event of an originator with a version.
pub fn place_of_version(history: &[Recording], id: Uuid, version: u64) -> Option<u64>
    requires { length (log history.now) < 2 ^ 62 }
    ensures { result ≡ notification_of (log history.now) id version }
{
    let mut before = 0u64;
    for recording in history {
        let events = recording.events.as_slice();
        if let Some(at) = first_place(events, id, version) {
            return Some(before + at as u64 + 1);
        }
        before += events.len() as u64;
    }
    None
}
