ghost use Rattle.std.specs.Prelude.{◌≡◌, ◌<◌, ◌≤◌, ◌-◌, ◌+◌, ◌==◌, ◌^◌, [], None, All, IfOk, IfSome, IsTrue, length, slice_get, option_map, if◌then◌else◌};
ghost use Rattle.std.specs.List.{list_any};
ghost use Rattle.std.specs.Option.{unwrap_or};
ghost use Rattle.es_model.specs.History.{log, latest, versions_follow, causes_follow};
ghost use Rattle.es_model.specs.Tracking.{tracked_in};
ghost use Rattle.es_recorder.specs.Selections.{notification_of, select_events, select_notifications, tracks};
ghost use Rattle.es_memory.specs.inner.Index.{Stands, Rises};

use crate::cuts::{between, ends};
use crate::index::Index;
use crate::selections::{events_of, notifications_of, ordered, place_of_version};
use crate::walks::{is_tracked, latest_of, tracked_of};
use es_model::{NoMemory, Notifications, Recording, StoredEvents, Text};
use std::alloc::Global;
use uuid::Uuid;

// How many events of the originator are recorded.
pub fn find_latest(history: &[Recording], index: &Option<Index>, id: Uuid) -> u64
    requires few { length (log history.now) < 2 ^ 62 }
    requires stands { IfSome index.now (Stands history.now) }
    ensures count { result ≡ latest (log history.now) id }
    ensures few { result ≤ length (log history.now) }
{
    match index {
        Some(index) => index.places_of(id).len() as u64,
        None => latest_of(history, id),
    }
}

// The last number, or 0 where there is none.
fn last_of(numbers: &[u64]) -> u64
    ensures { result ≡ unwrap_or (slice_get numbers.now (length numbers.now - 1)) 0 }
{
    numbers.last().copied().unwrap_or(0)
}

// The greatest notification id of a leader among the causes, else 0.
pub fn find_tracked(history: &[Recording], index: &Option<Index>, leader: &Text) -> u64
    requires follow { IsTrue (causes_follow [] history.now) }
    requires stands { IfSome index.now (Stands history.now) }
    ensures { result ≡ tracked_in history.now leader.now }
{
    match index {
        Some(index) => last_of(index.ids_of(leader)),
        None => tracked_of(history, leader),
    }
}

// Whether a number is among rising ones.
fn is_among(numbers: &[u64], number: u64) -> bool
    requires { Rises 0 numbers.now }
    ensures { result ≡ list_any (λ n. n == number) numbers.now }
{
    numbers.binary_search(&number).is_ok()
}

// Whether this notification of a leader is among the causes.
pub fn has_tracked(history: &[Recording], index: &Option<Index>, leader: &Text, id: u64) -> bool
    requires follow { IsTrue (causes_follow [] history.now) }
    requires stands { IfSome index.now (Stands history.now) }
    ensures { result ≡ tracks history.now leader.now id }
{
    match index {
        Some(index) => is_among(index.ids_of(leader), id),
        None => is_tracked(history, leader, id),
    }
}

// The place, from 1, of the event with a version, by the places of an originator's events.
fn place_at(places: &[u64], version: u64) -> Option<u64>
    requires { All (λ place. place < 2 ^ 62) places.now }
    ensures { result ≡ (if version == 0 then None else option_map (λ place. place + 1) (slice_get places.now (version - 1))) }
{
    if version == 0 {
        return None;
    }
    match places.get(version as usize - 1) {
        Some(place) => Some(*place + 1),
        None => None,
    }
}

// The place in the log, from 1, of the event of an originator with a version.
pub fn find_place(
    history: &[Recording],
    index: &Option<Index>,
    id: Uuid,
    version: u64,
) -> Option<u64>
    requires few { length (log history.now) < 2 ^ 62 }
    requires follow { IsTrue (versions_follow [] (log history.now)) }
    requires stands { IfSome index.now (Stands history.now) }
    ensures { result ≡ notification_of (log history.now) id version }
{
    match index {
        Some(index) => place_at(index.places_of(id), version),
        None => place_of_version(history, id, version),
    }
}

// The events of an originator with versions between the bounds, in order, the first of them, by the
// places of all.
fn events_by(
    alloc: Global,
    history: &[Recording],
    index: &Index,
    id: Uuid,
    gt: Option<u64>,
    lte: Option<u64>,
    desc: bool,
    limit: Option<u64>,
) -> Result<StoredEvents, NoMemory>
    requires follow { IsTrue (versions_follow [] (log history.now)) }
    requires stands { Stands history.now index.now }
    ensures { IfOk result (λ es. es ≡ select_events (log history.now) id gt lte desc limit) }
{
    let places = ends(between(index.places_of(id), gt, lte), desc, limit);
    let found = index.events_at(alloc, history, places)?;
    Ok(ordered(found, desc, None))
}

// The events of an originator with versions between the bounds, in order, the first of them.
pub fn find_events(
    alloc: Global,
    history: &[Recording],
    index: &Option<Index>,
    id: Uuid,
    gt: Option<u64>,
    lte: Option<u64>,
    desc: bool,
    limit: Option<u64>,
) -> Result<StoredEvents, NoMemory>
    requires follow { IsTrue (versions_follow [] (log history.now)) }
    requires stands { IfSome index.now (Stands history.now) }
    ensures { IfOk result (λ es. es ≡ select_events (log history.now) id gt lte desc limit) }
{
    match index {
        Some(index) => events_by(alloc, history, index, id, gt, lte, desc, limit),
        None => events_of(alloc, history, id, gt, lte, desc, limit),
    }
}

// The notifications with ids from `start` on, at most `limit`, by their places.
fn notifications_by(
    alloc: Global,
    history: &[Recording],
    index: &Index,
    start: u64,
    limit: u64,
) -> Result<Notifications, NoMemory>
    requires few { length (log history.now) < 2 ^ 62 }
    requires stands { Stands history.now index.now }
    ensures { IfOk result (λ ns. ns ≡ select_notifications (log history.now) start limit) }
{
    let from = start.max(1) - 1;
    if from >= index.len() {
        return Ok(Notifications::new(alloc));
    }
    let count = limit.min(index.len() - from);
    index.notifications_at(alloc, history, from, from + count)
}

// The notifications with ids from `start` on, at most `limit`.
pub fn find_notifications(
    alloc: Global,
    history: &[Recording],
    index: &Option<Index>,
    start: u64,
    limit: u64,
) -> Result<Notifications, NoMemory>
    requires few { length (log history.now) < 2 ^ 62 }
    requires stands { IfSome index.now (Stands history.now) }
    ensures { IfOk result (λ ns. ns ≡ select_notifications (log history.now) start limit) }
{
    match index {
        Some(index) => notifications_by(alloc, history, index, start, limit),
        None => notifications_of(alloc, history, start, limit),
    }
}
