ghost use Rattle.std.specs.Prelude.{◌≡◌, ◌<◌, ◌≤◌, ◌^◌, length};
ghost use Rattle.es_model.specs.History.{log, latest};
ghost use Rattle.es_model.specs.Tracking.{tracked_in, id_from};
ghost use Rattle.es_recorder.specs.Selections.{tracks, is_notification};

use es_model::{Cause, Recording, StoredEvent, Text};
use uuid::Uuid;

// How many of these events are of the originator.
pub fn own_count(events: &[StoredEvent], id: Uuid) -> usize
    ensures count { result ≡ latest events.now id }
    ensures few { result ≤ length events.now }
{
    events.iter().filter(|e| e.originator_id == id).count()
}

// How many events of the originator are recorded.
pub fn latest_of(history: &[Recording], id: Uuid) -> u64
    requires { length (log history.now) < 2 ^ 62 }
    ensures count { result ≡ latest (log history.now) id }
    ensures few { result ≤ length (log history.now) }
{
    let mut count = 0u64;
    for recording in history {
        count += own_count(recording.events.as_slice(), id) as u64;
    }
    count
}

// The notification id that a cause has of a leader, else 0.
fn id_of(cause: &Cause, leader: &Text) -> u64
    ensures { result ≡ id_from cause.now leader.now }
{
    match cause {
        Cause::Command { text: _ } => 0,
        Cause::Notification { leader: from, id } => {
            if from.as_str() == leader.as_str() {
                *id
            } else {
                0
            }
        }
    }
}

// The greatest notification id of a leader among the causes, else 0.
pub fn tracked_of(history: &[Recording], leader: &Text) -> u64
    ensures { result ≡ tracked_in history.now leader.now }
{
    let mut tracked = 0u64;
    for recording in history {
        tracked = tracked.max(id_of(&recording.cause, leader));
    }
    tracked
}

// Whether a cause is this notification of a leader.
fn is_cause(cause: &Cause, leader: &Text, id: u64) -> bool
    ensures { result ≡ is_notification leader.now id cause.now }
{
    match cause {
        Cause::Command { text: _ } => false,
        Cause::Notification {
            leader: from,
            id: n,
        } => from.as_str() == leader.as_str() && *n == id,
    }
}

// Whether this notification of a leader is among the causes.
pub fn is_tracked(history: &[Recording], leader: &Text, id: u64) -> bool
    ensures { result ≡ tracks history.now leader.now id }
{
    history.iter().any(|r| is_cause(&r.cause, leader, id))
}
