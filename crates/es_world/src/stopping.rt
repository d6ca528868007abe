//! What a stop takes away.
ghost use Rattle.std.specs.Prelude.{◌≡◌, ◌-◌, ◌&&◌, List, map, not, length, take};
ghost use Rattle.es_model.specs.History.{IsFormed};
ghost use Rattle.es_process.specs.SingleThread.{is_among as among};
ghost use Rattle.es_world.specs.Told.{AreFormed, histories_in};
ghost use Rattle.es_world.specs.World.{left_of};

use crate::AppHistory;
use es_model::{Recordings, Text};
use std::alloc::Global;
use std::mem;

/// Whether a name is among these.
pub(crate) fn is_among(names: &[Text], name: &Text) -> bool
    ensures { result ≡ among name.now names.now }
{
    names.iter().any(|other| other.as_str() == name.as_str())
}

// Takes the last recording of an application away.
fn drop_last(alloc: Global, held: &mut AppHistory)
    requires { IsFormed held.old.recordings }
    ensures left { held.new.recordings ≡ take (length held.old.recordings - 1) held.old.recordings }
    ensures formed { IsFormed held.new.recordings }
    ensures named { held.new.app ≡ held.old.app }
{
    let mut recordings = mem::replace(&mut held.recordings, Recordings::new(alloc)).into_vec();
    let _ = recordings.pop();
    held.recordings = Recordings::from_vec(recordings);
}

// Takes the doubtful recording of an application away, where it has one that isn't kept.
fn settle(alloc: Global, held: &mut AppHistory, down: &[Text], kept: &[Text])
    requires { IsFormed held.old.recordings }
    ensures left { held.new.recordings ≡ left_of (among held.old.app down.now && not (among held.old.app kept.now)) held.old.recordings }
    ensures formed { IsFormed held.new.recordings }
    ensures named { held.new.app ≡ held.old.app }
{
    if is_among(down, &held.app) && !is_among(kept, &held.app) {
        drop_last(alloc, held);
    }
}

/// Takes the doubtful recordings away that aren't kept.
pub(crate) fn settle_each(alloc: Global, histories: &mut [AppHistory], down: &[Text], kept: &[Text])
    requires { AreFormed histories.old }
    ensures left { histories_in histories.new ≡ (λ app. left_of (among app down.now && not (among app kept.now)) (histories_in histories.old app)) }
    ensures formed { AreFormed histories.new }
    ensures named { map (λ a. a.app) histories.new ≡ map (λ a. a.app) histories.old }
{
    for held in histories.iter_mut() {
        settle(alloc, held, down, kept);
    }
}
