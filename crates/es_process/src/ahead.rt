//! Whether a follower tracks more of a leader than there is.
ghost use Rattle.std.specs.Prelude.{◌≡◌, List, [], ◌∷◌, ℕ, Option, Some, None, IfOk, IfErr, IfSome, IsErrOf};
ghost use Rattle.es_io.specs.Readings.{Readings};
ghost use Rattle.es_decl.specs.Pairs.{pairs_of};
ghost use Rattle.es_process.specs.Answer.{Options};
ghost use Rattle.es_process.specs.Contents.{Contents};
ghost use Rattle.es_process.specs.Drains.{AreApps, IsPairOf, names_of_pair};
ghost use Rattle.es_process.specs.Reached.{ahead};
ghost use Rattle.es_process.specs.inner.Following.{AreNumbers, ahead_by};
ghost use Rattle.es_process.specs.Standing.{State, Holds, AllStay, SomeRose, names_in};

use crate::Application;
use crate::pairs::{Pair, placed_pairs};
use es_model::{CallFault, Duplicate, NoMemory, System, Text};
use es_recorder::ProcessRecorder;
use std::alloc::Global;

/// A follower that tracks a notification past its leader's last one.
#[derive(Debug, Drop)]
pub struct Ahead {
    pub app: Text,
    pub leader: Text,
    pub tracked: u64,
    pub last: u64,
}

// The last notification of its leader that the follower of a pair tracks, and the leader's last one.
fn numbers_of<R: ProcessRecorder>(
    apps: &mut [Application<R>],
    sys: &System,
    pair: &Pair,
) -> Result<(u64, u64), CallFault>
    requires { IsPairOf sys.now (names_in apps.old) pair.now }
    ensures told { (base : Contents) (options : Options) (readings : Option Readings) (s : State) → Holds R.history R.settled R.snapshots R.capacity base options apps.old readings s → IfOk result (AreNumbers s.contents.histories (names_of_pair pair.now)) }
    ensures holds { (base : Contents) (options : Options) (readings : Option Readings) (s : State) → Holds R.history R.settled R.snapshots R.capacity base options apps.old readings s → Holds R.history R.settled R.snapshots R.capacity base options apps.new readings s }
    ensures same { AllStay R.faults apps.old apps.new }
    ensures failed { IsErrOf result CallFault.Failed → SomeRose R.faults apps.old apps.new }
{
    let tracked = match apps[pair.follower].tracked(&pair.leader_name) {
        Ok(tracked) => tracked,
        Err(fault) => return Err(fault),
    };
    match apps[pair.leader].last_notification() {
        Ok(last) => Ok((tracked, last)),
        Err(fault) => Err(fault),
    }
}

// That the follower of a pair is ahead of its leader, where its number is past the leader's.
fn ahead_by(pair: &Pair, tracked: u64, last: u64) -> Result<Option<Ahead>, NoMemory>
    ensures { IfOk result (λ found. found ≡ ahead_by (names_of_pair pair.now) tracked last) }
{
    if tracked <= last {
        return Ok(None);
    }
    let app = pair.follower_name.copy()?;
    let leader = pair.leader_name.copy()?;
    Ok(Some(Ahead {
        app,
        leader,
        tracked,
        last,
    }))
}

// Whether the follower of a pair is ahead of its leader.
fn ahead_of<R: ProcessRecorder>(
    apps: &mut [Application<R>],
    sys: &System,
    pair: &Pair,
) -> Result<Option<Ahead>, CallFault>
    requires { IsPairOf sys.now (names_in apps.old) pair.now }
    ensures told { (base : Contents) (options : Options) (readings : Option Readings) (s : State) → Holds R.history R.settled R.snapshots R.capacity base options apps.old readings s → IfOk result (λ found. found ≡ ahead (names_of_pair pair.now ∷ []) s.contents.histories) }
    ensures holds { (base : Contents) (options : Options) (readings : Option Readings) (s : State) → Holds R.history R.settled R.snapshots R.capacity base options apps.old readings s → Holds R.history R.settled R.snapshots R.capacity base options apps.new readings s }
    ensures same { AllStay R.faults apps.old apps.new }
    ensures failed { IsErrOf result CallFault.Failed → SomeRose R.faults apps.old apps.new }
{
    match numbers_of(apps, sys, pair) {
        Ok(numbers) => Ok(ahead_by(pair, numbers.0, numbers.1)?),
        Err(fault) => Err(fault),
    }
}

/// The first pair, in the order of pairs, whose follower tracks a notification past its leader's last one. The applications are all
/// those of the system, in its order.
pub fn find_ahead<R: ProcessRecorder>(
    alloc: Global,
    sys: &System,
    apps: &mut [Application<R>],
) -> Result<Option<Ahead>, CallFault>
    requires { AreApps sys.now (names_in apps.old) }
    ensures told { (base : Contents) (options : Options) (readings : Option Readings) (s : State) → Holds R.history R.settled R.snapshots R.capacity base options apps.old readings s → IfOk result (λ found. found ≡ ahead (pairs_of sys.now.pipes) s.contents.histories) }
    ensures holds { (base : Contents) (options : Options) (readings : Option Readings) (s : State) → Holds R.history R.settled R.snapshots R.capacity base options apps.old readings s → Holds R.history R.settled R.snapshots R.capacity base options apps.new readings s }
    ensures same { AllStay R.faults apps.old apps.new }
    ensures failed { IsErrOf result CallFault.Failed → SomeRose R.faults apps.old apps.new }
{
    let pairs = placed_pairs(alloc, sys)?;
    for pair in pairs.as_slice() {
        match ahead_of(apps, sys, pair) {
            Ok(None) => {}
            Ok(Some(found)) => return Ok(Some(found)),
            Err(fault) => return Err(fault),
        }
    }
    Ok(None)
}
