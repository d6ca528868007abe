//! The pairs of a system, at the places of their applications.
ghost use Rattle.std.specs.Prelude.{◌≡◌, map, Contains, slice_get, Some, IfOk};
ghost use Rattle.std.specs.List.{position};
ghost use Rattle.std.specs.Str.{bytes_eq};
ghost use Rattle.es_model.specs.Values.{Name};
ghost use Rattle.es_expr.specs.Checked.{IsCheckedSystem};
ghost use Rattle.es_decl.specs.Pairs.{leaders_in, pairs_of};
ghost use Rattle.es_process.specs.Drains.{ArePairs, IsPairOf, names_of_pair};
ghost use Rattle.es_process.specs.SingleThread.{is_among};
ghost use Rattle.es_process.specs.SystemRules.{app_names};

use es_decl::{leaders, pairs};
use es_model::{App, Duplicate, NoMemory, System, Text};
use std::alloc::Global;

/// A leader and its follower, by their places among the opened applications and by their names.
#[derive(Debug, Drop)]
pub struct Pair {
    pub leader: usize,
    pub follower: usize,
    pub leader_name: Text,
    pub follower_name: Text,
    /// Whether the follower leads another application.
    pub leads_on: bool,
}

// The place of the first application of a name.
fn position_of(apps: &[App], name: &Text) -> Option<usize>
    ensures { result ≡ position (λ a. bytes_eq a.name name.now) apps.now }
{
    apps.iter()
        .position(|app| app.name.as_str() == name.as_str())
}

// The place of an application of a name that is declared.
fn place_of(apps: &[App], name: &Text) -> usize
    requires { Contains (map (λ a. a.name) apps.now) name.now }
    ensures { slice_get (map (λ a. a.name) apps.now) result ≡ Some name.now }
{
    position_of(apps, name).unwrap()
}

// Whether a name is among some.
fn is_among(names: &[Text], name: &Text) -> bool
    ensures { result ≡ is_among name.now names.now }
{
    names.iter().any(|other| other.as_str() == name.as_str())
}

// One pair of a system, with the places of its applications.
fn pair_of(sys: &System, leaders: &[Text], leader: &Text, follower: &Text) -> Result<Pair, NoMemory>
    requires checked { IsCheckedSystem sys.now }
    requires leaders { leaders.now ≡ leaders_in (pairs_of sys.now.pipes) }
    requires pair { Contains (pairs_of sys.now.pipes) (leader.now, follower.now) }
    ensures placed { IfOk result (IsPairOf sys.now (app_names sys.now)) }
    ensures named { IfOk result (λ p. names_of_pair p ≡ (leader.now, follower.now)) }
{
    let leader_name = leader.copy()?;
    let follower_name = follower.copy()?;
    Ok(Pair {
        leader: place_of(sys.apps.as_slice(), leader),
        follower: place_of(sys.apps.as_slice(), follower),
        leader_name,
        follower_name,
        leads_on: is_among(leaders, follower),
    })
}

/// The pairs of a system in their order, with the places of their applications.
pub fn placed_pairs(alloc: Global, sys: &System) -> Result<Vec<Pair>, NoMemory>
    requires { IsCheckedSystem sys.now }
    ensures { IfOk result (λ ps. ArePairs sys.now (app_names sys.now) ps.items) }
{
    let found = pairs(alloc, sys)?;
    let leaders = leaders(alloc, sys)?;
    let mut placed = Vec::with_capacity(alloc, found.len())?;
    for pair in found.as_slice() {
        placed.push(pair_of(sys, leaders.as_slice(), &pair.0, &pair.1)?)?;
    }
    Ok(placed)
}
