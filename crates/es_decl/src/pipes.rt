ghost use Rattle.std.specs.Prelude.{◌≡◌, ◌++◌, ◌∷◌, [], IfOk, OnOk, map, filter, not};
ghost use Rattle.std.specs.List.{list_any};
ghost use Rattle.std.specs.Str.{bytes_eq};
ghost use Rattle.es_decl.specs.Pairs as spec;

use es_model::{Duplicate, List, Names, NoMemory, System, Text};
use std::alloc::Global;

/// Leaders with their followers.
pub type Pairs = List<(Text, Text)>;

fn is_pair(pair: &(Text, Text), leader: &Text, follower: &Text) -> bool
    ensures { result ≡ spec.is_pair (leader.now, follower.now) pair.now }
{
    leader.as_str() == pair.0.as_str() && follower.as_str() == pair.1.as_str()
}

fn has_pair(pairs: &[(Text, Text)], leader: &Text, follower: &Text) -> bool
    ensures { result ≡ list_any (λ p. spec.is_pair (leader.now, follower.now) p) pairs.now }
{
    pairs.iter().any(|pair| is_pair(pair, leader, follower))
}

// Adds a pair, unless it is there.
fn add_pair(pairs: &mut Pairs, leader: &Text, follower: &Text) -> Result<(), NoMemory>
    ensures { OnOk result (pairs.new ≡ spec.with_new spec.is_pair pairs.old (leader.now, follower.now)) }
{
    if has_pair(pairs.as_slice(), leader, follower) {
        return Ok(());
    }
    let pair = (leader.copy()?, follower.copy()?);
    pairs.push(pair)
}

fn add_neighbours(pairs: &mut Pairs, names: &[Text]) -> Result<(), NoMemory>
    ensures { OnOk result (pairs.new ≡ spec.gathered spec.is_pair pairs.old (spec.neighbours names.now)) }
{
    match names {
        [leader, rest @ ..] => match rest {
            [follower, ..] => {
                add_pair(pairs, leader, follower)?;
                add_neighbours(pairs, rest)
            }
            [] => Ok(()),
        },
        [] => Ok(()),
    }
}

/// The neighbours in the pipes, pipe by pipe, each pair at its first place only.
pub fn pairs(alloc: Global, sys: &System) -> Result<Pairs, NoMemory>
    ensures { IfOk result (λ ps. ps ≡ spec.pairs_of sys.now.pipes) }
{
    let mut pairs = List::new(alloc);
    for pipe in sys.pipes.as_slice() {
        add_neighbours(&mut pairs, pipe.as_slice())?;
    }
    Ok(pairs)
}

fn has_name(names: &[Text], name: &Text) -> bool
    ensures { result ≡ list_any (λ n. bytes_eq name.now n) names.now }
{
    names.iter().any(|other| name.as_str() == other.as_str())
}

fn push_copy(names: &mut Names, name: &Text) -> Result<(), NoMemory>
    ensures { OnOk result (names.new ≡ names.old ++ name.now ∷ []) }
{
    names.push(name.copy()?)
}

// Adds a name, unless it is there.
fn add_name(names: &mut Names, name: &Text) -> Result<(), NoMemory>
    ensures { OnOk result (names.new ≡ spec.with_new bytes_eq names.old name.now) }
{
    if has_name(names.as_slice(), name) {
        return Ok(());
    }
    push_copy(names, name)
}

fn leaders_in(alloc: Global, pairs: &[(Text, Text)]) -> Result<Names, NoMemory>
    ensures { IfOk result (λ ns. ns ≡ spec.leaders_in pairs.now) }
{
    let mut names = List::new(alloc);
    for pair in pairs {
        add_name(&mut names, &pair.0)?;
    }
    Ok(names)
}

fn followers_in(alloc: Global, pairs: &[(Text, Text)]) -> Result<Names, NoMemory>
    ensures { IfOk result (λ ns. ns ≡ spec.followers_in pairs.now) }
{
    let mut names = List::new(alloc);
    for pair in pairs {
        add_name(&mut names, &pair.1)?;
    }
    Ok(names)
}

/// The leaders, in the order of pairs.
pub fn leaders(alloc: Global, sys: &System) -> Result<Names, NoMemory>
    ensures { IfOk result (λ ns. ns ≡ spec.leaders_in (spec.pairs_of sys.now.pipes)) }
{
    let pairs = pairs(alloc, sys)?;
    leaders_in(alloc, pairs.as_slice())
}

/// The followers, in the order of pairs.
pub fn followers(alloc: Global, sys: &System) -> Result<Names, NoMemory>
    ensures { IfOk result (λ ns. ns ≡ spec.followers_in (spec.pairs_of sys.now.pipes)) }
{
    let pairs = pairs(alloc, sys)?;
    followers_in(alloc, pairs.as_slice())
}

fn follows(pairs: &[(Text, Text)], name: &Text) -> bool
    ensures { result ≡ spec.follows pairs.now name.now }
{
    pairs.iter().any(|pair| pair.1.as_str() == name.as_str())
}

fn leaders_only_in(
    alloc: Global,
    pairs: &[(Text, Text)],
    leaders: &[Text],
) -> Result<Names, NoMemory>
    ensures { IfOk result (λ ns. ns ≡ filter (λ n. not (spec.follows pairs.now n)) leaders.now) }
{
    let mut names = List::new(alloc);
    for leader in leaders {
        if !follows(pairs, leader) {
            push_copy(&mut names, leader)?;
        }
    }
    Ok(names)
}

/// The leaders that follow nobody, in the order of pairs.
pub fn leaders_only(alloc: Global, sys: &System) -> Result<Names, NoMemory>
    ensures { IfOk result (λ ns. ns ≡ spec.leaders_only_in (spec.pairs_of sys.now.pipes)) }
{
    let pairs = pairs(alloc, sys)?;
    let leaders = leaders_in(alloc, pairs.as_slice())?;
    leaders_only_in(alloc, pairs.as_slice(), leaders.as_slice())
}

fn processors_in(alloc: Global, pairs: &[(Text, Text)], leaders: &[Text]) -> Result<Names, NoMemory>
    ensures { IfOk result (λ ns. ns ≡ filter (λ n. spec.follows pairs.now n) leaders.now) }
{
    let mut names = List::new(alloc);
    for leader in leaders {
        if follows(pairs, leader) {
            push_copy(&mut names, leader)?;
        }
    }
    Ok(names)
}

/// The leaders that follow too, by their first place as leader.
pub fn processors(alloc: Global, sys: &System) -> Result<Names, NoMemory>
    ensures { IfOk result (λ ns. ns ≡ spec.processors_in (spec.pairs_of sys.now.pipes)) }
{
    let pairs = pairs(alloc, sys)?;
    let leaders = leaders_in(alloc, pairs.as_slice())?;
    processors_in(alloc, pairs.as_slice(), leaders.as_slice())
}

fn followers_of_in(alloc: Global, pairs: &[(Text, Text)], leader: &Text) -> Result<Names, NoMemory>
    ensures { IfOk result (λ ns. ns ≡ spec.followers_of_in pairs.now leader.now) }
{
    let mut names = List::new(alloc);
    for pair in pairs {
        if pair.0.as_str() == leader.as_str() {
            push_copy(&mut names, &pair.1)?;
        }
    }
    Ok(names)
}

/// The followers of a leader, in the order of pairs.
pub fn followers_of(alloc: Global, sys: &System, leader: &Text) -> Result<Names, NoMemory>
    ensures { IfOk result (λ ns. ns ≡ spec.followers_of_in (spec.pairs_of sys.now.pipes) leader.now) }
{
    let pairs = pairs(alloc, sys)?;
    followers_of_in(alloc, pairs.as_slice(), leader)
}
