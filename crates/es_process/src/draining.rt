//! How the followers of prompted leaders process their notifications.
ghost use Rattle.std.specs.Prelude.{◌≡◌, ◌≤◌, ◌<◌, ◌+◌, ℕ, All, Contains, List, [], ◌∷◌, ◌++◌, Option, Some, None, Ok, true, length, map, slice_get, IfOk, IfErr, IfSome, IsErrOf, OnOk};
ghost use Rattle.std.specs.List.{position_or_len};
ghost use Rattle.std.specs.Str.{bytes_eq};
ghost use Rattle.es_model.specs.Values.{Name};
ghost use Rattle.es_mapper.specs.Mapped.{event_of};
ghost use Rattle.es_decl.specs.Pairs.{leaders_in, pairs_of};
ghost use Rattle.es_domain.specs.Decision.{IsNotice, notice};
ghost use Rattle.es_process.specs.Answer.{Options};
ghost use Rattle.es_process.specs.Contents.{Contents};
ghost use Rattle.es_process.specs.SystemRules.{rules_of};
ghost use Rattle.es_process.specs.Drains.{AreApps, ArePairs, ArePrompted, IsPairOf, Drains, names_of_pair};
ghost use Rattle.es_process.specs.Reached.{IsReached, ahead};
ghost use Rattle.es_process.specs.inner.Following.{FindsNext, FollowsOne, FollowsAll, FollowsLed, FollowsEach, Spends, all_left, with_follower, prompted_after};
ghost use Rattle.es_process.specs.Standing.{State, Holds, HoldContents, AllStay, SomeRose, names_in, IsSmall, MayFailToRead};
ghost use Rattle.es_process.specs.Terms.{terms};
ghost use Rattle.es_process.specs.Traced.{Traced};

use crate::faults::RunFault;
use crate::pairs::{Pair, placed_pairs};
use crate::{Application, Processed, convert};
use es_io::Clock;
use es_model::{DomainEvent, Names, NoMemory, Notification, System, Text};
use es_recorder::ProcessRecorder;
use std::alloc::Global;
use std::collections::VecDeque;

// The next notification of the leader that the follower doesn't track, if there is one.
fn next_of<R: ProcessRecorder>(
    apps: &mut [Application<R>],
    sys: &System,
    pair: &Pair,
) -> Result<Option<Notification>, RunFault>
    requires pair { IsPairOf sys.now (names_in apps.old) pair.now }
    ensures found { (base : Contents) (options : Options) (readings : Option _) (s : State) → Holds R.history R.settled R.snapshots R.capacity base options apps.old readings s → IfOk result (FindsNext s pair.now) }
    ensures holds { (base : Contents) (options : Options) (readings : Option _) (s : State) → Holds R.history R.settled R.snapshots R.capacity base options apps.old readings s → Holds R.history R.settled R.snapshots R.capacity base options apps.new readings s }
    ensures small { IfOk result (λ found. IfSome found IsSmall) }
    ensures same_turns { all_left apps.new ≡ all_left apps.old }
    ensures faults { IfErr result MayFailToRead }
    ensures same { AllStay R.faults apps.old apps.new }
    ensures failed { IsErrOf result RunFault.Recorder → SomeRose R.faults apps.old apps.new }
{
    let tracked = match apps[pair.follower].tracked(&pair.leader_name) {
        Ok(tracked) => tracked,
        Err(fault) => return Err(RunFault::from(fault)),
    };
    apps[pair.leader].next_after(tracked)
}

// Puts a place at the end of a queue.
fn push_place(queue: &mut VecDeque<usize>, place: usize) -> Result<(), NoMemory>
    ensures { OnOk result (queue.new.items ≡ queue.old.items ++ place ∷ []) }
{
    queue.push_back(place)?;
    Ok(())
}

// Prompts the follower of a pair after the others, where it leads another application, unless it is prompted already.
fn prompt(pair: &Pair, queue: &mut VecDeque<usize>) -> Result<(), NoMemory>
    ensures { OnOk result (queue.new.items ≡ with_follower pair.now queue.old.items) }
{
    if pair.leads_on && !queue.contains(&pair.follower) {
        return push_place(queue, pair.follower);
    }
    Ok(())
}

// Prompts the follower of a pair so, where its recording has an event: these are the ids of the first and the last.
fn prompt_after(
    pair: &Pair,
    queue: &mut VecDeque<usize>,
    first: u64,
    last: u64,
) -> Result<(), NoMemory>
    ensures { OnOk result (queue.new.items ≡ prompted_after pair.now queue.old.items first last) }
{
    if first <= last {
        return prompt(pair, queue);
    }
    Ok(())
}

// Lets the follower process the leader's next notification, whose domain event this is.
fn process_event<R: ProcessRecorder, C: Clock>(
    alloc: Global,
    apps: &mut [Application<R>],
    sys: &System,
    pair: &Pair,
    queue: &mut VecDeque<usize>,
    notification: &Notification,
    event: &DomainEvent,
    clock: &mut C,
) -> Result<bool, RunFault>
    requires pair { IsPairOf sys.now (names_in apps.old) pair.now }
    requires means { event_of sys.now notification.now.event ≡ Some event.now }
    requires notice { IsNotice sys.now (notice pair.now.leader_name notification.now.id event.now) }
    ensures followed { Traced (C.readings clock.old) (C.readings clock.new) (λ before after. (base : Contents) (options : Options) (s : State) (prompted : List Name) (rest : List (Name × Name)) (u : Option (List ℕ)) → Holds R.history R.settled R.snapshots R.capacity base options apps.old before s
        → ArePrompted (names_in apps.old) queue.old.items prompted → FindsNext s pair.now (Some notification.now)
        → FollowsOne (terms (rules_of sys.now) options) s pair.now (Holds R.history R.settled R.snapshots R.capacity base options apps.new after) (HoldContents R.history R.stable R.snapshots base apps.new) (names_in apps.old) prompted queue.new.items rest u result) }
    ensures spent { OnOk result ((all_left apps.new < all_left apps.old) × (length queue.new.items ≤ length queue.old.items + 1)) }
    ensures same { AllStay R.faults apps.old apps.new }
    ensures failed { IsErrOf result RunFault.Recorder → SomeRose R.faults apps.old apps.new }
{
    match apps[pair.follower].process(
        alloc,
        sys,
        &pair.leader_name,
        notification.id,
        event,
        clock,
    ) {
        Ok(Processed::Recorded { first, last }) => {
            prompt_after(pair, queue, first, last)?;
            Ok(true)
        }
        Ok(Processed::Skipped { tracked: _ }) => Err(RunFault::NoMemory),
        Ok(Processed::Gap { tracked: _ }) => Err(RunFault::NoMemory),
        Err(fault) => Err(fault),
    }
}

// Lets the follower process the leader's next notification.
fn process_next<R: ProcessRecorder, C: Clock>(
    alloc: Global,
    apps: &mut [Application<R>],
    sys: &System,
    pair: &Pair,
    queue: &mut VecDeque<usize>,
    notification: &Notification,
    clock: &mut C,
) -> Result<bool, RunFault>
    requires pair { IsPairOf sys.now (names_in apps.old) pair.now }
    requires small { IsSmall notification.now }
    ensures followed { Traced (C.readings clock.old) (C.readings clock.new) (λ before after. (base : Contents) (options : Options) (s : State) (prompted : List Name) (rest : List (Name × Name)) (u : Option (List ℕ)) → Holds R.history R.settled R.snapshots R.capacity base options apps.old before s
        → ArePrompted (names_in apps.old) queue.old.items prompted → FindsNext s pair.now (Some notification.now)
        → FollowsOne (terms (rules_of sys.now) options) s pair.now (Holds R.history R.settled R.snapshots R.capacity base options apps.new after) (HoldContents R.history R.stable R.snapshots base apps.new) (names_in apps.old) prompted queue.new.items rest u result) }
    ensures spent { OnOk result ((all_left apps.new < all_left apps.old) × (length queue.new.items ≤ length queue.old.items + 1)) }
    ensures same { AllStay R.faults apps.old apps.new }
    ensures failed { IsErrOf result RunFault.Recorder → SomeRose R.faults apps.old apps.new }
{
    match apps[pair.follower].turn() {
        Ok(()) => {}
        Err(fault) => return Err(fault),
    }
    let event = match convert(alloc, sys, &pair.leader_name, notification) {
        Ok(event) => event,
        Err(fault) => return Err(fault),
    };
    process_event(alloc, apps, sys, pair, queue, notification, &event, clock)
}

// Lets the follower process the leader's next notification, if there is one.
fn follow_one<R: ProcessRecorder, C: Clock>(
    alloc: Global,
    apps: &mut [Application<R>],
    sys: &System,
    pair: &Pair,
    queue: &mut VecDeque<usize>,
    clock: &mut C,
) -> Result<bool, RunFault>
    requires pair { IsPairOf sys.now (names_in apps.old) pair.now }
    ensures followed { Traced (C.readings clock.old) (C.readings clock.new) (λ before after. (base : Contents) (options : Options) (s : State) (prompted : List Name) (rest : List (Name × Name)) (u : Option (List ℕ)) → Holds R.history R.settled R.snapshots R.capacity base options apps.old before s
        → ArePrompted (names_in apps.old) queue.old.items prompted
        → FollowsOne (terms (rules_of sys.now) options) s pair.now (Holds R.history R.settled R.snapshots R.capacity base options apps.new after) (HoldContents R.history R.stable R.snapshots base apps.new) (names_in apps.old) prompted queue.new.items rest u result) }
    ensures spent { result ≡ Ok true → all_left apps.new < all_left apps.old }
    ensures spends { OnOk result (Spends apps.old apps.new queue.old.items queue.new.items) }
    ensures same { AllStay R.faults apps.old apps.new }
    ensures failed { IsErrOf result RunFault.Recorder → SomeRose R.faults apps.old apps.new }
{
    match next_of(apps, sys, pair) {
        Ok(Some(notification)) => {
            process_next(alloc, apps, sys, pair, queue, &notification, clock)
        }
        Ok(None) => Ok(false),
        Err(fault) => Err(fault),
    }
}

// Lets the follower process all notifications of the leader that it doesn't track.
fn follow<R: ProcessRecorder, C: Clock>(
    alloc: Global,
    apps: &mut [Application<R>],
    sys: &System,
    pair: &Pair,
    queue: &mut VecDeque<usize>,
    clock: &mut C,
) -> Result<(), RunFault>
    requires pair { IsPairOf sys.now (names_in apps.old) pair.now }
    ensures followed { Traced (C.readings clock.old) (C.readings clock.new) (λ before after. (base : Contents) (options : Options) (s : State) (prompted : List Name) (rest : List (Name × Name)) (u : Option (List ℕ)) → Holds R.history R.settled R.snapshots R.capacity base options apps.old before s
        → ArePrompted (names_in apps.old) queue.old.items prompted
        → FollowsAll (terms (rules_of sys.now) options) s pair.now (Holds R.history R.settled R.snapshots R.capacity base options apps.new after) (HoldContents R.history R.stable R.snapshots base apps.new) (names_in apps.old) prompted queue.new.items rest u result) }
    ensures spends { OnOk result (Spends apps.old apps.new queue.old.items queue.new.items) }
    ensures same { AllStay R.faults apps.old apps.new }
    ensures failed { IsErrOf result RunFault.Recorder → SomeRose R.faults apps.old apps.new }
{
    let mut more = true;
    while more {
        match follow_one(alloc, apps, sys, pair, queue, clock) {
            Ok(found) => more = found,
            Err(fault) => return Err(fault),
        }
    }
    Ok(())
}

// Lets the follower of a pair process its leader's notifications, where this is the leader.
fn follow_led<R: ProcessRecorder, C: Clock>(
    alloc: Global,
    apps: &mut [Application<R>],
    sys: &System,
    pair: &Pair,
    leader: usize,
    queue: &mut VecDeque<usize>,
    clock: &mut C,
) -> Result<(), RunFault>
    requires pair { IsPairOf sys.now (names_in apps.old) pair.now }
    ensures followed { Traced (C.readings clock.old) (C.readings clock.new) (λ before after. (base : Contents) (options : Options) (s : State) (name : Name) (prompted : List Name) (rest : List (Name × Name)) (u : Option (List ℕ)) → Holds R.history R.settled R.snapshots R.capacity base options apps.old before s
        → slice_get (names_in apps.old) leader ≡ Some name → ArePrompted (names_in apps.old) queue.old.items prompted
        → FollowsLed (terms (rules_of sys.now) options) s pair.now name (Holds R.history R.settled R.snapshots R.capacity base options apps.new after) (HoldContents R.history R.stable R.snapshots base apps.new) (names_in apps.old) prompted queue.new.items rest u result) }
    ensures spends { OnOk result (Spends apps.old apps.new queue.old.items queue.new.items) }
    ensures same { AllStay R.faults apps.old apps.new }
    ensures failed { IsErrOf result RunFault.Recorder → SomeRose R.faults apps.old apps.new }
{
    if pair.leader != leader {
        return Ok(());
    }
    follow(alloc, apps, sys, pair, queue, clock)
}

// Lets the followers of a leader process its notifications, in the order of pairs.
fn follow_each<R: ProcessRecorder, C: Clock>(
    alloc: Global,
    apps: &mut [Application<R>],
    sys: &System,
    pairs: &[Pair],
    leader: usize,
    queue: &mut VecDeque<usize>,
    clock: &mut C,
) -> Result<(), RunFault>
    requires pairs { ArePairs sys.now (names_in apps.old) pairs.now }
    ensures followed { Traced (C.readings clock.old) (C.readings clock.new) (λ before after. (base : Contents) (options : Options) (s : State) (name : Name) (prompted : List Name) (u : Option (List ℕ)) → Holds R.history R.settled R.snapshots R.capacity base options apps.old before s
        → slice_get (names_in apps.old) leader ≡ Some name → ArePrompted (names_in apps.old) queue.old.items prompted
        → FollowsEach (terms (rules_of sys.now) options) s pairs.now name (Holds R.history R.settled R.snapshots R.capacity base options apps.new after) (HoldContents R.history R.stable R.snapshots base apps.new) (names_in apps.old) prompted queue.new.items u result) }
    ensures spends { OnOk result (Spends apps.old apps.new queue.old.items queue.new.items) }
    ensures same { AllStay R.faults apps.old apps.new }
    ensures failed { IsErrOf result RunFault.Recorder → SomeRose R.faults apps.old apps.new }
{
    for pair in pairs {
        match follow_led(alloc, apps, sys, pair, leader, queue, clock) {
            Ok(()) => {}
            Err(fault) => return Err(fault),
        }
    }
    Ok(())
}

/// Lets the followers of each prompted leader process its notifications: the first prompted one is taken, its followers process what
/// they don't track, in the order of pairs, and a follower that recorded an event and leads is prompted after the others, unless it
/// is there; until nobody is prompted. The pairs are those of the system, and the prompted ones are given by their places.
pub fn drain_with<R: ProcessRecorder, C: Clock>(
    alloc: Global,
    sys: &System,
    apps: &mut [Application<R>],
    pairs: &[Pair],
    queue: &mut VecDeque<usize>,
    clock: &mut C,
) -> Result<(), RunFault>
    requires pairs { ArePairs sys.now (names_in apps.old) pairs.now }
    ensures drained { Traced (C.readings clock.old) (C.readings clock.new) (λ before after. (base : Contents) (options : Options) (s : State) (prompted : List Name) (u : Option (List ℕ)) → Holds R.history R.settled R.snapshots R.capacity base options apps.old before s
        → ArePrompted (names_in apps.old) queue.old.items prompted
        → Drains (terms (rules_of sys.now) options) s (Holds R.history R.settled R.snapshots R.capacity base options apps.new after) (HoldContents R.history R.stable R.snapshots base apps.new) prompted u result) }
    ensures none { OnOk result (queue.new.items ≡ []) }
    ensures same { AllStay R.faults apps.old apps.new }
    ensures failed { IsErrOf result RunFault.Recorder → SomeRose R.faults apps.old apps.new }
{
    while let Some(leader) = queue.pop_front() {
        match follow_each(alloc, apps, sys, pairs, leader, queue, clock) {
            Ok(()) => {}
            Err(fault) => return Err(fault),
        }
    }
    Ok(())
}

/// The place of the first application of a name, or their number where there is none.
pub fn place_of<R>(apps: &[Application<R>], name: &Text) -> usize
    ensures { result ≡ position_or_len (λ app. bytes_eq app.name name.now) apps.now }
{
    apps.iter()
        .take_while(|app| app.name().as_str() != name.as_str())
        .count()
}

/// The places of the applications of some names, in a queue.
pub fn places_of<R>(
    alloc: Global,
    apps: &[Application<R>],
    names: &[Text],
) -> Result<VecDeque<usize>, NoMemory>
    requires { All (Contains (names_in apps.now)) names.now }
    ensures { IfOk result (λ queue. ArePrompted (names_in apps.now) queue.items names.now) }
{
    let mut queue = VecDeque::new(alloc);
    for name in names {
        push_place(&mut queue, place_of(apps, name))?;
    }
    Ok(queue)
}

/// Drains the prompted leaders, which are declared. The applications are all those of the system, in its order. Where no follower
/// tracked more than there was, and all leaders were prompted, each follower has reached its leaders' last notifications.
pub fn drain<R: ProcessRecorder, C: Clock>(
    alloc: Global,
    sys: &System,
    apps: &mut [Application<R>],
    prompted: &Names,
    clock: &mut C,
) -> Result<(), RunFault>
    requires apps { AreApps sys.now (names_in apps.old) }
    requires declared { All (Contains (names_in apps.old)) prompted.now }
    ensures drained { Traced (C.readings clock.old) (C.readings clock.new) (λ before after. (base : Contents) (options : Options) (s : State) (u : Option (List ℕ)) → Holds R.history R.settled R.snapshots R.capacity base options apps.old before s
        → Drains (terms (rules_of sys.now) options) s (Holds R.history R.settled R.snapshots R.capacity base options apps.new after) (HoldContents R.history R.stable R.snapshots base apps.new) prompted.now u result) }
    ensures reached { Traced (C.readings clock.old) (C.readings clock.new) (λ before after. (base : Contents) (options : Options) (s : State) → Holds R.history R.settled R.snapshots R.capacity base options apps.old before s
        → prompted.now ≡ leaders_in (pairs_of sys.now.pipes) → ahead (pairs_of sys.now.pipes) s.contents.histories ≡ None
        → OnOk result ((left : Contents) → HoldContents R.history R.stable R.snapshots base apps.new left → IsReached (pairs_of sys.now.pipes) left.histories)) }
    ensures same { AllStay R.faults apps.old apps.new }
    ensures failed { IsErrOf result RunFault.Recorder → SomeRose R.faults apps.old apps.new }
{
    let mut queue = places_of(alloc, apps, prompted.as_slice())?;
    let pairs = placed_pairs(alloc, sys)?;
    drain_with(alloc, sys, apps, pairs.as_slice(), &mut queue, clock)
}
