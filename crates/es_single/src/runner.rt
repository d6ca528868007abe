ghost use Rattle.std.specs.Prelude.{◌≡◌, [], ◌∷◌, ◌++◌, List, ℕ, Option, None, Some, option_map, IfErr, IsErrOf, OnOk};
ghost use Rattle.es_model.specs.Values.{Name};
ghost use Rattle.es_decl.specs.Pairs.{leaders_in, pairs_of};
ghost use Rattle.es_lines.specs.Requests.{app_asked, asks, request_in};
ghost use Rattle.es_process.specs.Answer.{Options};
ghost use Rattle.es_process.specs.Contents.{Contents};
ghost use Rattle.es_process.specs.Drains.{AreApps, ArePrompted, Drains};
ghost use Rattle.es_process.specs.Leaves.{MayFailToAdd};
ghost use Rattle.es_process.specs.Standing.{State, Holds, HoldContents, AllStay, SomeRose, names_in};
ghost use Rattle.es_process.specs.SystemRules.{rules_of};
ghost use Rattle.es_process.specs.Terms.{terms};
ghost use Rattle.es_process.specs.Traced.{Traced};
ghost use Rattle.es_single.specs.Answers.{Answers, IsAsked};
ghost use Rattle.es_single.specs.inner.Prompts.{HasPrompted, HoldsAfter, IsAskedAt, is_accepted, places_after, prompted_by, word_reply};
ghost use Rattle.es_single.specs.Runner.{GoesOn, HoldsPrompted, IsNew, IsReady, apps_of, names_of, system_of};

use es_decl::leaders;
use es_io::Clock;
use es_lines::{Reply, Request};
use es_model::{NoMemory, System, Text};
use es_process::{Application, Pair, RunFault, drain_with, place_of, placed_pairs, places_of};
use es_recorder::ProcessRecorder;
use std::alloc::Global;
use std::collections::VecDeque;

/// A system and its opened applications, on one thread.
#[derive(Drop)]
pub struct SingleRunner<R> {
    pub(crate) sys: System,
    pub(crate) apps: Vec<Application<R>>,
    // Its pairs at their places, once it has begun.
    pub(crate) pairs: Vec<Pair>,
    // The places of the leaders that are to be drained.
    pub(crate) prompted: VecDeque<usize>,
}

impl<R> SingleRunner<R> {
    /// A runner of a system over its opened applications, which are all those that are declared, in their order.
    pub fn new(alloc: Global, sys: System, apps: Vec<Application<R>>) -> SingleRunner<R>
        ensures { IsNew sys apps.items result }
    {
        SingleRunner {
            sys,
            apps,
            pairs: Vec::new(alloc),
            prompted: VecDeque::new(alloc),
        }
    }

    /// The system.
    pub fn system(&self) -> &System
        ensures { result.now ≡ system_of self.now }
    {
        &self.sys
    }

    /// Gives the system and the applications back.
    pub fn finish(self) -> (System, Vec<Application<R>>)
        ensures system { result.0 ≡ system_of self }
        ensures applications { result.1.items ≡ apps_of self }
    {
        let SingleRunner {
            sys,
            apps,
            pairs: _,
            prompted: _,
        } = self;
        (sys, apps)
    }
}

// The application of which a line asks something.
fn app_asked(request: &Request) -> Option<&Text>
    ensures { option_map (λ n. n.now) result ≡ app_asked request.now }
{
    match request {
        Request::Do { app, command: _ } => Some(app),
        Request::Get {
            app,
            id: _,
            version: _,
        } => Some(app),
        Request::Log { app, section: _ } => Some(app),
        Request::Tracking { app, leader: _ } => Some(app),
        Request::Snapshot { app, id: _ } => Some(app),
        Request::Sync => None,
        Request::Stop => None,
    }
}

// Whether a reply accepts a command.
fn is_accepted(reply: &Reply) -> bool
    ensures { result ≡ is_accepted reply.now }
{
    match reply {
        Reply::Accepted {
            recording: _,
            first: _,
            last: _,
            version: _,
        } => true,
        _ => false,
    }
}

// The reply to a line of one word.
fn word_reply(request: &Request) -> Reply
    requires { app_asked request.now ≡ None }
    ensures { word_reply request.now ≡ Some result }
{
    match request {
        Request::Sync => Reply::Sync,
        Request::Stop => Reply::Stop,
        _ => unreachable!(),
    }
}

// Puts a place at the end of a queue.
fn push_place(queue: &mut VecDeque<usize>, place: usize) -> Result<(), NoMemory>
    ensures { OnOk result (queue.new.items ≡ queue.old.items ++ place ∷ []) }
{
    queue.push_back(place)?;
    Ok(())
}

// After a reply the last place of a queue stays in it where a command was accepted, and is taken back otherwise.
fn keep_accepted(queue: &mut VecDeque<usize>, reply: &Reply)
    ensures { (place : ℕ) → queue.old.items ≡ place ∷ [] → queue.new.items ≡ prompted_by reply.now place }
{
    if !is_accepted(reply) {
        let _ = queue.pop_back();
    }
}

// Answers what a line asks of the application at a place.
fn answer_at<R: ProcessRecorder, C: Clock>(
    alloc: Global,
    sys: &System,
    apps: &mut [Application<R>],
    place: usize,
    request: &Request,
    clock: &mut C,
) -> Result<Reply, RunFault>
    requires apps { AreApps sys.now (names_in apps.old) }
    requires asked { IsAskedAt sys.now (names_in apps.old) place request.now }
    ensures answered { Traced (C.readings clock.old) (C.readings clock.new) (λ before after. (base : Contents) (options : Options) (s : State) (line : List ℕ) (u : Option (List ℕ)) → request_in sys.now line ≡ asks request.now
        → Holds R.history R.settled R.snapshots R.capacity base options apps.old before s
        → Answers (terms (rules_of sys.now) options) s line request.now (HoldsAfter (Holds R.history R.settled R.snapshots R.capacity base options apps.new after) (names_in apps.old) (places_after result place)) (HoldContents R.history R.stable R.snapshots base apps.new) u result) }
    ensures faults { IfErr result MayFailToAdd }
    ensures same { AllStay R.faults apps.old apps.new }
    ensures failed { IsErrOf result RunFault.Recorder → SomeRose R.faults apps.old apps.new }
{
    match apps[place].answer(alloc, sys, request, clock) {
        Ok(reply) => Ok(reply),
        Err(fault) => Err(fault),
    }
}

impl<R: ProcessRecorder> SingleRunner<R> {
    /// Drains all leaders, which comes before the first line.
    pub fn first<C: Clock>(&mut self, alloc: Global, clock: &mut C) -> Result<(), RunFault>
        requires apps { AreApps (system_of self.old) (names_of self.old) }
        requires none { self.old.prompted.items ≡ [] }
        ensures drained { Traced (C.readings clock.old) (C.readings clock.new) (λ before after. (base : Contents) (options : Options) (s : State) (u : Option (List ℕ)) → Holds R.history R.settled R.snapshots R.capacity base options (apps_of self.old) before s
            → Drains (terms (rules_of (system_of self.old)) options) s (λ next. HoldsPrompted R.history R.settled R.snapshots R.capacity base options self.new after next []) (HoldContents R.history R.stable R.snapshots base (apps_of self.new)) (leaders_in (pairs_of (system_of self.old).pipes)) u result) }
        ensures ready { OnOk result (IsReady self.new) }
        ensures same { GoesOn R.faults self.old self.new }
        ensures failed { IsErrOf result RunFault.Recorder → SomeRose R.faults (apps_of self.old) (apps_of self.new) }
    {
        self.pairs = placed_pairs(alloc, &self.sys)?;
        self.prompt_leaders(alloc)?;
        self.after(alloc, clock)
    }

    /// Answers what a line asks, without draining. Whoever calls it writes the reply, and calls `after`.
    pub fn line<C: Clock>(
        &mut self,
        alloc: Global,
        request: &Request,
        clock: &mut C,
    ) -> Result<Reply, RunFault>
        requires ready { IsReady self.old }
        requires asked { IsAsked (system_of self.old) request.now }
        ensures answered { Traced (C.readings clock.old) (C.readings clock.new) (λ before after. (base : Contents) (options : Options) (s : State) (line : List ℕ) (u : Option (List ℕ)) → request_in (system_of self.old) line ≡ asks request.now
            → HoldsPrompted R.history R.settled R.snapshots R.capacity base options self.old before s []
            → Answers (terms (rules_of (system_of self.old)) options) s line request.now (HoldsPrompted R.history R.settled R.snapshots R.capacity base options self.new after) (HoldContents R.history R.stable R.snapshots base (apps_of self.new)) u result) }
        ensures ready { OnOk result (IsReady self.new) }
        ensures faults { IfErr result MayFailToAdd }
        ensures same { GoesOn R.faults self.old self.new }
        ensures failed { IsErrOf result RunFault.Recorder → SomeRose R.faults (apps_of self.old) (apps_of self.new) }
    {
        match app_asked(request) {
            Some(app) => self.answer(alloc, app, request, clock),
            None => Ok(word_reply(request)),
        }
    }

    /// Drains from the application of the last accepted line, if one was accepted since the last drain.
    pub fn after<C: Clock>(&mut self, alloc: Global, clock: &mut C) -> Result<(), RunFault>
        requires ready { IsReady self.old }
        ensures drained { Traced (C.readings clock.old) (C.readings clock.new) (λ before after. (base : Contents) (options : Options) (s : State) (prompted : List Name) (u : Option (List ℕ)) → HoldsPrompted R.history R.settled R.snapshots R.capacity base options self.old before s prompted
            → Drains (terms (rules_of (system_of self.old)) options) s (λ next. HoldsPrompted R.history R.settled R.snapshots R.capacity base options self.new after next []) (HoldContents R.history R.stable R.snapshots base (apps_of self.new)) prompted u result) }
        ensures ready { OnOk result (IsReady self.new) }
        ensures same { GoesOn R.faults self.old self.new }
        ensures failed { IsErrOf result RunFault.Recorder → SomeRose R.faults (apps_of self.old) (apps_of self.new) }
    {
        drain_with(
            alloc,
            &self.sys,
            self.apps.as_mut_slice(),
            self.pairs.as_slice(),
            &mut self.prompted,
            clock,
        )
    }

    // Prompts all leaders.
    fn prompt_leaders(&mut self, alloc: Global) -> Result<(), NoMemory>
        requires apps { AreApps (system_of self.old) (names_of self.old) }
        ensures prompts { OnOk result (ArePrompted (names_of self.new) self.new.prompted.items (leaders_in (pairs_of (system_of self.old).pipes))) }
        ensures same { HasPrompted self.old self.new }
    {
        let leaders = leaders(alloc, &self.sys)?;
        self.prompted = places_of(alloc, self.apps.as_slice(), leaders.as_slice())?;
        Ok(())
    }

    // Answers what a line asks of an application. Its place is put in the queue before, so that no memory is wanting after it has
    // answered, and stays there where a command was accepted.
    fn answer<C: Clock>(
        &mut self,
        alloc: Global,
        app: &Text,
        request: &Request,
        clock: &mut C,
    ) -> Result<Reply, RunFault>
        requires ready { IsReady self.old }
        requires about { app_asked request.now ≡ Some app.now }
        requires asked { IsAsked (system_of self.old) request.now }
        ensures answered { Traced (C.readings clock.old) (C.readings clock.new) (λ before after. (base : Contents) (options : Options) (s : State) (line : List ℕ) (u : Option (List ℕ)) → request_in (system_of self.old) line ≡ asks request.now
            → HoldsPrompted R.history R.settled R.snapshots R.capacity base options self.old before s []
            → Answers (terms (rules_of (system_of self.old)) options) s line request.now (HoldsPrompted R.history R.settled R.snapshots R.capacity base options self.new after) (HoldContents R.history R.stable R.snapshots base (apps_of self.new)) u result) }
        ensures ready { OnOk result (IsReady self.new) }
        ensures faults { IfErr result MayFailToAdd }
        ensures same { GoesOn R.faults self.old self.new }
        ensures failed { IsErrOf result RunFault.Recorder → SomeRose R.faults (apps_of self.old) (apps_of self.new) }
    {
        let place = place_of(self.apps.as_slice(), app);
        push_place(&mut self.prompted, place)?;
        let apps = self.apps.as_mut_slice();
        let reply = match answer_at(alloc, &self.sys, apps, place, request, clock) {
            Ok(reply) => reply,
            Err(fault) => return Err(fault),
        };
        keep_accepted(&mut self.prompted, &reply);
        Ok(reply)
    }
}
