//! One application over its recorder: what it makes of a command, and of a leader's notification.
ghost use Rattle.std.specs.Prelude.{◌≡◌, ◌⊎◌, ◌≤◌, ◌<◌, ◌^◌, ◌+◌, List, [], not, Some, None, All, IsTrue, is_some, OnOk, OnErr, IfOk, IfErr, IsErrOf, IfSome, length};
ghost use Rattle.es_model.specs.declared.event.Recording.{Recording};
ghost use Rattle.es_model.specs.declared.snapshot.Snapshot.{Snapshot};
ghost use Rattle.es_model.specs.Causes.{CallHasCause, Rose};
ghost use Rattle.es_model.specs.Declaration.{app_named};
ghost use Rattle.es_model.specs.History.{log, latest};
ghost use Rattle.es_model.specs.Tracking.{tracked_in};
ghost use Rattle.es_model.specs.Values.{Id};
ghost use Rattle.es_io.specs.Readings.{Readings, first_reading};
ghost use Rattle.es_expr.specs.Checked.{IsCheckedSystem};
ghost use Rattle.es_domain.specs.Decision.{IsNotice, notice};
ghost use Rattle.es_recorder.specs.Insert.{IsInsertable, first_conflict, too_many};
ghost use Rattle.es_recorder.specs.Stable.{KeepsStable};
ghost use Rattle.es_repo.specs.Verdicts.{command_verdict, policy_verdict, FollowsIn, IsSmallVerdict};
ghost use Rattle.es_lines.specs.CommandText.{command_text};
ghost use Rattle.es_lines.specs.Requests.{IsDeclared, asks, request_in};
ghost use Rattle.es_lines.specs.declared.request.Request.TheVariants as requests;
ghost use Rattle.es_repo.specs.declared.verdict.Verdict.TheVariants as verdicts;
ghost use Rattle.es_process.specs.Applications.{IsOpened, name_of, recorder_of, turns_of, used_of};
ghost use Rattle.es_model.specs.Snapshots.{IsSmallSnapshot};
ghost use Rattle.es_repo.specs.Snapshots.{due_after, is_there};
ghost use Rattle.es_process.specs.Answer.{recording_of as recording_at, options, differs, due_each, with_due, followed, followed_of, accept_unless, answer_of, command_answer, request_answer, snapshot_answer, take_unless, takes_reading, add_unless};
ghost use Rattle.es_process.specs.Decision.{Logs};
ghost use Rattle.es_process.specs.SingleThread.{readings_after};
ghost use Rattle.es_process.specs.SystemRules.{rules_of, decision_of};
ghost use Rattle.es_process.specs.inner.Adding.{Fits, Adds, PutsOne, PutsDue, Takes, Records, Decides, MayRefuse};
ghost use Rattle.es_process.specs.Leaves.{MayAsk, MayFailToAdd, Leaves, Processes, IsRecorded, Converts, IsEntry};
ghost use Rattle.es_process.specs.Traced.{Traced};
ghost use Rattle.es_process.specs.Standing.{IsSame, IsSmall, IsNextAfter, MayFailToRead, Settles, Stays};

use crate::faults::RunFault;
use es_domain::Command;
use es_io::Clock;
use es_lines::{Reply, Request, command_text};
use es_mapper::{MapFault, to_domain};
use es_model::{
    CallFault, Cause, DomainEvent, Duplicate, Moment, NoMemory, Notification, Recording, Snapshot,
    StoredEvent, StoredEvents, System, Text,
};
use es_recorder::{InsertFault, Inserted, ProcessRecorder};
use es_repo::{
    RepoFault, Repository, Verdict, is_kept, judge_command, judge_policy, snapshot, snapshot_due,
};
use std::alloc::Global;
use uuid::Uuid;

/// An application that was opened.
#[derive(Drop)]
pub struct Application<R> {
    pub(crate) name: Text,
    pub(crate) recorder: R,
    // How many notifications it may record.
    pub(crate) turns: u64,
    // How many it has recorded since it was opened.
    pub(crate) used: u64,
}

impl<R> Application<R> {
    /// Opens an application over its recorder, from which it may record so many notifications of its leaders. Where there is no memory for
    /// its name the recorder is given back.
    pub fn open(name: &Text, recorder: R, turns: u64) -> Result<Application<R>, (R, NoMemory)>
        ensures opened { IfOk result (IsOpened name.now recorder turns) }
        ensures refused { IfErr result (λ e. e.0 ≡ recorder) }
    {
        match name.copy() {
            Ok(name) => Ok(Application {
                name,
                recorder,
                turns,
                used: 0,
            }),
            Err(NoMemory) => Err((recorder, NoMemory)),
        }
    }

    /// Gives the recorder back.
    pub fn close(self) -> R
        ensures { result ≡ recorder_of self }
    {
        let Application {
            name: _,
            recorder,
            turns: _,
            used: _,
        } = self;
        recorder
    }

    /// The name by which it was opened.
    pub fn name(&self) -> &Text
        ensures { result.now ≡ name_of self.now }
    {
        &self.name
    }

    /// How many notifications it has recorded since it was opened.
    pub fn used(&self) -> u64
        ensures { result ≡ used_of self.now }
    {
        self.used
    }
}

/// What was made of a notification.
#[derive(Clone, Copy, Debug, PartialEq, Eq)]
pub enum Processed {
    /// It was recorded, with the notification ids of the first and last event that follow from it.
    Recorded { first: u64, last: u64 },
    /// It is tracked already.
    Skipped { tracked: u64 },
    /// It isn't the next one.
    Gap { tracked: u64 },
}

// The fault of a recorder that is full.
fn full(app: &Text, last: u64, capacity: u64) -> RunFault
    ensures { (result ≡ RunFault.Full app.now last capacity) ⊎ (result ≡ RunFault.NoMemory) }
{
    match app.copy() {
        Ok(app) => RunFault::Full {
            app,
            last,
            capacity,
        },
        Err(NoMemory) => RunFault::NoMemory,
    }
}

// That an entry of an application's log has no meaning.
fn unreadable(app: &Text, id: u64) -> RunFault
    ensures { (result ≡ RunFault.Unreadable app.now id) ⊎ (result ≡ RunFault.NoMemory) }
{
    match app.copy() {
        Ok(app) => RunFault::Unreadable { app, id },
        Err(NoMemory) => RunFault::NoMemory,
    }
}

// How many of some events are an originator's.
fn count_own(events: &[StoredEvent], id: Uuid) -> u64
    ensures count { result ≡ latest events.now id }
    ensures few { result ≤ length events.now }
{
    events
        .iter()
        .filter(|event| event.originator_id == id)
        .count() as u64
}

// Whether a command expects another version than that of its aggregate.
fn expects_other(expect: Option<u64>, version: u64) -> bool
    ensures { (h : List Recording) (id : Id) → version ≡ latest (log h) id → result ≡ differs h id expect }
{
    match expect {
        Some(wanted) => wanted != version,
        None => false,
    }
}

// The recording of an accepted command.
fn accepted(
    alloc: Global,
    app: &Text,
    command: &Command,
    at: Moment,
    events: StoredEvents,
) -> Result<Recording, NoMemory>
    ensures { IfOk result (λ r. r ≡ recording_at (Cause.Command (command_text app.now command.now)) at events) }
{
    let text = command_text(alloc, app, command)?;
    Ok(Recording {
        cause: Cause::Command { text },
        at,
        events,
    })
}

/// The domain event of a leader's notification.
pub fn convert(
    alloc: Global,
    sys: &System,
    leader: &Text,
    notification: &Notification,
) -> Result<DomainEvent, RunFault>
    ensures converts { Converts sys.now leader.now notification.now result }
    ensures notice { notification.now.id < 2 ^ 62 → notification.now.event.originator_version < 2 ^ 62 → IsTrue (is_some (app_named sys.now.apps leader.now)) → IfOk result (λ e. IsNotice sys.now (notice leader.now notification.now.id e)) }
{
    match to_domain(alloc, sys, &notification.event) {
        Ok(event) => Ok(event),
        Err(MapFault::NoMemory) => Err(RunFault::NoMemory),
        Err(_) => Err(unreadable(leader, notification.id)),
    }
}

impl<R: ProcessRecorder> Application<R> {
    /// How many recordings its recorder holds.
    pub fn recordings(&mut self) -> Result<u64, CallFault>
        ensures told { (h : List Recording) → R.history (recorder_of self.old) ≡ Some h → IfOk result (λ n. n ≡ length h) }
        ensures same { IsSame R.history R.settled R.capacity R.snapshots R.faults self.old self.new }
        ensures stable { KeepsStable (R.stable (recorder_of self.old)) (R.stable (recorder_of self.new)) result }
        ensures cause { CallHasCause (R.faults (recorder_of self.old)) (R.faults (recorder_of self.new)) result }
    {
        self.recorder.recordings()
    }

    // Adds a recording that nothing but want of room refuses.
    fn add(&mut self, recording: &Recording) -> Result<Inserted, RunFault>
        requires insertable { IsInsertable recording.now }
        requires fits { IfSome (R.history (recorder_of self.old)) (λ h. Fits h recording.now) }
        ensures adds { (h : List Recording) → R.history (recorder_of self.old) ≡ Some h → Adds (R.capacity (recorder_of self.old)) (name_of self.old) h recording.now result (R.history (recorder_of self.new)) }
        ensures faults { IfErr result MayFailToAdd }
        ensures kept { R.snapshots (recorder_of self.new) ≡ R.snapshots (recorder_of self.old) }
        ensures same { Stays R.capacity R.faults self.old self.new }
        ensures settles { Settles R.history R.stable R.settled self.old self.new result }
        ensures same_used { (used_of self.new) ≡ (used_of self.old) }
        ensures failed { IsErrOf result RunFault.Recorder → Rose (R.faults (recorder_of self.old)) (R.faults (recorder_of self.new)) }
    {
        match self.recorder.insert(recording) {
            Ok(inserted) => Ok(inserted),
            Err(InsertFault::Full { last, capacity }) => Err(full(&self.name, last, capacity)),
            Err(InsertFault::Failed) => Err(RunFault::Recorder),
            Err(InsertFault::NoMemory) => Err(RunFault::NoMemory),
            Err(
                InsertFault::Conflict {
                    id: _,
                    version: _,
                    latest: _,
                },
            ) => unreachable!(),
            Err(
                InsertFault::Tracking {
                    leader: _,
                    id: _,
                    tracked: _,
                },
            ) => unreachable!(),
        }
    }

    // Puts a snapshot.
    fn put(&mut self, snapshot: &Snapshot) -> Result<(), RunFault>
        requires { IsSmallSnapshot snapshot.now }
        ensures puts { (q : List Snapshot) → R.snapshots (recorder_of self.old) ≡ Some q → PutsOne snapshot.now q result (R.snapshots (recorder_of self.new)) }
        ensures told { R.history (recorder_of self.new) ≡ R.history (recorder_of self.old) }
        ensures faults { IfErr result MayFailToRead }
        ensures same { Stays R.capacity R.faults self.old self.new }
        ensures settled { R.settled (recorder_of self.new) ≡ R.settled (recorder_of self.old) }
        ensures same_used { (used_of self.new) ≡ (used_of self.old) }
        ensures failed { IsErrOf result RunFault.Recorder → Rose (R.faults (recorder_of self.old)) (R.faults (recorder_of self.new)) }
    {
        Ok(self.recorder.insert_snapshot(snapshot)?)
    }

    // Puts the snapshot that is to be taken after an event was saved, if one is.
    fn put_due(&mut self, alloc: Global, sys: &System, event: &StoredEvent) -> Result<(), RunFault>
        requires checked { IsCheckedSystem sys.now }
        ensures puts { (h : List Recording) (q : List Snapshot) → R.history (recorder_of self.old) ≡ Some h → R.snapshots (recorder_of self.old) ≡ Some q
            → PutsDue (with_due (due_after sys.now (log h) event.now) []) h q result (R.history (recorder_of self.new)) (R.snapshots (recorder_of self.new)) }
        ensures faults { IfErr result MayFailToRead }
        ensures same { Stays R.capacity R.faults self.old self.new }
        ensures told { R.history (recorder_of self.new) ≡ R.history (recorder_of self.old) }
        ensures settled { R.settled (recorder_of self.new) ≡ R.settled (recorder_of self.old) }
        ensures same_used { (used_of self.new) ≡ (used_of self.old) }
        ensures failed { IsErrOf result RunFault.Recorder → Rose (R.faults (recorder_of self.old)) (R.faults (recorder_of self.new)) }
    {
        match snapshot_due(alloc, sys, &mut self.recorder, event)? {
            Some(snapshot) => self.put(&snapshot),
            None => Ok(()),
        }
    }

    // Puts the snapshots that are to be taken after some events were saved.
    fn put_each_due(
        &mut self,
        alloc: Global,
        sys: &System,
        events: &[StoredEvent],
    ) -> Result<(), RunFault>
        requires checked { IsCheckedSystem sys.now }
        ensures puts { (h : List Recording) (q : List Snapshot) → R.history (recorder_of self.old) ≡ Some h → R.snapshots (recorder_of self.old) ≡ Some q
            → PutsDue (due_each (rules_of sys.now) h events.now) h q result (R.history (recorder_of self.new)) (R.snapshots (recorder_of self.new)) }
        ensures faults { IfErr result MayFailToRead }
        ensures same { Stays R.capacity R.faults self.old self.new }
        ensures told { R.history (recorder_of self.new) ≡ R.history (recorder_of self.old) }
        ensures settled { R.settled (recorder_of self.new) ≡ R.settled (recorder_of self.old) }
        ensures same_used { (used_of self.new) ≡ (used_of self.old) }
        ensures failed { IsErrOf result RunFault.Recorder → Rose (R.faults (recorder_of self.old)) (R.faults (recorder_of self.new)) }
    {
        for event in events {
            match self.put_due(alloc, sys, event) {
                Ok(()) => {}
                Err(fault) => return Err(fault),
            }
        }
        Ok(())
    }

    /// Answers what a line asks of it. A command adds a recording unless it is refused, and the snapshots that are due after it,
    /// and takes one reading of the clock unless it expects another version; a snapshot is put where one is asked for; a question
    /// changes nothing.
    pub fn answer<C: Clock>(
        &mut self,
        alloc: Global,
        sys: &System,
        request: &Request,
        clock: &mut C,
    ) -> Result<Reply, RunFault>
        requires checked { IsCheckedSystem sys.now }
        requires asked { MayAsk sys.now (name_of self.old) request.now }
        ensures leaves { Traced (C.readings clock.old) (C.readings clock.new) (λ before after. (logs : Logs) (h : List Recording) (q : List Snapshot) (r : Readings) → R.history (recorder_of self.old) ≡ Some h → R.snapshots (recorder_of self.old) ≡ Some q → before ≡ Some r
            → Leaves (request_answer (rules_of sys.now) (R.capacity (recorder_of self.old)) (name_of self.old) h q logs request.now (first_reading r)) h q result (R.history (recorder_of self.new)) (R.snapshots (recorder_of self.new))
            × OnOk result (after ≡ Some (readings_after (takes_reading h request.now) r))) }
        ensures faults { IfErr result MayFailToAdd }
        ensures same { Stays R.capacity R.faults self.old self.new }
        ensures settles { Settles R.history R.stable R.settled self.old self.new result }
        ensures same_used { (used_of self.new) ≡ (used_of self.old) }
        ensures failed { IsErrOf result RunFault.Recorder → Rose (R.faults (recorder_of self.old)) (R.faults (recorder_of self.new)) }
    {
        match request {
            Request::Do { app: _, command } => self.answer_command(alloc, sys, command, clock),
            Request::Get {
                app: _,
                id,
                version,
            } => self.get(alloc, sys, *id, *version),
            Request::Log { app: _, section } => self.log(sys, section),
            Request::Tracking { app: _, leader } => self.position(leader),
            Request::Snapshot { app: _, id } => self.take_snapshot(alloc, sys, *id),
            Request::Sync => Ok(Reply::Sync),
            Request::Stop => Ok(Reply::Stop),
        }
    }

    // Answers a command.
    fn answer_command<C: Clock>(
        &mut self,
        alloc: Global,
        sys: &System,
        command: &Command,
        clock: &mut C,
    ) -> Result<Reply, RunFault>
        requires checked { IsCheckedSystem sys.now }
        requires asked { request_in sys.now (command_text (name_of self.old) command.now) ≡ asks (requests.Do (name_of self.old) command.now) }
        ensures leaves { Traced (C.readings clock.old) (C.readings clock.new) (λ before after. (logs : Logs) (h : List Recording) (q : List Snapshot) (r : Readings) → R.history (recorder_of self.old) ≡ Some h → R.snapshots (recorder_of self.old) ≡ Some q → before ≡ Some r
            → Leaves (command_answer (rules_of sys.now) (R.capacity (recorder_of self.old)) (name_of self.old) h logs command.now (first_reading r)) h q result (R.history (recorder_of self.new)) (R.snapshots (recorder_of self.new))
            × OnOk result (after ≡ Some (readings_after (not (differs h command.now.id command.now.expect)) r))) }
        ensures faults { IfErr result MayFailToAdd }
        ensures same { Stays R.capacity R.faults self.old self.new }
        ensures settles { Settles R.history R.stable R.settled self.old self.new result }
        ensures same_used { (used_of self.new) ≡ (used_of self.old) }
        ensures failed { IsErrOf result RunFault.Recorder → Rose (R.faults (recorder_of self.old)) (R.faults (recorder_of self.new)) }
    {
        let version = self.recorder.latest_version(command.id)?;
        if expects_other(command.expect, version) {
            return Ok(Reply::Conflict { latest: version });
        }
        let at = clock.now();
        self.decide(alloc, sys, command, version, at)
    }

    // Decides a command at a moment, and adds what it gives. The aggregate has this version.
    fn decide(
        &mut self,
        alloc: Global,
        sys: &System,
        command: &Command,
        version: u64,
        at: Moment,
    ) -> Result<Reply, RunFault>
        requires checked { IsCheckedSystem sys.now }
        requires declared { IsDeclared sys.now (name_of self.old) command.now }
        requires small { version < 2 ^ 62 }
        ensures leaves { (h : List Recording) (q : List Snapshot) → R.history (recorder_of self.old) ≡ Some h → R.snapshots (recorder_of self.old) ≡ Some q → version ≡ latest (log h) command.now.id
            → Leaves (answer_of (rules_of sys.now) (R.capacity (recorder_of self.old)) (name_of self.old) h (command_text (name_of self.old) command.now) command.now.id at (decision_of (name_of self.old) (command_verdict sys.now command.now at h))) h q result (R.history (recorder_of self.new)) (R.snapshots (recorder_of self.new)) }
        ensures faults { IfErr result MayFailToAdd }
        ensures same { Stays R.capacity R.faults self.old self.new }
        ensures settles { Settles R.history R.stable R.settled self.old self.new result }
        ensures same_used { (used_of self.new) ≡ (used_of self.old) }
        ensures failed { IsErrOf result RunFault.Recorder → Rose (R.faults (recorder_of self.old)) (R.faults (recorder_of self.new)) }
    {
        let verdict = judge_command(alloc, sys, &mut self.recorder, command, at)?;
        self.answer_with(alloc, sys, command, version, at, verdict)
    }

    // Answers a command by what it decides.
    fn answer_with(
        &mut self,
        alloc: Global,
        sys: &System,
        command: &Command,
        version: u64,
        at: Moment,
        verdict: Verdict,
    ) -> Result<Reply, RunFault>
        requires checked { IsCheckedSystem sys.now }
        requires small { version < 2 ^ 62 }
        requires verdict { IsSmallVerdict verdict }
        requires follows { IfSome (R.history (recorder_of self.old)) (λ h. FollowsIn (log h) verdict) }
        ensures leaves { (h : List Recording) (q : List Snapshot) → R.history (recorder_of self.old) ≡ Some h → R.snapshots (recorder_of self.old) ≡ Some q → version ≡ latest (log h) command.now.id
            → Leaves (answer_of (rules_of sys.now) (R.capacity (recorder_of self.old)) (name_of self.old) h (command_text (name_of self.old) command.now) command.now.id at (decision_of (name_of self.old) verdict)) h q result (R.history (recorder_of self.new)) (R.snapshots (recorder_of self.new)) }
        ensures faults { IfErr result MayFailToAdd }
        ensures same { Stays R.capacity R.faults self.old self.new }
        ensures settles { Settles R.history R.stable R.settled self.old self.new result }
        ensures same_used { (used_of self.new) ≡ (used_of self.old) }
        ensures failed { IsErrOf result RunFault.Recorder → Rose (R.faults (recorder_of self.old)) (R.faults (recorder_of self.new)) }
    {
        match verdict {
            Verdict::Events(events) => self.accept(alloc, sys, command, version, at, events),
            Verdict::Refused { code, rule: _ } => Ok(Reply::Refused { code }),
            Verdict::Unreadable { id } => {
                let app = self.name.copy()?;
                Ok(Reply::Unreadable { app, id })
            }
        }
    }

    // Adds the events of a command, and the snapshots that are due after them.
    fn accept(
        &mut self,
        alloc: Global,
        sys: &System,
        command: &Command,
        version: u64,
        at: Moment,
        events: StoredEvents,
    ) -> Result<Reply, RunFault>
        requires checked { IsCheckedSystem sys.now }
        requires small { version < 2 ^ 62 }
        requires versions { All (λ e. e.originator_version < 2 ^ 63) events }
        requires follows { IfSome (R.history (recorder_of self.old)) (λ h. first_conflict (log h) events ≡ None) }
        ensures leaves { (h : List Recording) (q : List Snapshot) → R.history (recorder_of self.old) ≡ Some h → R.snapshots (recorder_of self.old) ≡ Some q → version ≡ latest (log h) command.now.id
            → Leaves (accept_unless (rules_of sys.now) (too_many (R.capacity (recorder_of self.old)) (length (log h)) events) (R.capacity (recorder_of self.old)) (name_of self.old) h (recording_at (Cause.Command (command_text (name_of self.old) command.now)) at events) command.now.id) h q result (R.history (recorder_of self.new)) (R.snapshots (recorder_of self.new)) }
        ensures faults { IfErr result MayFailToAdd }
        ensures same { Stays R.capacity R.faults self.old self.new }
        ensures settles { Settles R.history R.stable R.settled self.old self.new result }
        ensures same_used { (used_of self.new) ≡ (used_of self.old) }
        ensures failed { IsErrOf result RunFault.Recorder → Rose (R.faults (recorder_of self.old)) (R.faults (recorder_of self.new)) }
    {
        let version = version + count_own(events.as_slice(), command.id);
        let recording = accepted(alloc, &self.name, command, at, events)?;
        let inserted = match self.add(&recording) {
            Ok(inserted) => inserted,
            Err(fault) => return Err(fault),
        };
        match self.put_each_due(alloc, sys, recording.events.as_slice()) {
            Ok(()) => Ok(Reply::Accepted {
                recording: inserted.recording,
                first: inserted.first,
                last: inserted.last,
                version,
            }),
            Err(fault) => Err(fault),
        }
    }

    /// Takes a snapshot of an aggregate at its latest version, unless one of its class's version is there.
    pub fn take_snapshot(
        &mut self,
        alloc: Global,
        sys: &System,
        id: Uuid,
    ) -> Result<Reply, RunFault>
        requires checked { IsCheckedSystem sys.now }
        ensures leaves { (h : List Recording) (q : List Snapshot) → R.history (recorder_of self.old) ≡ Some h → R.snapshots (recorder_of self.old) ≡ Some q
            → Leaves (snapshot_answer (rules_of sys.now) (name_of self.old) q ((rules_of sys.now).read h id None)) h q result (R.history (recorder_of self.new)) (R.snapshots (recorder_of self.new)) }
        ensures faults { IfErr result MayFailToRead }
        ensures same { Stays R.capacity R.faults self.old self.new }
        ensures told { R.history (recorder_of self.new) ≡ R.history (recorder_of self.old) }
        ensures settled { R.settled (recorder_of self.new) ≡ R.settled (recorder_of self.old) }
        ensures same_used { (used_of self.new) ≡ (used_of self.old) }
        ensures failed { IsErrOf result RunFault.Recorder → Rose (R.faults (recorder_of self.old)) (R.faults (recorder_of self.new)) }
    {
        let mut repository = Repository::new(alloc, 0)?;
        match repository.get(sys, &mut self.recorder, id, None) {
            Ok(aggregate) => {
                let snapshot = snapshot(alloc, sys, &aggregate)?;
                self.put_unless_kept(&snapshot)
            }
            Err(RepoFault::NotFound) => Ok(Reply::NotFound),
            Err(RepoFault::Unreadable { id }) => {
                let app = self.name.copy()?;
                Ok(Reply::Unreadable { app, id })
            }
            Err(RepoFault::Failed) => Err(RunFault::Recorder),
            Err(RepoFault::NoMemory) => Err(RunFault::NoMemory),
        }
    }

    // Puts a snapshot, unless one of the same aggregate, version and class version is kept.
    fn put_unless_kept(&mut self, snapshot: &Snapshot) -> Result<Reply, RunFault>
        requires { IsSmallSnapshot snapshot.now }
        ensures leaves { (h : List Recording) (q : List Snapshot) → R.history (recorder_of self.old) ≡ Some h → R.snapshots (recorder_of self.old) ≡ Some q
            → Leaves (take_unless (is_there q snapshot.now) snapshot.now) h q result (R.history (recorder_of self.new)) (R.snapshots (recorder_of self.new)) }
        ensures faults { IfErr result MayFailToRead }
        ensures same { Stays R.capacity R.faults self.old self.new }
        ensures told { R.history (recorder_of self.new) ≡ R.history (recorder_of self.old) }
        ensures settled { R.settled (recorder_of self.new) ≡ R.settled (recorder_of self.old) }
        ensures same_used { (used_of self.new) ≡ (used_of self.old) }
        ensures failed { IsErrOf result RunFault.Recorder → Rose (R.faults (recorder_of self.old)) (R.faults (recorder_of self.new)) }
    {
        let version = snapshot.originator_version;
        if is_kept(&mut self.recorder, snapshot)? {
            return Ok(Reply::Unchanged { version });
        }
        match self.put(snapshot) {
            Ok(()) => Ok(Reply::Snapshot { version }),
            Err(fault) => Err(fault),
        }
    }

    /// The greatest notification id of a leader that it tracks.
    pub fn tracked(&mut self, leader: &Text) -> Result<u64, CallFault>
        ensures value { IfSome (R.history (recorder_of self.old)) (λ h. IfOk result (λ id. id ≡ tracked_in h leader.now)) }
        ensures small { IfOk result (λ id. id < 2 ^ 62) }
        ensures same { IsSame R.history R.settled R.capacity R.snapshots R.faults self.old self.new }
        ensures cause { CallHasCause (R.faults (recorder_of self.old)) (R.faults (recorder_of self.new)) result }
    {
        self.recorder.max_tracking_id(leader)
    }

    /// The id of its last notification, or 0 where it has none.
    pub fn last_notification(&mut self) -> Result<u64, CallFault>
        ensures value { IfSome (R.history (recorder_of self.old)) (λ h. IfOk result (λ id. id ≡ length (log h))) }
        ensures same { IsSame R.history R.settled R.capacity R.snapshots R.faults self.old self.new }
        ensures cause { CallHasCause (R.faults (recorder_of self.old)) (R.faults (recorder_of self.new)) result }
    {
        self.recorder.max_notification_id()
    }

    /// Its notification after one that is tracked, if there is one.
    pub fn next_after(&mut self, tracked: u64) -> Result<Option<Notification>, RunFault>
        requires { tracked < 2 ^ 62 }
        ensures found { IfSome (R.history (recorder_of self.old)) (λ h. IfOk result (IsNextAfter (log h) tracked)) }
        ensures small { IfOk result (λ found. IfSome found IsSmall) }
        ensures faults { IfErr result MayFailToRead }
        ensures same { IsSame R.history R.settled R.capacity R.snapshots R.faults self.old self.new }
        ensures failed { IsErrOf result RunFault.Recorder → Rose (R.faults (recorder_of self.old)) (R.faults (recorder_of self.new)) }
    {
        let next = self.recorder.select_notifications(tracked + 1, 1)?;
        Ok(next.into_vec().pop())
    }

    /// Whether it may record another notification of its leaders; where it may not, that is the fault.
    pub fn turn(&self) -> Result<(), RunFault>
        ensures left { OnOk result ((used_of self.now) < (turns_of self.now)) }
        ensures used { IfErr result (λ fault. ((turns_of self.now) ≤ (used_of self.now)) × (fault ≡ RunFault.Turns (name_of self.now) (turns_of self.now)) ⊎ (fault ≡ RunFault.NoMemory)) }
    {
        if self.used < self.turns {
            return Ok(());
        }
        let app = self.name.copy()?;
        let turns = self.turns;
        Err(RunFault::Turns { app, turns })
    }

    /// Processes a leader's notification by its id and its domain event, which `convert` gives: the next one is recorded with the events
    /// that follow from it, and the snapshots that are due after these are put; any other changes nothing.
    pub fn process<C: Clock>(
        &mut self,
        alloc: Global,
        sys: &System,
        leader: &Text,
        id: u64,
        event: &DomainEvent,
        clock: &mut C,
    ) -> Result<Processed, RunFault>
        requires checked { IsCheckedSystem sys.now }
        requires app { IsTrue (is_some (app_named sys.now.apps (name_of self.old))) }
        requires notice { IsNotice sys.now (notice leader.now id event.now) }
        ensures processed { Traced (C.readings clock.old) (C.readings clock.new) (λ before after. (logs : Logs) (h : List Recording) (q : List Snapshot) (r : Readings) → IsEntry sys.now logs leader.now id event.now
            → R.history (recorder_of self.old) ≡ Some h → R.snapshots (recorder_of self.old) ≡ Some q → before ≡ Some r
            → Processes leader.now id
            (followed (rules_of sys.now) (options (R.capacity (recorder_of self.old)) (turns_of self.old)) (name_of self.old) h (used_of self.old) logs leader.now id (first_reading r))
            h q (used_of self.old) r result (R.history (recorder_of self.new)) (R.snapshots (recorder_of self.new)) (used_of self.new) after) }
        ensures counts { (used_of self.old) ≤ (used_of self.new) }
        ensures bounded { (used_of self.old) ≤ (turns_of self.old) → (used_of self.new) ≤ (turns_of self.new) }
        ensures counted { IsRecorded result → (used_of self.new) ≡ (used_of self.old) + 1 }
        ensures free { IsRecorded result → (used_of self.old) < (turns_of self.old) }
        ensures same { Stays R.capacity R.faults self.old self.new }
        ensures settles { Settles R.history R.stable R.settled self.old self.new result }
        ensures failed { IsErrOf result RunFault.Recorder → Rose (R.faults (recorder_of self.old)) (R.faults (recorder_of self.new)) }
    {
        let tracked = self.recorder.max_tracking_id(leader)?;
        if id <= tracked {
            return Ok(Processed::Skipped { tracked });
        }
        if id > tracked + 1 {
            return Ok(Processed::Gap { tracked });
        }
        match self.take(alloc, sys, leader, id, event, clock) {
            Ok(inserted) => Ok(Processed::Recorded {
                first: inserted.first,
                last: inserted.last,
            }),
            Err(fault) => Err(fault),
        }
    }

    // Records the next notification, unless all turns are used.
    fn take<C: Clock>(
        &mut self,
        alloc: Global,
        sys: &System,
        leader: &Text,
        id: u64,
        event: &DomainEvent,
        clock: &mut C,
    ) -> Result<Inserted, RunFault>
        requires checked { IsCheckedSystem sys.now }
        requires app { IsTrue (is_some (app_named sys.now.apps (name_of self.old))) }
        requires notice { IsNotice sys.now (notice leader.now id event.now) }
        requires next { IfSome (R.history (recorder_of self.old)) (λ h. id ≡ tracked_in h leader.now + 1) }
        ensures taken { Traced (C.readings clock.old) (C.readings clock.new) (λ before after. (logs : Logs) (h : List Recording) (q : List Snapshot) (r : Readings) → IsEntry sys.now logs leader.now id event.now
            → R.history (recorder_of self.old) ≡ Some h → R.snapshots (recorder_of self.old) ≡ Some q → before ≡ Some r
            → Takes (followed (rules_of sys.now) (options (R.capacity (recorder_of self.old)) (turns_of self.old)) (name_of self.old) h (used_of self.old) logs leader.now id (first_reading r))
            h q (used_of self.old) r result (R.history (recorder_of self.new)) (R.snapshots (recorder_of self.new)) (used_of self.new) after) }
        ensures counts { ((used_of self.new) ≡ (used_of self.old)) ⊎ ((used_of self.new) ≡ (used_of self.old) + 1) × ((used_of self.old) < (turns_of self.old)) }
        ensures counted { OnOk result ((used_of self.new) ≡ (used_of self.old) + 1) }
        ensures free { OnOk result ((used_of self.old) < (turns_of self.old)) }
        ensures same { Stays R.capacity R.faults self.old self.new }
        ensures settles { Settles R.history R.stable R.settled self.old self.new result }
        ensures failed { IsErrOf result RunFault.Recorder → Rose (R.faults (recorder_of self.old)) (R.faults (recorder_of self.new)) }
    {
        match self.turn() {
            Ok(()) => {
                let at = clock.now();
                self.record(alloc, sys, leader, id, event, at)
            }
            Err(fault) => Err(fault),
        }
    }

    // Records the next notification at a moment, with the events that follow from its domain event.
    fn record(
        &mut self,
        alloc: Global,
        sys: &System,
        leader: &Text,
        id: u64,
        event: &DomainEvent,
        at: Moment,
    ) -> Result<Inserted, RunFault>
        requires checked { IsCheckedSystem sys.now }
        requires app { IsTrue (is_some (app_named sys.now.apps (name_of self.old))) }
        requires notice { IsNotice sys.now (notice leader.now id event.now) }
        requires free { (used_of self.old) < (turns_of self.old) }
        requires next { IfSome (R.history (recorder_of self.old)) (λ h. id ≡ tracked_in h leader.now + 1) }
        ensures records { (h : List Recording) (q : List Snapshot) → R.history (recorder_of self.old) ≡ Some h → R.snapshots (recorder_of self.old) ≡ Some q
            → Records (followed_of (rules_of sys.now) (R.capacity (recorder_of self.old)) (name_of self.old) h leader.now id at (decision_of (name_of self.old) (policy_verdict sys.now (name_of self.old) (notice leader.now id event.now) at h))) h q result (R.history (recorder_of self.new)) (R.snapshots (recorder_of self.new)) }
        ensures counts { ((used_of self.new) ≡ (used_of self.old)) ⊎ ((used_of self.new) ≡ (used_of self.old) + 1) }
        ensures counted { OnOk result ((used_of self.new) ≡ (used_of self.old) + 1) }
        ensures same { Stays R.capacity R.faults self.old self.new }
        ensures settles { Settles R.history R.stable R.settled self.old self.new result }
        ensures failed { IsErrOf result RunFault.Recorder → Rose (R.faults (recorder_of self.old)) (R.faults (recorder_of self.new)) }
    {
        let events = match self.follow(alloc, sys, leader, id, event, at) {
            Ok(events) => events,
            Err(fault) => return Err(fault),
        };
        let cause = Cause::Notification {
            leader: leader.copy()?,
            id,
        };
        let recording = Recording { cause, at, events };
        self.save(alloc, sys, &recording)
    }

    // Adds the recording of a notification, and the snapshots that are due after it.
    fn save(
        &mut self,
        alloc: Global,
        sys: &System,
        recording: &Recording,
    ) -> Result<Inserted, RunFault>
        requires checked { IsCheckedSystem sys.now }
        requires insertable { IsInsertable recording.now }
        requires fits { IfSome (R.history (recorder_of self.old)) (λ h. Fits h recording.now) }
        requires free { (used_of self.old) < (turns_of self.old) }
        ensures saves { (h : List Recording) (q : List Snapshot) → R.history (recorder_of self.old) ≡ Some h → R.snapshots (recorder_of self.old) ≡ Some q
            → Records (add_unless (rules_of sys.now) (too_many (R.capacity (recorder_of self.old)) (length (log h)) recording.now.events) (R.capacity (recorder_of self.old)) (name_of self.old) h recording.now) h q result (R.history (recorder_of self.new)) (R.snapshots (recorder_of self.new)) }
        ensures counts { ((used_of self.new) ≡ (used_of self.old)) ⊎ ((used_of self.new) ≡ (used_of self.old) + 1) }
        ensures counted { OnOk result ((used_of self.new) ≡ (used_of self.old) + 1) }
        ensures faults { IfErr result MayFailToAdd }
        ensures same { Stays R.capacity R.faults self.old self.new }
        ensures settles { Settles R.history R.stable R.settled self.old self.new result }
        ensures failed { IsErrOf result RunFault.Recorder → Rose (R.faults (recorder_of self.old)) (R.faults (recorder_of self.new)) }
    {
        let inserted = match self.add(recording) {
            Ok(inserted) => inserted,
            Err(fault) => return Err(fault),
        };
        self.used += 1;
        match self.put_each_due(alloc, sys, recording.events.as_slice()) {
            Ok(()) => Ok(inserted),
            Err(fault) => Err(fault),
        }
    }

    // The events that follow from a leader's event by the policy, or that it refuses.
    fn follow(
        &mut self,
        alloc: Global,
        sys: &System,
        leader: &Text,
        id: u64,
        event: &DomainEvent,
        at: Moment,
    ) -> Result<StoredEvents, RunFault>
        requires checked { IsCheckedSystem sys.now }
        requires app { IsTrue (is_some (app_named sys.now.apps (name_of self.old))) }
        requires notice { IsNotice sys.now (notice leader.now id event.now) }
        ensures decides { (h : List Recording) → R.history (recorder_of self.old) ≡ Some h
            → Decides (name_of self.old) h leader.now id (decision_of (name_of self.old) (policy_verdict sys.now (name_of self.old) (notice leader.now id event.now) at h)) result }
        ensures small { IfOk result (λ es. All (λ e. e.originator_version < 2 ^ 63) es) }
        ensures follows { (h : List Recording) → R.history (recorder_of self.old) ≡ Some h → IfOk result (λ es. first_conflict (log h) es ≡ None) }
        ensures faults { IfErr result MayRefuse }
        ensures same { IsSame R.history R.settled R.capacity R.snapshots R.faults self.old self.new }
        ensures failed { IsErrOf result RunFault.Recorder → Rose (R.faults (recorder_of self.old)) (R.faults (recorder_of self.new)) }
    {
        let verdict = judge_policy(
            alloc,
            sys,
            &self.name,
            &mut self.recorder,
            leader,
            id,
            event,
            at,
        )?;
        self.follow_with(leader, id, verdict)
    }

    // The events of what a policy decides, or the fault that it is.
    fn follow_with(
        &mut self,
        leader: &Text,
        id: u64,
        verdict: Verdict,
    ) -> Result<StoredEvents, RunFault>
        requires verdict { IsSmallVerdict verdict }
        ensures decides { (h : List Recording) → R.history (recorder_of self.old) ≡ Some h → Decides (name_of self.old) h leader.now id (decision_of (name_of self.old) verdict) result }
        ensures events { IfOk result (λ es. verdict ≡ verdicts.Events es) }
        ensures faults { IfErr result MayRefuse }
        ensures same { IsSame R.history R.settled R.capacity R.snapshots R.faults self.old self.new }
        ensures failed { IsErrOf result RunFault.Recorder → Rose (R.faults (recorder_of self.old)) (R.faults (recorder_of self.new)) }
    {
        match verdict {
            Verdict::Events(events) => Ok(events),
            Verdict::Refused { code, rule } => {
                let recordings = self.recorder.recordings()?;
                Err(self.refusal(leader, id, recordings, code, rule))
            }
            Verdict::Unreadable { id } => Err(unreadable(&self.name, id)),
        }
    }

    // The refusal of a notification by a rule of the policy.
    fn refusal(&self, leader: &Text, id: u64, recordings: u64, code: Text, rule: u64) -> RunFault
        ensures { (result ≡ RunFault.Refused self.now.name leader.now id recordings code rule) ⊎ (result ≡ RunFault.NoMemory) }
    {
        let Ok(app) = self.name.copy() else {
            return RunFault::NoMemory;
        };
        let Ok(leader) = leader.copy() else {
            return RunFault::NoMemory;
        };
        RunFault::Refused {
            app,
            leader,
            id,
            recordings,
            code,
            rule,
        }
    }
}
