ghost use Rattle.std.specs.Prelude.{◌≡◌, List, Some, IsTrue, IfOk, is_some};
ghost use Rattle.es_model.specs.Causes.{CallHasCause};
ghost use Rattle.es_model.specs.Declaration.{app_named};
ghost use Rattle.es_model.specs.History.{log};
ghost use Rattle.es_model.specs.declared.event.Recording.{Recording};
ghost use Rattle.es_expr.specs.Checked.{IsCheckedSystem};
ghost use Rattle.es_domain.specs.Decision.{AreNewEvents, Decides, IsNotice, IsOfCommand, command_decision, notice};
ghost use Rattle.es_domain.specs.Effect.{command_named};
ghost use Rattle.es_domain.specs.Readings.{FindHasCause};
ghost use Rattle.es_repo.specs.Policies.{policy_by, readings_with};
ghost use Rattle.es_repo.specs.Readings.{readings_of};
ghost use Rattle.es_repo.specs.Same.{IsSameRecorder};
ghost use Rattle.es_repo.specs.Verdicts.{command_verdict, policy_verdict, stored_verdict, AcceptsAs, FollowsIn, IsSmallVerdict};

use crate::Verdict;
use crate::reader::Reader;
use crate::verdict::verdict_in;
use es_domain::{Command, Decision, FindFault, decide_command, decide_policy};
use es_model::{CallFault, DomainEvent, List, Moment, System, Text};
use es_recorder::ProcessRecorder;
use std::alloc::Global;

// What a command decides.
fn command_decided<R: ProcessRecorder>(
    alloc: Global,
    sys: &System,
    recorder: &mut R,
    command: &Command,
    at: Moment,
) -> Result<Decision, FindFault>
    requires checked { IsCheckedSystem sys.now }
    requires command { IsOfCommand (command_named sys.now command.now.class command.now.name) command.now.args }
    ensures decision { (h : List Recording) → R.history recorder.old ≡ Some h → Decides (command_decision sys.now command.now at (readings_of sys.now (log h))) result }
    ensures events { IfOk result (AreNewEvents sys.now) }
    ensures same { IsSameRecorder R.history R.settled R.snapshots R.capacity recorder.old recorder.new }
    ensures cause { FindHasCause (R.faults recorder.old) (R.faults recorder.new) result }
{
    let mut reader = Reader {
        alloc,
        sys,
        recorder,
        asked: List::new(alloc),
    };
    let decided = decide_command(alloc, sys, &mut reader, command, at);
    reader.into_recorder();
    decided
}

// What the policy of an application decides.
fn policy_decided<R: ProcessRecorder>(
    alloc: Global,
    sys: &System,
    app: &Text,
    recorder: &mut R,
    leader: &Text,
    id: u64,
    event: &DomainEvent,
    at: Moment,
) -> Result<Decision, FindFault>
    requires checked { IsCheckedSystem sys.now }
    requires app { IsTrue (is_some (app_named sys.now.apps app.now)) }
    requires notice { IsNotice sys.now (notice leader.now id event.now) }
    ensures decision { (h : List Recording) → R.history recorder.old ≡ Some h → Decides (policy_by sys.now app.now (notice leader.now id event.now) at (readings_with sys.now (log h))) result }
    ensures events { IfOk result (AreNewEvents sys.now) }
    ensures same { IsSameRecorder R.history R.settled R.snapshots R.capacity recorder.old recorder.new }
    ensures cause { FindHasCause (R.faults recorder.old) (R.faults recorder.new) result }
{
    let mut reader = Reader {
        alloc,
        sys,
        recorder,
        asked: List::new(alloc),
    };
    let decided = decide_policy(alloc, sys, app, &mut reader, leader, id, event, at);
    reader.into_recorder();
    decided
}

/// What a command decides over all that a recorder holds. Nothing is inserted.
pub fn judge_command<R: ProcessRecorder>(
    alloc: Global,
    sys: &System,
    recorder: &mut R,
    command: &Command,
    at: Moment,
) -> Result<Verdict, CallFault>
    requires checked { IsCheckedSystem sys.now }
    requires command { IsOfCommand (command_named sys.now command.now.class command.now.name) command.now.args }
    ensures verdict { (h : List Recording) → R.history recorder.old ≡ Some h → IfOk result (λ v. v ≡ command_verdict sys.now command.now at h) }
    ensures small { IfOk result IsSmallVerdict }
    ensures follows { (h : List Recording) → R.history recorder.old ≡ Some h → IfOk result (FollowsIn (log h)) }
    ensures same { IsSameRecorder R.history R.settled R.snapshots R.capacity recorder.old recorder.new }
    ensures cause { CallHasCause (R.faults recorder.old) (R.faults recorder.new) result }
{
    let decided = command_decided(alloc, sys, recorder, command, at);
    verdict_in(alloc, sys, decided)
}

/// What the policy of an application decides on a leader's notification over all that a recorder holds.
/// Nothing is inserted.
pub fn judge_policy<R: ProcessRecorder>(
    alloc: Global,
    sys: &System,
    app: &Text,
    recorder: &mut R,
    leader: &Text,
    id: u64,
    event: &DomainEvent,
    at: Moment,
) -> Result<Verdict, CallFault>
    requires checked { IsCheckedSystem sys.now }
    requires app { IsTrue (is_some (app_named sys.now.apps app.now)) }
    requires notice { IsNotice sys.now (notice leader.now id event.now) }
    ensures verdict { (h : List Recording) → R.history recorder.old ≡ Some h → IfOk result (λ v. v ≡ policy_verdict sys.now app.now (notice leader.now id event.now) at h) }
    ensures stored { (h : List Recording) → R.history recorder.old ≡ Some h → IfOk result (AcceptsAs (stored_verdict sys.now app.now (notice leader.now id event.now) at h)) }
    ensures small { IfOk result IsSmallVerdict }
    ensures follows { (h : List Recording) → R.history recorder.old ≡ Some h → IfOk result (FollowsIn (log h)) }
    ensures same { IsSameRecorder R.history R.settled R.snapshots R.capacity recorder.old recorder.new }
    ensures cause { CallHasCause (R.faults recorder.old) (R.faults recorder.new) result }
{
    let decided = policy_decided(alloc, sys, app, recorder, leader, id, event, at);
    verdict_in(alloc, sys, decided)
}
