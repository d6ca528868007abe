//! What comes of a command and of a leader's event over the recordings of one application.
ghost use Rattle.std.specs.Prelude.{◌≡◌, ◌+◌, ◌<◌, ◌^◌, List, Some, IfOk, IfSome, IsTrue, is_some};
ghost use Rattle.es_model.specs.declared.event.Recording.{Recording};
ghost use Rattle.es_model.specs.Declaration.{app_named};
ghost use Rattle.es_model.specs.History.{log, latest};
ghost use Rattle.es_model.specs.Values.{Id};
ghost use Rattle.es_expr.specs.Checked.{IsCheckedSystem};
ghost use Rattle.es_domain.specs.Decision.{IsNotice, IsOfCommand, notice};
ghost use Rattle.es_domain.specs.Effect.{command_named};
ghost use Rattle.es_mapper.specs.Mapped.{event_of};
ghost use Rattle.es_process.specs.Answer.{differs, recording_of};
ghost use Rattle.es_recorder.specs.Insert.{IdIsSmall, IsInsertable};
ghost use Rattle.es_repo.specs.Verdicts.{IsSmallVerdict};
ghost use Rattle.es_world.specs.Answers.{adds, commanded, decided, followed_event};
ghost use Rattle.es_world.specs.inner.Left.{Leaves};

use crate::StepAnswer;
use es_domain::Command;
use es_memory::MemoryRecorder;
use es_model::{Bytes, Cause, DomainEvent, Duplicate, Moment, NoMemory, Recording, System, Text};
use es_recorder::{AggregateRecorder, ProcessRecorder};
use es_repo::{Verdict, judge_command, judge_policy};
use std::alloc::Global;
use uuid::Uuid;

// Adds a recording. What is decided comes next, so nothing but memory is wanting: that of more events than are counted too.
fn add(recorder: &mut MemoryRecorder, recording: &Recording) -> Result<StepAnswer, NoMemory>
    requires { IsInsertable recording.now }
    ensures { (h : List Recording) → ⟦<MemoryRecorder as AggregateRecorder>⟧.history recorder.old ≡ Some h → Leaves (adds recording.now) h result (⟦<MemoryRecorder as AggregateRecorder>⟧.history recorder.new) }
{
    match recorder.insert(recording) {
        Ok(_) => Ok(StepAnswer::Recorded),
        Err(_) => Err(NoMemory),
    }
}

// Adds what is decided on a cause, or tells why nothing is added.
fn add_decided(
    app: &Text,
    recorder: &mut MemoryRecorder,
    cause: Cause,
    at: Moment,
    verdict: Verdict,
) -> Result<StepAnswer, NoMemory>
    requires cause { IdIsSmall cause }
    requires verdict { IsSmallVerdict verdict }
    ensures { (h : List Recording) → ⟦<MemoryRecorder as AggregateRecorder>⟧.history recorder.old ≡ Some h → Leaves (decided app.now cause at verdict) h result (⟦<MemoryRecorder as AggregateRecorder>⟧.history recorder.new) }
{
    match verdict {
        Verdict::Events(events) => add(recorder, &Recording { cause, at, events }),
        Verdict::Refused { code, rule } => Ok(StepAnswer::Refused { code, rule }),
        Verdict::Unreadable { id } => {
            let app = app.copy()?;
            Ok(StepAnswer::Unreadable { app, id })
        }
    }
}

// Whether a command expects another version than that of its aggregate.
fn expects_other(expect: Option<u64>, version: u64) -> bool
    ensures { (h : List Recording) (id : Id) → version ≡ latest (log h) id → result ≡ differs h id expect }
{
    match expect {
        Some(wanted) => wanted != version,
        None => false,
    }
}

// The number of an aggregate's events.
fn latest_of(recorder: &mut MemoryRecorder, id: Uuid) -> Result<u64, NoMemory>
    ensures latest { (h : List Recording) → ⟦<MemoryRecorder as AggregateRecorder>⟧.history recorder.old ≡ Some h → IfOk result (λ version. version ≡ latest (log h) id) }
    ensures same { ⟦<MemoryRecorder as AggregateRecorder>⟧.history recorder.new ≡ ⟦<MemoryRecorder as AggregateRecorder>⟧.history recorder.old }
{
    match recorder.latest_version(id) {
        Ok(version) => Ok(version),
        Err(_) => Err(NoMemory),
    }
}

/// What comes of a command that a text asks.
pub(crate) fn command_over(
    alloc: Global,
    sys: &System,
    app: &Text,
    recorder: &mut MemoryRecorder,
    text: Bytes,
    command: &Command,
    at: Moment,
) -> Result<StepAnswer, NoMemory>
    requires checked { IsCheckedSystem sys.now }
    requires command { IsOfCommand (command_named sys.now command.now.class command.now.name) command.now.args }
    ensures { (h : List Recording) → ⟦<MemoryRecorder as AggregateRecorder>⟧.history recorder.old ≡ Some h → Leaves (commanded sys.now app.now h text at command.now) h result (⟦<MemoryRecorder as AggregateRecorder>⟧.history recorder.new) }
{
    let latest = latest_of(recorder, command.id)?;
    if expects_other(command.expect, latest) {
        return Ok(StepAnswer::Conflict { latest });
    }
    match judge_command(alloc, sys, recorder, command, at) {
        Ok(verdict) => add_decided(app, recorder, Cause::Command { text }, at, verdict),
        Err(_) => Err(NoMemory),
    }
}

/// What comes of a leader's event.
pub(crate) fn event_over(
    alloc: Global,
    sys: &System,
    app: &Text,
    recorder: &mut MemoryRecorder,
    leader: &Text,
    id: u64,
    event: &DomainEvent,
    at: Moment,
) -> Result<StepAnswer, NoMemory>
    requires checked { IsCheckedSystem sys.now }
    requires app { IsTrue (is_some (app_named sys.now.apps app.now)) }
    requires notice { IsNotice sys.now (notice leader.now id event.now) }
    ensures { (h : List Recording) → ⟦<MemoryRecorder as AggregateRecorder>⟧.history recorder.old ≡ Some h → Leaves (followed_event sys.now app.now h leader.now id at (Some event.now)) h result (⟦<MemoryRecorder as AggregateRecorder>⟧.history recorder.new) }
{
    let cause = Cause::Notification {
        leader: leader.copy()?,
        id,
    };
    match judge_policy(alloc, sys, app, recorder, leader, id, event, at) {
        Ok(verdict) => add_decided(app, recorder, cause, at, verdict),
        Err(_) => Err(NoMemory),
    }
}
