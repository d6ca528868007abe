//! The recordings of one application, lent to a recorder for as long as something is decided over them.
ghost use Rattle.std.specs.Prelude.{◌≡◌, ◌<◌, ◌+◌, ◌-◌, ◌^◌, List, Some, IfOk, IfSome, IsTrue, is_some, slice_get};
ghost use Rattle.es_model.specs.declared.event.Recording.{Recording};
ghost use Rattle.es_model.specs.declared.event.StoredEvent.{StoredEvent};
ghost use Rattle.es_model.specs.Declaration.{app_named};
ghost use Rattle.es_model.specs.History.{log, IsFormed};
ghost use Rattle.es_model.specs.Tracking.{tracked_in};
ghost use Rattle.es_expr.specs.Checked.{IsCheckedSystem};
ghost use Rattle.es_domain.specs.Decision.{IsOfCommand};
ghost use Rattle.es_domain.specs.Effect.{command_named};
ghost use Rattle.es_process.specs.Standing.{IsNextAfter, IsSmall};
ghost use Rattle.es_world.specs.Answers.{come_to, commanded};
ghost use Rattle.es_world.specs.inner.Left.{Leaves};

use crate::outcomes::{command_over, event_over};
use crate::{AppHistory, StepAnswer};
use es_domain::Command;
use es_memory::MemoryRecorder;
use es_model::limits::NUMBERS_END;
use es_model::{Bytes, Moment, NoMemory, Notification, Recordings, Snapshots, System, Text};
use es_process::{RunFault, convert};
use es_recorder::{AggregateRecorder, ApplicationRecorder, ProcessRecorder};
use std::alloc::Global;
use std::mem;

// A recorder that holds some recordings. It takes no memory that it can't do without.
fn recorder_over(alloc: Global, recordings: Recordings) -> MemoryRecorder
    requires { IsFormed recordings }
    ensures { ⟦<MemoryRecorder as AggregateRecorder>⟧.history result ≡ Some recordings }
{
    match MemoryRecorder::with(alloc, recordings, Snapshots::new(alloc), NUMBERS_END - 1) {
        Ok(recorder) => recorder,
        Err(NoMemory) => unreachable!(),
    }
}

// The entry of a log after so many, if there is one.
fn entry_after(recorder: &mut MemoryRecorder, before: u64) -> Result<Option<Notification>, NoMemory>
    requires { before + 1 < 2 ^ 64 }
    ensures found { IfSome (⟦<MemoryRecorder as AggregateRecorder>⟧.history recorder.old) (λ h. IfOk result (IsNextAfter (log h) before)) }
    ensures small { IfOk result (λ found. IfSome found IsSmall) }
    ensures same { ⟦<MemoryRecorder as AggregateRecorder>⟧.history recorder.new ≡ ⟦<MemoryRecorder as AggregateRecorder>⟧.history recorder.old }
{
    match recorder.select_notifications(before + 1, 1) {
        Ok(found) => Ok(found.into_vec().pop()),
        Err(_) => Err(NoMemory),
    }
}

/// The entry of an application's log after so many, if there is one.
pub(crate) fn entry_in(
    alloc: Global,
    held: &mut AppHistory,
    before: u64,
) -> Result<Option<Notification>, NoMemory>
    requires before { before + 1 < 2 ^ 64 }
    requires formed { IsFormed held.old.recordings }
    ensures found { IfOk result (IsNextAfter (log held.old.recordings) before) }
    ensures small { IfOk result (λ found. IfSome found IsSmall) }
    ensures same { held.new ≡ held.old }
{
    let recordings = mem::replace(&mut held.recordings, Recordings::new(alloc));
    let mut recorder = recorder_over(alloc, recordings);
    let found = entry_after(&mut recorder, before);
    let (recordings, _) = recorder.into_parts();
    held.recordings = recordings;
    found
}

// What comes of a leader's notification, by how far the application has come with it.
fn notification_over(
    alloc: Global,
    sys: &System,
    app: &Text,
    recorder: &mut MemoryRecorder,
    leader: &Text,
    notification: &Notification,
    at: Moment,
) -> Result<StepAnswer, NoMemory>
    requires checked { IsCheckedSystem sys.now }
    requires app { IsTrue (is_some (app_named sys.now.apps app.now)) }
    requires leader { IsTrue (is_some (app_named sys.now.apps leader.now)) }
    requires small { IsSmall notification.now }
    ensures { (h : List Recording) (entries : List StoredEvent) → ⟦<MemoryRecorder as AggregateRecorder>⟧.history recorder.old ≡ Some h → slice_get entries (notification.now.id - 1) ≡ Some notification.now.event
        → Leaves (come_to sys.now app.now h entries leader.now notification.now.id at) h result (⟦<MemoryRecorder as AggregateRecorder>⟧.history recorder.new) }
{
    let id = notification.id;
    let tracked = tracked_by(recorder, leader)?;
    if id <= tracked {
        return Ok(StepAnswer::Skipped { tracked });
    }
    if id > tracked + 1 {
        return Ok(StepAnswer::Gap { tracked });
    }
    match convert(alloc, sys, leader, notification) {
        Ok(event) => event_over(alloc, sys, app, recorder, leader, id, &event, at),
        Err(RunFault::Unreadable { app, id }) => Ok(StepAnswer::Unreadable { app, id }),
        Err(_) => Err(NoMemory),
    }
}

// How far an application has come with a leader.
fn tracked_by(recorder: &mut MemoryRecorder, leader: &Text) -> Result<u64, NoMemory>
    ensures tracked { (h : List Recording) → ⟦<MemoryRecorder as AggregateRecorder>⟧.history recorder.old ≡ Some h → IfOk result (λ id. id ≡ tracked_in h leader.now) }
    ensures small { IfOk result (λ id. id < 2 ^ 62) }
    ensures same { ⟦<MemoryRecorder as AggregateRecorder>⟧.history recorder.new ≡ ⟦<MemoryRecorder as AggregateRecorder>⟧.history recorder.old }
{
    match recorder.max_tracking_id(leader) {
        Ok(id) => Ok(id),
        Err(_) => Err(NoMemory),
    }
}

/// What comes of a leader's notification that is delivered to an application.
pub(crate) fn notification_in(
    alloc: Global,
    sys: &System,
    held: &mut AppHistory,
    leader: &Text,
    notification: &Notification,
    at: Moment,
) -> Result<StepAnswer, NoMemory>
    requires checked { IsCheckedSystem sys.now }
    requires app { IsTrue (is_some (app_named sys.now.apps held.old.app)) }
    requires leader { IsTrue (is_some (app_named sys.now.apps leader.now)) }
    requires small { IsSmall notification.now }
    requires formed { IsFormed held.old.recordings }
    ensures leaves { (entries : List StoredEvent) → slice_get entries (notification.now.id - 1) ≡ Some notification.now.event
        → Leaves (come_to sys.now held.old.app held.old.recordings entries leader.now notification.now.id at) held.old.recordings result (Some held.new.recordings) }
    ensures formed { IsFormed held.new.recordings }
    ensures named { held.new.app ≡ held.old.app }
{
    let recordings = mem::replace(&mut held.recordings, Recordings::new(alloc));
    let mut recorder = recorder_over(alloc, recordings);
    let answer = notification_over(
        alloc,
        sys,
        &held.app,
        &mut recorder,
        leader,
        notification,
        at,
    );
    let (recordings, _) = recorder.into_parts();
    held.recordings = recordings;
    answer
}

/// What comes of a command that a text asks of an application.
pub(crate) fn command_in(
    alloc: Global,
    sys: &System,
    held: &mut AppHistory,
    text: Bytes,
    command: &Command,
    at: Moment,
) -> Result<StepAnswer, NoMemory>
    requires checked { IsCheckedSystem sys.now }
    requires command { IsOfCommand (command_named sys.now command.now.class command.now.name) command.now.args }
    requires formed { IsFormed held.old.recordings }
    ensures leaves { Leaves (commanded sys.now held.old.app held.old.recordings text at command.now) held.old.recordings result (Some held.new.recordings) }
    ensures formed { IsFormed held.new.recordings }
    ensures named { held.new.app ≡ held.old.app }
{
    let recordings = mem::replace(&mut held.recordings, Recordings::new(alloc));
    let mut recorder = recorder_over(alloc, recordings);
    let answer = command_over(alloc, sys, &held.app, &mut recorder, text, command, at);
    let (recordings, _) = recorder.into_parts();
    held.recordings = recordings;
    answer
}
