//! The applications of a world at their places, and what comes at one of them.
ghost use Rattle.std.specs.Prelude.{◌≡◌, ◌<◌, ◌≤◌, ◌+◌, ◌-◌, ◌^◌, Some, IfOk, IfSome, IsTrue, List, is_some, length, map, slice_get};
ghost use Rattle.es_model.specs.declared.event.StoredEvent.{StoredEvent};
ghost use Rattle.es_model.specs.Declaration.{app_named};
ghost use Rattle.es_expr.specs.Checked.{IsCheckedSystem};
ghost use Rattle.es_domain.specs.Decision.{IsOfCommand};
ghost use Rattle.es_domain.specs.Effect.{command_named};
ghost use Rattle.es_model.specs.History.{log};
ghost use Rattle.es_process.specs.Standing.{IsNextAfter, IsSmall};
ghost use Rattle.es_world.specs.Answers.{come_to, commanded};
ghost use Rattle.es_world.specs.Told.{AreFormed, histories_in, place_in};
ghost use Rattle.es_world.specs.inner.Left.{LeavesAt};

use crate::lending::{command_in, entry_in, notification_in};
use crate::{AppHistory, StepAnswer};
use es_domain::Command;
use es_model::{Bytes, Moment, NoMemory, Notification, System, Text};
use std::alloc::Global;

/// The place of the first entry of a name, or the number of entries.
pub(crate) fn place(histories: &[AppHistory], app: &Text) -> usize
    ensures place { result ≡ place_in histories.now app.now }
    ensures within { result ≤ length histories.now }
{
    for (i, history) in histories.iter().enumerate() {
        if app.as_str() == history.app.as_str() {
            return i;
        }
    }
    histories.len()
}

/// What comes of a command that a text asks of an application which is there.
pub(crate) fn command_at(
    alloc: Global,
    sys: &System,
    histories: &mut [AppHistory],
    app: &Text,
    text: Bytes,
    command: &Command,
    at: Moment,
) -> Result<StepAnswer, NoMemory>
    requires checked { IsCheckedSystem sys.now }
    requires command { IsOfCommand (command_named sys.now command.now.class command.now.name) command.now.args }
    requires there { place_in histories.old app.now < length histories.old }
    requires formed { AreFormed histories.old }
    ensures leaves { LeavesAt app.now (commanded sys.now app.now (histories_in histories.old app.now) text at command.now) (histories_in histories.old) result (histories_in histories.new) }
    ensures formed { AreFormed histories.new }
    ensures named { map (λ a. a.app) histories.new ≡ map (λ a. a.app) histories.old }
{
    let held = &mut histories[place(histories, app)];
    command_in(alloc, sys, held, text, command, at)
}

/// What comes of a leader's notification that is delivered to an application which is there.
pub(crate) fn notification_at(
    alloc: Global,
    sys: &System,
    histories: &mut [AppHistory],
    app: &Text,
    leader: &Text,
    notification: &Notification,
    at: Moment,
) -> Result<StepAnswer, NoMemory>
    requires checked { IsCheckedSystem sys.now }
    requires app { IsTrue (is_some (app_named sys.now.apps app.now)) }
    requires leader { IsTrue (is_some (app_named sys.now.apps leader.now)) }
    requires small { IsSmall notification.now }
    requires there { place_in histories.old app.now < length histories.old }
    requires formed { AreFormed histories.old }
    ensures leaves { (entries : List StoredEvent) → slice_get entries (notification.now.id - 1) ≡ Some notification.now.event
        → LeavesAt app.now (come_to sys.now app.now (histories_in histories.old app.now) entries leader.now notification.now.id at) (histories_in histories.old) result (histories_in histories.new) }
    ensures formed { AreFormed histories.new }
    ensures named { map (λ a. a.app) histories.new ≡ map (λ a. a.app) histories.old }
{
    let held = &mut histories[place(histories, app)];
    notification_in(alloc, sys, held, leader, notification, at)
}

/// The entry of the log of an application which is there after so many, if there is one.
pub(crate) fn entry_at(
    alloc: Global,
    histories: &mut [AppHistory],
    app: &Text,
    before: u64,
) -> Result<Option<Notification>, NoMemory>
    requires before { before + 1 < 2 ^ 64 }
    requires there { place_in histories.old app.now < length histories.old }
    requires formed { AreFormed histories.old }
    ensures found { IfOk result (IsNextAfter (log (histories_in histories.old app.now)) before) }
    ensures small { IfOk result (λ found. IfSome found IsSmall) }
    ensures same { histories.new ≡ histories.old }
{
    let held = &mut histories[place(histories, app)];
    entry_in(alloc, held, before)
}
