//! Cases of decisions over a recorder: what a command decides, and the policy of an application.

ghost use Rattle.std.specs.Prelude.{◌<◌, ◌^◌, IsTrue, is_some};
ghost use Rattle.es_model.specs.Declaration.{app_named};
ghost use Rattle.es_expr.specs.Checked.{IsCheckedSystem};

use crate::recorders::recorder;
use crate::systems::system;
use es_lines::{Request, read_line};
use es_memory::MemoryRecorder;
use es_model::limits::NUMBERS_END;
use es_model::{CallFault, Moment, Notification, System, Text};
use es_process::convert;
use es_repo::{Verdict, judge_command, judge_policy};
use es_steps::recordings::{event, events_told};
use es_suite::given;
use es_suite::told::{self, Items, Members};
use serde_json::Value;
use std::alloc::Global;

// A refusal by its code and the number of the rule.
fn refused(alloc: Global, code: &Text, rule: u64) -> anyhow::Result<Value> {
    let mut told = Items::new(alloc);
    told.put(code.as_str());
    told.put(rule);
    told::lone(alloc, "refused", told)
}

fn unreadable(alloc: Global, id: u64) -> anyhow::Result<Value> {
    let mut told = Members::new(alloc);
    told.put("unreadable", id);
    told.end()
}

// A decision as it is told.
fn told(alloc: Global, verdict: &Result<Verdict, CallFault>) -> anyhow::Result<Value> {
    match verdict {
        Ok(Verdict::Events(events)) => {
            told::lone(alloc, "events", events_told(alloc, events.as_slice()))
        }
        Ok(Verdict::Refused { code, rule }) => refused(alloc, code, *rule),
        Ok(Verdict::Unreadable { id }) => unreadable(alloc, *id),
        Err(fault) => told::failed(alloc, fault),
    }
}

// The moment of a decision.
fn moment(case: &Value) -> Moment {
    Moment::nearest(case.get("at").and_then(Value::as_i64).unwrap_or(0))
}

// What the command of a line decides over a recorder.
fn of_command(
    alloc: Global,
    sys: &System,
    recorder: &mut MemoryRecorder,
    line: &[u8],
    at: Moment,
) -> anyhow::Result<Value>
    requires { IsCheckedSystem sys.now }
{
    match read_line(alloc, sys, line) {
        Ok(Request::Do { app: _, command }) => {
            told(alloc, &judge_command(alloc, sys, recorder, &command, at))
        }
        Ok(_) => Err(anyhow::anyhow!("no command")),
        Err(fault) => Err(fault.into()),
    }
}

/// A notification: its id, and its event.
pub(crate) fn notification(alloc: Global, tree: &Value) -> anyhow::Result<Notification> {
    let id = given::number(tree, "id")?;
    let event = event(alloc, given::member(tree, "event")?)?;
    Ok(Notification { id, event })
}

/// Whether a leader's notification may be handed to an application.
pub(crate) fn is_notice(sys: &System, app: &Text, leader: &Text, given: &Notification) -> bool
    ensures app { IsTrue result → IsTrue (is_some (app_named sys.now.apps app.now)) }
    ensures leader { IsTrue result → IsTrue (is_some (app_named sys.now.apps leader.now)) }
    ensures id { IsTrue result → given.now.id < 2 ^ 62 }
    ensures version { IsTrue result → given.now.event.originator_version < 2 ^ 62 }
{
    sys.app(leader.as_str()).is_some()
        && sys.app(app.as_str()).is_some()
        && given.id < NUMBERS_END
        && given.event.originator_version < NUMBERS_END
}

// What the policy of an application decides on a leader's notification.
fn judged(
    alloc: Global,
    sys: &System,
    app: &Text,
    recorder: &mut MemoryRecorder,
    leader: &Text,
    given: &Notification,
    at: Moment,
) -> anyhow::Result<Value>
    requires { IsCheckedSystem sys.now }
{
    if !is_notice(sys, app, leader, given) {
        return Err(anyhow::anyhow!("no application, or too great a number"));
    }
    match convert(alloc, sys, leader, given) {
        Ok(event) => {
            let verdict = judge_policy(alloc, sys, app, recorder, leader, given.id, &event, at);
            told(alloc, &verdict)
        }
        Err(_) => Err(anyhow::anyhow!("a notification that has no meaning")),
    }
}

// What the policy of an application decides on a leader's notification over a recorder.
fn of_notice(
    alloc: Global,
    sys: &System,
    recorder: &mut MemoryRecorder,
    case: &Value,
    tree: &Value,
) -> anyhow::Result<Value>
    requires { IsCheckedSystem sys.now }
{
    let app = given::owned(alloc, case, "app")?;
    let leader = given::owned(alloc, case, "leader")?;
    let given = notification(alloc, tree)?;
    judged(alloc, sys, &app, recorder, &leader, &given, moment(case))
}

/// What the command of a line decides over the recordings of a case, or a policy on a leader's notification.
pub(crate) fn answer(alloc: Global, base: &Value, case: &Value) -> anyhow::Result<Value> {
    let sys = system(alloc, base)?;
    let mut recorder = recorder(alloc, case)?;
    if let Some(tree) = case.get("notice") {
        return of_notice(alloc, &sys, &mut recorder, case, tree);
    }
    let line = given::member(case, "judge")?.to_string(alloc)?;
    let line = line.as_str().as_bytes();
    of_command(alloc, &sys, &mut recorder, line, moment(case))
}
