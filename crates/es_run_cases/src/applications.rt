//! Cases of an application over its recorder: what it makes of lines and of a leader's notifications.

ghost use Rattle.std.specs.Prelude.{◌≡◌, ◌<◌, ◌^◌, ℕ, List, IsTrue, IfOk, is_some};
ghost use Rattle.es_model.specs.declared.declaration.System.{System as Declared};
ghost use Rattle.es_model.specs.Declaration.{app_named};
ghost use Rattle.es_expr.specs.Checked.{IsCheckedSystem};
ghost use Rattle.es_lines.specs.Requests.{asks, request_in};
ghost use Rattle.es_process.specs.Applications.{name_of};
ghost use Rattle.es_process.specs.Leaves.{MayAsk};

use crate::recorders::recorder;
use crate::snapshots::snapshots_told;
use crate::systems::{clock, system};
use crate::verdicts::{is_notice, notification};
use es_io::ListClock;
use es_lines::{Reply, Request, read_line, reply_text};
use es_memory::MemoryRecorder;
use es_model::limits::NUMBERS_END;
use es_model::{Notification, System, Text};
use es_process::{Application, Processed, RunFault, convert};
use es_steps::recordings::{history_told, originator};
use es_steps::steps;
use es_suite::given;
use es_suite::told::{self, Items, Members};
use serde_json::Value;
use std::alloc::Global;

/// An application with the history, the capacity and the turns of a case.
pub(crate) fn application(
    alloc: Global,
    case: &Value,
) -> anyhow::Result<Application<MemoryRecorder>> {
    let name = given::owned(alloc, case, "app")?;
    let recorder = recorder(alloc, case)?;
    let turns = given::number_or(case, "turns", 9);
    match Application::open(&name, recorder, turns) {
        Ok(app) => Ok(app),
        Err(_) => told::no_memory(),
    }
}

/// How many notifications an application has recorded in this run, the history of its recorder, and its
/// snapshots where there are any.
pub(crate) fn left(alloc: Global, used: u64, recorder: MemoryRecorder) -> Members {
    let mut told = Members::new(alloc);
    told.put("used", used);
    let (history, snapshots) = recorder.into_parts();
    told.put_items("held", history_told(alloc, history.as_slice()));
    if !snapshots.as_slice().is_empty() {
        told.put_items("snapshots", snapshots_told(alloc, snapshots.as_slice()));
    }
    told
}

// An application, and some numbers of it.
fn of_app(alloc: Global, name: &str, app: &Text, numbers: &[u64]) -> anyhow::Result<Value> {
    let mut told = Items::new(alloc);
    told.put(app.as_str());
    for number in numbers {
        told.put(*number);
    }
    told::lone(alloc, name, told)
}

/// Why a run doesn't go on.
pub(crate) fn fault(alloc: Global, fault: &RunFault) -> anyhow::Result<Value> {
    match fault {
        RunFault::Refused {
            app,
            leader,
            id,
            recordings,
            code,
            rule,
        } => {
            let mut told = Items::new(alloc);
            told.put(app.as_str());
            told.put(leader.as_str());
            told.put(*id);
            told.put(*recordings);
            told.put(code.as_str());
            told.put(*rule);
            told::lone(alloc, "refused", told)
        }
        RunFault::Turns { app, turns } => of_app(alloc, "turns", app, &[*turns]),
        RunFault::Unreadable { app, id } => of_app(alloc, "unreadable", app, &[*id]),
        RunFault::Full {
            app,
            last,
            capacity,
        } => of_app(alloc, "full", app, &[*last, *capacity]),
        RunFault::Recorder => told::text(alloc, "failed"),
        RunFault::NoMemory => told::no_memory(),
    }
}

// What was made of a notification.
fn told(alloc: Global, answer: &Result<Processed, RunFault>) -> anyhow::Result<Value> {
    let mut told = Members::new(alloc);
    match answer {
        Ok(Processed::Recorded { first, last }) => {
            told.put_items("recorded", told::numbers(alloc, &[*first, *last]));
        }
        Ok(Processed::Skipped { tracked }) => told.put("skipped", *tracked),
        Ok(Processed::Gap { tracked }) => told.put("gap", *tracked),
        Err(failed) => return fault(alloc, failed),
    }
    told.end()
}

// Delivers a leader's notification as a driver does. One that isn't the next is no fault whatever it means; for the next one
// a turn is wanted before its meaning.
fn deliver(
    alloc: Global,
    sys: &System,
    app: &mut Application<MemoryRecorder>,
    leader: &Text,
    given: &Notification,
    clock: &mut ListClock,
) -> Result<Processed, RunFault>
    requires checked { IsCheckedSystem sys.now }
    requires app { IsTrue (is_some (app_named sys.now.apps (name_of app.old))) }
    requires leader { IsTrue (is_some (app_named sys.now.apps leader.now)) }
    requires id { given.now.id < 2 ^ 62 }
    requires version { given.now.event.originator_version < 2 ^ 62 }
{
    let tracked = app.tracked(leader)?;
    if given.id == tracked + 1 {
        app.turn()?;
    }
    match convert(alloc, sys, leader, given) {
        Ok(event) => app.process(alloc, sys, leader, given.id, &event, clock),
        Err(_) if given.id <= tracked => Ok(Processed::Skipped { tracked }),
        Err(_) if given.id > tracked + 1 => Ok(Processed::Gap { tracked }),
        Err(fault) => Err(fault),
    }
}

// Lets the application process a leader's notification.
fn process(
    alloc: Global,
    sys: &System,
    app: &mut Application<MemoryRecorder>,
    leader: &Text,
    given: &Notification,
    clock: &mut ListClock,
) -> anyhow::Result<Value>
    requires { IsCheckedSystem sys.now }
{
    if is_notice(sys, app.name(), leader, given) {
        told(alloc, &deliver(alloc, sys, app, leader, given, clock))
    } else {
        Err(anyhow::anyhow!("no application, or too great a number"))
    }
}

/// What a line asks.
pub(crate) fn request(alloc: Global, sys: &System, line: &str) -> anyhow::Result<Request>
    ensures { IfOk result (λ r. request_in sys.now line.now ≡ asks r) }
{
    match read_line(alloc, sys, line.as_bytes()) {
        Ok(request) => Ok(request),
        Err(fault) => Err(fault.into()),
    }
}

// Whether what a line asks may be asked of the application of a name.
fn may_ask(name: &Text, request: &Request) -> bool
    ensures { (sys : Declared) (line : List ℕ) → request_in sys line ≡ asks request.now → IsTrue result → MayAsk sys name.now request.now }
{
    match request {
        Request::Do { app, command: _ } => app.as_str() == name.as_str(),
        _ => true,
    }
}

/// A reply as it is written.
pub(crate) fn reply_told(alloc: Global, reply: &Reply) -> anyhow::Result<Value> {
    let text = reply_text(alloc, reply)?;
    Ok(Value::from_str(alloc, str::from_utf8(text.as_slice())?)?)
}

// A reply, or why there is none.
fn replied(alloc: Global, answer: &Result<Reply, RunFault>) -> anyhow::Result<Value> {
    match answer {
        Ok(reply) => reply_told(alloc, reply),
        Err(failed) => fault(alloc, failed),
    }
}

// The reply of the application to what a line asks.
fn reply(
    alloc: Global,
    sys: &System,
    app: &mut Application<MemoryRecorder>,
    line: &Value,
    clock: &mut ListClock,
) -> anyhow::Result<Value>
    requires { IsCheckedSystem sys.now }
{
    let line = line.to_string(alloc)?;
    let request = request(alloc, sys, line.as_str())?;
    if !may_ask(app.name(), &request) {
        return Err(anyhow::anyhow!("another application"));
    }
    replied(alloc, &app.answer(alloc, sys, &request, clock))
}

// The id of the notification after one, or null.
fn next(
    alloc: Global,
    app: &mut Application<MemoryRecorder>,
    tracked: u64,
) -> anyhow::Result<Value> {
    if tracked >= NUMBERS_END {
        return Err(anyhow::anyhow!("too great a number"));
    }
    match app.next_after(tracked) {
        Ok(Some(found)) => Ok(Value::from(found.id)),
        Ok(None) => Ok(Value::Null),
        Err(failed) => fault(alloc, &failed),
    }
}

// The greatest id that the application tracks of a leader.
fn tracked(
    alloc: Global,
    app: &mut Application<MemoryRecorder>,
    leader: &Text,
) -> anyhow::Result<Value> {
    match app.tracked(leader) {
        Ok(id) => Ok(Value::from(id)),
        Err(failed) => told::failed(alloc, &failed),
    }
}

// The answer to a leader's notification.
fn noticed(
    alloc: Global,
    sys: &System,
    app: &mut Application<MemoryRecorder>,
    step: &Value,
    clock: &mut ListClock,
) -> anyhow::Result<Value>
    requires { IsCheckedSystem sys.now }
{
    let leader = given::owned(alloc, step, "leader")?;
    let given = notification(alloc, step)?;
    process(alloc, sys, app, &leader, &given, clock)
}

// The answer to a step.
fn stepped(
    alloc: Global,
    sys: &System,
    app: &mut Application<MemoryRecorder>,
    step: &Value,
    clock: &mut ListClock,
) -> anyhow::Result<Value>
    requires { IsCheckedSystem sys.now }
{
    if let Some(line) = step.get("line") {
        reply(alloc, sys, app, line, clock)
    } else if let Some(after) = step.get("after").and_then(Value::as_u64) {
        next(alloc, app, after)
    } else if let Some(number) = step.get("take").and_then(Value::as_u64) {
        replied(alloc, &app.take_snapshot(alloc, sys, originator(number)))
    } else if step.get("tracked").is_some() {
        tracked(alloc, app, &given::owned(alloc, step, "tracked")?)
    } else {
        noticed(alloc, sys, app, step, clock)
    }
}

// The answers to some steps.
fn answers(
    alloc: Global,
    sys: &System,
    app: &mut Application<MemoryRecorder>,
    steps: &[Value],
    clock: &mut ListClock,
) -> anyhow::Result<Items>
    requires { IsCheckedSystem sys.now }
{
    let mut answers = Items::new(alloc);
    for step in steps {
        answers.put(stepped(alloc, sys, app, step, clock)?);
    }
    Ok(answers)
}

/// What an application answers to each step, what its recorder answers to those `then`, and what it holds at last.
pub(crate) fn answer(alloc: Global, base: &Value, case: &Value) -> anyhow::Result<Value> {
    let steps = given::items(case, "application")?;
    let sys = system(alloc, base)?;
    let mut clock = clock(alloc, case)?;
    let mut app = application(alloc, case)?;
    let mut answers = answers(alloc, &sys, &mut app, steps, &mut clock)?;
    let used = app.used();
    let mut recorder = app.close();
    let then = given::items_if_any(case, "then");
    steps::answers(alloc, &mut recorder, then, &mut answers)?;
    let mut told = Members::new(alloc);
    told.put_items("answers", answers);
    told.put_members("left", left(alloc, used, recorder));
    told.end()
}
