//! Cases of a world: what it answers to lines, deliveries and stops, and what each application has recorded then.

ghost use Rattle.std.specs.Prelude.{◌≡◌, IsTrue, IfOk, map};
ghost use Rattle.es_expr.specs.Checked.{IsCheckedSystem};
ghost use Rattle.es_process.specs.SystemRules.{app_names};
ghost use Rattle.es_world.specs.Told.{AreFormed};

use crate::drains::names;
use crate::systems::system;
use anyhow::Context;
use es_domain::Command;
use es_memory::is_formed;
use es_model::{App, List, System};
use es_steps::recordings::{history, history_told};
use es_suite::given;
use es_suite::told::{self, Items, Members};
use es_world::{AppHistory, Histories, StepAnswer, World, WorldStep};
use serde_json::Value;
use std::alloc::Global;

// What each application of a case has recorded, in its order.
fn histories(alloc: Global, rows: &[Value]) -> anyhow::Result<Histories> {
    let mut histories = List::new(alloc);
    for row in rows {
        let recordings = history(alloc, given::items_if_any(row, "held"))?;
        let app = given::owned(alloc, row, "app")?;
        histories.push(AppHistory { app, recordings })?;
    }
    Ok(histories)
}

// Whether histories have the names of the declared applications, in their order.
fn are_named(declared: &[App], histories: &[AppHistory]) -> bool
    ensures { IsTrue result → map (λ a. a.app) histories.now ≡ map (λ a. a.name) declared.now }
{
    match declared {
        [first, others @ ..] => match histories {
            [held, rest @ ..] => {
                held.app.as_str() == first.name.as_str() && are_named(others, rest)
            }
            [] => false,
        },
        [] => histories.is_empty(),
    }
}

// Whether they are formed.
fn are_formed(histories: &[AppHistory]) -> bool
    ensures { IsTrue result → AreFormed histories.now }
{
    histories.iter().all(|held| is_formed(&held.recordings))
}

// The world of a system over what its applications have recorded.
fn world(alloc: Global, sys: System, histories: Histories) -> anyhow::Result<World>
    requires { IsCheckedSystem sys }
{
    if !are_named(sys.apps.as_slice(), histories.as_slice()) {
        return Err(anyhow::anyhow!("other applications"));
    }
    if !are_formed(histories.as_slice()) {
        return Err(anyhow::anyhow!("histories that aren't formed"));
    }
    Ok(World::new(alloc, sys, histories))
}

// The command of a line.
fn command(alloc: Global, row: &Value) -> anyhow::Result<Command> {
    let class = given::owned(alloc, row, "class")?;
    let name = given::owned(alloc, row, "do")?;
    let args = given::fields(alloc, row, "args")?;
    Ok(Command {
        class,
        name,
        id: given::id(row, "id")?,
        args,
        expect: row.get("expect").and_then(Value::as_u64),
    })
}

// Whether a step's recording is sure.
fn is_sure(row: &Value) -> bool {
    row.get("sure").and_then(Value::as_bool).unwrap_or(true)
}

// A line of an application.
fn line(alloc: Global, row: &Value) -> anyhow::Result<WorldStep> {
    let app = given::owned(alloc, row, "app")?;
    let command = command(alloc, row)?;
    Ok(WorldStep::Line {
        app,
        command,
        at: given::moment(row, "at")?,
        sure: is_sure(row),
    })
}

// A delivery.
fn delivery(alloc: Global, row: &Value) -> anyhow::Result<WorldStep> {
    let follower = given::owned(alloc, row, "follower")?;
    let leader = given::owned(alloc, row, "leader")?;
    Ok(WorldStep::Deliver {
        follower,
        leader,
        id: given::number(row, "id")?,
        at: given::moment(row, "at")?,
        sure: is_sure(row),
    })
}

// A step: a line has a command, a delivery a follower, and a stop the applications whose doubtful recordings are kept.
fn step(alloc: Global, row: &Value) -> anyhow::Result<WorldStep> {
    if row.get("do").is_some() {
        return line(alloc, row);
    }
    if row.get("follower").is_some() {
        return delivery(alloc, row);
    }
    let kept = names(alloc, given::items(row, "stop")?)?;
    Ok(WorldStep::Stop { kept })
}

// An answer with a number.
fn numbered(alloc: Global, name: &str, number: u64) -> anyhow::Result<Value> {
    let mut told = Items::new(alloc);
    told.put(number);
    told::lone(alloc, name, told)
}

// An answer with a text and a number.
fn named(alloc: Global, name: &str, text: &str, number: u64) -> anyhow::Result<Value> {
    let mut told = Items::new(alloc);
    told.put(text);
    told.put(number);
    told::lone(alloc, name, told)
}

// What was answered to a step.
fn answer_told(alloc: Global, answer: &StepAnswer) -> anyhow::Result<Value> {
    match answer {
        StepAnswer::Recorded => told::text(alloc, "recorded"),
        StepAnswer::Doubtful => told::text(alloc, "doubtful"),
        StepAnswer::Stopped => told::text(alloc, "stopped"),
        StepAnswer::NoSuch => told::text(alloc, "no such"),
        StepAnswer::Skipped { tracked } => numbered(alloc, "skipped", *tracked),
        StepAnswer::Gap { tracked } => numbered(alloc, "gap", *tracked),
        StepAnswer::Conflict { latest } => numbered(alloc, "conflict", *latest),
        StepAnswer::Refused { code, rule } => named(alloc, "refused", code.as_str(), *rule),
        StepAnswer::Unreadable { app, id } => named(alloc, "unreadable", app.as_str(), *id),
        StepAnswer::Down { app } => named(alloc, "down", app.as_str(), 0),
    }
}

// What a world answers to some steps.
fn answers(alloc: Global, world: &mut World, rows: &[Value]) -> anyhow::Result<Items> {
    let mut answers = Items::new(alloc);
    for row in rows {
        let step = step(alloc, row)?;
        let Ok(answer) = world.step(alloc, &step) else {
            return told::no_memory();
        };
        answers.put(answer_told(alloc, &answer)?);
    }
    Ok(answers)
}

// What each application has recorded.
fn held_told(alloc: Global, world: &World) -> Members {
    let mut held = Members::new(alloc);
    for one in world.histories() {
        held.put_items(
            one.app.as_str(),
            history_told(alloc, one.recordings.as_slice()),
        );
    }
    held
}

// What the steps of a case leave, made all at once.
fn left_of_all(alloc: Global, mut world: World, rows: &[Value]) -> anyhow::Result<Members> {
    let mut steps = Vec::new(alloc);
    for row in rows {
        steps.push(step(alloc, row)?)?;
    }
    match world.run(alloc, steps.as_slice()) {
        Ok(()) => Ok(held_told(alloc, &world)),
        Err(_) => told::no_memory(),
    }
}

fn world_of(alloc: Global, base: &Value, case: &Value) -> anyhow::Result<World> {
    let sys = system(alloc, base)?;
    let histories = histories(alloc, given::items(case, "apps")?)?;
    world(alloc, sys, histories)
}

/// What a world answers to each step, what each application has recorded then, and what it has where all steps are made at once.
pub(crate) fn answer(alloc: Global, base: &Value, case: &Value) -> anyhow::Result<Value> {
    let steps = given::items(case, "world")?;
    let mut world = world_of(alloc, base, case)?;
    let mut told = Members::new(alloc);
    told.put_items("answers", answers(alloc, &mut world, steps)?);
    told.put_members("held", held_told(alloc, &world));
    let whole = world_of(alloc, base, case)?;
    told.put_members("at once", left_of_all(alloc, whole, steps)?);
    told.end()
}
