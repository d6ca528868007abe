//! Cases of a runner: what it answers to lines and to drains, one after the other, until something fails.

ghost use Rattle.std.specs.Prelude.{◌≡◌, [], IfOk, Ok, true};
ghost use Rattle.es_expr.specs.Checked.{IsCheckedSystem};
ghost use Rattle.es_process.specs.Drains.{AreApps};
ghost use Rattle.es_single.specs.Answers.{IsAsked};
ghost use Rattle.es_single.specs.Runner.{IsNew, IsReady, names_of, system_of};

use crate::applications::{fault, reply_told, request};
use crate::several::{applications, are_apps, held};
use crate::systems::{clock, system};
use es_io::ListClock;
use es_lines::Request;
use es_memory::MemoryRecorder;
use es_model::System;
use es_process::Application;
use es_single::SingleRunner;
use es_suite::given;
use es_suite::told::{Items, Members};
use serde_json::Value;
use std::alloc::Global;

// A runner of a system over its applications.
fn runner(
    alloc: Global,
    sys: System,
    apps: Vec<Application<MemoryRecorder>>,
) -> anyhow::Result<SingleRunner<MemoryRecorder>>
    requires { IsCheckedSystem sys }
    ensures apps { IfOk result (λ r. AreApps (system_of r) (names_of r)) }
    ensures none { IfOk result (λ r. r.prompted.items ≡ []) }
{
    if are_apps(&sys, apps.as_slice()) {
        Ok(SingleRunner::new(alloc, sys, apps))
    } else {
        Err(anyhow::anyhow!("other applications"))
    }
}

// Lets it begin, and tells whether it goes on.
fn begun(
    alloc: Global,
    runner: &mut SingleRunner<MemoryRecorder>,
    clock: &mut ListClock,
    answers: &mut Items,
) -> anyhow::Result<bool>
    requires apps { AreApps (system_of runner.old) (names_of runner.old) }
    requires none { runner.old.prompted.items ≡ [] }
    ensures { result ≡ Ok true → IsReady runner.new }
{
    match runner.first(alloc, clock) {
        Ok(()) => {
            answers.put("drained");
            Ok(true)
        }
        Err(failed) => {
            answers.put(fault(alloc, &failed)?);
            Ok(false)
        }
    }
}

// Lets it drain, and tells whether it goes on.
fn drained(
    alloc: Global,
    runner: &mut SingleRunner<MemoryRecorder>,
    clock: &mut ListClock,
    answers: &mut Items,
) -> anyhow::Result<bool>
    requires { IsReady runner.old }
    ensures { result ≡ Ok true → IsReady runner.new }
{
    match runner.after(alloc, clock) {
        Ok(()) => {
            answers.put("drained");
            Ok(true)
        }
        Err(failed) => {
            answers.put(fault(alloc, &failed)?);
            Ok(false)
        }
    }
}

// Lets it answer what a line asks, and tells whether it goes on.
fn answered(
    alloc: Global,
    runner: &mut SingleRunner<MemoryRecorder>,
    request: &Request,
    clock: &mut ListClock,
    answers: &mut Items,
) -> anyhow::Result<bool>
    requires ready { IsReady runner.old }
    requires asked { IsAsked (system_of runner.old) request.now }
    ensures { result ≡ Ok true → IsReady runner.new }
{
    match runner.line(alloc, request, clock) {
        Ok(reply) => {
            answers.put(reply_told(alloc, &reply)?);
            Ok(true)
        }
        Err(failed) => {
            answers.put(fault(alloc, &failed)?);
            Ok(false)
        }
    }
}

// Lets it answer a line, and tells whether it goes on.
fn line(
    alloc: Global,
    runner: &mut SingleRunner<MemoryRecorder>,
    line: &Value,
    clock: &mut ListClock,
    answers: &mut Items,
) -> anyhow::Result<bool>
    requires { IsReady runner.old }
    ensures { result ≡ Ok true → IsReady runner.new }
{
    let line = line.to_string(alloc)?;
    let request = request(alloc, runner.system(), line.as_str())?;
    answered(alloc, runner, &request, clock, answers)
}

// Lets it answer a line or drain, and tells whether it goes on.
fn stepped(
    alloc: Global,
    runner: &mut SingleRunner<MemoryRecorder>,
    step: &Value,
    clock: &mut ListClock,
    answers: &mut Items,
) -> anyhow::Result<bool>
    requires { IsReady runner.old }
    ensures { result ≡ Ok true → IsReady runner.new }
{
    if step.is_object() {
        line(alloc, runner, step, clock, answers)
    } else {
        drained(alloc, runner, clock, answers)
    }
}

// Lets it take some steps, while it goes on.
fn take_steps(
    alloc: Global,
    runner: &mut SingleRunner<MemoryRecorder>,
    steps: &[Value],
    clock: &mut ListClock,
    answers: &mut Items,
) -> anyhow::Result<()>
    requires { IsReady runner.old }
{
    match steps {
        [step, rest @ ..] => {
            if stepped(alloc, runner, step, clock, answers)? {
                take_steps(alloc, runner, rest, clock, answers)
            } else {
                Ok(())
            }
        }
        [] => Ok(()),
    }
}

// What it answers to its beginning and to some steps.
fn answers(
    alloc: Global,
    runner: &mut SingleRunner<MemoryRecorder>,
    steps: &[Value],
    clock: &mut ListClock,
) -> anyhow::Result<Items>
    requires apps { AreApps (system_of runner.old) (names_of runner.old) }
    requires none { runner.old.prompted.items ≡ [] }
{
    let mut answers = Items::new(alloc);
    if begun(alloc, runner, clock, &mut answers)? {
        take_steps(alloc, runner, steps, clock, &mut answers)?;
    }
    Ok(answers)
}

// What it answers, and what its applications hold then.
fn told(
    alloc: Global,
    mut runner: SingleRunner<MemoryRecorder>,
    case: &Value,
) -> anyhow::Result<Value>
    requires apps { AreApps (system_of runner) (names_of runner) }
    requires none { runner.prompted.items ≡ [] }
{
    let mut clock = clock(alloc, case)?;
    let steps = given::items(case, "runner")?;
    let mut told = Members::new(alloc);
    told.put_items("answers", answers(alloc, &mut runner, steps, &mut clock)?);
    let (_, apps) = runner.finish();
    held(alloc, apps, told)
}

/// What a runner answers to its beginning and to each step, a line or else a drain, and what each application holds then.
pub(crate) fn answer(alloc: Global, base: &Value, case: &Value) -> anyhow::Result<Value> {
    let sys = system(alloc, base)?;
    let apps = applications(alloc, given::items(case, "apps")?)?;
    told(alloc, runner(alloc, sys, apps)?, case)
}
