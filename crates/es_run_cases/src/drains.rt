//! Cases of a drain: how followers process the notifications of prompted leaders, and who is ahead before it.

ghost use Rattle.std.specs.Prelude.{◌≡◌, All, Contains, IsTrue};
ghost use Rattle.es_process.specs.Drains.{AreApps};
ghost use Rattle.es_process.specs.Standing.{names_in};

use crate::applications::fault;
use crate::several::{applications, are_apps, held};
use crate::systems::{clock, system};
use anyhow::Context;
use es_io::ListClock;
use es_memory::MemoryRecorder;
use es_model::{Names, System, Text};
use es_process::{Ahead, Application, drain, find_ahead, place_of};
use es_suite::given;
use es_suite::told::{self, Items, Members};
use serde_json::Value;
use std::alloc::Global;

/// Some names.
pub(crate) fn names(alloc: Global, rows: &[Value]) -> anyhow::Result<Names> {
    let mut names = Names::new(alloc);
    for row in rows {
        names.push(Text::from_str(alloc, row.as_str().context("no name")?)?)?;
    }
    Ok(names)
}

// Whether each name is that of an application.
fn are_declared(apps: &[Application<MemoryRecorder>], names: &[Text]) -> bool
    ensures { IsTrue result → All (Contains (names_in apps.now)) names.now }
{
    match names {
        [name, rest @ ..] => place_of(apps, name) < apps.len() && are_declared(apps, rest),
        [] => true,
    }
}

// The follower that is ahead of its leader, and both numbers.
fn ahead_told(alloc: Global, found: Option<Ahead>) -> anyhow::Result<Value> {
    let Some(ahead) = found else {
        return Ok(Value::Null);
    };
    let mut told = Items::new(alloc);
    told.put(ahead.app.as_str());
    told.put(ahead.leader.as_str());
    told.put(ahead.tracked);
    told.put(ahead.last);
    told.end()
}

// What tells whether a follower is ahead.
fn found_ahead(
    alloc: Global,
    sys: &System,
    apps: &mut [Application<MemoryRecorder>],
) -> anyhow::Result<Value>
    requires { AreApps sys.now (names_in apps.old) }
    ensures { names_in apps.new ≡ names_in apps.old }
{
    match find_ahead(alloc, sys, apps) {
        Ok(found) => ahead_told(alloc, found),
        Err(failed) => told::failed(alloc, &failed),
    }
}

// How a drain of the followers of these leaders ends.
fn drained(
    alloc: Global,
    sys: &System,
    apps: &mut [Application<MemoryRecorder>],
    prompted: &Names,
    clock: &mut ListClock,
) -> anyhow::Result<Value>
    requires { AreApps sys.now (names_in apps.old) }
{
    if !are_declared(apps, prompted.as_slice()) {
        return Err(anyhow::anyhow!("other names"));
    }
    match drain(alloc, sys, apps, prompted, clock) {
        Ok(()) => told::text(alloc, "drained"),
        Err(failed) => fault(alloc, &failed),
    }
}

// Who is ahead before a drain, and how it ends.
fn ends(
    alloc: Global,
    base: &Value,
    case: &Value,
    apps: &mut [Application<MemoryRecorder>],
) -> anyhow::Result<Members> {
    let prompted = names(alloc, given::items(case, "drain")?)?;
    let mut clock = clock(alloc, case)?;
    let sys = system(alloc, base)?;
    if !are_apps(&sys, apps) {
        return Err(anyhow::anyhow!("other applications"));
    }
    let mut told = Members::new(alloc);
    told.put("ahead", found_ahead(alloc, &sys, apps)?);
    told.put("end", drained(alloc, &sys, apps, &prompted, &mut clock)?);
    Ok(told)
}

/// Who is ahead before a drain, how the drain ends, and what each application holds then.
pub(crate) fn answer(alloc: Global, base: &Value, case: &Value) -> anyhow::Result<Value> {
    let mut apps = applications(alloc, given::items(case, "apps")?)?;
    let told = ends(alloc, base, case, apps.as_mut_slice())?;
    held(alloc, apps, told)
}
