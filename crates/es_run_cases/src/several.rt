//! All applications of a system, as a case gives them and as they are told.

ghost use Rattle.std.specs.Prelude.{◌≡◌, map, IsTrue};
ghost use Rattle.es_expr.specs.Checked.{IsCheckedSystem};
ghost use Rattle.es_process.specs.Drains.{AreApps};
ghost use Rattle.es_process.specs.Standing.{names_in};

use crate::applications::{application, left};
use es_memory::MemoryRecorder;
use es_model::{App, Duplicate, System};
use es_process::Application;
use es_suite::told::Members;
use serde_json::Value;
use std::alloc::Global;

/// The applications of a case, in its order.
pub(crate) fn applications(
    alloc: Global,
    rows: &[Value],
) -> anyhow::Result<Vec<Application<MemoryRecorder>>> {
    let mut apps = Vec::new(alloc);
    for row in rows {
        apps.push(application(alloc, row)?)?;
    }
    Ok(apps)
}

// Whether applications have the names of those declared, in their order.
fn are_named(declared: &[App], apps: &[Application<MemoryRecorder>]) -> bool
    ensures { IsTrue result → names_in apps.now ≡ map (λ a. a.name) declared.now }
{
    match declared {
        [first, others @ ..] => match apps {
            [app, rest @ ..] => {
                app.name().as_str() == first.name.as_str() && are_named(others, rest)
            }
            [] => false,
        },
        [] => apps.is_empty(),
    }
}

/// Whether these are all applications of a system, in its order.
pub(crate) fn are_apps(sys: &System, apps: &[Application<MemoryRecorder>]) -> bool
    requires { IsCheckedSystem sys.now }
    ensures { IsTrue result → AreApps sys.now (names_in apps.now) }
{
    are_named(sys.apps.as_slice(), apps)
}

// Tells what an application has recorded and holds.
fn put_left(
    alloc: Global,
    told: &mut Members,
    app: Application<MemoryRecorder>,
) -> anyhow::Result<()> {
    let name = app.name().copy()?;
    told.put_members(name.as_str(), left(alloc, app.used(), app.close()));
    Ok(())
}

/// Tells besides what each application has recorded and holds.
pub(crate) fn held(
    alloc: Global,
    mut apps: Vec<Application<MemoryRecorder>>,
    mut told: Members,
) -> anyhow::Result<Value> {
    let mut held = Members::new(alloc);
    while let Some(app) = apps.pop() {
        put_left(alloc, &mut held, app)?;
    }
    told.put_members("left", held);
    told.end()
}
