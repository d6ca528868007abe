//! What doesn't fit together in a system: a walk in the order of its document, to the first fault.
ghost use Rattle.std.specs.Prelude.{◌≡◌, IfOk};
ghost use Rattle.es_expr.specs.Finds.{first};
ghost use Rattle.es_expr.specs.inner.Walks.{Finds};
ghost use Rattle.es_expr.specs.Misfits.{misfits};

mod apps;
mod classes;
mod expressions;
mod paths;
mod pipes;
mod seen;

use crate::misfit::{Halt, Misfit};
use es_model::{NoMemory, System};
use std::alloc::Global;

fn walk(alloc: Global, sys: &System) -> Result<(), Halt>
    ensures { Finds (misfits sys.now) result }
{
    classes::classes(alloc, sys, "/classes", sys.classes.as_slice())?;
    apps::apps(alloc, sys, "/apps", sys.apps.as_slice())?;
    pipes::pipes(alloc, sys, "/pipes", sys.pipes.as_slice())
}

/// What doesn't fit together in a system at first, in the order of the document that declares it.
pub fn first_misfit(alloc: Global, sys: &System) -> Result<Option<Misfit>, NoMemory>
    ensures { IfOk result (λ m. m ≡ first (misfits sys.now)) }
{
    match walk(alloc, sys) {
        Ok(()) => Ok(None),
        Err(Halt::Found(misfit)) => Ok(Some(misfit)),
        Err(Halt::NoMemory) => Err(NoMemory),
    }
}
