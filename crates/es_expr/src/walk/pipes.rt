//! The faults of pipes.
ghost use Rattle.std.specs.Prelude.{◌≡◌};
ghost use Rattle.es_expr.specs.inner.Walks.{Finds};
ghost use Rattle.es_expr.specs.Misfits as spec;
ghost use Rattle.es_expr.specs.Misfits.{each, joined_misfits, pipe_misfits};

use crate::misfit::Halt;
use crate::walk::paths::{before, halt_unless, item_path};
use es_model::{Code, Names, System, Text};
use std::alloc::Global;

// Whether a name isn't the last of some.
fn is_other(names: &[Text], name: &str) -> bool
    ensures { result ≡ spec.is_other names.now name.now }
{
    match names {
        [] => true,
        [last] => last.as_str() != name,
        [_, rest @ ..] => is_other(rest, name),
    }
}

fn member(
    alloc: Global,
    sys: &System,
    pipe: &[Text],
    path: &str,
    place: usize,
    name: &Text,
) -> Result<(), Halt>
    ensures { Finds (joined_misfits sys.now pipe.now path.now place name.now) result }
{
    let path = item_path(alloc, path, place)?;
    let is_declared = sys.app(name.as_str()).is_some();
    halt_unless(alloc, is_declared, Code::Unknown, path.as_str(), "")?;
    let is_other = is_other(before(pipe, place), name.as_str());
    halt_unless(alloc, is_other, Code::Pipe, path.as_str(), "")
}

fn members(alloc: Global, sys: &System, path: &str, pipe: &[Text]) -> Result<(), Halt>
    ensures { Finds (each (joined_misfits sys.now pipe.now path.now) 0 pipe.now) result }
{
    for (place, each) in pipe.iter().enumerate() {
        member(alloc, sys, pipe, path, place, each)?;
    }
    Ok(())
}

fn pipe(alloc: Global, sys: &System, path: &str, place: usize, pipe: &Names) -> Result<(), Halt>
    ensures { Finds (pipe_misfits sys.now path.now place pipe.now) result }
{
    let path = item_path(alloc, path, place)?;
    members(alloc, sys, path.as_str(), pipe.as_slice())
}

pub(crate) fn pipes(alloc: Global, sys: &System, path: &str, pipes: &[Names]) -> Result<(), Halt>
    ensures { Finds (each (pipe_misfits sys.now path.now) 0 pipes.now) result }
{
    for (place, each) in pipes.iter().enumerate() {
        pipe(alloc, sys, path, place, each)?;
    }
    Ok(())
}
