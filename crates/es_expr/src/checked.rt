ghost use Rattle.std.specs.Prelude.{◌↔◌, IsTrue, IfOk};
ghost use Rattle.es_expr.specs.Checked.{IsCheckedSystem};

use crate::first_misfit;
use crate::limits::is_within;
use es_model::{NoMemory, System};
use std::alloc::Global;

/// Whether a system is one that a document may declare.
pub fn is_checked(alloc: Global, sys: &System) -> Result<bool, NoMemory>
    ensures { IfOk result (λ b. IsTrue b ↔ IsCheckedSystem sys.now) }
{
    let misfit = first_misfit(alloc, sys)?;
    Ok(is_within(sys) && misfit.is_none())
}
