use es_model::{NoMemory, Text};
use std::alloc::AllocError;
use thiserror::Error;

/// Why an expression has no kind, with the path of the faulty operand from the expression.
#[derive(Debug, Drop, Error)]
pub enum ExprFault {
    #[error("a name that is not there")]
    Unknown { path: Text },
    #[error("an operand of a wrong kind")]
    Kind { path: Text },
    #[error("out of memory")]
    NoMemory,
}

/// Why an expression of some kind gave no value.
#[derive(Clone, Copy, Debug, PartialEq, Eq, Error)]
pub enum EvalFault {
    #[error("a number, a text or a list passes its limit")]
    Overflow,
    #[error("out of memory")]
    NoMemory,
}

// Why there is no value. An evaluation is stuck where an operand is of a wrong kind.
#[derive(Clone, Copy, Debug, PartialEq, Eq)]
pub(crate) enum Trouble {
    Over,
    Stuck,
    NoMemory,
}

impl From<NoMemory> for ExprFault {
    ghost use Rattle.std.specs.Prelude.{◌≡◌};
    ghost use Rattle.es_expr.specs.declared.fault.ExprFault.TheVariants as faults;

    ghost from_gives = { λ _ e. e ≡ faults.NoMemory };

    fn from(_: NoMemory) -> ExprFault {
        ExprFault::NoMemory
    }
}

impl From<AllocError> for ExprFault {
    ghost use Rattle.std.specs.Prelude.{◌≡◌};
    ghost use Rattle.es_expr.specs.declared.fault.ExprFault.TheVariants as faults;

    ghost from_gives = { λ _ e. e ≡ faults.NoMemory };

    fn from(_: AllocError) -> ExprFault {
        ExprFault::NoMemory
    }
}

impl From<NoMemory> for Trouble {
    ghost use Rattle.std.specs.Prelude.{◌≡◌};
    ghost use Rattle.es_expr.specs.declared.fault.Trouble.TheVariants as troubles;

    ghost from_gives = { λ _ e. e ≡ troubles.NoMemory };

    fn from(_: NoMemory) -> Trouble {
        Trouble::NoMemory
    }
}

impl From<AllocError> for Trouble {
    ghost use Rattle.std.specs.Prelude.{◌≡◌};
    ghost use Rattle.es_expr.specs.declared.fault.Trouble.TheVariants as troubles;

    ghost from_gives = { λ _ e. e ≡ troubles.NoMemory };

    fn from(_: AllocError) -> Trouble {
        Trouble::NoMemory
    }
}
