use es_model::NoMemory;
use std::alloc::AllocError;
use thiserror::Error;

/// Why a line asks nothing. The first that holds is told.
#[derive(Clone, Copy, Debug, PartialEq, Eq, Error)]
pub enum LineFault {
    #[error("no request")]
    Syntax,
    #[error("an unknown application or command")]
    Unknown,
    #[error("arguments that don't fit")]
    Kind,
    #[error("out of memory")]
    NoMemory,
}

impl From<NoMemory> for LineFault {
    ghost use Rattle.std.specs.Prelude.{◌≡◌};
    ghost use Rattle.es_lines.specs.declared.fault.LineFault.TheVariants as faults;

    ghost from_gives = { λ _ e. e ≡ faults.NoMemory };

    fn from(_: NoMemory) -> LineFault {
        LineFault::NoMemory
    }
}

impl From<AllocError> for LineFault {
    ghost use Rattle.std.specs.Prelude.{◌≡◌};
    ghost use Rattle.es_lines.specs.declared.fault.LineFault.TheVariants as faults;

    ghost from_gives = { λ _ e. e ≡ faults.NoMemory };

    fn from(_: AllocError) -> LineFault {
        LineFault::NoMemory
    }
}
