use es_model::{Code, NoMemory, Text};
use std::alloc::AllocError;

/// What doesn't fit together in a system, and where, as a JSON pointer into its document.
#[derive(Debug, Drop)]
pub struct Misfit {
    pub code: Code,
    pub path: Text,
}

// Why a walk over a system halts.
#[derive(Debug, Drop)]
pub(crate) enum Halt {
    Found(Misfit),
    NoMemory,
}

impl From<NoMemory> for Halt {
    ghost use Rattle.std.specs.Prelude.{◌≡◌};
    ghost use Rattle.es_expr.specs.declared.misfit.Halt.TheVariants as halts;

    ghost from_gives = { λ _ e. e ≡ halts.NoMemory };

    fn from(_: NoMemory) -> Halt {
        Halt::NoMemory
    }
}

impl From<AllocError> for Halt {
    ghost use Rattle.std.specs.Prelude.{◌≡◌};
    ghost use Rattle.es_expr.specs.declared.misfit.Halt.TheVariants as halts;

    ghost from_gives = { λ _ e. e ≡ halts.NoMemory };

    fn from(_: AllocError) -> Halt {
        Halt::NoMemory
    }
}
