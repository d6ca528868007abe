ghost use Rattle.std.specs.Prelude.{◌≡◌, Ok, IfOk};

use std::alloc::{AllocError, AllocFailed};
use thiserror::Error;

/// There was no memory.
#[derive(Clone, Copy, Debug, PartialEq, Eq, Error)]
#[error("out of memory")]
pub struct NoMemory;

impl From<AllocError> for NoMemory {
    fn from(_: AllocError) -> Self {
        NoMemory
    }
}

impl<T: Drop> From<AllocFailed<T>> for NoMemory {
    fn from(_: AllocFailed<T>) -> Self {
        NoMemory
    }
}

/// A value that can be made twice.
pub trait Duplicate: Drop {
    /// An equal value.
    fn copy(&self) -> Result<Self, NoMemory>
        ensures { IfOk result (λ c. c ≡ self.now) };
}

impl Duplicate for u64 {
    fn copy(&self) -> Result<u64, NoMemory> {
        Ok(*self)
    }
}

impl<T: Duplicate> Duplicate for Option<T> {
    fn copy(&self) -> Result<Option<T>, NoMemory> {
        match self {
            Some(item) => Ok(Some(item.copy()?)),
            None => Ok(None),
        }
    }
}

// Both of two values that were made, or want of memory, which lets the other one go.
pub(crate) fn both<A: Drop, B: Drop>(
    first: Result<A, NoMemory>,
    second: Result<B, NoMemory>,
) -> Result<(A, B), NoMemory>
    ensures { IfOk result (λ made. (first ≡ Ok made.0) × (second ≡ Ok made.1)) }
{
    let first = first?;
    Ok((first, second?))
}

impl<A: Duplicate, B: Duplicate> Duplicate for (A, B) {
    fn copy(&self) -> Result<(A, B), NoMemory> {
        both(self.0.copy(), self.1.copy())
    }
}

/// The outside failed, and has counted it.
#[derive(Clone, Copy, Debug, PartialEq, Eq, Error)]
#[error("the outside failed")]
pub struct Failed;

/// Why a call to the outside gave no answer.
#[derive(Clone, Copy, Debug, PartialEq, Eq, Error)]
pub enum CallFault {
    #[error("the outside failed")]
    Failed,
    #[error("out of memory")]
    NoMemory,
}

impl From<NoMemory> for CallFault {
    ghost use Rattle.std.specs.Prelude.{◌≡◌};
    ghost use Rattle.es_model.specs.declared.memory.CallFault.TheVariants as faults;

    ghost from_gives = { λ _ e. e ≡ faults.NoMemory };

    fn from(_: NoMemory) -> CallFault {
        CallFault::NoMemory
    }
}

impl From<AllocError> for CallFault {
    ghost use Rattle.std.specs.Prelude.{◌≡◌};
    ghost use Rattle.es_model.specs.declared.memory.CallFault.TheVariants as faults;

    ghost from_gives = { λ _ e. e ≡ faults.NoMemory };

    fn from(_: AllocError) -> CallFault {
        CallFault::NoMemory
    }
}
