//! Why the database gave no answer, and how that is counted.

ghost use Rattle.std.specs.Prelude.{◌≡◌, ◌≤◌};
ghost use Rattle.es_model.specs.Causes.{Rose};

use es_model::{CallFault, NoMemory};
use sqlite::{Error, ErrorCode};
use std::alloc::AllocError;

/// Why the database gave no answer. A fault isn't counted yet.
#[derive(Clone, Copy, Debug, PartialEq, Eq)]
pub(crate) enum Stop {
    Fault,
    NoMemory,
}

impl From<Error> for Stop {
    fn from(error: Error) -> Stop {
        match error {
            Error::SqliteFailure(ErrorCode::OutOfMemory) => Stop::NoMemory,
            _ => Stop::Fault,
        }
    }
}

impl From<NoMemory> for Stop {
    fn from(_: NoMemory) -> Stop {
        Stop::NoMemory
    }
}

impl From<AllocError> for Stop {
    fn from(_: AllocError) -> Stop {
        Stop::NoMemory
    }
}

/// Counts a fault, and answers as a recorder does.
pub(crate) fn counted(faults: &mut u64, stop: Stop) -> CallFault
    ensures later { faults.old ≤ faults.new }
    ensures rose { result ≡ CallFault.Failed → Rose faults.old faults.new }
{
    match stop {
        Stop::Fault => {
            *faults = faults.saturating_add(1);
            CallFault::Failed
        }
        Stop::NoMemory => CallFault::NoMemory,
    }
}
