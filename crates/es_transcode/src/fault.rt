use es_model::NoMemory;
use std::alloc::AllocError;
use thiserror::Error;

/// Why a text is no record.
#[derive(Clone, Copy, Debug, PartialEq, Eq, Error)]
pub enum DecodeFault {
    #[error("no JSON")]
    NotJson,
    #[error("not an object")]
    NotRecord,
    #[error("a number that is no whole number of 64 bits")]
    Number,
    #[error("an object without exactly a type and its data")]
    Shape,
    #[error("an unknown type")]
    UnknownType,
    #[error("data that no value of the type has")]
    BadData,
    #[error("an array in an array")]
    Deep,
    #[error("out of memory")]
    NoMemory,
}

impl From<NoMemory> for DecodeFault {
    ghost use Rattle.std.specs.Prelude.{◌≡◌};
    ghost use Rattle.es_transcode.specs.declared.fault.DecodeFault.TheVariants as faults;

    ghost from_gives = { λ _ e. e ≡ faults.NoMemory };

    fn from(_: NoMemory) -> DecodeFault {
        DecodeFault::NoMemory
    }
}

impl From<AllocError> for DecodeFault {
    ghost use Rattle.std.specs.Prelude.{◌≡◌};
    ghost use Rattle.es_transcode.specs.declared.fault.DecodeFault.TheVariants as faults;

    ghost from_gives = { λ _ e. e ≡ faults.NoMemory };

    fn from(_: AllocError) -> DecodeFault {
        DecodeFault::NoMemory
    }
}
