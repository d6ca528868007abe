use es_model::NoMemory;
use es_transcode::DecodeFault;
use thiserror::Error;

/// Why a stored event stands for no domain event.
#[derive(Clone, Copy, Debug, PartialEq, Eq, Error)]
pub enum MapFault {
    #[error("the topic is no declared event's")]
    Topic,
    #[error("the state is no record: {0}")]
    Decode(DecodeFault),
    #[error("class version {stored} is above {declared}")]
    Newer { stored: u64, declared: u64 },
    #[error("other fields than the declared ones")]
    Fields,
    #[error("out of memory")]
    NoMemory,
}

impl From<NoMemory> for MapFault {
    ghost use Rattle.std.specs.Prelude.{◌≡◌};
    ghost use Rattle.es_mapper.specs.declared.fault.MapFault.TheVariants as faults;

    ghost from_gives = { λ _ e. e ≡ faults.NoMemory };

    fn from(_: NoMemory) -> MapFault {
        MapFault::NoMemory
    }
}
