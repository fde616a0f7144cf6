ghost use Rattle.std.specs.Prelude.{◌≡◌};

use ms_base::{Code, NoMemory};
use std::alloc::{AllocError, AllocFailed};
use thiserror::Error;

/// Why nothing was mapped.
#[derive(Clone, Copy, Debug, PartialEq, Eq, Error)]
pub enum MapFault {
    /// The codecs contradict one another.
    #[error("the codecs can't be used together: {code:?}")]
    TypeError { code: Code },
    /// There is nothing that it could be mapped to.
    #[error("not supported: {code:?}")]
    Unsupported { code: Code },
    #[error("out of memory")]
    NoMemory,
}

impl From<NoMemory> for MapFault {
    ghost use Rattle.ortc_map.specs.declared.fault.MapFault.TheVariants as fault;

    ghost from_gives = { λ _ wrong. wrong ≡ fault.NoMemory };

    fn from(_refused: NoMemory) -> MapFault {
        MapFault::NoMemory
    }
}

impl From<AllocError> for MapFault {
    ghost use Rattle.ortc_map.specs.declared.fault.MapFault.TheVariants as fault;

    ghost from_gives = { λ _ wrong. wrong ≡ fault.NoMemory };

    fn from(_refused: AllocError) -> MapFault {
        MapFault::NoMemory
    }
}

impl<T: Drop> From<AllocFailed<T>> for MapFault {
    ghost use Rattle.ortc_map.specs.declared.fault.MapFault.TheVariants as fault;

    ghost from_gives = { λ _ wrong. wrong ≡ fault.NoMemory };

    fn from(_refused: AllocFailed<T>) -> MapFault {
        MapFault::NoMemory
    }
}
