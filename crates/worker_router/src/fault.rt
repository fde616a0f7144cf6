ghost use Rattle.std.specs.Prelude.{◌≡◌};

use ms_base::NoMemory;
use std::alloc::{AllocError, AllocFailed};
use thiserror::Error;

/// Why a Router refuses a call. Of several reasons it is the first in this order.
#[derive(Clone, Copy, Debug, PartialEq, Eq, Error)]
pub enum RouterFault {
    #[error("an object isn't there")]
    Missing,
    #[error("an object of the kind has the id")]
    Exists,
    #[error("the transport is connected, or isn't told its other end")]
    State,
    #[error("another Producer of the transport has the SSRC")]
    Ssrc,
    #[error("out of memory")]
    NoMemory,
}

impl From<NoMemory> for RouterFault {
    ghost use Rattle.worker_router.specs.declared.fault.RouterFault.TheVariants as fault;

    ghost from_gives = { λ _ wrong. wrong ≡ fault.NoMemory };

    fn from(_refused: NoMemory) -> RouterFault {
        RouterFault::NoMemory
    }
}

impl From<AllocError> for RouterFault {
    ghost use Rattle.worker_router.specs.declared.fault.RouterFault.TheVariants as fault;

    ghost from_gives = { λ _ wrong. wrong ≡ fault.NoMemory };

    fn from(_refused: AllocError) -> RouterFault {
        RouterFault::NoMemory
    }
}

impl<T: Drop> From<AllocFailed<T>> for RouterFault {
    ghost use Rattle.worker_router.specs.declared.fault.RouterFault.TheVariants as fault;

    ghost from_gives = { λ _ wrong. wrong ≡ fault.NoMemory };

    fn from(_refused: AllocFailed<T>) -> RouterFault {
        RouterFault::NoMemory
    }
}
