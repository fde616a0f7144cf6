ghost use Rattle.std.specs.Prelude.{◌≡◌};

use ms_base::NoMemory;
use std::alloc::AllocError;
use thiserror::Error;
use worker_requests::Refusal;

/// Why a request is not carried out.
#[derive(Clone, Copy, Debug, PartialEq, Eq, Error)]
pub(crate) enum Fault {
    #[error("refused: {0:?}")]
    Refused(Refusal),
    #[error("out of memory")]
    NoMemory,
}

impl From<Refusal> for Fault {
    ghost use Rattle.worker_calls.specs.declared.fault.Fault.TheVariants as fault;

    ghost from_gives = { λ refusal wrong. wrong ≡ fault.Refused refusal };

    fn from(refusal: Refusal) -> Fault {
        Fault::Refused(refusal)
    }
}

impl From<NoMemory> for Fault {
    ghost use Rattle.worker_calls.specs.declared.fault.Fault.TheVariants as fault;

    ghost from_gives = { λ _ wrong. wrong ≡ fault.NoMemory };

    fn from(_refused: NoMemory) -> Fault {
        Fault::NoMemory
    }
}

impl From<AllocError> for Fault {
    ghost use Rattle.worker_calls.specs.declared.fault.Fault.TheVariants as fault;

    ghost from_gives = { λ _ wrong. wrong ≡ fault.NoMemory };

    fn from(_refused: AllocError) -> Fault {
        Fault::NoMemory
    }
}
