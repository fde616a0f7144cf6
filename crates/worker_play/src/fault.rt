ghost use Rattle.std.specs.Prelude.{◌≡◌};

use ms_base::NoMemory;
use std::alloc::{AllocError, AllocFailed};
use thiserror::Error;

/// Why a text is not played.
#[derive(Debug, Drop, Error)]
pub enum PlayFault {
    /// The number, from 1, of the first line that can't be read.
    #[error("line {line} can't be read")]
    BadLine { line: usize },
    #[error("standard input can't be read")]
    Read,
    #[error("standard output can't be written")]
    Write,
    #[error("out of memory")]
    NoMemory,
}

/// Why words are not read.
#[derive(Clone, Copy)]
pub enum WordFault {
    Bad,
    NoMemory,
}

impl From<NoMemory> for PlayFault {
    ghost use Rattle.worker_play.specs.declared.fault.PlayFault.TheVariants as fault;

    ghost from_gives = { λ _ wrong. wrong ≡ fault.NoMemory };

    fn from(_refused: NoMemory) -> PlayFault {
        PlayFault::NoMemory
    }
}

impl From<AllocError> for PlayFault {
    ghost use Rattle.worker_play.specs.declared.fault.PlayFault.TheVariants as fault;

    ghost from_gives = { λ _ wrong. wrong ≡ fault.NoMemory };

    fn from(_refused: AllocError) -> PlayFault {
        PlayFault::NoMemory
    }
}

impl<T: Drop> From<AllocFailed<T>> for PlayFault {
    ghost use Rattle.worker_play.specs.declared.fault.PlayFault.TheVariants as fault;

    ghost from_gives = { λ _ wrong. wrong ≡ fault.NoMemory };

    fn from(_refused: AllocFailed<T>) -> PlayFault {
        PlayFault::NoMemory
    }
}

impl From<AllocError> for WordFault {
    ghost use Rattle.worker_play.specs.declared.fault.WordFault.TheVariants as fault;

    ghost from_gives = { λ _ wrong. wrong ≡ fault.NoMemory };

    fn from(_refused: AllocError) -> WordFault {
        WordFault::NoMemory
    }
}

impl<T: Drop> From<AllocFailed<T>> for WordFault {
    ghost use Rattle.worker_play.specs.declared.fault.WordFault.TheVariants as fault;

    ghost from_gives = { λ _ wrong. wrong ≡ fault.NoMemory };

    fn from(_refused: AllocFailed<T>) -> WordFault {
        WordFault::NoMemory
    }
}
