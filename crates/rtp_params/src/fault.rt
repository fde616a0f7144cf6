ghost use Rattle.std.specs.Prelude.{◌≡◌};

use ms_base::{Code, NoMemory};
use std::alloc::AllocFailed;
use thiserror::Error;

/// Why a value was not read as parameters or capabilities.
#[derive(Clone, Copy, Debug, PartialEq, Eq, Error)]
pub enum ParamFault {
    /// The first fault in the order of reading.
    #[error("the value has not the form of RTP parameters: {code:?}")]
    TypeError { code: Code },
    #[error("out of memory")]
    NoMemory,
}

impl From<NoMemory> for ParamFault {
    ghost use Rattle.rtp_params.specs.declared.fault.ParamFault.TheVariants as fault;

    ghost from_gives = { λ _ wrong. wrong ≡ fault.NoMemory };

    fn from(_refused: NoMemory) -> ParamFault {
        ParamFault::NoMemory
    }
}

impl<T: Drop> From<AllocFailed<T>> for ParamFault {
    ghost use Rattle.rtp_params.specs.declared.fault.ParamFault.TheVariants as fault;

    ghost from_gives = { λ _ wrong. wrong ≡ fault.NoMemory };

    fn from(_refused: AllocFailed<T>) -> ParamFault {
        ParamFault::NoMemory
    }
}

impl From<Code> for ParamFault {
    ghost use Rattle.rtp_params.specs.declared.fault.ParamFault.TheVariants as fault;

    ghost from_gives = { λ code wrong. wrong ≡ fault.TypeError code };

    fn from(code: Code) -> ParamFault {
        ParamFault::TypeError { code }
    }
}
