ghost use Rattle.std.specs.Prelude.{◌≡◌};

use ms_base::Code;
use rtp_params::ParamFault;
use thiserror::Error;

/// Why options were not read.
#[derive(Clone, Copy, Debug, PartialEq, Eq, Error)]
pub enum OptionFault {
    /// They aren't of the form, are over a limit, or contradict one another.
    #[error("the options can't be taken: {code:?}")]
    TypeError { code: Code },
    /// They ask for what there isn't.
    #[error("not supported: {code:?}")]
    Unsupported { code: Code },
    #[error("out of memory")]
    NoMemory,
}

impl From<Code> for OptionFault {
    ghost use Rattle.call_options.specs.declared.fault.OptionFault.TheVariants as fault;

    ghost from_gives = { λ code wrong. wrong ≡ fault.TypeError code };

    fn from(code: Code) -> OptionFault {
        OptionFault::TypeError { code }
    }
}

impl From<ParamFault> for OptionFault {
    ghost use Rattle.call_options.specs.Gives.{of_params};

    ghost from_gives = { λ fault wrong. wrong ≡ of_params fault };

    fn from(fault: ParamFault) -> OptionFault {
        match fault {
            ParamFault::TypeError { code } => OptionFault::TypeError { code },
            ParamFault::NoMemory => OptionFault::NoMemory,
        }
    }
}
