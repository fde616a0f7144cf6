ghost use Rattle.std.specs.Prelude.{◌≡◌};

use ms_base::{Code, NoMemory};
use thiserror::Error;

/// Why a text is not read as a script.
#[derive(Clone, Copy, Debug, PartialEq, Eq, Error)]
pub enum ScriptFault {
    /// The first fault: the number of its line, from 1, and its code.
    #[error("line {line} is not a line of a script: {code:?}")]
    BadScript { line: u32, code: Code },
    #[error("out of memory")]
    NoMemory,
}

impl From<NoMemory> for ScriptFault {
    ghost use Rattle.script_text.specs.declared.fault.ScriptFault.TheVariants as fault;

    ghost from_gives = { λ _ wrong. wrong ≡ fault.NoMemory };

    fn from(_refused: NoMemory) -> ScriptFault {
        ScriptFault::NoMemory
    }
}

/// Why words are not read.
#[derive(Clone, Copy, Debug, PartialEq, Eq, Error)]
pub enum WordFault {
    /// The code of the first bad word, or that their number is wrong, or that no line begins so.
    #[error("not the words of a line: {0:?}")]
    Bad(Code),
    #[error("out of memory")]
    NoMemory,
}

impl From<Code> for WordFault {
    ghost use Rattle.script_text.specs.declared.fault.WordFault.TheVariants as fault;

    ghost from_gives = { λ code wrong. wrong ≡ fault.Bad code };

    fn from(code: Code) -> WordFault {
        WordFault::Bad(code)
    }
}

impl From<NoMemory> for WordFault {
    ghost use Rattle.script_text.specs.declared.fault.WordFault.TheVariants as fault;

    ghost from_gives = { λ _ wrong. wrong ≡ fault.NoMemory };

    fn from(_refused: NoMemory) -> WordFault {
        WordFault::NoMemory
    }
}
