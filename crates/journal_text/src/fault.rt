ghost use Rattle.std.specs.Prelude.{◌≡◌};

use ms_base::Code;
use std::alloc::AllocFailed;
use thiserror::Error;

/// Why a text is not read as a journal.
#[derive(Clone, Copy, Debug, PartialEq, Eq, Error)]
pub enum JournalFault {
    /// The first fault: the number of its line, from 1 and told as at most 2^32 - 1, and its code.
    #[error("line {line} is not a line of a journal: {code:?}")]
    BadJournal { line: u32, code: Code },
    #[error("out of memory")]
    NoMemory,
}

impl<T: Drop> From<AllocFailed<T>> for JournalFault {
    ghost use Rattle.journal_text.specs.declared.fault.JournalFault.TheVariants as fault;

    ghost from_gives = { λ _ wrong. wrong ≡ fault.NoMemory };

    fn from(_refused: AllocFailed<T>) -> JournalFault {
        JournalFault::NoMemory
    }
}
