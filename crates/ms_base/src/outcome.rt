ghost use Rattle.std.specs.Prelude.{◌≡◌, IfOk};
ghost use Rattle.ms_base.specs.Outcome.{verdict_of_outcome};

use crate::code::Code;
use crate::fault::NoMemory;
use crate::name::Name;
use crate::text::Text;
use std::alloc::Global;

/// The kind of a worker's refusal.
#[derive(Clone, Copy, Debug, PartialEq, Eq)]
pub enum WorkerError {
    TypeError,
    Error,
    /// The worker accepted, with a content that can't be read.
    BadData,
}

/// What a call has come to.
#[derive(Debug, Drop, PartialEq, Eq)]
pub enum Outcome {
    /// It is done.
    Done,
    /// The answer to what it asked.
    Answer(bool),
    /// An object or a pending call has the name already.
    NameTaken,
    /// A needed name has no object.
    NoName,
    /// A needed object is of another kind.
    WrongKind,
    /// A needed object is not in a state that allows it.
    InvalidState,
    /// What the call was given is wrong.
    TypeError { code: Code },
    /// What the call was given is beyond what is supported.
    Unsupported { code: Code },
    /// The worker's channel has no request id left.
    IdsSpent,
    /// The request would be longer than a payload may be.
    TooBig,
    /// The worker refused, with its reason.
    Worker { error: WorkerError, reason: Text },
    /// The object of this name, under which the request was made, has closed first.
    Closed { by: Name },
    /// What was waited for can't come any more.
    Missed,
}

/// An outcome without its texts.
#[derive(Clone, Copy, Debug, PartialEq, Eq)]
pub enum Verdict {
    Done,
    Answer(bool),
    NameTaken,
    NoName,
    WrongKind,
    InvalidState,
    TypeError { code: Code },
    Unsupported { code: Code },
    IdsSpent,
    TooBig,
    Worker { error: WorkerError },
    Closed,
    Missed,
}

impl Outcome {
    /// A copy of the value.
    pub fn copy(&self, alloc: Global) -> Result<Outcome, NoMemory>
        ensures { IfOk result (λ outcome. outcome ≡ self.now) }
    {
        Ok(match self {
            Outcome::Done => Outcome::Done,
            Outcome::Answer(answer) => Outcome::Answer(*answer),
            Outcome::NameTaken => Outcome::NameTaken,
            Outcome::NoName => Outcome::NoName,
            Outcome::WrongKind => Outcome::WrongKind,
            Outcome::InvalidState => Outcome::InvalidState,
            Outcome::TypeError { code } => Outcome::TypeError { code: *code },
            Outcome::Unsupported { code } => Outcome::Unsupported { code: *code },
            Outcome::IdsSpent => Outcome::IdsSpent,
            Outcome::TooBig => Outcome::TooBig,
            Outcome::Worker { error, reason } => Outcome::Worker {
                error: *error,
                reason: reason.copy(alloc)?,
            },
            Outcome::Closed { by } => Outcome::Closed {
                by: by.copy(alloc)?,
            },
            Outcome::Missed => Outcome::Missed,
        })
    }

    /// The outcome without its texts.
    pub fn verdict(&self) -> Verdict
        ensures { result ≡ verdict_of_outcome self.now }
    {
        match self {
            Outcome::Done => Verdict::Done,
            Outcome::Answer(answer) => Verdict::Answer(*answer),
            Outcome::NameTaken => Verdict::NameTaken,
            Outcome::NoName => Verdict::NoName,
            Outcome::WrongKind => Verdict::WrongKind,
            Outcome::InvalidState => Verdict::InvalidState,
            Outcome::TypeError { code } => Verdict::TypeError { code: *code },
            Outcome::Unsupported { code } => Verdict::Unsupported { code: *code },
            Outcome::IdsSpent => Verdict::IdsSpent,
            Outcome::TooBig => Verdict::TooBig,
            Outcome::Worker { error, reason: _ } => Verdict::Worker { error: *error },
            Outcome::Closed { by: _ } => Verdict::Closed,
            Outcome::Missed => Verdict::Missed,
        }
    }
}
