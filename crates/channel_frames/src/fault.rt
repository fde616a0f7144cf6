use ms_base::NoMemory;
use thiserror::Error;

/// Why no frame was read or written.
#[derive(Clone, Copy, Debug, PartialEq, Eq, Error)]
pub enum FrameFault {
    /// In a stream that is read: a length over the limit stands in a frame's place. `place` is how many bytes of
    /// the stream come before its four bytes, 2^64 - 1 where there are more.
    #[error("a payload of {length} bytes, at byte {place}")]
    TooLong { place: u64, length: u32 },
    /// The payload that is to be written is over the limit.
    #[error("the payload is too big")]
    TooBig,
    /// Out of memory.
    #[error("out of memory")]
    NoMemory,
}

impl From<NoMemory> for FrameFault {
    ghost use Rattle.std.specs.Prelude.{◌≡◌};
    ghost use Rattle.channel_frames.specs.declared.fault.FrameFault.TheVariants as fault;

    ghost from_gives = { λ _ refused. refused ≡ fault.NoMemory };

    fn from(_refused: NoMemory) -> FrameFault {
        FrameFault::NoMemory
    }
}
