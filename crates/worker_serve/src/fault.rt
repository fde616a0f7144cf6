/// Why an event was not served to its end.
#[derive(Clone, Copy, Debug, PartialEq, Eq)]
pub(crate) enum ServeFault {
    /// The channel of the outbox failed.
    Write,
    /// A length over the limit stands in a frame's place, behind so many bytes of the channel's stream. A place
    /// above 2^64 - 1 is told as 2^64 - 1.
    TooLong { place: u64, length: u32 },
    NoMemory,
}
