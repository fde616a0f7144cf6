use thiserror::Error;

/// Where an entry went: its place in the journal, and its notes at the places from `first_note` up to
/// `end_note`, which is left out. Places count from 0.
#[derive(Clone, Copy, Debug, PartialEq, Eq)]
pub struct Applied {
    pub entry: u64,
    pub first_note: u64,
    pub end_note: u64,
}

/// Why an entry was not applied.
#[derive(Clone, Copy, Debug, PartialEq, Eq, Error)]
pub enum ApplyFault {
    /// The journal's text would have this many bytes, or 2^64 - 1 where it would have more.
    #[error("the journal would have {bytes} bytes")]
    Full { bytes: u64 },
    #[error("out of memory")]
    NoMemory,
    /// The entry is of a kind that is not built yet.
    #[error("an entry of this kind is not built yet")]
    Unbuilt,
}

/// The state of a slot.
#[derive(Clone, Copy, Debug, PartialEq, Eq)]
pub enum SlotLook {
    /// No call has asked for it yet.
    Idle,
    /// A worker of this generation is to be started.
    Want(u32),
    /// A worker runs, to which so many bytes have been sent.
    Live { generation: u32, sent: u64 },
    /// No worker will be started any more. `died` says that the last one died.
    Over { died: bool },
}
