ghost use Rattle.std.specs.Prelude.{◌≡◌, IfOk};

use crate::bytes::Bytes;
use crate::fault::NoMemory;
use crate::keys::{Event, GoneCause, WorkerKey};
use crate::name::Name;
use crate::op::Op;
use std::alloc::Global;

/// One entry of the journal: all that the host ever hears.
#[derive(Debug, Drop, PartialEq, Eq)]
pub enum Entry {
    /// A lane makes a call.
    Call {
        lane: u32,
        op: Op,
    },
    /// A lane waits for `count` notes of this event for objects of this name.
    Await {
        lane: u32,
        name: Name,
        event: Event,
        count: u32,
    },
    /// A start of a worker has been tried: it is up, or it failed.
    Spawned {
        worker: WorkerKey,
        up: bool,
    },
    /// Bytes of a worker's channel, as they were read.
    Chunk {
        worker: WorkerKey,
        bytes: Bytes,
    },
    /// A worker's channel has come to its end.
    Gone {
        worker: WorkerKey,
        cause: GoneCause,
    },
    /// The run comes to its end.
    Stop,
}

impl Entry {
    /// A copy of the value.
    pub fn copy(&self, alloc: Global) -> Result<Entry, NoMemory>
        ensures { IfOk result (λ entry. entry ≡ self.now) }
    {
        Ok(match self {
            Entry::Call { lane, op } => Entry::Call {
                lane: *lane,
                op: op.copy(alloc)?,
            },
            Entry::Await {
                lane,
                name,
                event,
                count,
            } => Entry::Await {
                lane: *lane,
                name: name.copy(alloc)?,
                event: *event,
                count: *count,
            },
            Entry::Spawned { worker, up } => Entry::Spawned {
                worker: *worker,
                up: *up,
            },
            Entry::Chunk { worker, bytes } => Entry::Chunk {
                worker: *worker,
                bytes: bytes.copy(alloc)?,
            },
            Entry::Gone { worker, cause } => Entry::Gone {
                worker: *worker,
                cause: *cause,
            },
            Entry::Stop => Entry::Stop,
        })
    }
}
