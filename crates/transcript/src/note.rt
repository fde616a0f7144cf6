use ms_base::{Bytes, CallKey, Id, Kind, Name, Outcome, Reason, Serial, Tuple, WorkerKey};

/// Why a worker is gone.
#[derive(Clone, Copy, Debug, PartialEq, Eq)]
pub enum Cause {
    /// It closed its channel.
    End,
    /// Reading from it failed.
    Read,
    /// Writing to it failed.
    Write,
    /// It could not be started.
    Start,
    /// What it wrote can't be cut into payloads.
    Broken,
}

/// What followed from an entry. Each note is one line of the transcript.
#[derive(Debug, Drop)]
pub enum Note {
    /// An object was added to the tree.
    Open {
        serial: Serial,
        kind: Kind,
        name: Name,
        id: Id,
    },
    /// A worker is to be started.
    Spawn {
        worker: WorkerKey,
    },
    /// A worker was started.
    Up {
        worker: WorkerKey,
    },
    /// A worker has said that it is running.
    Running {
        name: Name,
        generation: u32,
    },
    /// A worker is gone.
    Gone {
        worker: WorkerKey,
        cause: Cause,
    },
    /// An object has closed.
    Closed {
        serial: Serial,
        name: Name,
        reason: Reason,
    },
    /// A request went to a worker: its payload.
    Sent {
        worker: WorkerKey,
        payload: Bytes,
    },
    /// A packet went to a worker, for the Producer of this id.
    SentRtp {
        worker: WorkerKey,
        id: Id,
        packet: Bytes,
    },
    /// A call has settled.
    Settled {
        call: CallKey,
        outcome: Outcome,
    },
    /// A Producer or a Consumer has paused.
    Paused {
        name: Name,
    },
    /// A Producer or a Consumer has resumed.
    Resumed {
        name: Name,
    },
    /// A transport has learnt its other end.
    Tuple {
        name: Name,
        remote: Tuple,
    },
    /// A packet of a Consumer on a direct transport came.
    Rtp {
        name: Name,
        packet: Bytes,
    },
    /// A response came to an id that isn't pending.
    Late {
        worker: WorkerKey,
        id: u32,
    },
    /// A notice or a packet came that no object takes.
    Stray {
        worker: WorkerKey,
    },
    /// A payload came that no form of a message reads.
    Unexpected {
        worker: WorkerKey,
    },
    /// Log text came, under its letter.
    Log {
        worker: WorkerKey,
        level: u8,
        text: Bytes,
    },
}
