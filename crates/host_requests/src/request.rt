use ms_base::{Serial, WorkerKey};
use pending_calls::Owner;

/// How a request comes to its settlement.
#[derive(Clone, Copy, Debug, PartialEq, Eq)]
pub enum Via {
    /// By the response to its id, from 1, on the channel of a worker.
    Channel { worker: WorkerKey, id: u32 },
    /// By the first word of the process of the Worker that it stands under: a call that makes a Worker counts as a
    /// request under it.
    Start,
}

/// A request that was issued.
#[derive(Debug, Drop)]
pub struct Request<D> {
    pub via: Via,
    /// What it was issued for.
    pub owner: Owner,
    /// The object that it was issued under.
    pub under: Serial,
    /// What its acceptance does, kept for the host.
    pub due: D,
}
