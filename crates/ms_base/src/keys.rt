/// What an object of the tree is.
#[derive(Clone, Copy, Debug, PartialEq, Eq)]
pub enum Kind {
    Worker,
    Router,
    /// A transport over a socket of its own, which a client sends to.
    Plain,
    /// A transport that is one end of a pipe between two Routers.
    Pipe,
    /// A transport whose packets go over the worker's channel.
    Direct,
    Producer,
    Consumer,
}

/// Why an object has closed.
#[derive(Clone, Copy, Debug, PartialEq, Eq)]
pub enum Reason {
    /// A call closed it.
    Close,
    /// Its worker process is gone.
    Died,
    /// The run came to its end.
    Stop,
    /// The worker told that its Producer has closed.
    ProducerClose,
    /// A call that was to pipe a Producer failed.
    Cleanup,
    /// Its Worker has closed.
    WorkerClose,
    /// Its Router has closed.
    RouterClose,
    /// Its transport has closed.
    TransportClose,
    /// The other end of its pipe has closed.
    PipeClose,
}

/// Why a worker's channel has come to its end.
#[derive(Clone, Copy, Debug, PartialEq, Eq)]
pub enum GoneCause {
    /// The worker closed it.
    End,
    /// Reading from it failed.
    Read,
    /// Writing to it failed.
    Write,
}

/// A kind of note that a lane may wait for.
#[derive(Clone, Copy, Debug, PartialEq, Eq)]
pub enum Event {
    /// A Worker runs.
    Running,
    /// An object was added.
    Opened,
    /// An object has closed.
    Closed,
    /// A Producer or a Consumer has paused.
    Paused,
    /// A Producer or a Consumer has resumed.
    Resumed,
    /// A transport has learnt its other end.
    Tuple,
    /// A packet of a Consumer on a direct transport has come.
    Rtp,
}

/// What a stream carries.
#[derive(Clone, Copy, Debug, PartialEq, Eq)]
pub enum Media {
    Audio,
    Video,
}

/// The number of an object of the tree, from 1, in the order in which calls were accepted.
#[derive(Clone, Copy, Debug, PartialEq, Eq)]
pub struct Serial(pub u32);

/// A call: its lane, and its place among the lane's calls, from 1.
#[derive(Clone, Copy, Debug, PartialEq, Eq)]
pub struct CallKey {
    pub lane: u32,
    pub place: u32,
}

/// A start of a worker process: its slot, from 1, and the generation in it, from 1.
#[derive(Clone, Copy, Debug, PartialEq, Eq)]
pub struct WorkerKey {
    pub slot: u32,
    pub generation: u32,
}
