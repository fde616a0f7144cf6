//! The outside of the media server as it is: sources and sinks over streams of the system, and what a worker is
//! given and sends, over streams and UDP sockets, with threads that read.
#![tactic(auto)]

mod batch;
mod block;
mod inbox;
mod keeper;
mod links;
mod outbox;
mod readers;
mod sink;
mod socket;
mod source;
mod stream;
mod worker;

pub use inbox::RealInbox;
pub use outbox::RealOutbox;
pub use sink::RealSink;
pub use source::RealSource;
pub use worker::{WorkerEdges, open_worker};

#[cfg(test)]
mod tests;
