//! One Router in the worker: its transports, its Producers and its Consumers, what calls and packets make of them, and
//! who is told of a close.
#![tactic(auto)]

mod by_id;
mod closes;
mod consumer;
mod consumers;
mod fault;
mod feed;
mod feeds;
mod listed;
mod packets;
mod router;
mod ssrcs;
mod streams;
mod transport;
mod transports;

pub use fault::RouterFault;
pub use packets::Passed;
pub use router::WorkerRouter;
pub use transport::Transport;

#[cfg(test)]
mod tests;
