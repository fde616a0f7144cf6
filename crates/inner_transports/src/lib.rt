//! The transports within a worker's own bounds: one end of a pipe between two Routers, and the one whose packets go over
//! the worker's channel. A pipe's end is a plain transport that is always told its tuple.
#![tactic(auto)]

mod direct;
mod laws;
mod pipe;

pub use direct::DirectTransport;
pub use laws::{a_pipe_stays, a_pipe_takes_the_first_tuple};
pub use pipe::PipeTransport;

#[cfg(test)]
mod tests;
