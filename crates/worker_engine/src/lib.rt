//! A worker without its outside: requests make and change what stands in it, and each packet that a Producer receives
//! goes out, rewritten, to its Consumers. It reads no channel and no socket itself.
#![tactic(auto)]

mod act;
mod engine;
mod forward;
mod framing;
mod incoming;
mod laws;
mod lent;

pub use act::PacketFrom;
pub use engine::Engine;
pub use laws::{
    a_run_goes_on, consumers_emit_their_stretches, emits_are_of_the_calls, flags_are_the_objects,
    new_consumers_begin, out_is_the_emissions,
};
pub use worker_calls::Act;

#[cfg(test)]
mod tests;
