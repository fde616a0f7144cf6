//! RTP packets (RFC 3550, section 5.1): one is read where it lies, without a copy, and the fields that a
//! relay changes are rewritten in place. Nothing here takes memory.
#![tactic(auto)]

mod fault;
mod header;
mod laws;
mod packet;
mod rewrite;

pub use fault::RtpFault;
pub use laws::{fields_by_places, grammar, one_reading, rewritten_is_a_packet};
pub use packet::{Packet, View};
pub use rewrite::set_fields;

#[cfg(test)]
mod tests;
