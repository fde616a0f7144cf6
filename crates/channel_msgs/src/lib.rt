//! The payloads of a worker's channel: which message or request a payload is, and the texts of requests,
//! replies and notices.
#![tactic(auto)]

mod laws;
mod message;
mod object;
mod packet;
mod read;
mod write;

pub use laws::{a_payload_is_of_one_kind, what_is_read_can_be_written, written_requests_read_back};
pub use message::{Answer, Ids, MAX_ID, Message, MessageFault, Notice, Reply, Request};
pub use packet::{PACKET_HEAD, packet_of, write_packet_head};
pub use read::{read_message, read_request};
pub use write::{write_notice, write_reply, write_request};

#[cfg(test)]
mod tests;
