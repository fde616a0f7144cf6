//! What a request to a worker asks for, by itself: its method with the ids that it names, and its content, or why it
//! is refused; and the payloads that a worker says to a host.
#![tactic(auto)]

mod accepted;
mod asked;
mod content;
mod members;
mod notice;
mod read;
mod refusal;
mod reply;
mod short;
mod tuple_notice;

pub use accepted::{Accepted, produced};
pub use asked::{Asked, ConsumerIds, ProducerIds, TransportIds, read_asked};
pub use content::{ConsumeContent, PipeContent, PlainContent, ProduceContent};
pub use members::{Members, needed, object_in, read_bool, read_ip, read_port_from};
pub use notice::{WorkerNotice, write_worker_notice};
pub use read::{
    connect_content, consume_content, is_direct, pipe_content, plain_content, produce_content,
    what_is_read_is_whole,
};
pub use refusal::Refusal;
pub use reply::write_answer;
pub use tuple_notice::{TUPLE_NOTICE, write_tuple_notice};

#[cfg(test)]
mod tests;
