//! What a host reads of the words of a worker: the content of the reply that accepts a request, and notices.
#![tactic(auto)]

mod content;
mod laws;
mod notice;

pub use content::{Flags, consume_flags, local_tuple, remote_tuple};
pub use laws::{what_is_answered_is_read, what_is_noted_is_read};
pub use notice::{Told, read_told};

#[cfg(test)]
mod tests;
