//! What a host asks of a worker, by itself: of each method its name and the ids that it names, and its content as a JSON
//! value.
#![tactic(auto)]

mod laws;
mod list;
mod media;
mod method;
mod transport;

pub use laws::{
    what_is_asked_is_read, written_contents_have_whole_numbers, written_contents_read_back,
};
pub use media::{write_consume, write_produce};
pub use method::{ids_of, method_of};
pub use transport::{write_connect, write_direct, write_pipe, write_plain};

#[cfg(test)]
mod tests;
