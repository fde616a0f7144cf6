//! The value types that every other crate of the media server names: names and ids by their forms,
//! the entries of a journal, what a call comes to, and out of memory as a fault of its own.
#![tactic(auto)]

mod applied;
mod bytes;
mod code;
mod entry;
mod fault;
mod id;
mod keys;
mod name;
mod op;
mod outcome;
mod part;
mod text;
mod tuple;
mod words;

pub use applied::{Applied, ApplyFault, SlotLook};
pub use bytes::Bytes;
pub use code::Code;
pub use entry::Entry;
pub use fault::NoMemory;
pub use id::{Id, IdFault, ids_differ};
pub use keys::{CallKey, Event, GoneCause, Kind, Media, Reason, Serial, WorkerKey};
pub use name::{Name, NameFault};
pub use op::Op;
pub use outcome::{Outcome, Verdict, WorkerError};
pub use part::Part;
pub use text::Text;
pub use tuple::Tuple;
pub use words::{digits, push_hex, push_ip, push_number, push_word, push_worker};

#[cfg(test)]
mod tests;
