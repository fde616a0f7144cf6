//! The outside as the media server sees it: sources and sinks of bytes, and what a worker is given and
//! sends, as traits with a count of faults, and the same in memory.
#![tactic(auto)]

mod calls;
mod events;
mod failed;
mod inbox;
mod outbox;
mod sink;
mod source;

pub use events::{EVENT_BYTES, GivenEvent, InEvent, MemEvent, OutCall};
pub use failed::Failed;
pub use inbox::{Inbox, MemInbox};
pub use outbox::{MemOutbox, Outbox};
pub use sink::{MemSink, Sink};
pub use source::{MemSource, Source};

#[cfg(test)]
mod tests;
