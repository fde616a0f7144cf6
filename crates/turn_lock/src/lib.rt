//! A fair lock whose proof knows one history of entries.
//!
//! A `TurnLock` holds one value, which stands for a list of entries (`Book`). Threads take the value out in turn,
//! in the order of the tickets that they draw, and put it back with at most one entry more. A `Pass` is a thread's
//! right to enter. Contracts see what a pass has seen, a beginning of the one list, and which entries are its own.
#![tactic(auto)]

mod bells;
mod book;
mod guard;
mod lock;
mod pass;
mod plays;
mod rule;
mod steps;
#[cfg(test)]
mod tests;

pub use book::Book;
pub use guard::Guard;
pub use lock::{CloseFault, TurnLock};
pub use pass::Pass;
