//! The notes of a host, in order, with what they say of each call and what they send to each worker at hand.
#![tactic(auto)]

mod notes;
mod sent;

pub use notes::Notes;

#[cfg(test)]
mod tests;
