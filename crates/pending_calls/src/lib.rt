//! The requests of one channel that have no settlement yet: each is issued under an object, and is settled by the
//! response to its id, or as closed once that object falls.
#![tactic(auto)]

mod laws;
mod pending;
mod under;
mod waiting;

pub use laws::{requests_are_settled_apart, requests_settle_once};
pub use pending::{IssueFault, Pending};
pub use waiting::{Owner, Waiting};

#[cfg(test)]
mod tests;
