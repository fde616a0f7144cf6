//! The requests to all workers that have no settlement yet: each waits for the response to its id on the channel of its
//! worker, or for the first word of a Worker's process, and is settled as closed once the object that it was issued
//! under falls.
#![tactic(auto)]

mod by_object;
mod by_via;
mod channels;
mod filed;
mod places;
mod request;
mod requests;

pub use request::{Request, Via};
pub use requests::Requests;

#[cfg(test)]
mod tests;
