//! A worker over its outside: it hears what its inbox gives, event by event, and sends on its outbox what its engine says.
#![tactic(auto)]

mod carry_out;
mod fault;
mod say;
mod server;
mod serving;

pub use serving::{ServeEnd, serve};

#[cfg(test)]
mod tests;
