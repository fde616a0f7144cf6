//! What a request makes of a worker: its Routers, the links of their transports and the Producers of direct ones, and
//! what goes out by it: notices, sockets that are to be opened or closed, and one reply.
#![tactic(auto)]

mod act;
mod acts;
mod apply;
mod change;
mod directs;
mod fault;
mod links;
mod place;
mod plan;
mod plan_streams;
mod plan_transports;
mod routers;
mod streams;
mod waiting;
mod worker;

pub use act::Act;
pub use place::Place;
pub use worker::Worker;

#[cfg(test)]
mod tests;
