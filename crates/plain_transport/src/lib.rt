//! The other end of a transport that has a socket of its own: it is told by a call, or learnt from the first packet that
//! comes in, and from then on packets of that end alone are taken.
#![tactic(auto)]

mod accept;
mod fault;
mod laws;
mod transport;

pub use accept::Accept;
pub use fault::PlainFault;
pub use laws::{a_tuple_stays, the_tuple_is_the_first};
pub use transport::PlainTransport;

#[cfg(test)]
mod tests;
