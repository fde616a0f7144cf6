//! A stream that comes in: which packets are its own, what their SSRC and payload type are mapped to, whether one starts a
//! key frame, and the new ids of their elements.
#![tactic(auto)]

mod coding;
mod ids;
mod producer;
mod types;

pub use producer::Producer;

#[cfg(test)]
mod tests;
