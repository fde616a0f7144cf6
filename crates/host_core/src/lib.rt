//! The host of a media server as a pure core: it hears one entry at a time, and notes what follows.
#![tactic(auto)]

mod answer;
mod calls;
mod fall;
mod hear;
mod host;
mod notice;
mod readers;
mod reply;

pub use host::Host;

#[cfg(test)]
mod tests;
