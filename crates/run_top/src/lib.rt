//! The top of the media server: each command as a call over the objects of the outside that it uses.
#![tactic(auto)]

mod apply;
mod command;
mod read;
mod replay;
mod status;
mod top;
mod worker;

pub use command::{Command, command_of};
pub use replay::replay_top;
pub use status::Status;
pub use top::media_top;
pub use worker::worker_top;

#[cfg(test)]
mod stories;
#[cfg(test)]
mod tests;
