//! What a host notes, and how a note stands in a transcript: one line for each.
#![tactic(auto)]

mod lines;
mod note;

pub use lines::note_line;
pub use note::{Cause, Note};

#[cfg(test)]
mod tests;
