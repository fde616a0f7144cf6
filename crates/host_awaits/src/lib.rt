//! The awaits of lanes: which of them wait, in order of their entry, and which settle, by the notes so far.
#![tactic(auto)]

mod awaits;
mod entered;
mod laws;
mod names;
mod settle;
mod standing;
mod times;

pub use awaits::Awaits;
pub use entered::Await;
pub use laws::{notes_count_once, touching_leaves_the_awaits, untouched_awaits_have_no_outcome};
pub use standing::Standing;

#[cfg(test)]
mod tests;
