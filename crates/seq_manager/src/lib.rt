//! Output sequence numbers of one forwarded RTP stream: the numbers of what comes in stretches, with
//! pauses between, become the numbers of one stream without gaps at the pauses.
#![tactic(auto)]

mod laws;
mod manager;

pub use laws::{
    answers_are_the_numbers_of_the_stretches, calls_go_on_from_the_state,
    extended_numbers_are_nearest, extended_numbers_are_the_only_ones,
    greatest_is_that_of_all_outputs, stretch_keeps_its_distances,
};
pub use manager::SeqManager;

#[cfg(test)]
mod tests;
