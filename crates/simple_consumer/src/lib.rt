//! What is sent on of one incoming stream: while its Consumer is active, its packets in stretches that follow one another
//! without a gap, under the Consumer's own SSRC, payload types and element ids.
#![tactic(auto)]

mod consumer;
mod laws;
mod packet;
mod tables;

pub use consumer::SimpleConsumer;
pub use laws::{each_pass_goes_on, emissions_are_of_the_whole_list, spans_are_of_activity};

#[cfg(test)]
mod tests;
