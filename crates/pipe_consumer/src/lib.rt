//! What is sent on of several incoming streams under one Consumer, as it goes to another Router: for each mapped SSRC what a
//! simple Consumer sends on, under an SSRC and numbers of its own.
#![tactic(auto)]

mod consumer;
mod laws;
mod streams;

pub use consumer::PipeConsumer;
pub use laws::{each_pass_goes_on, each_stream_emits_by_itself, emissions_are_of_the_whole_list};

#[cfg(test)]
mod tests;
