//! The RTP parameters of a Consumer whose packets go through a pipe to another Router.
#![tactic(auto)]

mod laws;
mod pipe;

pub use laws::{
    pipe_draws_ssrcs_in_a_row, pipe_without_rtx_has_no_rtx, what_goes_through_a_pipe_can_be_read,
};
pub use pipe::pipe_consumer_params;

#[cfg(test)]
mod tests;
