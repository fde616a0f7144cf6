//! Laws of whole journals of a host: their micro steps, their notes, where chunks are cut, and how much they draw; and of what a
//! response settles and a fall closes. The code of a host stands beside this crate; both speak of the definitions of `host_model`.
#![tactic(auto)]

mod laws;
mod steps;

pub use laws::{
    cuts_are_not_heard, draws_are_bounded, journals_are_their_micro_steps, journals_go_on,
};
pub use steps::{falls_close_what_falls, responses_settle_their_own, streams_stand};
