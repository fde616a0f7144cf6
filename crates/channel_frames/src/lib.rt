//! Frames on the channel between the host and a worker: payloads, each behind its length, read from a stream that
//! comes in pieces, and written.
#![tactic(auto)]

mod fault;
mod laws;
mod parts;
mod reader;
mod writer;

pub use fault::FrameFault;
pub use laws::{
    broken_streams_stay_broken, frames_are_the_longest_split, frames_of_a_cut_stream,
    frames_of_a_rest, handed_out_are_the_frames_of_all_bytes, new_frames_take_a_byte_each,
    readings_go_on_from_what_is_left, written_frames_read_back,
};
pub use parts::MAX_PAYLOAD;
pub use reader::FrameReader;
pub use writer::write_frame;

#[cfg(test)]
mod tests;
