//! Whether an RTP payload starts a key frame, for VP8 by the payload descriptor of RFC 7741 and for VP9
//! by that of RFC 9628.
#![tactic(auto)]

mod laws;
mod parts;
mod vp8;
mod vp9;

pub use laws::{vp8_reading_is_the_grammar, vp9_reading_is_the_grammar};
pub use vp8::vp8_starts_key;
pub use vp9::vp9_starts_key;

#[cfg(test)]
mod tests;
