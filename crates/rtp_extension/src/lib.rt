//! The elements of RTP header extensions (RFC 8285): they are read where they lie, and a packet is written
//! with other ids in them. Nothing here takes memory.
#![tactic(auto)]

mod extension;
mod form;
mod id_map;
mod id_set;
mod laws;
mod mapped;
mod reading;
mod rewrite;
mod writing;

pub use extension::elements;
pub use id_map::IdMap;
pub use id_set::IdSet;
pub use laws::{
    reading_is_the_grammar, rewritten_elements, rewritten_is_a_packet, rewritten_is_no_longer,
};
pub use mapped::{Flags, Mapped};
pub use reading::Elements;
pub use rewrite::{rewrite_ids, rewrite_view};

#[cfg(test)]
mod tests;
