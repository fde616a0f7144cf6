//! How RTP parameters are mapped (after ORTC's rules of codecs): what a Router can receive and send, and how what a
//! Producer sends is mapped to it.
#![tactic(auto)]

mod consumer;
mod consumer_laws;
mod fault;
mod laws;
mod matching;
mod offer;
mod producer;
mod router;
mod supported;

pub use consumer::{can_consume, consumer_params};
pub use consumer_laws::{
    each_mapped_codec_is_offered, what_can_be_consumed_is_not_refused, what_is_offered_can_be_read,
    what_is_received_can_be_read, what_is_received_is_within_the_capabilities,
};
pub use fault::MapFault;
pub use laws::{
    all_dynamic_types_are_drawn, each_codec_is_mapped, each_mapped_type_is_of_the_router,
    each_payload_type_is_used_once, the_first_match_is_taken, what_a_router_has_can_be_read,
    what_is_mapped_fits,
};
pub use offer::consumable;
pub use producer::producer_mapping;
pub use router::{router_caps, router_codecs};

#[cfg(test)]
mod consumer_tests;
#[cfg(test)]
mod tests;
