//! What a call comes to: its first refusal, or its one request to a worker with what it draws.
#![tactic(auto)]

mod builder;
mod built;
mod close;
mod ids;
mod kept;
mod laws;
mod media;
mod names;
mod part;
mod producers;
mod router_ids;
mod rows;
mod transports;

pub use built::{BuildFault, Built, Draws, Keep, Offer};
pub use close::build_close;
pub use kept::{Kept, Table, what_is_kept_has_few_encodings};
pub use laws::{
    built_objects_are_new, built_requests_draw_few, built_requests_have_whole_numbers,
    built_requests_keep_by_kind, built_requests_keep_few, built_requests_keep_what_they_draw,
};
pub use names::Names;
pub use part::build_part;
pub use producers::Producers;
pub use router_ids::RouterIds;
pub use rows::build;

#[cfg(test)]
mod tests;
