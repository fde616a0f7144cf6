//! What a host knows, as tables, with the small changes of them that a micro step is made of. Each takes any state that the tables
//! kept to the one that they keep then, by the definitions of `host_model`.
#![tactic(auto)]

mod calls;
mod falls;
mod objects;
mod requests;
mod slots;
mod standing;
mod tables;
mod turns;

pub use calls::Calls;
pub use slots::{Phase, Shown, Slot, Slots};
pub use tables::Tables;

#[cfg(test)]
mod tests;
