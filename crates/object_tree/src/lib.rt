//! The objects of a host, open and closed, as a tree: found by serial, by name and by id, and fallen with others.
#![tactic(auto)]

mod among;
mod children;
mod close;
mod ends;
mod fall;
mod filing;
mod ids;
mod laws;
mod links;
mod names;
mod object;
mod stored;
mod tree;

pub use among::Among;
pub use laws::{falls_are_chains, falls_are_whole, falls_close_once, names_belong_to_the_latest};
pub use object::{Mark, Object};
pub use tree::Tree;

#[cfg(test)]
mod tests;
