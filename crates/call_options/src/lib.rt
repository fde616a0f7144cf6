//! The JSON options of a host's calls: from the text that a call is given to typed options, or the first of the codes
//! that can be told from the text alone.
#![tactic(auto)]

mod fault;
mod laws;
mod limits;
mod media;
mod members;
mod options;
mod transports;
mod values;

pub use fault::OptionFault;
pub use laws::what_is_read_fits;
pub use media::{
    caps_options, consume_options, piped_consume_options, produce_options, router_options,
};
pub use options::{ConsumeOptions, PipeOptions, PlainOptions, ProduceOptions};
pub use transports::{connect_options, pipe_options, plain_options};

#[cfg(test)]
mod tests;
