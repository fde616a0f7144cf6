//! RTP parameters and capabilities, which say what one side sends or can receive (ORTC has dictionaries of these
//! names), read from JSON values and written as JSON values.
#![tactic(auto)]

mod codec;
mod encoding;
mod ext;
mod fault;
mod items;
mod laws;
mod mapping;
mod names;
mod params;
mod place;
mod read;
mod table;
mod write;

pub use codec::{Codec, Feedback, Parameters, Scalar};
pub use encoding::Encoding;
pub use ext::Ext;
pub use fault::ParamFault;
pub use items::{Copied, Items};
pub use laws::{what_is_read_fits, written_caps_read_back, written_params_read_back};
pub use mapping::Mapping;
pub use names::is_same_name;
pub use params::{Caps, Params};
pub use read::{read_caps, read_encodings, read_mapping, read_params};
pub use table::{all_exts, table_exts};
pub use write::{write_caps, write_params};

#[cfg(test)]
mod tests;
