mod codec;
mod encoding;
mod ext;
mod members;
mod whole;

pub use whole::{write_caps, write_params};
