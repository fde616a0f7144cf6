mod codec;
mod encoding;
mod ext;
mod list;
mod mapping;
mod members;
mod whole;

pub use encoding::read_encodings;
pub use mapping::read_mapping;
pub use whole::{read_caps, read_params};
