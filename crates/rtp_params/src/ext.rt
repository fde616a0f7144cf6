ghost use Rattle.std.specs.Prelude.{◌≡◌, IfOk};

use crate::items::Copied;
use ms_base::{Media, NoMemory, Text};
use std::alloc::Global;

/// A header extension (RFC 8285).
#[derive(Debug, Drop)]
pub struct Ext {
    /// The media that it is for: both where there is none.
    pub media: Option<Media>,
    pub uri: Text,
    /// The id of its elements, 1 to 255.
    pub id: u8,
    /// Whether it is sent.
    pub sends: bool,
}

impl Ext {
    /// A copy of the value.
    pub fn copy(&self, alloc: Global) -> Result<Ext, NoMemory>
        ensures { IfOk result (λ ext. ext ≡ self.now) }
    {
        Ok(Ext {
            media: self.media,
            uri: self.uri.copy(alloc)?,
            id: self.id,
            sends: self.sends,
        })
    }
}

impl Copied for Ext {
    fn copied(&self, alloc: Global) -> Result<Ext, NoMemory> {
        self.copy(alloc)
    }
}
