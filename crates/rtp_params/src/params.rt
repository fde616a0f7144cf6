ghost use Rattle.std.specs.Prelude.{◌≡◌, IfOk};

use crate::codec::Codec;
use crate::encoding::Encoding;
use crate::ext::Ext;
use crate::items::Items;
use ms_base::{NoMemory, Text};
use std::alloc::Global;

/// What one side can receive.
#[derive(Debug, Drop)]
pub struct Caps {
    pub codecs: Items<Codec>,
    pub exts: Items<Ext>,
}

/// What one side sends or receives.
#[derive(Debug, Drop)]
pub struct Params {
    pub codecs: Items<Codec>,
    pub exts: Items<Ext>,
    pub encodings: Items<Encoding>,
    /// The canonical name (RFC 3550, section 6.5.1).
    pub cname: Text,
    /// Whether RTCP packets of reduced size are used (RFC 5506).
    pub reduced_size: bool,
}

impl Caps {
    /// A copy of the value.
    pub fn copy(&self, alloc: Global) -> Result<Caps, NoMemory>
        ensures { IfOk result (λ caps. caps ≡ self.now) }
    {
        Ok(Caps {
            codecs: self.codecs.copy(alloc)?,
            exts: self.exts.copy(alloc)?,
        })
    }
}

impl Params {
    /// A copy of the value.
    pub fn copy(&self, alloc: Global) -> Result<Params, NoMemory>
        ensures { IfOk result (λ params. params ≡ self.now) }
    {
        Ok(Params {
            codecs: self.codecs.copy(alloc)?,
            exts: self.exts.copy(alloc)?,
            encodings: self.encodings.copy(alloc)?,
            cname: self.cname.copy(alloc)?,
            reduced_size: self.reduced_size,
        })
    }
}
