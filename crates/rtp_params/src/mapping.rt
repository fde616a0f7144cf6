ghost use Rattle.std.specs.Prelude.{◌≡◌, IfOk};

use crate::items::{Copied, Items};
use ms_base::NoMemory;
use std::alloc::Global;

/// How the payload types and SSRCs of a sender are mapped: each pair is one of the sender's and what stands
/// for it.
#[derive(Debug, Drop)]
pub struct Mapping {
    /// Payload types.
    pub codecs: Items<(u8, u8)>,
    /// SSRCs.
    pub encodings: Items<(u32, u32)>,
}

impl Copied for (u8, u8) {
    fn copied(&self, _alloc: Global) -> Result<(u8, u8), NoMemory> {
        Ok(*self)
    }
}

impl Copied for (u32, u32) {
    fn copied(&self, _alloc: Global) -> Result<(u32, u32), NoMemory> {
        Ok(*self)
    }
}

impl Mapping {
    /// A copy of the value.
    pub fn copy(&self, alloc: Global) -> Result<Mapping, NoMemory>
        ensures { IfOk result (λ mapping. mapping ≡ self.now) }
    {
        Ok(Mapping {
            codecs: self.codecs.copy(alloc)?,
            encodings: self.encodings.copy(alloc)?,
        })
    }
}
