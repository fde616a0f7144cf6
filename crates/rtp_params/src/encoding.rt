use crate::items::Copied;
use ms_base::NoMemory;
use std::alloc::Global;

/// One stream of a sender.
#[derive(Clone, Copy, Debug, PartialEq, Eq)]
pub struct Encoding {
    /// The stream's SSRC (RFC 3550, section 3).
    pub ssrc: u32,
    /// The SSRC of its retransmissions (RFC 4588), if it has them.
    pub rtx: Option<u32>,
}

impl Copied for Encoding {
    fn copied(&self, _alloc: Global) -> Result<Encoding, NoMemory> {
        Ok(*self)
    }
}
