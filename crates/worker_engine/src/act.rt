use ms_base::{Id, Tuple};

/// Where a packet came from.
#[derive(Clone, Copy, Debug, PartialEq, Eq)]
pub enum PacketFrom {
    /// A datagram for the link of this number, from this tuple.
    Link(u32, Tuple),
    /// The channel: a packet for the direct Producer of this id.
    Direct(Id),
}
