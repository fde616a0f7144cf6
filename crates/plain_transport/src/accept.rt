/// Whether a transport takes a packet.
#[derive(Clone, Copy, Debug, PartialEq, Eq)]
pub enum Accept {
    /// It comes from the tuple that is set.
    Yes,
    /// No tuple was set, and the transport has taken the packet's as its own.
    Learnt,
    /// It comes from another tuple, or none is set and the transport doesn't learn one.
    No,
}
