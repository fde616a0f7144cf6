use thiserror::Error;

/// Why a transport was not connected.
#[derive(Clone, Copy, Debug, PartialEq, Eq, Error)]
pub enum PlainFault {
    /// It learns its tuple from the first packet, and isn't told one.
    #[error("the transport learns its tuple from a packet")]
    NotWithComedia,
    /// Its tuple is set.
    #[error("the transport is connected")]
    AlreadyConnected,
}
