use ms_base::Media;
use rtp_params::{Encoding, Items, Mapping, Params};

/// What a transport with a socket of its own is made of.
#[derive(Clone, Copy, Debug, PartialEq, Eq)]
pub struct PlainContent {
    /// It learns its other end from the first packet.
    pub comedia: bool,
    /// The address at which it listens, its first octet first.
    pub ip: [u8; 4],
}

/// What one end of a pipe between two Routers is made of.
#[derive(Clone, Copy, Debug, PartialEq, Eq)]
pub struct PipeContent {
    /// Retransmissions have SSRCs of their own.
    pub enable_rtx: bool,
    /// The address at which it listens, its first octet first.
    pub ip: [u8; 4],
}

/// What a Producer is made of.
#[derive(Debug, Drop)]
pub struct ProduceContent {
    pub media: Media,
    pub paused: bool,
    pub mapping: Mapping,
    pub params: Params,
}

/// What a Consumer is made of.
#[derive(Debug, Drop)]
pub struct ConsumeContent {
    pub media: Media,
    pub paused: bool,
    /// The Producer's encodings, by the SSRCs that these are mapped to.
    pub consumable: Items<Encoding>,
    pub params: Params,
    /// It is no Consumer of a pipe.
    pub simple: bool,
}
