use ms_base::{Id, Media};
use rtp_params::{Caps, Params};

/// What a transport with a socket of its own is to be.
#[derive(Clone, Copy, Debug, PartialEq, Eq)]
pub struct PlainOptions {
    /// The address at which it is to listen, its first octet first.
    pub listen_ip: [u8; 4],
    /// It learns its other end from the first packet.
    pub comedia: bool,
}

/// What one end of a pipe between two Routers is to be.
#[derive(Clone, Copy, Debug, PartialEq, Eq)]
pub struct PipeOptions {
    /// The address at which it is to listen, its first octet first.
    pub listen_ip: [u8; 4],
    /// Retransmissions have SSRCs of their own.
    pub enable_rtx: bool,
}

/// What a Producer is to be.
#[derive(Debug, Drop)]
pub struct ProduceOptions {
    /// The media of each of its codecs.
    pub media: Media,
    pub params: Params,
    pub paused: bool,
    /// Its id, where one is given.
    pub id: Option<Id>,
}

/// What a Consumer is to be.
#[derive(Debug, Drop)]
pub struct ConsumeOptions {
    /// What its receiver can receive.
    pub caps: Caps,
    pub paused: bool,
}
