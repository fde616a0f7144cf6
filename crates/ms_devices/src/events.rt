use ms_base::{Bytes, Tuple};

/// The most bytes that come with one event of an inbox.
pub const EVENT_BYTES: usize = 65_536;

/// What an inbox gives next. The bytes of the event are the first `len` of the place that it was given.
#[derive(Clone, Copy, Debug, PartialEq, Eq)]
pub enum InEvent {
    /// Bytes of the worker's channel, at least one.
    Channel { len: usize },
    /// A datagram that came by a link, cut after 65,536 bytes.
    Datagram { link: u32, from: Tuple, len: usize },
    /// Nothing comes any more.
    End,
}

/// What an inbox in memory is to give.
#[derive(Debug, Drop)]
pub enum MemEvent {
    /// Bytes of the channel.
    Channel(Bytes),
    /// A datagram.
    Datagram {
        link: u32,
        from: Tuple,
        packet: Bytes,
    },
}

/// An event that an inbox has given, with its bytes.
#[derive(Debug, PartialEq, Eq, Drop)]
pub enum GivenEvent {
    /// Bytes of the channel.
    Channel(Bytes),
    /// A datagram.
    Datagram {
        link: u32,
        from: Tuple,
        packet: Bytes,
    },
    /// The end.
    End,
}

/// A call that was made on an outbox, with its answer.
#[derive(Debug, PartialEq, Eq, Drop)]
pub enum OutCall {
    /// The port of the new link, or `None` where the call failed.
    Bind {
        link: u32,
        ip: [u8; 4],
        port: Option<u16>,
    },
    /// It has no answer.
    Shut {
        link: u32,
    },
    /// The whole frame, its length included.
    Channel {
        frame: Bytes,
        failed: bool,
    },
    /// The packet as it was to be sent.
    Datagram {
        link: u32,
        to: Tuple,
        packet: Bytes,
        failed: bool,
    },
}
