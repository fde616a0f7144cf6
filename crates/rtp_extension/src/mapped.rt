//! What is known of a packet and of who gets it.

ghost use Rattle.std.specs.Prelude.{◌≡◌};

/// What a Producer says of one of its packets.
#[derive(Clone, Copy, Debug, PartialEq, Eq)]
pub struct Mapped {
    /// The SSRC that the packet's encoding is mapped to.
    pub ssrc: u32,
    /// The payload type that the packet's codec is mapped to, below 128.
    pub payload_type: u8,
    /// The packet starts a key frame.
    pub key: bool,
    /// The Producer has video.
    pub video: bool,
}

/// What a Consumer's activity rests on: it is active while its transport is connected and neither it nor
/// its Producer is paused.
#[derive(Clone, Copy, Debug, PartialEq, Eq)]
pub struct Flags {
    /// The Consumer's transport is connected.
    pub connected: bool,
    /// The Consumer is paused.
    pub paused: bool,
    /// The Consumer's Producer is paused.
    pub producer_paused: bool,
}

impl Flags {
    ghost use Rattle.rtp_extension.specs.Activity.{is_active};

    /// Whether the Consumer is active.
    pub fn is_active(self) -> bool
        ensures { result ≡ is_active self }
    {
        self.connected && !self.paused && !self.producer_paused
    }
}
