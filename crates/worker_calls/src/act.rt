use ms_base::Bytes;

/// What a worker is to do with its outside.
#[derive(Debug, Drop, PartialEq, Eq)]
pub enum Act {
    /// Send this payload on the channel.
    Say(Bytes),
    /// Open a socket at this address, its first octet first, for the link of this number.
    Bind { link: u32, ip: [u8; 4] },
    /// Close the socket of this link.
    Shut { link: u32 },
}
