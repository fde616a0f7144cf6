ghost use Rattle.std.specs.Prelude.{ℕ, List, MatchOption};
ghost use Rattle.std.specs.Net.Grammar.{IsDotted};

use std::net::Ipv4Addr;

/// An end of a flow of datagrams: an IPv4 address, its first octet first, and a UDP port.
#[derive(Clone, Copy, Debug, PartialEq, Eq)]
pub struct Tuple {
    pub ip: [u8; 4],
    pub port: u16,
}

impl Tuple {
    /// The IPv4 address that the text is: four numbers 0 to 255 in decimal digits without leading zeros,
    /// with dots between them. `None` comes exactly where the text isn't of that form. It takes no memory.
    pub fn read_ip(text: &[u8]) -> Option<[u8; 4]>
        ensures { MatchOption result ((octets : List ℕ) → IsDotted text.now octets → ⊥) (λ octets. IsDotted text.now octets) }
    {
        match Ipv4Addr::parse_ascii(text) {
            Ok(ip) => Some(ip.octets()),
            Err(_) => None,
        }
    }
}
