//! Rewriting a packet in place.

ghost use Rattle.std.specs.Prelude.{◌≡◌, ◌+◌, ◌*◌, ◌/◌, ◌<◌, ◌≤◌, length};
ghost use Rattle.rtp_packet.specs.Packet.{Fields, IsPacket};
ghost use Rattle.rtp_packet.specs.Fault.{Parses};
ghost use Rattle.rtp_packet.specs.Rewriting.{rewritten, with_fields};

use byteorder::{BigEndian, ByteOrder};

const MARKER: u8 = 0x80;

/// Writes the sequence number, the synchronization source and the payload type, which is below 128, into
/// a packet. All its other bits stay, the marker bit among them.
pub fn set_fields(packet: &mut [u8], seq: u16, ssrc: u32, payload_type: u8)
    requires parses { Parses packet.old }
    requires payload_type { payload_type < 128 }
    // The bytes: these three in their places, and the rest as it was.
    ensures bytes { packet.new ≡ rewritten packet.old seq ssrc payload_type }
    // The packet: these three fields, and all others as they were.
    ensures fields { (fields : Fields) → IsPacket fields packet.old
        → IsPacket (with_fields fields seq ssrc payload_type) packet.new }
    ensures parses { Parses packet.new }
{
    overwrite(packet, seq, ssrc, payload_type);
}

fn overwrite(packet: &mut [u8], seq: u16, ssrc: u32, payload_type: u8)
    requires whole_header { 12 ≤ length packet.old }
    requires payload_type { payload_type < 128 }
    ensures { packet.new ≡ rewritten packet.old seq ssrc payload_type }
{
    packet[1] = with_type(packet[1], payload_type);
    BigEndian::write_u16(&mut packet[2..], seq);
    BigEndian::write_u32(&mut packet[8..], ssrc);
}

/// The header's second byte with this payload type and the marker bit that it had.
fn with_type(second: u8, payload_type: u8) -> u8
    requires { payload_type < 128 }
    ensures { result ≡ 128 * (second / 128) + payload_type }
{
    (second & MARKER) | payload_type
}
