//! Laws of the definitions, which the functions of this crate are stated by.

ghost use Rattle.std.specs.Prelude.{◌≡◌, ℕ, ◌<◌, ◌^◌, ◌↔◌, List};
ghost use Rattle.rtp_packet.specs.Packet.{Fields, IsPacket, AreBytes};
ghost use Rattle.rtp_packet.specs.Fault.{Parses};
ghost use Rattle.rtp_packet.specs.Reading.{fields_of};
ghost use Rattle.rtp_packet.specs.Rewriting.{rewritten, with_fields};

/// Bytes have no fault exactly where they are the packet with some fields.
pub fn grammar()
    ensures { (bytes : List ℕ) → AreBytes bytes
        → Parses bytes ↔ ((fields : Fields) × IsPacket fields bytes) }
{}

/// No two packets are written alike: the bytes tell each field.
pub fn one_reading()
    ensures { (bytes : List ℕ) (a b : Fields) → IsPacket a bytes → IsPacket b bytes → a ≡ b }
{}

/// The fields of a packet are those that its bytes have at their places.
pub fn fields_by_places()
    ensures { (bytes : List ℕ) (fields : Fields) → IsPacket fields bytes → fields_of bytes ≡ fields }
{}

/// A packet with another sequence number, SSRC and payload type is a packet with these, and all else as it was.
pub fn rewritten_is_a_packet()
    ensures { (bytes : List ℕ) (fields : Fields) (seq ssrc payload_type : ℕ) → seq < 2 ^ 16 → ssrc < 2 ^ 32 → payload_type < 128
        → IsPacket fields bytes → IsPacket (with_fields fields seq ssrc payload_type) (rewritten bytes seq ssrc payload_type) }
{}
