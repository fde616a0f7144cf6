ghost use Rattle.std.specs.Prelude.{◌≡◌, ℕ, ◌≤◌, List, ◌++◌, length, drop, Some, option_map};
ghost use Rattle.channel_msgs.specs.Packet.{packet_in, packet_behind, packet_head, packet_payload};

use ms_base::Id;

/// How many characters the text of an id has.
const ID_LENGTH: usize = 36;

/// How many bytes stand before a packet in its payload: the letter `R` and the text of an id.
pub const PACKET_HEAD: usize = 37;

/// The id and the packet of a payload of kind `R`, with no copy. `None` comes exactly where the payload
/// is of another kind.
#[tactic(auto, using(crate::proofs::PacketLemmas::packet_in_rest, crate::proofs::PacketLemmas::packet_in_other))]
pub fn packet_of(payload: &[u8]) -> Option<(Id, &[u8])>
    ensures { option_map (λ p. (p.0, p.1.now)) result ≡ packet_in payload.now }
{
    match payload {
        [b'R', rest @ ..] => packet_behind(rest),
        _ => None,
    }
}

// The id and the packet behind the letter.
#[tactic(auto, using(crate::proofs::PacketLemmas::short_behind, crate::proofs::PacketLemmas::behind_none, crate::proofs::PacketLemmas::behind_some))]
fn packet_behind(rest: &[u8]) -> Option<(Id, &[u8])>
    ensures { option_map (λ p. (p.0, p.1.now)) result ≡ packet_behind rest.now }
{
    let (id, packet) = rest.split_at_checked(ID_LENGTH)?;
    Some((Id::parse(id)?, packet))
}

/// Writes what stands before a packet for this id over the first `PACKET_HEAD` bytes. With the packet
/// behind it, it is the payload that reads back as the id and the packet.
pub fn write_packet_head(id: Id, into: &mut [u8])
    requires { PACKET_HEAD ≤ length into.old }
    ensures head { into.new ≡ packet_head id ++ drop PACKET_HEAD into.old }
    ensures reads_back { (packet : List ℕ) → packet_in (packet_payload id packet) ≡ Some (id, packet) }
{
    into[0] = b'R';
    into[1..PACKET_HEAD].copy_from_slice(&id.text());
}
