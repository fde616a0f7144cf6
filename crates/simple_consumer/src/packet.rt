//! Writing one packet.

ghost use Rattle.std.specs.Prelude.{◌≡◌, ◌<◌, ◌≤◌, length, take, drop};
ghost use Rattle.rtp_packet.specs.Packet.{IsPacket};
ghost use Rattle.rtp_packet.specs.Fault.{Parses};
ghost use Rattle.rtp_packet.specs.Rewriting.{with_fields};
ghost use Rattle.rtp_extension.specs.Ids.{kept_id};
ghost use Rattle.rtp_extension.specs.Rewriting.{with_ids};

use rtp_extension::{IdMap, IdSet, rewrite_view, rewritten_is_a_packet};
use rtp_packet::{View, grammar, set_fields};

/// The fields of a packet that are its Consumer's.
#[derive(Clone, Copy)]
pub(crate) struct SentFields {
    pub number: u16,
    pub ssrc: u32,
    pub payload_type: u8,
}

/// Writes a packet with other element ids and fields over the front of a place, and gives its length. An element is kept
/// where its new id is in the set.
pub(crate) fn write(
    ids: &IdMap,
    kept: &IdSet,
    view: &View<'_>,
    packet: &[u8],
    fields: SentFields,
    into: &mut [u8],
) -> usize
    requires read { IsPacket view.now packet.now }
    requires payload_type { fields.payload_type < 128 }
    requires room { length packet.now ≤ length into.old }
    ensures packet { IsPacket (with_fields (with_ids (kept_id ids.now kept.now) view.now) fields.number fields.ssrc fields.payload_type) (take result into.new) }
    ensures no_longer { result ≤ length packet.now }
    ensures rest { drop result into.new ≡ drop result into.old }
{
    let length = put(ids, kept, view, packet, into);
    let (place, _) = into.split_at_mut(length);
    set_fields(place, fields.number, fields.ssrc, fields.payload_type);
    length
}

// Writes a packet with other element ids. One without a header extension is copied.
fn put(ids: &IdMap, kept: &IdSet, view: &View<'_>, packet: &[u8], into: &mut [u8]) -> usize
    requires read { IsPacket view.now packet.now }
    requires room { length packet.now ≤ length into.old }
    ensures packet { IsPacket (with_ids (kept_id ids.now kept.now) view.now) (take result into.new) }
    ensures parses { Parses (take result into.new) }
    ensures no_longer { result ≤ length packet.now }
    ensures rest { drop result into.new ≡ drop result into.old }
{
    grammar();
    rewritten_is_a_packet();
    if view.extension().is_some() {
        return rewrite_view(ids, kept, view, into);
    }
    let (place, _) = into.split_at_mut(packet.len());
    place.copy_from_slice(packet);
    packet.len()
}
