//! Writing a packet with other element ids.

ghost use Rattle.std.specs.Prelude.{◌≡◌, ◌≤◌, ◌++◌, length, take, drop};
ghost use Rattle.rtp_packet.specs.Packet.{Fields, Fits, IsPacket, packet_of};
ghost use Rattle.rtp_packet.specs.Fault.{Parses};
ghost use Rattle.rtp_extension.specs.Reading.{elements_of};
ghost use Rattle.rtp_extension.specs.Ids.{new_id, kept_id};
ghost use Rattle.rtp_extension.specs.Rewriting.{with_ids, kept_of};

use crate::id_map::IdMap;
use crate::id_set::IdSet;
use crate::writing::put_packet;
use rtp_packet::{Packet, View, grammar};

/// Writes the packet into the front of `into` with new ids for the elements of its header extension, and
/// gives the number of bytes that it wrote. An element without a new id isn't kept, nor is one whose new id
/// its form can't spell, which is one above 14 in the one-byte form. The elements stand without padding
/// between them, and bytes 0 behind them up to a multiple of four. An extension stays one where none is
/// kept, and one of a profile without elements stays as it is. All else of the packet stays, and so do the
/// other bytes of `into`.
pub fn rewrite_ids(map: &IdMap, packet: &[u8], into: &mut [u8]) -> usize
    requires parses { Parses packet.now }
    requires room { length packet.now ≤ length into.old }
    // The packet: the extension with the new ids, and all other fields as they were.
    ensures packet { (fields : Fields) → IsPacket fields packet.now
        → IsPacket (with_ids (new_id map.now) fields) (take result into.new) }
    // Its elements are those that are kept, under their new ids.
    ensures elements { (fields : Fields) → IsPacket fields packet.now
        → elements_of (with_ids (new_id map.now) fields).extension ≡ kept_of (new_id map.now) fields.extension }
    ensures parses { Parses (take result into.new) }
    ensures no_longer { result ≤ length packet.now }
    ensures rest { drop result into.new ≡ drop result into.old }
{
    grammar();
    map.are_ids();
    match Packet::parse(packet) {
        Ok(view) => put_packet(map, &IdSet::all(), &view, into),
        Err(_) => unreachable!(),
    }
}

/// Writes a packet that was read into the front of `into`, as [`rewrite_ids`] does, and keeps of the new ids
/// only those that the set has. The packet isn't read again.
pub fn rewrite_view(map: &IdMap, only: &IdSet, view: &View<'_>, into: &mut [u8]) -> usize
    requires fits { Fits view.now }
    requires room { length (packet_of view.now) ≤ length into.old }
    ensures bytes { into.new ≡ packet_of (with_ids (kept_id map.now only.now) view.now) ++ drop result into.old }
    ensures len { result ≡ length (packet_of (with_ids (kept_id map.now only.now) view.now)) }
    ensures no_longer { result ≤ length (packet_of view.now) }
{
    put_packet(map, only, view, into)
}
