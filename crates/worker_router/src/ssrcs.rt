//! The own SSRCs of a Router's Producers.

ghost use Rattle.std.specs.Prelude.{◌≡◌, ◌≤◌, ◌+◌, ◌||◌, ◌&&◌, ℕ, true, length, filter, is_some, Some, option_map, if◌then◌else◌};
ghost use Rattle.std.specs.List.{list_any, IsDistinct};
ghost use Rattle.indexmap.specs.IndexMap.{spare, keys};
ghost use Rattle.ms_base.specs.declared.id.Id.{Id};
ghost use Rattle.rtp_params.specs.Encodings.{is_own};
ghost use Rattle.worker_router.specs.State.{same_id};
ghost use Rattle.worker_router.specs.Tables.{owner_in, present, same_place, id_of};

use crate::by_id::ById;
use crate::feed::Feed;
use indexmap::IndexMap;
use ms_base::Id;
use rtp_params::Encoding;

/// The ids of Producers by transport and own SSRC.
pub(crate) type Ssrcs = IndexMap<([u8; 16], u32), [u8; 16]>;

/// Whether an own SSRC of one of the encodings is among those of a transport.
pub(crate) fn has_ssrc_of(ssrcs: &Ssrcs, transport: Id, encodings: &[Encoding]) -> bool
    ensures { result ≡ list_any (λ e. is_some (owner_in ssrcs.now.entries transport e.ssrc)) encodings.now }
{
    encodings.iter().any(|encoding| ssrcs.contains_key(&place_of(transport, encoding.ssrc)))
}

/// The id of the Producer with an own SSRC on a transport.
pub(crate) fn owner(ssrcs: &Ssrcs, transport: Id, ssrc: u32) -> Option<Id>
    ensures { result ≡ option_map id_of (owner_in ssrcs.now.entries transport ssrc) }
{
    ssrcs.get(&place_of(transport, ssrc)).map(|id| Id(*id))
}

/// Adds the own SSRCs of a Producer to those of its transport. There is room for them.
pub(crate) fn insert_ssrcs(ssrcs: &mut Ssrcs, transport: Id, id: Id, encodings: &[Encoding])
    requires room { length encodings.now ≤ spare ssrcs.old }
    requires before { IsDistinct same_place (keys ssrcs.old) }
    ensures table { (t : Id) (s : ℕ) → owner_in ssrcs.new.entries t s ≡ (if same_id transport t && is_own encodings.now s then Some id.0 else owner_in ssrcs.old.entries t s) }
    ensures different { IsDistinct same_place (keys ssrcs.new) }
{
    for encoding in encodings {
        insert_ssrc(ssrcs, transport, id, encoding.ssrc);
    }
}

fn insert_ssrc(ssrcs: &mut Ssrcs, transport: Id, id: Id, ssrc: u32)
    requires { 1 ≤ spare ssrcs.old }
    ensures table { (t : Id) (s : ℕ) → owner_in ssrcs.new.entries t s ≡ (if same_place (transport.0, ssrc) (t.0, s) then Some id.0 else owner_in ssrcs.old.entries t s) }
    ensures room { spare ssrcs.old ≤ spare ssrcs.new + 1 }
    ensures different { IsDistinct same_place (keys ssrcs.new) }
{
    match ssrcs.insert(place_of(transport, ssrc), id.0) {
        Ok(_) => {}
        Err(_) => unreachable!(),
    }
}

/// Takes out those of Producers that aren't there.
pub(crate) fn keep_owned(ssrcs: &mut Ssrcs, producers: &ById<Feed>)
    ensures kept { ssrcs.new.entries ≡ filter (λ e. present (λ f. f.source.id) producers.now (id_of e.1)) ssrcs.old.entries }
    ensures different { IsDistinct same_place (keys ssrcs.new) }
{
    ssrcs.retain(|_place, id| producers.has(Id(*id)));
}

// An SSRC with the id of the transport over which it comes.
fn place_of(transport: Id, ssrc: u32) -> ([u8; 16], u32)
    ensures { result ≡ (transport.0, ssrc) }
{
    let transport = transport.0;
    (transport, ssrc)
}
