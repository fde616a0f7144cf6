ghost use Rattle.std.specs.Prelude.{◌≡◌, [], ◌∷◌, ◌++◌, codes, map, option_map, OnOk, OnErr};
ghost use Rattle.serde_json.specs.Find.{get_member};
ghost use Rattle.serde_json.specs.View.{view, members_view};
ghost use Rattle.rtp_params.specs.Reading.{optional, required, read_behind};
ghost use Rattle.rtp_params.specs.Encodings.{is_own, ssrc_of, own_ssrc_of, rtx_of, encoding_in, encoding_of, encodings_of};
ghost use Rattle.rtp_params.specs.Gives.{Gives};

use crate::encoding::Encoding;
use crate::fault::ParamFault;
use crate::items::Items;
use crate::read::members::{Members, member, required_number};
use ms_base::{Code, NoMemory};
use serde_json::Value;
use std::alloc::Global;
use std::collections::BTreeSet;
use std::marker::Model;

// Encodings that have been read, which contracts see as a list, with their own SSRCs to look up.
#[derive(Drop)]
struct Encodings {
    encodings: Vec<Encoding>,
    own: BTreeSet<u32>,
}

impl Model for Encodings {
    ghost use Rattle.std.specs.Prelude.{◌≡◌, ℕ, List};
    ghost use Rattle.std.specs.BTreeSet.{contains};
    ghost use Rattle.std.specs.Ordering.{nat_cmp};
    ghost use Rattle.rtp_params.specs.declared.encoding.Encoding.{Encoding};
    ghost use Rattle.rtp_params.specs.Encodings.{is_own};

    ghost Value = { List Encoding };

    ghost view = { λ e. e.encodings.items };

    ghost invariant = { λ e. (ssrc : ℕ) → contains nat_cmp e.own ssrc ≡ is_own e.encodings.items ssrc };
}

impl Encodings {
    fn new(alloc: Global) -> Encodings
        ensures { result ≡ [] }
    {
        Encodings {
            encodings: Vec::new(alloc),
            own: BTreeSet::new(alloc),
        }
    }

    // Whether one of them has this as its own SSRC.
    fn has(&self, ssrc: u32) -> bool
        ensures { result ≡ is_own self.now ssrc }
    {
        self.own.contains(&ssrc)
    }

    // Adds an encoding at the end.
    fn push(&mut self, encoding: Encoding) -> Result<(), NoMemory>
        ensures { OnOk result (self.new ≡ self.old ++ encoding ∷ []) }
    {
        self.encodings.reserve(1)?;
        self.own.insert(encoding.ssrc)?;
        self.encodings.push_reserved(encoding);
        Ok(())
    }

    fn into_items(self) -> Items<Encoding>
        ensures { result ≡ self }
    {
        let Encodings { encodings, own: _ } = self;
        Items::from_vec(encodings)
    }
}

// An encoding's own SSRC, which none before it has.
fn read_own_ssrc(members: &Members, before: &Encodings) -> Result<u32, Code>
    ensures { result ≡ own_ssrc_of before.now (required ssrc_of (get_member (codes "ssrc") (members_view members.now.entries))) }
{
    match required_number(members, "ssrc", 0, u32::MAX) {
        Ok(ssrc) if !before.has(ssrc) => Ok(ssrc),
        _ => Err(Code::Ssrc),
    }
}

// The SSRC of the retransmissions.
fn read_rtx(value: &Value) -> Result<u32, Code>
    ensures { result ≡ rtx_of (view value.now) }
{
    match value.as_object() {
        Some(members) => required_number(members, "ssrc", 0, u32::MAX),
        None => Err(Code::Form),
    }
}

fn optional_rtx(members: &Members) -> Result<Option<u32>, Code>
    ensures { result ≡ optional rtx_of (get_member (codes "rtx") (members_view members.now.entries)) }
{
    let Some(value) = member(members, "rtx") else {
        return Ok(None);
    };
    let ssrc = read_rtx(value)?;
    Ok(Some(ssrc))
}

// The members of an encoding, in their order.
#[tactic(auto, unfolding(crate::specs::Encodings::encoding_in))]
fn read_members(members: &Members, before: &Encodings) -> Result<Encoding, Code>
    ensures { result ≡ encoding_in before.now (members_view members.now.entries) }
{
    let ssrc = read_own_ssrc(members, before)?;
    let rtx = optional_rtx(members)?;
    Ok(Encoding { ssrc, rtx })
}

fn read_encoding(value: &Value, before: &Encodings) -> Result<Encoding, Code>
    ensures { result ≡ encoding_of before.now (view value.now) }
{
    match value.as_object() {
        Some(members) => read_members(members, before),
        None => Err(Code::Form),
    }
}

// The encodings, from the first one on.
fn read_items(alloc: Global, values: &[Value]) -> Result<Items<Encoding>, ParamFault>
    ensures { Gives result (read_behind encoding_of [] (map view values.now)) }
{
    let mut encodings = Encodings::new(alloc);
    for value in values {
        let encoding = read_encoding(value, &encodings)?;
        encodings.push(encoding)?;
    }
    Ok(encodings.into_items())
}

/// The encodings that a value is a list of.
///
/// `TypeError` comes exactly where it is none, with the code of its first fault in the order of reading.
#[tactic(auto, using(crate::proofs::ReadLemmas::items_list_of))]
pub fn read_encodings(alloc: Global, value: &Value) -> Result<Items<Encoding>, ParamFault>
    ensures { Gives result (encodings_of (view value.now)) }
{
    match value.as_array() {
        Some(values) => read_items(alloc, values.as_slice()),
        None => Err(ParamFault::TypeError { code: Code::Form }),
    }
}

/// The encodings of parameters, which have to be there.
pub(crate) fn required_encodings(
    alloc: Global,
    members: &Members,
) -> Result<Items<Encoding>, ParamFault>
    ensures { Gives result (required encodings_of (get_member (codes "encodings") (members_view members.now.entries))) }
{
    match member(members, "encodings") {
        Some(value) => read_encodings(alloc, value),
        None => Err(ParamFault::TypeError { code: Code::Form }),
    }
}
