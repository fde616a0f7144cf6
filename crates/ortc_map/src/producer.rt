ghost use Rattle.std.specs.Prelude.{◌≡◌, ℕ, ◌+◌, ◌≤◌, ◌^◌, [], length, filter, find, IfOk, option_and_then, true};
ghost use Rattle.std.specs.Option.{option_copied};
ghost use Rattle.rtp_params.specs.Names.{apt_of, is_rtx};
ghost use Rattle.ortc_map.specs.Rules.{each_behind, Gives, Leaves};
ghost use Rattle.ortc_map.specs.Matching.{strictly_matches};
ghost use Rattle.ortc_map.specs.RouterCaps.{has_type};
ghost use Rattle.ortc_map.specs.ProducerMapping.{codec_of_type, is_media, is_rtx_of, mapped_ssrcs, mapped_types, media_types, producer_mapping, router_rtx_type, router_type, rtx_types, type_of, with_own_type};

use crate::fault::MapFault;
use crate::matching::strictly_matches;
use crate::router::{has_type, is_number};
use ms_base::{Code, NoMemory};
use rtp_params::{Caps, Codec, Encoding, Items, Mapping, Params};
use std::alloc::Global;

/// How what a Producer sends is mapped to what its Router has: for each codec, those for retransmissions last, its
/// payload type and the one of the Router's codec that stands for it; for each encoding its SSRC and the one that
/// stands for it, which are `first_ssrc` and the numbers behind it.
///
/// Codec by codec in this order the first fault counts: Unsupported `codec` where the Router has no codec for it,
/// TypeError `apt` where a codec for retransmissions names no payload type of these codecs.
pub fn producer_mapping(
    alloc: Global,
    params: &Params,
    caps: &Caps,
    first_ssrc: u32,
) -> Result<Mapping, MapFault>
    requires { first_ssrc + length params.now.encodings ≤ 2 ^ 32 }
    ensures { Gives result (producer_mapping params.now caps.now first_ssrc) }
{
    let types = mapped_types(alloc, caps.codecs.as_slice(), params.codecs.as_slice())?;
    let ssrcs = mapped_ssrcs(alloc, first_ssrc, params.encodings.as_slice())?;
    Ok(Mapping {
        codecs: types,
        encodings: Items::from_vec(ssrcs),
    })
}

// The payload type of each codec, and the one that stands for it.
fn mapped_types(
    alloc: Global,
    router: &[Codec],
    codecs: &[Codec],
) -> Result<Items<(u8, u8)>, MapFault>
    ensures { Gives result (mapped_types router.now codecs.now) }
{
    let mut types = Vec::with_capacity(alloc, codecs.len())?;
    add_media_types(router, codecs, &mut types)?;
    add_rtx_types(router, codecs, &mut types)?;
    Ok(Items::from_vec(types))
}

fn add_media_types(
    router: &[Codec],
    codecs: &[Codec],
    types: &mut Vec<(u8, u8)>,
) -> Result<(), MapFault>
    ensures { Leaves result types.new.items (each_behind (media_types router.now) types.old.items (filter is_media codecs.now)) }
{
    for codec in codecs {
        if !codec.is_rtx() {
            types.push(media_types(router, codec)?)?;
        }
    }
    Ok(())
}

fn add_rtx_types(
    router: &[Codec],
    codecs: &[Codec],
    types: &mut Vec<(u8, u8)>,
) -> Result<(), MapFault>
    ensures { Leaves result types.new.items (each_behind (rtx_types router.now codecs.now) types.old.items (filter is_rtx codecs.now)) }
{
    for codec in codecs {
        if codec.is_rtx() {
            types.push(rtx_types(router, codecs, codec)?)?;
        }
    }
    Ok(())
}

// The payload type of a codec that carries media, and the one that stands for it.
#[tactic(auto, unfolding(crate::specs::ProducerMapping::media_types))]
fn media_types(router: &[Codec], codec: &Codec) -> Result<(u8, u8), MapFault>
    ensures { result ≡ media_types router.now codec.now }
{
    let mapped = router_type(router, codec)?;
    with_own_type(codec, mapped)
}

// The payload type of a codec for retransmissions, and the one that stands for it.
#[tactic(auto, unfolding(crate::specs::ProducerMapping::rtx_types))]
fn rtx_types(router: &[Codec], codecs: &[Codec], codec: &Codec) -> Result<(u8, u8), MapFault>
    ensures { result ≡ rtx_types router.now codecs.now codec.now }
{
    let Some(media) = associated(codecs, codec) else {
        return Err(MapFault::TypeError { code: Code::Apt });
    };
    let payload_type = router_type(router, media)?;
    let mapped = router_rtx_type(router, payload_type)?;
    with_own_type(codec, mapped)
}

// A codec's own payload type beside the one that stands for it.
fn with_own_type(codec: &Codec, mapped: u8) -> Result<(u8, u8), MapFault>
    ensures { result ≡ with_own_type codec.now mapped }
{
    match codec.payload_type {
        Some(own) => Ok((own, mapped)),
        None => Err(MapFault::Unsupported { code: Code::Codec }),
    }
}

// The Router's payload type for a codec that carries media.
fn router_type(router: &[Codec], codec: &Codec) -> Result<u8, MapFault>
    ensures { result ≡ router_type router.now codec.now }
{
    if codec.is_rtx() {
        return Err(MapFault::Unsupported { code: Code::Codec });
    }
    type_of(first_match(router, codec))
}

// The Router's payload type for the retransmissions of one of its payload types.
fn router_rtx_type(router: &[Codec], payload_type: u8) -> Result<u8, MapFault>
    ensures { result ≡ router_rtx_type router.now payload_type }
{
    type_of(first_rtx_of(router, payload_type))
}

fn type_of(codec: Option<&Codec>) -> Result<u8, MapFault>
    ensures { result ≡ type_of (option_copied codec.entry) }
{
    codec
        .and_then(|codec| codec.payload_type)
        .ok_or(MapFault::Unsupported { code: Code::Codec })
}

// The codec whose retransmissions a codec is for.
fn associated<'c>(codecs: &'c [Codec], codec: &Codec) -> Option<&'c Codec>
    ensures { option_copied result ≡ option_and_then (codec_of_type codecs.now) (apt_of codec.now) }
{
    first_of_type(codecs, codec.apt()?)
}

/// The first of these codecs that strictly matches another.
pub(crate) fn first_match<'c>(router: &'c [Codec], codec: &Codec) -> Option<&'c Codec>
    ensures { option_copied result ≡ find (strictly_matches codec.now) router.now }
{
    router.iter().find(|other| strictly_matches(codec, other))
}

/// The first of these codecs that has the payload type.
pub(crate) fn first_of_type(codecs: &[Codec], payload_type: u8) -> Option<&Codec>
    ensures { option_copied result ≡ find (has_type payload_type) codecs.now }
{
    codecs.iter().find(|codec| has_type(codec, payload_type))
}

/// The first of these codecs that is for the retransmissions of the payload type.
pub(crate) fn first_rtx_of(router: &[Codec], payload_type: u8) -> Option<&Codec>
    ensures { option_copied result ≡ find (is_rtx_of payload_type) router.now }
{
    router.iter().find(|codec| is_rtx_of(codec, payload_type))
}

fn is_rtx_of(codec: &Codec, payload_type: u8) -> bool
    ensures { result ≡ is_rtx_of payload_type codec.now }
{
    codec.is_rtx() && is_number(payload_type, codec.apt())
}

// Each SSRC, and the one that stands for it.
fn mapped_ssrcs(
    alloc: Global,
    first_ssrc: u32,
    encodings: &[Encoding],
) -> Result<Vec<(u32, u32)>, NoMemory>
    requires { first_ssrc + length encodings.now ≤ 2 ^ 32 }
    ensures { IfOk result (λ ssrcs. ssrcs.items ≡ mapped_ssrcs first_ssrc encodings.now) }
{
    let mut ssrcs = Vec::with_capacity(alloc, encodings.len())?;
    for (index, encoding) in encodings.iter().enumerate() {
        let mapped = first_ssrc + index as u32;
        ssrcs.push((encoding.ssrc, mapped))?;
    }
    Ok(ssrcs)
}
