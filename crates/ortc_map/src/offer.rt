ghost use Rattle.std.specs.Prelude.{◌≡◌, ◌++◌, find, map, IfOk, OnOk};
ghost use Rattle.std.specs.Option.{option_copied};
ghost use Rattle.rtp_params.specs.Table.{sent_exts};
ghost use Rattle.ortc_map.specs.Consumable.{as_of_params, consumable, mapped_type, offered, offered_as, offered_codec, offered_codecs, offered_encoding, offered_exts, type_for_codec};

use crate::producer::{first_of_type, first_rtx_of};
use ms_base::{Media, NoMemory};
use rtp_params::{Caps, Codec, Encoding, Ext, Items, Mapping, Params, table_exts};
use std::alloc::Global;

/// What a Router with these capabilities offers to Consumers of what a Producer of this media sends, for a mapping that
/// `producer_mapping` gave. For each codec that isn't for retransmissions it is the Router's codec that stands for it, with
/// the Producer's parameters, and behind it the Router's codec of its retransmissions, where there is one; the extensions
/// are those of the table that are sent for the media; the SSRCs are the mapped ones.
#[tactic(auto, unfolding(crate::specs::Consumable::consumable))]
pub fn consumable(
    alloc: Global,
    media: Media,
    params: &Params,
    caps: &Caps,
    mapping: &Mapping,
) -> Result<Params, NoMemory>
    ensures { IfOk result (λ offer. offer ≡ consumable media params.now caps.now mapping.now) }
{
    let codecs = offered_codecs(
        alloc,
        caps.codecs.as_slice(),
        mapping.codecs.as_slice(),
        params.codecs.as_slice(),
    )?;
    let exts = offered_exts(alloc, media)?;
    let encodings = offered_encodings(alloc, mapping.encodings.as_slice())?;
    Ok(Params {
        codecs: Items::from_vec(codecs),
        exts: Items::from_vec(exts),
        encodings: Items::from_vec(encodings),
        cname: params.cname.copy(alloc)?,
        reduced_size: true,
    })
}

// What is offered of each codec that carries media.
fn offered_codecs(
    alloc: Global,
    router: &[Codec],
    types: &[(u8, u8)],
    codecs: &[Codec],
) -> Result<Vec<Codec>, NoMemory>
    ensures { IfOk result (λ offer. offer.items ≡ offered_codecs router.now types.now codecs.now) }
{
    let mut offer = Vec::new(alloc);
    for codec in codecs {
        if !codec.is_rtx() {
            add_offered(alloc, router, types, codec, &mut offer)?;
        }
    }
    Ok(offer)
}

// Adds what is offered of a codec.
fn add_offered(
    alloc: Global,
    router: &[Codec],
    types: &[(u8, u8)],
    codec: &Codec,
    offer: &mut Vec<Codec>,
) -> Result<(), NoMemory>
    ensures { OnOk result (offer.new.items ≡ offer.old.items ++ offered_codec router.now types.now codec.now) }
{
    match type_for_codec(types, codec) {
        Some(payload_type) => add_of_type(alloc, router, payload_type, codec, offer),
        None => Ok(()),
    }
}

// The Router's payload type of a Producer's codec.
fn type_for_codec(types: &[(u8, u8)], codec: &Codec) -> Option<u8>
    ensures { result ≡ type_for_codec types.now codec.now }
{
    mapped_type(types, codec.payload_type?)
}

// What stands for a payload type.
fn mapped_type(types: &[(u8, u8)], own: u8) -> Option<u8>
    ensures { result ≡ mapped_type types.now own }
{
    for (each, mapped) in types {
        if *each == own {
            return Some(*mapped);
        }
    }
    None
}

// Adds what is offered of a codec whose type is mapped to this one.
fn add_of_type(
    alloc: Global,
    router: &[Codec],
    payload_type: u8,
    codec: &Codec,
    offer: &mut Vec<Codec>,
) -> Result<(), NoMemory>
    ensures { OnOk result (offer.new.items ≡ offer.old.items ++ offered router.now codec.now (Some payload_type)) }
{
    if let Some(found) = first_of_type(router, payload_type) {
        offer.push(with_parameters(alloc, found, codec)?)?;
        if let Some(rtx) = first_rtx_of(router, payload_type) {
            offer.push(rtx.copy(alloc)?)?;
        }
    }
    Ok(())
}

// A Router's codec with the parameters of another.
fn with_parameters(alloc: Global, found: &Codec, codec: &Codec) -> Result<Codec, NoMemory>
    ensures { IfOk result (λ offer. offer ≡ record found.now { parameters = codec.now.parameters }) }
{
    Ok(Codec {
        media: found.media,
        name: found.name.copy(alloc)?,
        payload_type: found.payload_type,
        clock_rate: found.clock_rate,
        channels: found.channels,
        parameters: codec.parameters.copy(alloc)?,
        feedback: found.feedback.copy(alloc)?,
    })
}

// The extensions of the table that are sent for this media, as parameters have them.
fn offered_exts(alloc: Global, media: Media) -> Result<Vec<Ext>, NoMemory>
    ensures { IfOk result (λ exts. exts.items ≡ offered_exts media) }
{
    let sent = table_exts(alloc, media)?;
    let mut exts = Vec::new(alloc);
    for ext in &sent {
        exts.push(as_of_params(alloc, ext)?)?;
    }
    Ok(exts)
}

// An extension for whatever media.
fn as_of_params(alloc: Global, ext: &Ext) -> Result<Ext, NoMemory>
    ensures { IfOk result (λ copy. copy ≡ as_of_params ext.now) }
{
    Ok(Ext {
        media: None,
        uri: ext.uri.copy(alloc)?,
        id: ext.id,
        sends: ext.sends,
    })
}

// The streams with the mapped SSRCs.
fn offered_encodings(alloc: Global, ssrcs: &[(u32, u32)]) -> Result<Vec<Encoding>, NoMemory>
    ensures { IfOk result (λ encodings. encodings.items ≡ map offered_encoding ssrcs.now) }
{
    let mut encodings = Vec::with_capacity(alloc, ssrcs.len())?;
    for (_, mapped) in ssrcs {
        encodings.push(Encoding {
            ssrc: *mapped,
            rtx: None,
        })?;
    }
    Ok(encodings)
}
