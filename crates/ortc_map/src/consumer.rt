ghost use Rattle.std.specs.Prelude.{◌≡◌, ◌≤◌, [], ◌∷◌, filter, find, IfOk};
ghost use Rattle.std.specs.List.{list_any};
ghost use Rattle.std.specs.Option.{option_copied};
ghost use Rattle.rtp_params.specs.Names.{is_rtx};
ghost use Rattle.ortc_map.specs.Rules.{Gives};
ghost use Rattle.ortc_map.specs.ConsumerParams.{can_consume, capability_for, consumer_codec, consumer_codecs, consumer_encoding, consumer_exts, consumer_params, feedback_goes, feedback_of, feedback_stays, has_associated, has_ext, is_known, is_matched, is_remb, is_same_ext, is_transport_cc, media_stays, received, start_with_media, stays, stays_with_type};

use crate::fault::MapFault;
use crate::producer::first_match;
use crate::router::has_type;
use ms_base::{Code, NoMemory, Text};
use rtp_params::{Caps, Codec, Encoding, Ext, Feedback, Items, Params};
use std::alloc::Global;

/// Whether a receiver with these capabilities can consume what is offered: whether the first of the consumable codecs that
/// some codec of the capabilities strictly matches exists and isn't for retransmissions.
#[tactic(auto, unfolding(crate::specs::ConsumerParams::can_consume))]
pub fn can_consume(consumable: &Params, caps: &Caps) -> bool
    ensures { result ≡ can_consume consumable.now caps.now }
{
    match first_matched(consumable.codecs.as_slice(), caps.codecs.as_slice()) {
        Some(codec) => !codec.is_rtx(),
        None => false,
    }
}

// The first codec that the capabilities match.
fn first_matched<'c>(codecs: &'c [Codec], caps: &[Codec]) -> Option<&'c Codec>
    ensures { option_copied result ≡ find (is_matched caps.now) codecs.now }
{
    codecs.iter().find(|codec| is_matched(caps, codec))
}

fn is_matched(caps: &[Codec], codec: &Codec) -> bool
    ensures { result ≡ is_matched caps.now codec.now }
{
    first_match(caps, codec).is_some()
}

/// The parameters of a Consumer whose receiver has these capabilities: the consumable codecs that they strictly match, each
/// with the feedback of the first that matches it, and the consumable extensions that they have by uri and id. A codec for
/// retransmissions stays where the codec that its `apt` names stays. Bandwidth is estimated in one way: with the extension
/// of the transport-wide numbers, 5, the feedback `goog-remb` goes, else with that of the times of sending, 4, `transport-cc`
/// goes, and else both. There is one stream, `first_ssrc`; where a codec is for retransmissions they have the number after it.
///
/// Unsupported `codecs` comes exactly where no codec stays, or the first one that stays is for retransmissions.
pub fn consumer_params(
    alloc: Global,
    consumable: &Params,
    caps: &Caps,
    first_ssrc: u32,
) -> Result<Params, MapFault>
    requires { first_ssrc ≤ 4294967294 }
    ensures { Gives result (consumer_params consumable.now caps.now first_ssrc) }
{
    let exts = consumer_exts(alloc, caps.exts.as_slice(), consumable.exts.as_slice())?;
    let codecs = consumer_codecs(
        alloc,
        caps.codecs.as_slice(),
        exts.as_slice(),
        consumable.codecs.as_slice(),
    )?;
    received(alloc, consumable, codecs, exts, first_ssrc)
}

// The parameters with these codecs and extensions, unless the codecs don't start with one that carries media.
fn received(
    alloc: Global,
    consumable: &Params,
    codecs: Vec<Codec>,
    exts: Vec<Ext>,
    first_ssrc: u32,
) -> Result<Params, MapFault>
    requires { first_ssrc ≤ 4294967294 }
    ensures { Gives result (received consumable.now codecs.items exts.items first_ssrc) }
{
    if !start_with_media(codecs.as_slice()) {
        return Err(MapFault::Unsupported { code: Code::Codecs });
    }
    let encodings = consumer_encodings(alloc, codecs.as_slice(), first_ssrc)?;
    Ok(Params {
        codecs: Items::from_vec(codecs),
        exts: Items::from_vec(exts),
        encodings: Items::from_vec(encodings),
        cname: consumable.cname.copy(alloc)?,
        reduced_size: consumable.reduced_size,
    })
}

// Whether there is a first codec, and it carries media.
fn start_with_media(codecs: &[Codec]) -> bool
    ensures { result ≡ start_with_media codecs.now }
{
    match codecs {
        [] => false,
        [first, ..] => !first.is_rtx(),
    }
}

// The codecs that stay, as the Consumer has them.
fn consumer_codecs(
    alloc: Global,
    caps: &[Codec],
    exts: &[Ext],
    codecs: &[Codec],
) -> Result<Vec<Codec>, NoMemory>
    ensures { IfOk result (λ kept. kept.items ≡ consumer_codecs caps.now exts.now codecs.now) }
{
    let mut kept = Vec::new(alloc);
    for codec in codecs {
        if stays(caps, codecs, codec) {
            kept.push(consumer_codec(alloc, caps, exts, codec)?)?;
        }
    }
    Ok(kept)
}

// Whether it is matched and, where it is for retransmissions, the codec that they are of stays.
fn stays(caps: &[Codec], codecs: &[Codec], codec: &Codec) -> bool
    ensures { result ≡ stays caps.now codecs.now codec.now }
{
    is_matched(caps, codec) && (!codec.is_rtx() || has_associated(caps, codecs, codec.apt()))
}

// Whether one of the codecs carries media, stays, and has this payload type.
fn has_associated(caps: &[Codec], codecs: &[Codec], apt: Option<u8>) -> bool
    ensures { result ≡ has_associated caps.now codecs.now apt }
{
    match apt {
        Some(apt) => one_stays_with_type(caps, codecs, apt),
        None => false,
    }
}

fn one_stays_with_type(caps: &[Codec], codecs: &[Codec], payload_type: u8) -> bool
    ensures { result ≡ list_any (stays_with_type caps.now payload_type) codecs.now }
{
    codecs
        .iter()
        .any(|codec| stays_with_type(caps, payload_type, codec))
}

fn stays_with_type(caps: &[Codec], payload_type: u8, codec: &Codec) -> bool
    ensures { result ≡ stays_with_type caps.now payload_type codec.now }
{
    has_type(codec, payload_type) && !codec.is_rtx() && is_matched(caps, codec)
}

// A codec with the feedback of the first capability that matches it, as far as it stays.
fn consumer_codec(
    alloc: Global,
    caps: &[Codec],
    exts: &[Ext],
    codec: &Codec,
) -> Result<Codec, NoMemory>
    ensures { IfOk result (λ kept. kept ≡ consumer_codec caps.now exts.now codec.now) }
{
    let feedback = consumer_feedback(alloc, exts, first_match(caps, codec))?;
    Ok(Codec {
        media: codec.media,
        name: codec.name.copy(alloc)?,
        payload_type: codec.payload_type,
        clock_rate: codec.clock_rate,
        channels: codec.channels,
        parameters: codec.parameters.copy(alloc)?,
        feedback,
    })
}

// The feedback of a capability, as far as it stays.
fn consumer_feedback(
    alloc: Global,
    exts: &[Ext],
    capability: Option<&Codec>,
) -> Result<Feedback, NoMemory>
    ensures { IfOk result (λ kept. kept ≡ filter (feedback_stays exts.now) (feedback_of (option_copied capability.entry))) }
{
    match capability {
        Some(codec) => {
            let kept = kept_feedback(alloc, exts, codec.feedback.as_slice())?;
            Ok(Items::from_vec(kept))
        }
        None => Ok(Items::from_vec(Vec::new(alloc))),
    }
}

fn kept_feedback(
    alloc: Global,
    exts: &[Ext],
    feedback: &[(Text, Text)],
) -> Result<Vec<(Text, Text)>, NoMemory>
    ensures { IfOk result (λ kept. kept.items ≡ filter (feedback_stays exts.now) feedback.now) }
{
    let mut kept = Vec::new(alloc);
    for each in feedback {
        if !feedback_goes(exts, each) {
            kept.push((each.0.copy(alloc)?, each.1.copy(alloc)?))?;
        }
    }
    Ok(kept)
}

// Whether the feedback is of a way to estimate bandwidth that isn't used with these extensions.
fn feedback_goes(exts: &[Ext], feedback: &(Text, Text)) -> bool
    ensures { result ≡ feedback_goes exts.now feedback.now }
{
    let is_remb = feedback.0.as_str() == "goog-remb";
    let is_transport_cc = feedback.0.as_str() == "transport-cc";
    if has_ext(exts, 5) {
        is_remb
    } else if has_ext(exts, 4) {
        is_transport_cc
    } else {
        is_remb || is_transport_cc
    }
}

fn has_ext(exts: &[Ext], id: u8) -> bool
    ensures { result ≡ has_ext id exts.now }
{
    exts.iter().any(|ext| ext.id == id)
}

// The extensions that the capabilities have.
fn consumer_exts(alloc: Global, caps: &[Ext], exts: &[Ext]) -> Result<Vec<Ext>, NoMemory>
    ensures { IfOk result (λ kept. kept.items ≡ consumer_exts caps.now exts.now) }
{
    let mut kept = Vec::new(alloc);
    for ext in exts {
        if is_known(caps, ext) {
            kept.push(ext.copy(alloc)?)?;
        }
    }
    Ok(kept)
}

// Whether one of the capabilities has the extension's uri and id.
fn is_known(caps: &[Ext], ext: &Ext) -> bool
    ensures { result ≡ is_known caps.now ext.now }
{
    caps.iter().any(|cap| is_same_ext(ext, cap))
}

fn is_same_ext(ext: &Ext, other: &Ext) -> bool
    ensures { result ≡ is_same_ext ext.now other.now }
{
    ext.uri.as_str() == other.uri.as_str() && ext.id == other.id
}

// The one stream.
fn consumer_encodings(
    alloc: Global,
    codecs: &[Codec],
    first_ssrc: u32,
) -> Result<Vec<Encoding>, NoMemory>
    requires { first_ssrc ≤ 4294967294 }
    ensures { IfOk result (λ encodings. encodings.items ≡ consumer_encoding codecs.now first_ssrc ∷ []) }
{
    let mut encodings = Vec::new(alloc);
    encodings.push(consumer_encoding(codecs, first_ssrc))?;
    Ok(encodings)
}

fn consumer_encoding(codecs: &[Codec], ssrc: u32) -> Encoding
    requires { ssrc ≤ 4294967294 }
    ensures { result ≡ consumer_encoding codecs.now ssrc }
{
    let rtx = if has_rtx(codecs) {
        Some(ssrc + 1)
    } else {
        None
    };
    Encoding { ssrc, rtx }
}

fn has_rtx(codecs: &[Codec]) -> bool
    ensures { result ≡ list_any is_rtx codecs.now }
{
    codecs.iter().any(|codec| codec.is_rtx())
}
