ghost use Rattle.std.specs.Prelude.{◌≡◌, [], not, find, IfOk};
ghost use Rattle.ortc_map.specs.Rules.{Gives, Leaves};
ghost use Rattle.ortc_map.specs.Supported.{codec_of_row};
ghost use Rattle.ortc_map.specs.RouterCaps.{has_type, is_number, is_taken, new_type, next_type, router_caps, router_codec, rtx_codec, type_for, with_codec, with_codecs, with_rtx};

use crate::fault::MapFault;
use crate::supported::{Row, feedback_for, supported};
use ms_base::{Code, Media, NoMemory, Text};
use rtp_params::{Caps, Codec, Feedback, Items, Parameters, Scalar, all_exts};
use std::alloc::Global;

// The payload types that are drawn, in this order (RFC 3551, section 3).
const DYNAMIC_TYPES: [u8; 32] = [
    100, 101, 102, 103, 104, 105, 106, 107, 108, 109, 110, 111, 112, 113, 114, 115, 116, 117, 118,
    119, 120, 121, 122, 123, 124, 125, 126, 127, 96, 97, 98, 99,
];

/// What a Router of these codecs can receive and send: its codecs, and all supported header extensions.
///
/// Faults: those of `router_codecs`.
pub fn router_caps(alloc: Global, codecs: &[Codec]) -> Result<Caps, MapFault>
    ensures { Gives result (router_caps codecs.now) }
{
    let codecs = router_codecs(alloc, codecs)?;
    let exts = all_exts(alloc)?;
    Ok(Caps {
        codecs,
        exts: Items::from_vec(exts),
    })
}

/// The codecs of a Router of these codecs: each as the table has it, under its own payload type, a codec of video with the
/// one of its retransmissions (RFC 4588) behind it.
///
/// Codec by codec the first fault counts: Unsupported `codec` where no supported codec matches, Unsupported `types`
/// where a payload type is to be drawn and all 32 dynamic ones are taken, TypeError `duplicate_type` where the payload
/// type is that of an earlier codec of the result.
pub fn router_codecs(alloc: Global, codecs: &[Codec]) -> Result<Items<Codec>, MapFault>
    ensures { Gives result (with_codecs [] codecs.now) }
{
    let mut made = Vec::new(alloc);
    add_codecs(alloc, codecs, &mut made)?;
    Ok(Items::from_vec(made))
}

fn add_codecs(alloc: Global, codecs: &[Codec], made: &mut Vec<Codec>) -> Result<(), MapFault>
    ensures { Leaves result made.new.items (with_codecs made.old.items codecs.now) }
{
    for given in codecs {
        add_codec(alloc, given, made)?;
    }
    Ok(())
}

// Adds the Router's codec for one that was given, and that of its retransmissions.
#[tactic(auto, unfolding(crate::specs::RouterCaps::with_codec))]
fn add_codec(alloc: Global, given: &Codec, made: &mut Vec<Codec>) -> Result<(), MapFault>
    ensures { Leaves result made.new.items (with_codec made.old.items given.now) }
{
    let Some(row) = supported(given) else {
        return Err(MapFault::Unsupported { code: Code::Codec });
    };
    let payload_type = new_type(made.as_slice(), given.payload_type, row.payload_type)?;
    let codec = router_codec(alloc, given, row, payload_type)?;
    made.push(codec)?;
    add_rtx(alloc, row, payload_type, made)
}

// Adds the codec for the retransmissions of this payload type, where it is one of video.
fn add_rtx(alloc: Global, row: Row, apt: u8, made: &mut Vec<Codec>) -> Result<(), MapFault>
    ensures { Leaves result made.new.items (with_rtx row.media row.clock_rate apt made.old.items) }
{
    match row.media {
        Media::Audio => Ok(()),
        Media::Video => {
            let payload_type = next_type(made.as_slice())?;
            let codec = rtx_codec(alloc, payload_type, row.clock_rate, apt)?;
            made.push(codec)?;
            Ok(())
        }
    }
}

// The payload type of a further codec, which none of these has.
fn new_type(codecs: &[Codec], given: Option<u8>, fixed: Option<u8>) -> Result<u8, MapFault>
    ensures { result ≡ new_type codecs.now given fixed }
{
    let payload_type = type_for(codecs, given, fixed)?;
    if is_taken(codecs, payload_type) {
        return Err(MapFault::TypeError {
            code: Code::DuplicateType,
        });
    }
    Ok(payload_type)
}

// The type that it is given, else the one of the table, else the next.
fn type_for(codecs: &[Codec], given: Option<u8>, fixed: Option<u8>) -> Result<u8, MapFault>
    ensures { result ≡ type_for codecs.now given fixed }
{
    match given {
        Some(payload_type) => Ok(payload_type),
        None => match fixed {
            Some(payload_type) => Ok(payload_type),
            None => next_type(codecs),
        },
    }
}

// The first dynamic payload type that none of these codecs has.
#[tactic(auto, unfolding(crate::specs::RouterCaps::dynamic_types))]
fn next_type(codecs: &[Codec]) -> Result<u8, MapFault>
    ensures { result ≡ next_type codecs.now }
{
    match first_free(&DYNAMIC_TYPES, codecs) {
        Some(payload_type) => Ok(payload_type),
        None => Err(MapFault::Unsupported { code: Code::Types }),
    }
}

// The first of these payload types that none of the codecs has.
fn first_free(types: &[u8], codecs: &[Codec]) -> Option<u8>
    ensures { result ≡ find (λ type. not (is_taken codecs.now type)) types.now }
{
    types
        .iter()
        .copied()
        .find(|payload_type| !is_taken(codecs, *payload_type))
}

fn is_taken(codecs: &[Codec], payload_type: u8) -> bool
    ensures { result ≡ is_taken codecs.now payload_type }
{
    codecs.iter().any(|codec| has_type(codec, payload_type))
}

/// Whether a codec has this payload type.
pub(crate) fn has_type(codec: &Codec, payload_type: u8) -> bool
    ensures { result ≡ has_type payload_type codec.now }
{
    is_number(payload_type, codec.payload_type)
}

/// Whether there is a number, and it is this one.
pub(crate) fn is_number(number: u8, found: Option<u8>) -> bool
    ensures { result ≡ is_number number found }
{
    match found {
        Some(found) => found == number,
        None => false,
    }
}

// The table's codec with this payload type and the parameters that were given.
fn router_codec(alloc: Global, given: &Codec, row: Row, payload_type: u8) -> Result<Codec, NoMemory>
    ensures { IfOk result (λ codec. codec ≡ router_codec given.now (codec_of_row row) payload_type) }
{
    Ok(Codec {
        media: row.media,
        name: Text::from_str(alloc, row.name)?,
        payload_type: Some(payload_type),
        clock_rate: row.clock_rate,
        channels: row.channels,
        parameters: given.parameters.copy(alloc)?,
        feedback: feedback_for(alloc, row.media)?,
    })
}

// The codec for the retransmissions of a payload type, `apt`.
fn rtx_codec(alloc: Global, payload_type: u8, clock_rate: u32, apt: u8) -> Result<Codec, NoMemory>
    ensures { IfOk result (λ codec. codec ≡ rtx_codec payload_type clock_rate apt) }
{
    let name = Text::from_str(alloc, "apt")?;
    let mut parameters = Vec::new(alloc);
    parameters.push((name, Scalar::Number(i64::from(apt))))?;
    Ok(Codec {
        media: Media::Video,
        name: Text::from_str(alloc, "rtx")?,
        payload_type: Some(payload_type),
        clock_rate,
        channels: None,
        parameters: Parameters::from_vec(parameters),
        feedback: Feedback::from_vec(Vec::new(alloc)),
    })
}
