//! Payload types and SSRCs of media, with what they are mapped to.

ghost use Rattle.std.specs.Prelude.{◌≡◌, find};
ghost use Rattle.std.specs.Option.{option_copied};
ghost use Rattle.producer.specs.Received.{mapped_to, is_media_codec, is_media_ssrc, mapped_ssrc};
ghost use Rattle.producer.specs.Tables.{media_type, AreMediaTypes};

use crate::coding::{Coding, coding_of};
use rtp_params::{Codec, Encoding, Mapping, Params};

/// How many payload types there are: each is a place of a table.
pub(crate) const TYPES: usize = 128;

/// What is known of a payload type of media.
#[derive(Clone, Copy, Debug, PartialEq, Eq)]
pub(crate) struct MediaType {
    /// The payload type that it is mapped to.
    pub mapped: u8,
    pub coding: Coding,
}

fn is_media_codec(codec: &Codec, own: u8) -> bool
    ensures { result ≡ is_media_codec own codec.now }
{
    codec.payload_type == Some(own) && !codec.is_rtx()
}

// The first codec of media with this payload type.
fn media_codec(codecs: &[Codec], own: u8) -> Option<&Codec>
    ensures { option_copied result ≡ find (is_media_codec own) codecs.now }
{
    for codec in codecs {
        if is_media_codec(codec, own) {
            return Some(codec);
        }
    }
    None
}

fn mapped_type_in(pairs: &[(u8, u8)], own: u8) -> Option<u8>
    ensures { result ≡ mapped_to pairs.now own }
{
    pairs.iter().find(|pair| pair.0 == own).map(|pair| pair.1)
}

fn mapped_ssrc_in(pairs: &[(u32, u32)], own: u32) -> Option<u32>
    ensures { result ≡ mapped_to pairs.now own }
{
    pairs.iter().find(|pair| pair.0 == own).map(|pair| pair.1)
}

fn is_media_ssrc(encodings: &[Encoding], own: u32) -> bool
    ensures { result ≡ is_media_ssrc encodings.now own }
{
    encodings.iter().any(|encoding| encoding.ssrc == own)
}

/// What the SSRC of one of the encodings is mapped to.
pub(crate) fn mapped_ssrc(params: &Params, mapping: &Mapping, own: u32) -> Option<u32>
    ensures { result ≡ mapped_ssrc params.now mapping.now own }
{
    if is_media_ssrc(params.encodings.as_slice(), own) {
        mapped_ssrc_in(mapping.encodings.as_slice(), own)
    } else {
        None
    }
}

// What is known of a payload type, if it is one of media and is mapped.
fn media_type(params: &Params, mapping: &Mapping, own: u8) -> Option<MediaType>
    ensures { result ≡ media_type params.now mapping.now own }
{
    let codec = media_codec(params.codecs.as_slice(), own)?;
    let mapped = mapped_type_in(mapping.codecs.as_slice(), own)?;
    let coding = coding_of(codec);
    Some(MediaType { mapped, coding })
}

/// The table of payload types.
pub(crate) fn media_types(params: &Params, mapping: &Mapping) -> [Option<MediaType>; TYPES]
    ensures { AreMediaTypes params.now mapping.now result }
{
    let mut types = [None; TYPES];
    for own in 0..TYPES {
        types[own] = media_type(params, mapping, own as u8);
    }
    types
}
