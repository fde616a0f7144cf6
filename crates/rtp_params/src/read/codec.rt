ghost use Rattle.std.specs.Prelude.{◌≡◌, [], codes, IfOk};
ghost use Rattle.std.specs.List.{before_first, after_first};
ghost use Rattle.serde_json.specs.Find.{get_member};
ghost use Rattle.serde_json.specs.View.{view, members_view};
ghost use Rattle.rtp_params.specs.declared.place.Place.TheVariants.{InParams, InCaps};
ghost use Rattle.rtp_params.specs.Reading.{required, or_default, read_behind, members_list, list_of, not_empty};
ghost use Rattle.rtp_params.specs.Codecs.{is_slash, media_of, mime_type_in, mime_type_of, channels_of, payload_type_name, payload_type_of, scalar_of, apt_value_of, parameter_of, parameters_of, feedback_in, feedback_of, codec_in, codec_of};
ghost use Rattle.rtp_params.specs.Gives.{Gives};
ghost use Rattle.rtp_params.specs.Readable.{AreAscending, HasAscending};

use crate::codec::{Codec, Parameters, Scalar};
use crate::fault::ParamFault;
use crate::items::Items;
use crate::place::Place;
use crate::read::list::{FromJson, list_or_empty};
use crate::read::members::{
    Members, member, optional_number, read_number, required_number, required_text, text_or_empty,
};
use ms_base::{Code, Media, Text};
use serde_json::Value;
use std::alloc::Global;

impl FromJson for Codec {
    ghost use Rattle.rtp_params.specs.Codecs.{codec_of};
    ghost use Rattle.rtp_params.specs.Readable.{HasAscending};

    ghost reads = { codec_of };

    ghost holds = { HasAscending };

    fn read(alloc: Global, place: Place, value: &Value) -> Result<Codec, ParamFault> {
        match value.as_object() {
            Some(members) => read_codec(alloc, place, members),
            None => Err(ParamFault::TypeError { code: Code::Form }),
        }
    }
}

// The members of a codec, in their order.
#[tactic(auto, unfolding(crate::specs::Codecs::codec_in))]
fn read_codec(alloc: Global, place: Place, members: &Members) -> Result<Codec, ParamFault>
    ensures value { Gives result (codec_in place (members_view members.now.entries)) }
    ensures ascending { IfOk result HasAscending }
{
    let (media, name) = required_mime_type(alloc, members)?;
    let clock_rate = required_number(members, "clockRate", 1, u32::MAX)?;
    let channels = read_channels(media, members)?;
    let payload_type = read_payload_type(place, members)?;
    let parameters = parameters_or_none(alloc, members)?;
    let feedback = list_or_empty(alloc, place, members, "rtcpFeedback")?;
    Ok(Codec {
        media,
        name,
        payload_type,
        clock_rate,
        channels,
        parameters,
        feedback,
    })
}

// The media that a text names.
fn read_media(text: &str) -> Result<Media, Code>
    ensures { result ≡ media_of text.now }
{
    if text.eq_ignore_ascii_case("audio") {
        Ok(Media::Audio)
    } else if text.eq_ignore_ascii_case("video") {
        Ok(Media::Video)
    } else {
        Err(Code::Form)
    }
}

// What stands before the first slash, and what stands behind it.
fn split_at_slash(text: &str) -> (&str, &str)
    ensures front { result.0.now ≡ before_first is_slash text.now }
    ensures behind { result.1.now ≡ after_first is_slash text.now }
{
    match text.split_once('/') {
        Some((front, behind)) => (front, behind),
        None => (text, ""),
    }
}

// A text that isn't empty.
fn read_name(alloc: Global, text: &str) -> Result<Text, ParamFault>
    ensures { Gives result (not_empty text.now) }
{
    if text.is_empty() {
        return Err(ParamFault::TypeError { code: Code::Form });
    }
    Ok(Text::from_str(alloc, text)?)
}

// A media type.
#[tactic(auto, unfolding(crate::specs::Codecs::mime_type_in))]
fn read_mime_type(alloc: Global, text: &str) -> Result<(Media, Text), ParamFault>
    ensures { Gives result (mime_type_in text.now) }
{
    let (media, name) = split_at_slash(text);
    let media = read_media(media)?;
    let name = read_name(alloc, name)?;
    Ok((media, name))
}

fn required_mime_type(alloc: Global, members: &Members) -> Result<(Media, Text), ParamFault>
    ensures { Gives result (required mime_type_of (get_member (codes "mimeType") (members_view members.now.entries))) }
{
    let Some(value) = member(members, "mimeType") else {
        return Err(ParamFault::TypeError { code: Code::Form });
    };
    match value.as_str() {
        Some(text) => read_mime_type(alloc, text),
        None => Err(ParamFault::TypeError { code: Code::Form }),
    }
}

// How many channels there are, for audio alone.
fn read_channels(media: Media, members: &Members) -> Result<Option<u8>, Code>
    ensures { result ≡ channels_of media (get_member (codes "channels") (members_view members.now.entries)) }
{
    match media {
        Media::Audio => {
            let channels = optional_number(members, "channels", 1, 255)?;
            Ok(Some(channels.unwrap_or(1) as u8))
        }
        Media::Video => Ok(None),
    }
}

// The payload type that parameters have.
fn required_payload_type(members: &Members) -> Result<Option<u8>, Code>
    ensures { result ≡ payload_type_of InParams (get_member (codes "payloadType") (members_view members.now.entries)) }
{
    let payload_type = required_number(members, "payloadType", 0, 127)?;
    Ok(Some(payload_type as u8))
}

// The payload type that capabilities may have.
fn optional_payload_type(members: &Members) -> Result<Option<u8>, Code>
    ensures { result ≡ payload_type_of InCaps (get_member (codes "preferredPayloadType") (members_view members.now.entries)) }
{
    let payload_type = optional_number(members, "preferredPayloadType", 0, 127)?;
    Ok(payload_type.map(|n| n as u8))
}

fn read_payload_type(place: Place, members: &Members) -> Result<Option<u8>, Code>
    ensures { result ≡ payload_type_of place (get_member (payload_type_name place) (members_view members.now.entries)) }
{
    match place {
        Place::InParams => required_payload_type(members),
        Place::InCaps => optional_payload_type(members),
    }
}

// A payload type as the value of `apt`.
fn read_apt(value: &Value) -> Result<Scalar, Code>
    ensures { result ≡ apt_value_of (view value.now) }
{
    let payload_type = read_number(value, 0, 127)?;
    Ok(Scalar::Number(i64::from(payload_type)))
}

// A text, or a whole number.
fn read_scalar(alloc: Global, value: &Value) -> Result<Scalar, ParamFault>
    ensures { Gives result (scalar_of (view value.now)) }
{
    match value {
        Value::String(text) => Ok(Scalar::Word(Text::from_str(alloc, text.as_str())?)),
        other => match other.as_i64() {
            Some(number) => Ok(Scalar::Number(number)),
            None => Err(ParamFault::TypeError { code: Code::Form }),
        },
    }
}

#[tactic(auto, unfolding(crate::specs::Codecs::parameter_of))]
fn read_parameter(alloc: Global, name: &str, value: &Value) -> Result<(Text, Scalar), ParamFault>
    ensures value { Gives result (parameter_of (name.now, view value.now)) }
    ensures name { IfOk result (λ parameter. parameter.0 ≡ name.now) }
{
    let value = if name == "apt" {
        read_apt(value)?
    } else {
        read_scalar(alloc, value)?
    };
    Ok((Text::from_str(alloc, name)?, value))
}

// The parameters of an object, in the order of their names.
fn read_parameters(alloc: Global, members: &Members) -> Result<Parameters, ParamFault>
    ensures value { Gives result (read_behind (λ _. parameter_of) [] (members_list (members_view members.now.entries))) }
    ensures ascending { IfOk result AreAscending }
{
    let mut parameters = Vec::new(alloc);
    for (name, value) in members.iter() {
        let parameter = read_parameter(alloc, name.as_str(), value)?;
        parameters.push(parameter)?;
    }
    Ok(Items::from_vec(parameters))
}

fn parameters_or_none(alloc: Global, members: &Members) -> Result<Parameters, ParamFault>
    ensures value { Gives result (or_default [] parameters_of (get_member (codes "parameters") (members_view members.now.entries))) }
    ensures ascending { IfOk result AreAscending }
{
    let Some(value) = member(members, "parameters") else {
        return Ok(Items::from_vec(Vec::new(alloc)));
    };
    match value.as_object() {
        Some(members) => read_parameters(alloc, members),
        None => Err(ParamFault::TypeError { code: Code::Form }),
    }
}

impl FromJson for (Text, Text) {
    ghost use Rattle.std.specs.Prelude.{⊤};
    ghost use Rattle.rtp_params.specs.Codecs.{feedback_of};

    ghost reads = { λ _. feedback_of };

    ghost holds = { λ _. ⊤ };

    fn read(alloc: Global, _place: Place, value: &Value) -> Result<(Text, Text), ParamFault> {
        match value.as_object() {
            Some(members) => read_feedback(alloc, members),
            None => Err(ParamFault::TypeError { code: Code::Form }),
        }
    }
}

// A type and a parameter of feedback.
#[tactic(auto, unfolding(crate::specs::Codecs::feedback_in))]
fn read_feedback(alloc: Global, members: &Members) -> Result<(Text, Text), ParamFault>
    ensures { Gives result (feedback_in (members_view members.now.entries)) }
{
    let kind = required_text(alloc, members, "type")?;
    let parameter = text_or_empty(alloc, members, "parameter")?;
    Ok((kind, parameter))
}
