ghost use Rattle.std.specs.Prelude.{◌≡◌, ◌++◌, IfOk, OnOk, codes};
ghost use Rattle.serde_json.specs.Data.{string};
ghost use Rattle.serde_json.specs.View.{view, members_view};
ghost use Rattle.rtp_params.specs.Codecs.{payload_type_name};
ghost use Rattle.rtp_params.specs.Writing.{mime_type_text, written_channels, scalar_value, parameters_value, feedback_value, codec_members, codec_value};

use crate::codec::{Codec, Scalar};
use crate::place::Place;
use crate::write::members::{ToJson, put_optional, write_list};
use ms_base::{Media, NoMemory, Text};
use serde_json::{Map, Value, json, put};
use std::alloc::Global;

impl ToJson for Codec {
    ghost use Rattle.rtp_params.specs.Writing.{codec_value};

    ghost writes = { codec_value };

    #[tactic(auto, unfolding(crate::specs::Writing::codec_value))]
    fn write(&self, alloc: Global, place: Place) -> Result<Value, NoMemory> {
        let mut members = codec_members(alloc, self)?;
        let payload_type = self.payload_type.map(Value::from);
        put_optional(alloc, payload_type_name(place), payload_type, &mut members)?;
        let channels = written_channels(self.media, self.channels).map(Value::from);
        put_optional(alloc, "channels", channels, &mut members)?;
        Ok(Value::Object(members))
    }
}

fn payload_type_name(place: Place) -> &'static str
    ensures { result.now ≡ payload_type_name place }
{
    match place {
        Place::InParams => "payloadType",
        Place::InCaps => "preferredPayloadType",
    }
}

// Audio alone has channels.
fn written_channels(media: Media, channels: Option<u8>) -> Option<u8>
    ensures { result ≡ written_channels media channels }
{
    match media {
        Media::Audio => channels,
        Media::Video => None,
    }
}

// The members that each codec has.
fn codec_members(alloc: Global, codec: &Codec) -> Result<Map<String, Value>, NoMemory>
    ensures { IfOk result (λ members. members_view members.entries ≡ codec_members codec.now) }
{
    let mut members = Map::new(alloc);
    let clock_rate = Value::from(codec.clock_rate);
    put(&mut members, alloc, "clockRate", clock_rate)?;
    let mime_type = write_mime_type(alloc, codec.media, codec.name.as_str())?;
    put(&mut members, alloc, "mimeType", mime_type)?;
    let parameters = write_parameters(alloc, codec.parameters.as_slice())?;
    put(&mut members, alloc, "parameters", parameters)?;
    let feedback = write_list(alloc, Place::InParams, codec.feedback.as_slice())?;
    put(&mut members, alloc, "rtcpFeedback", feedback)?;
    Ok(members)
}

// A media type.
fn write_mime_type(alloc: Global, media: Media, name: &str) -> Result<Value, NoMemory>
    ensures { IfOk result (λ v. view v ≡ string (mime_type_text media name.now)) }
{
    let mut text = match media {
        Media::Audio => String::from_str(alloc, "audio/")?,
        Media::Video => String::from_str(alloc, "video/")?,
    };
    text.push_str(name)?;
    Ok(Value::String(text))
}

fn write_scalar(alloc: Global, scalar: &Scalar) -> Result<Value, NoMemory>
    ensures { IfOk result (λ v. view v ≡ scalar_value scalar.now) }
{
    match scalar {
        Scalar::Number(number) => Ok(Value::from(*number)),
        Scalar::Word(word) => Ok(Value::try_from_str(alloc, word.as_str())?),
    }
}

// The parameters as the members of an object.
fn write_parameters(alloc: Global, parameters: &[(Text, Scalar)]) -> Result<Value, NoMemory>
    ensures { IfOk result (λ v. view v ≡ parameters_value parameters.now) }
{
    let mut members = Map::new(alloc);
    for (name, scalar) in parameters {
        let value = write_scalar(alloc, scalar)?;
        put(&mut members, alloc, name.as_str(), value)?;
    }
    Ok(Value::Object(members))
}

impl ToJson for (Text, Text) {
    ghost writes = { λ _. feedback_value };

    fn write(&self, alloc: Global, _place: Place) -> Result<Value, NoMemory> {
        let (kind, parameter) = (self.0.as_str(), self.1.as_str());
        Ok(json!(in alloc; {"parameter": parameter, "type": kind})?)
    }
}
