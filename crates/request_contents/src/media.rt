ghost use Rattle.std.specs.Prelude.{◌≡◌, ℕ, IfOk};
ghost use Rattle.serde_json.specs.View.{view};
ghost use Rattle.request_contents.specs.Values.{consume_value, kind_text, mapping_value, produce_value, ssrcs_value, type_text, types_value};

use crate::list::{Item, write_list};
use ms_base::{Media, NoMemory};
use rtp_params::{Encoding, Mapping, Params, write_params};
use serde_json::{Map, Value, json, put};
use std::alloc::Global;

/// The content of `transport.produce`.
pub fn write_produce(
    alloc: Global,
    media: Media,
    paused: bool,
    mapping: &Mapping,
    params: &Params,
) -> Result<Value, NoMemory>
    ensures { IfOk result (λ v. view v ≡ produce_value media paused mapping.now params.now) }
{
    let mut members = Map::new(alloc);
    let kind = Value::try_from_str(alloc, kind_text(media))?;
    put(&mut members, alloc, "kind", kind)?;
    put(&mut members, alloc, "paused", Value::Bool(paused))?;
    let mapping = write_mapping(alloc, mapping)?;
    put(&mut members, alloc, "rtpMapping", mapping)?;
    let params = write_params(alloc, params)?;
    put(&mut members, alloc, "rtpParameters", params)?;
    Ok(Value::Object(members))
}

/// The content of `transport.consume`: the encodings that are consumed, and what the Consumer has of them.
pub fn write_consume(
    alloc: Global,
    media: Media,
    paused: bool,
    consumable: &[Encoding],
    params: &Params,
    simple: bool,
) -> Result<Value, NoMemory>
    ensures { IfOk result (λ v. view v ≡ consume_value media paused consumable.now params.now simple) }
{
    let mut members = Map::new(alloc);
    let encodings = write_list(alloc, consumable)?;
    put(&mut members, alloc, "consumableRtpEncodings", encodings)?;
    let kind = Value::try_from_str(alloc, kind_text(media))?;
    put(&mut members, alloc, "kind", kind)?;
    put(&mut members, alloc, "paused", Value::Bool(paused))?;
    let params = write_params(alloc, params)?;
    put(&mut members, alloc, "rtpParameters", params)?;
    let simple = Value::try_from_str(alloc, type_text(simple))?;
    put(&mut members, alloc, "type", simple)?;
    Ok(Value::Object(members))
}

// The name of a media.
fn kind_text(media: Media) -> &'static str
    ensures { result.now ≡ kind_text media }
{
    match media {
        Media::Audio => "audio",
        Media::Video => "video",
    }
}

// The name of a Consumer's type.
fn type_text(simple: bool) -> &'static str
    ensures { result.now ≡ type_text simple }
{
    if simple { "simple" } else { "pipe" }
}

fn write_mapping(alloc: Global, mapping: &Mapping) -> Result<Value, NoMemory>
    ensures { IfOk result (λ v. view v ≡ mapping_value mapping.now) }
{
    let codecs = write_list(alloc, mapping.codecs.as_slice())?;
    let encodings = write_list(alloc, mapping.encodings.as_slice())?;
    Ok(json!(in alloc; {"codecs": codecs, "encodings": encodings})?)
}

impl Item for (u8, u8) {
    ghost value = { types_value };

    fn write(&self, alloc: Global) -> Result<Value, NoMemory> {
        Ok(json!(in alloc; {"mappedPayloadType": self.1, "payloadType": self.0})?)
    }
}

impl Item for (u32, u32) {
    ghost value = { ssrcs_value };

    fn write(&self, alloc: Global) -> Result<Value, NoMemory> {
        Ok(json!(in alloc; {"mappedSsrc": self.1, "ssrc": self.0})?)
    }
}

impl Item for Encoding {
    ghost use Rattle.rtp_params.specs.Writing.{encoding_value};

    ghost value = { encoding_value };

    #[tactic(auto, unfolding(rtp_params::specs::Writing::encoding_value))]
    fn write(&self, alloc: Global) -> Result<Value, NoMemory> {
        match self.rtx {
            Some(rtx) => Ok(json!(in alloc; {"rtx": {"ssrc": rtx}, "ssrc": self.ssrc})?),
            None => Ok(json!(in alloc; {"ssrc": self.ssrc})?),
        }
    }
}
