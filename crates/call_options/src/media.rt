//! The options of what carries media: codecs, parameters and capabilities.

ghost use Rattle.std.specs.Prelude.{◌≡◌, [], IfOk};
ghost use Rattle.std.specs.List.{list_all};
ghost use Rattle.serde_json.specs.View.{view, members_view};
ghost use Rattle.rtp_params.specs.Gives.{Gives as Reads};
ghost use Rattle.rtp_params.specs.Readable.{IsCaps, IsParams};
ghost use Rattle.call_options.specs.Gives.{Gives};
ghost use Rattle.call_options.specs.Options.{codecs_alone, capability_codecs_of, router_in, router_options, media_named, is_of, media_of, produce_in, produce_of, produce_options, consume_in, consume_of, consume_options, paused_of, piped_consume_options, caps_options};

use crate::fault::OptionFault;
use crate::limits::{caps_fit, params_fit, router_fits};
use crate::members::{Members, into_object, needed, read_object, read_value, take};
use crate::options::{ConsumeOptions, ProduceOptions};
use crate::values::{flag, optional_id, read_text};
use ms_base::{Code, Media, NoMemory, Text};
use rtp_params::{Caps, Codec, Items, ParamFault, Params, read_caps, read_params};
use serde_json::{Value, json};
use std::alloc::Global;

/// The codecs that a Router is to have.
///
/// `TypeError` comes exactly where the options aren't of the form, or there are more codecs than 32.
pub fn router_options(alloc: Global, options: &Text) -> Result<Items<Codec>, OptionFault>
    ensures reads { Gives result (router_options options.now) }
    ensures readable { IfOk result (λ codecs. IsCaps (record { codecs = codecs; exts = [] })) }
{
    let value = read_value(alloc, options)?;
    Ok(read_router(alloc, into_object(value)?)?)
}

/// What a Producer is to be.
///
/// `TypeError` comes exactly where the options aren't of the form or encodings have no SSRCs of their own, by the first
/// fault in the order of reading; or else a list has too many items or too few; or else the kind isn't one, or a codec
/// of another.
pub fn produce_options(alloc: Global, options: &Text) -> Result<ProduceOptions, OptionFault>
    ensures reads { Gives result (produce_options options.now) }
    ensures readable { IfOk result (λ o. IsParams o.params) }
{
    let value = read_value(alloc, options)?;
    Ok(read_produce(alloc, &value)?)
}

/// What a Consumer is to be.
///
/// `TypeError` comes exactly where the options aren't of the form, or there are more codecs or extensions than 128.
pub fn consume_options(alloc: Global, options: &Text) -> Result<ConsumeOptions, OptionFault>
    ensures reads { Gives result (consume_options options.now) }
    ensures readable { IfOk result (λ o. IsCaps o.caps) }
{
    let value = read_value(alloc, options)?;
    Ok(read_consume(alloc, &value)?)
}

/// Whether a Consumer over a pipe is to be paused. Its capabilities aren't read.
///
/// `TypeError` comes exactly where the options aren't of the form.
pub fn piped_consume_options(alloc: Global, options: &Text) -> Result<bool, OptionFault>
    ensures { Gives result (piped_consume_options options.now) }
{
    let value = read_value(alloc, options)?;
    Ok(read_paused(&value)?)
}

/// The capabilities of a receiver.
///
/// `TypeError` comes exactly where the options aren't of the form, or there are more codecs or extensions than 128.
pub fn caps_options(alloc: Global, options: &Text) -> Result<Caps, OptionFault>
    ensures reads { Gives result (caps_options options.now) }
    ensures readable { IfOk result IsCaps }
{
    let value = read_value(alloc, options)?;
    let caps = read_caps(alloc, &value)?;
    if caps_fit(&caps) {
        Ok(caps)
    } else {
        Err(OptionFault::TypeError { code: Code::Many })
    }
}

// ---- Routers

#[tactic(auto, unfolding(crate::specs::Options::router_in))]
fn read_router(alloc: Global, members: Members) -> Result<Items<Codec>, ParamFault>
    ensures reads { Reads result (router_in (members_view members.entries)) }
    ensures readable { IfOk result (λ codecs. IsCaps (record { codecs = codecs; exts = [] })) }
{
    let Some(list) = take(members, "mediaCodecs") else {
        return Err(ParamFault::TypeError { code: Code::Form });
    };
    let codecs = read_codecs(alloc, list)?;
    if !router_fits(codecs.as_slice()) {
        return Err(ParamFault::TypeError { code: Code::Many });
    }
    Ok(codecs)
}

// A list of codec capabilities.
fn read_codecs(alloc: Global, list: Value) -> Result<Items<Codec>, ParamFault>
    ensures reads { Reads result (capability_codecs_of (view list)) }
    ensures readable { IfOk result (λ codecs. IsCaps (record { codecs = codecs; exts = [] })) }
{
    let caps = codecs_alone(alloc, list)?;
    let Caps { codecs, exts: _ } = read_caps(alloc, &caps)?;
    Ok(codecs)
}

// Capabilities that have nothing but these codecs.
fn codecs_alone(alloc: Global, list: Value) -> Result<Value, NoMemory>
    ensures { IfOk result (λ v. view v ≡ codecs_alone (view list)) }
{
    Ok(json!(in alloc; {"codecs": list})?)
}

// ---- Producers

fn read_produce(alloc: Global, value: &Value) -> Result<ProduceOptions, ParamFault>
    ensures reads { Reads result (produce_of (view value.now)) }
    ensures readable { IfOk result (λ o. IsParams o.params) }
{
    produce_in(alloc, read_object(value)?)
}

#[tactic(auto, unfolding(crate::specs::Options::produce_in))]
fn produce_in(alloc: Global, members: &Members) -> Result<ProduceOptions, ParamFault>
    ensures reads { Reads result (produce_in (members_view members.now.entries)) }
    ensures readable { IfOk result (λ o. IsParams o.params) }
{
    let kind = read_text(needed(members, "kind")?)?;
    let params = read_params(alloc, needed(members, "rtpParameters")?)?;
    let paused = flag(members, "paused", false)?;
    let id = optional_id(members)?;
    if !params_fit(&params) {
        return Err(ParamFault::TypeError { code: Code::Many });
    }
    let media = media_of(kind, params.codecs.as_slice())?;
    Ok(ProduceOptions {
        media,
        params,
        paused,
        id,
    })
}

// The media of a kind, where each codec is of it.
fn media_of(kind: &str, codecs: &[Codec]) -> Result<Media, Code>
    ensures { result ≡ media_of kind.now codecs.now }
{
    let media = media_named(kind)?;
    if are_all_of(media, codecs) {
        Ok(media)
    } else {
        Err(Code::Kind)
    }
}

fn are_all_of(media: Media, codecs: &[Codec]) -> bool
    ensures { result ≡ list_all (is_of media) codecs.now }
{
    codecs.iter().all(|codec| is_of(media, codec))
}

fn media_named(kind: &str) -> Result<Media, Code>
    ensures { result ≡ media_named kind.now }
{
    match kind {
        "audio" => Ok(Media::Audio),
        "video" => Ok(Media::Video),
        _ => Err(Code::Kind),
    }
}

fn is_of(media: Media, codec: &Codec) -> bool
    ensures { result ≡ is_of media codec.now }
{
    codec.media == media
}

// ---- Consumers

fn read_consume(alloc: Global, value: &Value) -> Result<ConsumeOptions, ParamFault>
    ensures reads { Reads result (consume_of (view value.now)) }
    ensures readable { IfOk result (λ o. IsCaps o.caps) }
{
    consume_in(alloc, read_object(value)?)
}

#[tactic(auto, unfolding(crate::specs::Options::consume_in))]
fn consume_in(alloc: Global, members: &Members) -> Result<ConsumeOptions, ParamFault>
    ensures reads { Reads result (consume_in (members_view members.now.entries)) }
    ensures readable { IfOk result (λ o. IsCaps o.caps) }
{
    let caps = read_caps(alloc, needed(members, "rtpCapabilities")?)?;
    let paused = flag(members, "paused", false)?;
    if !caps_fit(&caps) {
        return Err(ParamFault::TypeError { code: Code::Many });
    }
    Ok(ConsumeOptions { caps, paused })
}

fn read_paused(value: &Value) -> Result<bool, Code>
    ensures { result ≡ paused_of (view value.now) }
{
    flag(read_object(value)?, "paused", false)
}
