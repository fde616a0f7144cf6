ghost use Rattle.std.specs.Prelude.{◌≡◌, IfOk};
ghost use Rattle.serde_json.specs.View.{view};
ghost use Rattle.rtp_params.specs.declared.place.Place.TheVariants.{InParams, InCaps};
ghost use Rattle.rtp_params.specs.Writing.{direction_text, kind_text, ext_value};

use crate::ext::Ext;
use crate::place::Place;
use crate::write::members::ToJson;
use ms_base::{Media, NoMemory};
use serde_json::{Value, json};
use std::alloc::Global;

impl ToJson for Ext {
    ghost writes = { ext_value };

    fn write(&self, alloc: Global, place: Place) -> Result<Value, NoMemory> {
        match place {
            Place::InParams => write_ext(alloc, self),
            Place::InCaps => write_ext_of_caps(alloc, self),
        }
    }
}

// An extension of parameters.
#[tactic(auto, unfolding(crate::specs::Writing::ext_value))]
fn write_ext(alloc: Global, ext: &Ext) -> Result<Value, NoMemory>
    ensures { IfOk result (λ v. view v ≡ ext_value InParams ext.now) }
{
    let uri = ext.uri.as_str();
    Ok(json!(in alloc; {"id": ext.id, "uri": uri})?)
}

// An extension of capabilities.
#[tactic(auto, unfolding(crate::specs::Writing::ext_value))]
fn write_ext_of_caps(alloc: Global, ext: &Ext) -> Result<Value, NoMemory>
    ensures { IfOk result (λ v. view v ≡ ext_value InCaps ext.now) }
{
    let direction = direction_text(ext.sends);
    let kind = kind_text(ext.media);
    let uri = ext.uri.as_str();
    Ok(json!(in alloc; {
        "direction": direction,
        "kind": kind,
        "preferredId": ext.id,
        "uri": uri
    })?)
}

fn direction_text(sends: bool) -> &'static str
    ensures { result.now ≡ direction_text sends }
{
    if sends { "sendrecv" } else { "recvonly" }
}

// Both media are the empty text.
fn kind_text(media: Option<Media>) -> &'static str
    ensures { result.now ≡ kind_text media }
{
    match media {
        None => "",
        Some(Media::Audio) => "audio",
        Some(Media::Video) => "video",
    }
}
