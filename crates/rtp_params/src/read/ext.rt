ghost use Rattle.std.specs.Prelude.{◌≡◌, None, codes, option_map};
ghost use Rattle.serde_json.specs.Find.{get_member};
ghost use Rattle.serde_json.specs.View.{view, members_view};
ghost use Rattle.rtp_params.specs.declared.place.Place.TheVariants.{InParams, InCaps};
ghost use Rattle.rtp_params.specs.Reading.{or_default};
ghost use Rattle.rtp_params.specs.Exts.{kind_in, kind_of, sends_of, ext_in, ext_of};
ghost use Rattle.rtp_params.specs.Gives.{Gives};

use crate::ext::Ext;
use crate::fault::ParamFault;
use crate::place::Place;
use crate::read::list::FromJson;
use crate::read::members::{Members, member, required_filled_text, required_number};
use ms_base::{Code, Media};
use serde_json::Value;
use std::alloc::Global;

impl FromJson for Ext {
    ghost use Rattle.std.specs.Prelude.{⊤};
    ghost use Rattle.rtp_params.specs.Exts.{ext_of};

    ghost reads = { ext_of };

    ghost holds = { λ _. ⊤ };

    fn read(alloc: Global, place: Place, value: &Value) -> Result<Ext, ParamFault> {
        let Some(members) = value.as_object() else {
            return Err(ParamFault::TypeError { code: Code::Form });
        };
        match place {
            Place::InParams => read_ext(alloc, members),
            Place::InCaps => read_ext_of_caps(alloc, members),
        }
    }
}

// An extension of parameters.
#[tactic(auto, unfolding(crate::specs::Exts::ext_in))]
fn read_ext(alloc: Global, members: &Members) -> Result<Ext, ParamFault>
    ensures { Gives result (ext_in InParams (members_view members.now.entries)) }
{
    let uri = required_filled_text(alloc, members, "uri")?;
    let id = required_number(members, "id", 1, 255)? as u8;
    Ok(Ext {
        media: None,
        uri,
        id,
        sends: true,
    })
}

// An extension of capabilities.
#[tactic(auto, unfolding(crate::specs::Exts::ext_in))]
fn read_ext_of_caps(alloc: Global, members: &Members) -> Result<Ext, ParamFault>
    ensures { Gives result (ext_in InCaps (members_view members.now.entries)) }
{
    let media = kind_or_both(members)?;
    let uri = required_filled_text(alloc, members, "uri")?;
    let id = required_number(members, "preferredId", 1, 255)? as u8;
    let sends = is_sent(members)?;
    Ok(Ext {
        media,
        uri,
        id,
        sends,
    })
}

// The media that a text stands for: the empty one for both.
fn read_kind(text: &str) -> Result<Option<Media>, Code>
    ensures { result ≡ kind_in text.now }
{
    match text {
        "" => Ok(None),
        "audio" => Ok(Some(Media::Audio)),
        "video" => Ok(Some(Media::Video)),
        _ => Err(Code::Form),
    }
}

fn kind_or_both(members: &Members) -> Result<Option<Media>, Code>
    ensures { result ≡ or_default None kind_of (get_member (codes "kind") (members_view members.now.entries)) }
{
    let Some(value) = member(members, "kind") else {
        return Ok(None);
    };
    match value.as_str() {
        Some(text) => read_kind(text),
        None => Err(Code::Form),
    }
}

// Whether the direction is one in which the extension is sent.
fn is_sent(members: &Members) -> Result<bool, Code>
    ensures { result ≡ sends_of (get_member (codes "direction") (members_view members.now.entries)) }
{
    let Some(value) = member(members, "direction") else {
        return Ok(true);
    };
    match value.as_str() {
        Some(direction) => Ok(direction == "sendrecv" || direction == "sendonly"),
        None => Err(Code::Form),
    }
}
