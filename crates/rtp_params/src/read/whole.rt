ghost use Rattle.std.specs.Prelude.{◌≡◌, true, codes, IfOk};
ghost use Rattle.serde_json.specs.Data.{no_members};
ghost use Rattle.serde_json.specs.Find.{get_member};
ghost use Rattle.serde_json.specs.View.{view, members_view};
ghost use Rattle.rtp_params.specs.Reading.{bool_of, or_default};
ghost use Rattle.rtp_params.specs.Whole.{rtcp_in, rtcp_of, params_in, params_of, caps_in, caps_of};
ghost use Rattle.rtp_params.specs.Gives.{Gives};
ghost use Rattle.rtp_params.specs.Readable.{Each, HasAscending, IsParams, IsCaps};

use crate::fault::ParamFault;
use crate::params::{Caps, Params};
use crate::place::Place;
use crate::read::encoding::required_encodings;
use crate::read::list::{list_or_empty, required_list};
use crate::read::members::{Members, member, text_or_empty};
use ms_base::{Code, Text};
use serde_json::Value;
use std::alloc::Global;

/// The capabilities that a value is.
///
/// `TypeError` comes exactly where it is none, with the code of its first fault in the order of reading.
pub fn read_caps(alloc: Global, value: &Value) -> Result<Caps, ParamFault>
    ensures reads { Gives result (caps_of (view value.now)) }
    ensures readable { IfOk result IsCaps }
{
    match value.as_object() {
        Some(members) => read_caps_members(alloc, members),
        None => Err(ParamFault::TypeError { code: Code::Form }),
    }
}

/// The parameters that a value is.
///
/// `TypeError` comes exactly where it is none, with the code of its first fault in the order of reading.
pub fn read_params(alloc: Global, value: &Value) -> Result<Params, ParamFault>
    ensures reads { Gives result (params_of (view value.now)) }
    ensures readable { IfOk result IsParams }
{
    match value.as_object() {
        Some(members) => read_params_members(alloc, members),
        None => Err(ParamFault::TypeError { code: Code::Form }),
    }
}

#[tactic(auto, unfolding(crate::specs::Whole::caps_in))]
fn read_caps_members(alloc: Global, members: &Members) -> Result<Caps, ParamFault>
    ensures reads { Gives result (caps_in (members_view members.now.entries)) }
    ensures ascending { IfOk result (λ caps. Each HasAscending caps.codecs) }
{
    let codecs = list_or_empty(alloc, Place::InCaps, members, "codecs")?;
    let exts = list_or_empty(alloc, Place::InCaps, members, "headerExtensions")?;
    Ok(Caps { codecs, exts })
}

#[tactic(auto, unfolding(crate::specs::Whole::params_in))]
fn read_params_members(alloc: Global, members: &Members) -> Result<Params, ParamFault>
    ensures reads { Gives result (params_in (members_view members.now.entries)) }
    ensures ascending { IfOk result (λ params. Each HasAscending params.codecs) }
{
    let codecs = required_list(alloc, Place::InParams, members, "codecs")?;
    let exts = list_or_empty(alloc, Place::InParams, members, "headerExtensions")?;
    let encodings = required_encodings(alloc, members)?;
    let (cname, reduced_size) = rtcp_or_default(alloc, members)?;
    Ok(Params {
        codecs,
        exts,
        encodings,
        cname,
        reduced_size,
    })
}

// Whether RTCP has reduced size.
fn reduced_size_or_true(rtcp: &Members) -> Result<bool, Code>
    ensures { result ≡ or_default true bool_of (get_member (codes "reducedSize") (members_view rtcp.now.entries)) }
{
    let Some(value) = member(rtcp, "reducedSize") else {
        return Ok(true);
    };
    match value.as_bool() {
        Some(reduced_size) => Ok(reduced_size),
        None => Err(Code::Form),
    }
}

// The canonical name, and whether RTCP has reduced size.
#[tactic(auto, unfolding(crate::specs::Whole::rtcp_in))]
fn read_rtcp(alloc: Global, rtcp: &Members) -> Result<(Text, bool), ParamFault>
    ensures { Gives result (rtcp_in (members_view rtcp.now.entries)) }
{
    let cname = text_or_empty(alloc, rtcp, "cname")?;
    let reduced_size = reduced_size_or_true(rtcp)?;
    Ok((cname, reduced_size))
}

#[tactic(auto, unfolding(crate::specs::Whole::rtcp_in))]
fn rtcp_or_default(alloc: Global, members: &Members) -> Result<(Text, bool), ParamFault>
    ensures { Gives result (rtcp_of (get_member (codes "rtcp") (members_view members.now.entries))) }
{
    let Some(value) = member(members, "rtcp") else {
        return Ok((Text::from_str(alloc, "")?, true));
    };
    match value.as_object() {
        Some(rtcp) => read_rtcp(alloc, rtcp),
        None => Err(ParamFault::TypeError { code: Code::Form }),
    }
}
