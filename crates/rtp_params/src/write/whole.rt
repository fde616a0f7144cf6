ghost use Rattle.std.specs.Prelude.{◌≡◌, IfOk};
ghost use Rattle.serde_json.specs.View.{view};
ghost use Rattle.rtp_params.specs.Writing.{rtcp_value, params_value, caps_value};

use crate::params::{Caps, Params};
use crate::place::Place;
use crate::write::members::write_list;
use ms_base::NoMemory;
use serde_json::{Map, Value, json, put};
use std::alloc::Global;

/// Capabilities as a JSON value.
#[tactic(auto, unfolding(crate::specs::Writing::caps_value))]
pub fn write_caps(alloc: Global, caps: &Caps) -> Result<Value, NoMemory>
    ensures { IfOk result (λ v. view v ≡ caps_value caps.now) }
{
    let mut members = Map::new(alloc);
    let codecs = write_list(alloc, Place::InCaps, caps.codecs.as_slice())?;
    put(&mut members, alloc, "codecs", codecs)?;
    let exts = write_list(alloc, Place::InCaps, caps.exts.as_slice())?;
    put(&mut members, alloc, "headerExtensions", exts)?;
    Ok(Value::Object(members))
}

/// Parameters as a JSON value.
#[tactic(auto, unfolding(crate::specs::Writing::params_value))]
pub fn write_params(alloc: Global, params: &Params) -> Result<Value, NoMemory>
    ensures { IfOk result (λ v. view v ≡ params_value params.now) }
{
    let mut members = Map::new(alloc);
    let codecs = write_list(alloc, Place::InParams, params.codecs.as_slice())?;
    put(&mut members, alloc, "codecs", codecs)?;
    let encodings = write_list(alloc, Place::InParams, params.encodings.as_slice())?;
    put(&mut members, alloc, "encodings", encodings)?;
    let exts = write_list(alloc, Place::InParams, params.exts.as_slice())?;
    put(&mut members, alloc, "headerExtensions", exts)?;
    let rtcp = write_rtcp(alloc, params)?;
    put(&mut members, alloc, "rtcp", rtcp)?;
    Ok(Value::Object(members))
}

fn write_rtcp(alloc: Global, params: &Params) -> Result<Value, NoMemory>
    ensures { IfOk result (λ v. view v ≡ rtcp_value params.now.cname params.now.reduced_size) }
{
    let cname = params.cname.as_str();
    Ok(json!(in alloc; {"cname": cname, "reducedSize": params.reduced_size})?)
}
