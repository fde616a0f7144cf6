ghost use Rattle.std.specs.Prelude.{◌≡◌, ◌≤◌, codes, IfOk};
ghost use Rattle.serde_json.specs.View.{view, members_view};
ghost use Rattle.rtp_params.specs.Mappings.{types_in, ssrcs_in, mapping_in, mapping_of};
ghost use Rattle.rtp_params.specs.Gives.{Gives};
ghost use Rattle.rtp_params.specs.Readable.{Each};

use crate::fault::ParamFault;
use crate::mapping::Mapping;
use crate::place::Place;
use crate::read::list::{FromJson, required_list};
use crate::read::members::{Members, required_number};
use ms_base::Code;
use serde_json::Value;
use std::alloc::Global;

impl FromJson for (u8, u8) {
    ghost use Rattle.std.specs.Prelude.{◌≤◌};
    ghost use Rattle.rtp_params.specs.Mappings.{types_of};

    ghost reads = { λ _. types_of };

    ghost holds = { λ pair. pair.1 ≤ 127 };

    fn read(_alloc: Global, _place: Place, value: &Value) -> Result<(u8, u8), ParamFault> {
        let Some(members) = value.as_object() else {
            return Err(ParamFault::TypeError { code: Code::Form });
        };
        Ok(read_types(members)?)
    }
}

impl FromJson for (u32, u32) {
    ghost use Rattle.std.specs.Prelude.{⊤};
    ghost use Rattle.rtp_params.specs.Mappings.{ssrcs_of};

    ghost reads = { λ _. ssrcs_of };

    ghost holds = { λ _. ⊤ };

    fn read(_alloc: Global, _place: Place, value: &Value) -> Result<(u32, u32), ParamFault> {
        let Some(members) = value.as_object() else {
            return Err(ParamFault::TypeError { code: Code::Form });
        };
        Ok(read_ssrcs(members)?)
    }
}

/// The mapping of payload types and SSRCs that a value is.
///
/// `TypeError` comes exactly where it is none, with the code of its first fault in the order of reading.
pub fn read_mapping(alloc: Global, value: &Value) -> Result<Mapping, ParamFault>
    ensures reads { Gives result (mapping_of (view value.now)) }
    // What a payload type is mapped to is one.
    ensures fits { IfOk result (λ mapping. Each (λ pair. pair.1 ≤ 127) mapping.codecs) }
{
    match value.as_object() {
        Some(members) => read_mapping_members(alloc, members),
        None => Err(ParamFault::TypeError { code: Code::Form }),
    }
}

#[tactic(auto, unfolding(crate::specs::Mappings::mapping_in))]
fn read_mapping_members(alloc: Global, members: &Members) -> Result<Mapping, ParamFault>
    ensures reads { Gives result (mapping_in (members_view members.now.entries)) }
    ensures fits { IfOk result (λ mapping. Each (λ pair. pair.1 ≤ 127) mapping.codecs) }
{
    let codecs = required_list(alloc, Place::InParams, members, "codecs")?;
    let encodings = required_list(alloc, Place::InParams, members, "encodings")?;
    Ok(Mapping { codecs, encodings })
}

// A payload type, and the one that stands for it.
#[tactic(auto, unfolding(crate::specs::Mappings::types_in))]
fn read_types(members: &Members) -> Result<(u8, u8), Code>
    ensures value { result ≡ types_in (members_view members.now.entries) }
    ensures fits { IfOk result (λ pair. pair.1 ≤ 127) }
{
    let mapped = required_number(members, "mappedPayloadType", 0, 127)? as u8;
    let payload_type = required_number(members, "payloadType", 0, 127)? as u8;
    Ok((payload_type, mapped))
}

// An SSRC, and the one that stands for it.
#[tactic(auto, unfolding(crate::specs::Mappings::ssrcs_in))]
fn read_ssrcs(members: &Members) -> Result<(u32, u32), Code>
    ensures { result ≡ ssrcs_in (members_view members.now.entries) }
{
    let mapped = required_number(members, "mappedSsrc", 0, u32::MAX)?;
    let ssrc = required_number(members, "ssrc", 0, u32::MAX)?;
    Ok((ssrc, mapped))
}
