ghost use Rattle.std.specs.Prelude.{◌≡◌, Some, None, Ok, Err, IfOk, IfErr, option_map};
ghost use Rattle.serde_json.specs.Find.{get_member};
ghost use Rattle.serde_json.specs.View.{view, members_view};
ghost use Rattle.rtp_params.specs.Gives.{Gives};
ghost use Rattle.rtp_params.specs.Reading.{object_of};
ghost use Rattle.call_options.specs.Values.{value_of};

use ms_base::{Code, Text};
use rtp_params::ParamFault;
use serde_json::{Map, Value};
use std::alloc::Global;

/// The members of a JSON object.
pub(crate) type Members = Map<String, Value>;

/// What the options are the JSON text of.
pub(crate) fn read_value(alloc: Global, options: &Text) -> Result<Value, ParamFault>
    ensures ok { IfOk result (λ v. value_of options.now ≡ Ok (view v)) }
    ensures err { IfErr result (λ fault. Gives (Err fault) (value_of options.now)) }
{
    match Value::from_str(alloc, options.as_str()) {
        Ok(value) => Ok(value),
        Err(error) if error.is_memory() => Err(ParamFault::NoMemory),
        Err(_) => Err(ParamFault::TypeError { code: Code::Form }),
    }
}

/// The members of a value that is an object.
pub(crate) fn read_object(value: &Value) -> Result<&Members, Code>
    ensures ok { IfOk result (λ m. object_of (view value.now) ≡ Ok (members_view m.now.entries)) }
    ensures err { IfErr result (λ code. object_of (view value.now) ≡ Err code) }
{
    value.as_object().ok_or(Code::Form)
}

/// The member of a name.
pub(crate) fn member<'v>(members: &'v Members, name: &str) -> Option<&'v Value>
    ensures { option_map (λ v. view v.now) result ≡ get_member name.now (members_view members.now.entries) }
{
    members.get(name)
}

/// The member of a name, which has to be there.
pub(crate) fn needed<'v>(members: &'v Members, name: &str) -> Result<&'v Value, Code>
    ensures ok { IfOk result (λ v. get_member name.now (members_view members.now.entries) ≡ Some (view v.now)) }
    ensures err { IfErr result (λ code. (code ≡ Code.Form) × (get_member name.now (members_view members.now.entries) ≡ None)) }
{
    match member(members, name) {
        Some(value) => Ok(value),
        None => Err(Code::Form),
    }
}

/// The members of a value that is an object, without a copy.
pub(crate) fn into_object(value: Value) -> Result<Members, Code>
    ensures ok { IfOk result (λ m. object_of (view value) ≡ Ok (members_view m.entries)) }
    ensures err { IfErr result (λ code. object_of (view value) ≡ Err code) }
{
    match value {
        Value::Object(members) => Ok(members),
        _ => Err(Code::Form),
    }
}

/// The member of a name, without a copy.
pub(crate) fn take(mut members: Members, name: &str) -> Option<Value>
    ensures { option_map view result ≡ get_member name.now (members_view members.entries) }
{
    members.remove(name)
}
