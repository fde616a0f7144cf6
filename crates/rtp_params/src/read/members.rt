ghost use Rattle.std.specs.Prelude.{◌≡◌, ◌≤◌, [], codes, IfOk, IfSome, option_map};
ghost use Rattle.std.specs.Option.{option_copied};
ghost use Rattle.serde_json.specs.Find.{get_member};
ghost use Rattle.serde_json.specs.View.{view, members_view};
ghost use Rattle.rtp_params.specs.Reading.{number_of, text_of, filled_text_of, bool_of, or_form, required, optional, or_default};
ghost use Rattle.rtp_params.specs.Gives.{Gives};

use crate::fault::ParamFault;
use ms_base::{Code, Text};
use serde_json::{Map, Value};
use std::alloc::Global;

/// The members of a JSON object.
pub(crate) type Members = Map<String, Value>;

/// The member of a name.
pub(crate) fn member<'v>(members: &'v Members, name: &str) -> Option<&'v Value>
    ensures { option_map (λ v. view v.now) result ≡ get_member name.now (members_view members.now.entries) }
{
    members.get(name)
}

// A whole number from low to high.
#[tactic(auto, unfolding(crate::specs::Reading::number_of))]
pub(crate) fn read_number(value: &Value, low: u32, high: u32) -> Result<u32, Code>
    ensures value { result ≡ number_of low high (view value.now) }
    ensures within { IfOk result (λ n. n ≤ high) }
{
    match value.as_u64() {
        Some(n) if u64::from(low) <= n && n <= u64::from(high) => Ok(n as u32),
        _ => Err(Code::Form),
    }
}

/// A whole number from low to high, which has to be there.
pub(crate) fn required_number(
    members: &Members,
    name: &str,
    low: u32,
    high: u32,
) -> Result<u32, Code>
    ensures value { result ≡ required (number_of low high) (get_member name.now (members_view members.now.entries)) }
    ensures within { IfOk result (λ n. n ≤ high) }
{
    match member(members, name) {
        Some(value) => read_number(value, low, high),
        None => Err(Code::Form),
    }
}

/// A whole number from low to high, which may be left out.
pub(crate) fn optional_number(
    members: &Members,
    name: &str,
    low: u32,
    high: u32,
) -> Result<Option<u32>, Code>
    ensures value { result ≡ optional (number_of low high) (get_member name.now (members_view members.now.entries)) }
    ensures within { IfOk result (λ o. IfSome o (λ n. n ≤ high)) }
{
    match member(members, name) {
        Some(value) => {
            let number = read_number(value, low, high)?;
            Ok(Some(number))
        }
        None => Ok(None),
    }
}

/// A text.
pub(crate) fn read_text(alloc: Global, value: &Value) -> Result<Text, ParamFault>
    ensures { Gives result (text_of (view value.now)) }
{
    let Some(text) = value.as_str() else {
        return Err(ParamFault::TypeError { code: Code::Form });
    };
    Ok(Text::from_str(alloc, text)?)
}

/// A text that has to be there.
pub(crate) fn required_text(
    alloc: Global,
    members: &Members,
    name: &str,
) -> Result<Text, ParamFault>
    ensures { Gives result (required text_of (get_member name.now (members_view members.now.entries))) }
{
    match member(members, name) {
        Some(value) => read_text(alloc, value),
        None => Err(ParamFault::TypeError { code: Code::Form }),
    }
}

// A text that isn't empty.
fn read_filled_text(alloc: Global, value: &Value) -> Result<Text, ParamFault>
    ensures { Gives result (filled_text_of (view value.now)) }
{
    match value.as_str() {
        Some(text) if !text.is_empty() => Ok(Text::from_str(alloc, text)?),
        _ => Err(ParamFault::TypeError { code: Code::Form }),
    }
}

/// A text that has to be there and isn't empty.
pub(crate) fn required_filled_text(
    alloc: Global,
    members: &Members,
    name: &str,
) -> Result<Text, ParamFault>
    ensures { Gives result (required filled_text_of (get_member name.now (members_view members.now.entries))) }
{
    match member(members, name) {
        Some(value) => read_filled_text(alloc, value),
        None => Err(ParamFault::TypeError { code: Code::Form }),
    }
}

/// A text, by default the empty one.
pub(crate) fn text_or_empty(
    alloc: Global,
    members: &Members,
    name: &str,
) -> Result<Text, ParamFault>
    ensures { Gives result (or_default [] text_of (get_member name.now (members_view members.now.entries))) }
{
    match member(members, name) {
        Some(value) => read_text(alloc, value),
        None => Ok(Text::from_str(alloc, "")?),
    }
}
