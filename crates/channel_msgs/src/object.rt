ghost use Rattle.std.specs.Prelude.{◌≡◌, IfOk, Some, None, Err, option_map, option_and_then, unwrap_or, codes, false};
ghost use Rattle.serde_json.specs.Find.{get_member, as_bool, as_object, as_str};
ghost use Rattle.serde_json.specs.View.{view, members_view};
ghost use Rattle.channel_msgs.specs.Read.{object_of, request_id, text_or_empty};

use crate::message::{MAX_ID, MessageFault};
use serde_json::{Category, Map, Value};
use std::alloc::Global;

/// The members of a JSON object.
pub(crate) type Members = Map<String, Value>;

/// The members of the JSON object that a payload is the text of.
#[tactic(auto, using(crate::proofs::ReadLemmas::object_of_text, crate::proofs::ReadLemmas::refused_is_no_object))]
pub(crate) fn read_object(alloc: Global, payload: &[u8]) -> Result<Members, MessageFault>
    ensures ok { IfOk result (λ m. object_of payload.now ≡ Some (members_view m.entries)) }
    ensures unexpected { result ≡ Err MessageFault.Unexpected → object_of payload.now ≡ None }
{
    match Value::from_slice(alloc, payload) {
        Ok(value) => match members_of(value) {
            Some(fields) => Ok(fields),
            None => Err(MessageFault::Unexpected),
        },
        Err(error) => match error.classify() {
            Category::Memory => Err(MessageFault::NoMemory),
            _ => Err(MessageFault::Unexpected),
        },
    }
}

// The members of a value that is an object.
fn members_of(value: Value) -> Option<Members>
    ensures { option_map (λ m. members_view m.entries) result ≡ as_object (view value) }
{
    match value {
        Value::Object(fields) => Some(fields),
        _ => None,
    }
}

/// The member of this name.
pub(crate) fn member<'v>(fields: &'v Members, name: &str) -> Option<&'v Value>
    ensures { option_map (λ v. view v.now) result
        ≡ get_member name.now (members_view fields.now.entries) }
{
    fields.get(name)
}

/// The text of the member of this name, if that is one.
pub(crate) fn text_of<'v>(fields: &'v Members, name: &str) -> Option<&'v str>
    ensures { option_map (λ t. t.now) result
        ≡ option_and_then as_str (get_member name.now (members_view fields.now.entries)) }
{
    member(fields, name)?.as_str()
}

/// The members of the member of this name, if that is an object.
pub(crate) fn object_of<'v>(fields: &'v Members, name: &str) -> Option<&'v Members>
    ensures { option_map (λ m. members_view m.now.entries) result
        ≡ option_and_then as_object (get_member name.now (members_view fields.now.entries)) }
{
    member(fields, name)?.as_object()
}

/// The text of the member of this name, or the empty one where that is no text.
pub(crate) fn text_or_empty<'v>(fields: &'v Members, name: &str) -> &'v str
    ensures { result.now ≡ text_or_empty (get_member name.now (members_view fields.now.entries)) }
{
    text_of(fields, name).unwrap_or("")
}

/// Whether the member of this name is true.
pub(crate) fn is_true(fields: &Members, name: &str) -> bool
    ensures { result ≡ unwrap_or (option_and_then as_bool
        (get_member name.now (members_view fields.now.entries))) false }
{
    match member(fields, name) {
        Some(value) => value.as_bool().unwrap_or(false),
        None => false,
    }
}

/// The member `data`, without a copy.
pub(crate) fn take_content(mut fields: Members) -> Option<Value>
    ensures { option_map view result ≡ get_member (codes "data") (members_view fields.entries) }
{
    fields.remove("data")
}

/// The id of a request that a value is, if it is one.
pub(crate) fn request_id(value: &Value) -> Option<u32>
    ensures { result ≡ request_id (view value.now) }
{
    match value.as_u64() {
        Some(id) if 1 <= id && id <= u64::from(MAX_ID) => Some(id as u32),
        _ => None,
    }
}
