ghost use Rattle.std.specs.Prelude.{◌≡◌, Ok, Err, IfOk, IfErr, codes};
ghost use Rattle.serde_json.specs.Find.{get_member};
ghost use Rattle.serde_json.specs.View.{view, members_view};
ghost use Rattle.rtp_params.specs.Reading.{text_of, optional};
ghost use Rattle.call_options.specs.Values.{ip_named, ip_of, listen_ip_of, port_of, id_in, id_of, flag_in};

use crate::members::{Members, member, needed};
use ms_base::{Code, Id, Tuple};
use serde_json::Value;

/// A text.
pub(crate) fn read_text(value: &Value) -> Result<&str, Code>
    ensures ok { IfOk result (λ text. text_of (view value.now) ≡ Ok text.now) }
    ensures err { IfErr result (λ code. text_of (view value.now) ≡ Err code) }
{
    value.as_str().ok_or(Code::Form)
}

fn ip_named(text: &str) -> Option<[u8; 4]>
    ensures { result ≡ ip_named text.now }
{
    Tuple::read_ip(text.as_bytes())
}

/// An IPv4 address.
pub(crate) fn read_ip(value: &Value) -> Result<[u8; 4], Code>
    ensures { result ≡ ip_of (view value.now) }
{
    ip_named(read_text(value)?).ok_or(Code::Form)
}

/// The address at which a transport is to listen.
pub(crate) fn read_listen_ip(value: &Value) -> Result<[u8; 4], Code>
    ensures { result ≡ listen_ip_of (view value.now) }
{
    match value.as_object() {
        Some(members) => read_ip(needed(members, "ip")?),
        None => read_ip(value),
    }
}

/// A UDP port that can be sent to.
#[tactic(auto, unfolding(rtp_params::specs::Reading::number_of))]
pub(crate) fn read_port(value: &Value) -> Result<u16, Code>
    ensures { result ≡ port_of (view value.now) }
{
    match value.as_u64() {
        Some(port) if 1 <= port && port <= 65_535 => Ok(port as u16),
        _ => Err(Code::Form),
    }
}

fn id_in(text: &str) -> Result<Id, Code>
    ensures { result ≡ id_in text.now }
{
    Id::parse(text.as_bytes()).ok_or(Code::Form)
}

fn read_id(value: &Value) -> Result<Id, Code>
    ensures { result ≡ id_of (view value.now) }
{
    id_in(read_text(value)?)
}

/// The member `id`, which may be left out.
pub(crate) fn optional_id(members: &Members) -> Result<Option<Id>, Code>
    ensures { result ≡ optional id_of (get_member (codes "id") (members_view members.now.entries)) }
{
    let Some(value) = member(members, "id") else {
        return Ok(None);
    };
    let id = read_id(value)?;
    Ok(Some(id))
}

/// Whether the member of a name is true; it may be left out.
pub(crate) fn flag(members: &Members, name: &str, default: bool) -> Result<bool, Code>
    ensures { result ≡ flag_in name.now default (members_view members.now.entries) }
{
    match member(members, name) {
        Some(value) => value.as_bool().ok_or(Code::Form),
        None => Ok(default),
    }
}
