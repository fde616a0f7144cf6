ghost use Rattle.std.specs.Prelude.{◌≡◌, Some, None, IfOk, IfErr, option_map, option_and_then};
ghost use Rattle.serde_json.specs.Find.{get_member, as_object};
ghost use Rattle.serde_json.specs.View.{view, members_view};
ghost use Rattle.rtp_params.specs.Reading.{bool_of, number_of};
ghost use Rattle.worker_requests.specs.Contents.{true_of, media_named, media_of, ip_named, ip_of, listen_ip_of, port_of, is_simple_named, is_simple_of};

use ms_base::{Code, Media, Tuple};
use serde_json::{Map, Value};

/// The members of a JSON object.
pub type Members = Map<String, Value>;

/// The members of a content that is an object.
pub fn object_in(content: Option<&Value>) -> Option<&Members>
    ensures { option_map (λ m. members_view m.now.entries) result ≡ option_and_then as_object (option_map (λ v. view v.now) content.entry) }
{
    content?.as_object()
}

/// The member of a name, which has to be there.
pub fn needed<'v>(members: &'v Members, name: &str) -> Result<&'v Value, Code>
    ensures ok { IfOk result (λ v. get_member name.now (members_view members.now.entries) ≡ Some (view v.now)) }
    ensures err { IfErr result (λ code. (code ≡ Code.Form) × (get_member name.now (members_view members.now.entries) ≡ None)) }
{
    match member(members, name) {
        Some(value) => Ok(value),
        None => Err(Code::Form),
    }
}

fn member<'v>(members: &'v Members, name: &str) -> Option<&'v Value>
    ensures { option_map (λ v. view v.now) result ≡ get_member name.now (members_view members.now.entries) }
{
    members.get(name)
}

/// A truth value.
pub fn read_bool(value: &Value) -> Result<bool, Code>
    ensures { result ≡ bool_of (view value.now) }
{
    value.as_bool().ok_or(Code::Form)
}

/// A value that has to be true.
pub(crate) fn read_true(value: &Value) -> Result<bool, Code>
    ensures { result ≡ true_of (view value.now) }
{
    if read_bool(value)? {
        Ok(true)
    } else {
        Err(Code::Form)
    }
}

// The media of a name.
fn media_named(text: &str) -> Option<Media>
    ensures { result ≡ media_named text.now }
{
    match text {
        "audio" => Some(Media::Audio),
        "video" => Some(Media::Video),
        _ => None,
    }
}

pub(crate) fn read_media(value: &Value) -> Result<Media, Code>
    ensures { result ≡ media_of (view value.now) }
{
    match value.as_str() {
        Some(text) => media_named(text).ok_or(Code::Form),
        None => Err(Code::Form),
    }
}

// The address that a text is.
fn ip_named(text: &str) -> Option<[u8; 4]>
    ensures { result ≡ ip_named text.now }
{
    Tuple::read_ip(text.as_bytes())
}

/// An IPv4 address as [`Tuple::read_ip`] reads its text.
pub fn read_ip(value: &Value) -> Result<[u8; 4], Code>
    ensures { result ≡ ip_of (view value.now) }
{
    match value.as_str() {
        Some(text) => ip_named(text).ok_or(Code::Form),
        None => Err(Code::Form),
    }
}

/// The address at which a transport listens.
pub(crate) fn read_listen_ip(value: &Value) -> Result<[u8; 4], Code>
    ensures { result ≡ listen_ip_of (view value.now) }
{
    match value.as_object() {
        Some(members) => read_ip(needed(members, "ip")?),
        None => Err(Code::Form),
    }
}

/// A UDP port that can be sent to: 1 to 65,535.
pub(crate) fn read_port(value: &Value) -> Result<u16, Code>
    ensures { result ≡ port_of (view value.now) }
{
    read_port_from(value, 1)
}

/// A UDP port from the least one that may stand there, up to 65,535.
#[tactic(auto, unfolding(rtp_params::specs::Reading::number_of))]
pub fn read_port_from(value: &Value, least: u16) -> Result<u16, Code>
    ensures { result ≡ number_of least 65535 (view value.now) }
{
    match value.as_u64() {
        Some(port) if u64::from(least) <= port && port <= 65_535 => Ok(port as u16),
        _ => Err(Code::Form),
    }
}

// Whether the name of a Consumer's type is that of a simple one.
#[tactic(auto, unfolding(crate::specs::Contents::is_simple_named))]
fn is_simple_named(text: &str) -> Option<bool>
    ensures { result ≡ is_simple_named text.now }
{
    match text {
        "simple" => Some(true),
        "pipe" => Some(false),
        _ => None,
    }
}

/// Whether the type of a Consumer is that of a simple one.
pub(crate) fn read_type(value: &Value) -> Result<bool, Code>
    ensures { result ≡ is_simple_of (view value.now) }
{
    match value.as_str() {
        Some(text) => is_simple_named(text).ok_or(Code::Form),
        None => Err(Code::Form),
    }
}
