//! Contents: what is read of them, where it all has the form that it is to have. Other members are left alone.

ghost use Rattle.std.specs.Prelude.{◌≡◌, codes, option_map};
ghost use Rattle.serde_json.specs.View.{view, members_view};
ghost use Rattle.reply_contents.specs.Contents.{end_in, tuple_in, local_tuple, remote_tuple, flags_in, consume_flags};

use ms_base::{Code, Tuple};
use serde_json::Value;
use worker_requests::{Members, needed, object_in, read_bool, read_ip, read_port_from};

/// How a Consumer stands when it is made.
#[derive(Clone, Copy, Debug, PartialEq, Eq)]
pub struct Flags {
    /// The Consumer itself is paused.
    pub paused: bool,
    /// Its Producer is paused.
    pub producer_paused: bool,
}

/// Where a new plain or pipe transport listens, of the content of the reply: `localIp` and `localPort` of its `tuple`.
/// `None` comes exactly where a member is absent or has another form; a port is 1 to 65,535.
pub fn local_tuple(content: Option<&Value>) -> Option<Tuple>
    ensures { result ≡ local_tuple (option_map (λ v. view v.now) content.entry) }
{
    read_tuple(object_in(content)?, "localIp", "localPort", 1).ok()
}

/// From where a transport's packets come, of the content of a notice: `remoteIp` and `remotePort` of its `tuple`. `None`
/// comes exactly where a member is absent or has another form; a port is 0 to 65,535.
pub fn remote_tuple(content: Option<&Value>) -> Option<Tuple>
    ensures { result ≡ remote_tuple (option_map (λ v. view v.now) content.entry) }
{
    read_tuple(object_in(content)?, "remoteIp", "remotePort", 0).ok()
}

/// How a new Consumer stands, of the content of the reply to `transport.consume`: its `paused` and `producerPaused`.
/// `None` comes exactly where one of them is absent or is no truth value.
pub fn consume_flags(content: Option<&Value>) -> Option<Flags>
    ensures { result ≡ consume_flags (option_map (λ v. view v.now) content.entry) }
{
    read_flags(object_in(content)?).ok()
}

// The member `tuple`, with its address and its port under these names.
fn read_tuple(members: &Members, ip: &str, port: &str, least: u16) -> Result<Tuple, Code>
    ensures { result ≡ tuple_in ip.now port.now least (members_view members.now.entries) }
{
    match needed(members, "tuple")?.as_object() {
        Some(members) => read_end(members, ip, port, least),
        None => Err(Code::Form),
    }
}

#[tactic(auto, unfolding(crate::specs::Contents::end_in))]
fn read_end(members: &Members, ip: &str, port: &str, least: u16) -> Result<Tuple, Code>
    ensures { result ≡ end_in ip.now port.now least (members_view members.now.entries) }
{
    let ip = read_ip(needed(members, ip)?)?;
    let port = read_port_from(needed(members, port)?, least)?;
    Ok(Tuple { ip, port })
}

#[tactic(auto, unfolding(crate::specs::Contents::flags_in))]
fn read_flags(members: &Members) -> Result<Flags, Code>
    ensures { result ≡ flags_in (members_view members.now.entries) }
{
    let paused = read_bool(needed(members, "paused")?)?;
    let producer_paused = read_bool(needed(members, "producerPaused")?)?;
    Ok(Flags {
        paused,
        producer_paused,
    })
}
