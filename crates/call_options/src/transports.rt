//! The options of transports.

ghost use Rattle.serde_json.specs.View.{view, members_view};
ghost use Rattle.std.specs.Prelude.{◌≡◌};
ghost use Rattle.call_options.specs.Gives.{Gives};
ghost use Rattle.call_options.specs.Options.{plain_in, plain_of, plain_options, pipe_in, pipe_of, pipe_options, connect_in, connect_of, connect_options};

use crate::fault::OptionFault;
use crate::members::{Members, needed, read_object, read_value};
use crate::options::{PipeOptions, PlainOptions};
use crate::values::{flag, read_ip, read_listen_ip, read_port};
use ms_base::{Code, Text, Tuple};
use serde_json::Value;
use std::alloc::Global;

/// What a transport with a socket of its own is to be.
///
/// `TypeError` comes exactly where the options aren't of the form, and else `Unsupported` exactly where RTP and RTCP
/// are not to share a port.
pub fn plain_options(alloc: Global, options: &Text) -> Result<PlainOptions, OptionFault>
    ensures { Gives result (plain_options options.now) }
{
    let value = read_value(alloc, options)?;
    let (plain, is_shared) = read_plain(&value)?;
    if is_shared {
        Ok(plain)
    } else {
        Err(OptionFault::Unsupported { code: Code::Mux })
    }
}

/// What one end of a pipe is to be.
///
/// `TypeError` comes exactly where the options aren't of the form.
pub fn pipe_options(alloc: Global, options: &Text) -> Result<PipeOptions, OptionFault>
    ensures { Gives result (pipe_options options.now) }
{
    let value = read_value(alloc, options)?;
    Ok(read_pipe(&value)?)
}

/// The other end that a transport is to be given. Its port is 1 to 65,535.
///
/// `TypeError` comes exactly where the options aren't of the form.
pub fn connect_options(alloc: Global, options: &Text) -> Result<Tuple, OptionFault>
    ensures { Gives result (connect_options options.now) }
{
    let value = read_value(alloc, options)?;
    Ok(read_connect(&value)?)
}

// With whether RTP and RTCP are to share a port.
fn read_plain(value: &Value) -> Result<(PlainOptions, bool), Code>
    ensures { result ≡ plain_of (view value.now) }
{
    plain_in(read_object(value)?)
}

#[tactic(auto, unfolding(crate::specs::Options::plain_in))]
fn plain_in(members: &Members) -> Result<(PlainOptions, bool), Code>
    ensures { result ≡ plain_in (members_view members.now.entries) }
{
    let listen_ip = read_listen_ip(needed(members, "listenIp")?)?;
    let comedia = flag(members, "comedia", false)?;
    let rtcp_mux = flag(members, "rtcpMux", true)?;
    Ok((PlainOptions { listen_ip, comedia }, rtcp_mux))
}

fn read_pipe(value: &Value) -> Result<PipeOptions, Code>
    ensures { result ≡ pipe_of (view value.now) }
{
    pipe_in(read_object(value)?)
}

#[tactic(auto, unfolding(crate::specs::Options::pipe_in))]
fn pipe_in(members: &Members) -> Result<PipeOptions, Code>
    ensures { result ≡ pipe_in (members_view members.now.entries) }
{
    let listen_ip = read_listen_ip(needed(members, "listenIp")?)?;
    let enable_rtx = flag(members, "enableRtx", false)?;
    Ok(PipeOptions {
        listen_ip,
        enable_rtx,
    })
}

fn read_connect(value: &Value) -> Result<Tuple, Code>
    ensures { result ≡ connect_of (view value.now) }
{
    connect_in(read_object(value)?)
}

#[tactic(auto, unfolding(crate::specs::Options::connect_in))]
fn connect_in(members: &Members) -> Result<Tuple, Code>
    ensures { result ≡ connect_in (members_view members.now.entries) }
{
    let ip = read_ip(needed(members, "ip")?)?;
    let port = read_port(needed(members, "port")?)?;
    Ok(Tuple { ip, port })
}
