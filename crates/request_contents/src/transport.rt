ghost use Rattle.std.specs.Prelude.{◌≡◌, IfOk, string_bytes};
ghost use Rattle.serde_json.specs.View.{view};
ghost use Rattle.ms_base.specs.Words.{ip_text};
ghost use Rattle.request_contents.specs.Values.{connect_value, direct_value, pipe_value, plain_value};

use ms_base::{NoMemory, Tuple};
use serde_json::{Value, json};
use std::alloc::{AllocError, Global};
use std::net::Ipv4Addr;
use worker_requests::{PipeContent, PlainContent};

/// The content of `router.createPlainTransport`.
pub fn write_plain(alloc: Global, content: PlainContent) -> Result<Value, NoMemory>
    ensures { IfOk result (λ v. view v ≡ plain_value content) }
{
    let ip = ip_text(alloc, content.ip)?;
    Ok(json!(in alloc; {
        "comedia": content.comedia,
        "listenIp": {"ip": ip.as_str()},
        "rtcpMux": true
    })?)
}

/// The content of `router.createPipeTransport`.
pub fn write_pipe(alloc: Global, content: PipeContent) -> Result<Value, NoMemory>
    ensures { IfOk result (λ v. view v ≡ pipe_value content) }
{
    let ip = ip_text(alloc, content.ip)?;
    Ok(json!(in alloc; {"enableRtx": content.enable_rtx, "listenIp": {"ip": ip.as_str()}})?)
}

/// The content of `router.createDirectTransport`.
pub fn write_direct(alloc: Global) -> Result<Value, NoMemory>
    ensures { IfOk result (λ v. view v ≡ direct_value) }
{
    Ok(json!(in alloc; {"direct": true})?)
}

/// The content of `transport.connect`.
pub fn write_connect(alloc: Global, to: Tuple) -> Result<Value, NoMemory>
    ensures { IfOk result (λ v. view v ≡ connect_value to) }
{
    let ip = ip_text(alloc, to.ip)?;
    Ok(json!(in alloc; {"ip": ip.as_str(), "port": to.port})?)
}

// The text of an IPv4 address.
fn ip_text(alloc: Global, ip: [u8; 4]) -> Result<String, AllocError>
    ensures { IfOk result (λ text. string_bytes text ≡ ip_text ip) }
{
    Ipv4Addr::from_octets(ip).to_string(alloc)
}
