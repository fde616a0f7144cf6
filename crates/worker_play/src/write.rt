ghost use Rattle.std.specs.Prelude.{◌≡◌, ◌∷◌, ◌++◌, List, ℕ, OnOk, flat_map, decimal};
ghost use Rattle.std.specs.Net.Text.{dotted_text};
ghost use Rattle.hex.specs.Hex.{encode_lower};
ghost use Rattle.ms_base.specs.Words.{space};
ghost use Rattle.worker_play.specs.Written.{address, port_word, outcome, call_words, call_line, played};

use itoa::Buffer;
use ms_base::{Bytes, NoMemory, push_hex, push_number, push_word};
use ms_devices::OutCall;

// Each of these appends. Where memory runs out a beginning may stand behind the old bytes.

/// Appends a line for each call, and the status.
pub fn write_played(calls: &[OutCall], status: u8, into: &mut Bytes) -> Result<(), NoMemory>
    ensures { OnOk result (into.new ≡ into.old ++ played calls.now status) }
{
    write_calls(calls, into)?;
    into.extend_from_slice(b"status")?;
    push_number(u64::from(status), into)?;
    into.push(b'\n')
}

// A line for each call.
fn write_calls(calls: &[OutCall], into: &mut Bytes) -> Result<(), NoMemory>
    ensures { OnOk result (into.new ≡ into.old ++ flat_map call_line calls.now) }
{
    for call in calls {
        write_call(call, into)?;
        into.push(b'\n')?;
    }
    Ok(())
}

// The words of a call.
fn write_call(call: &OutCall, into: &mut Bytes) -> Result<(), NoMemory>
    ensures { OnOk result (into.new ≡ into.old ++ call_words call.now) }
{
    match call {
        OutCall::Bind { link, ip, port } => {
            into.extend_from_slice(b"bind")?;
            push_number(u64::from(*link), into)?;
            push_address(*ip, into)?;
            push_port(*port, into)
        }
        OutCall::Shut { link } => {
            into.extend_from_slice(b"shut")?;
            push_number(u64::from(*link), into)
        }
        OutCall::Channel { frame, failed } => {
            into.extend_from_slice(b"channel")?;
            push_bytes(frame.as_slice(), *failed, into)
        }
        OutCall::Datagram {
            link,
            to,
            packet,
            failed,
        } => {
            into.extend_from_slice(b"datagram")?;
            push_number(u64::from(*link), into)?;
            push_address(to.ip, into)?;
            push_number(u64::from(to.port), into)?;
            push_bytes(packet.as_slice(), *failed, into)
        }
    }
}

// An address behind its space.
fn push_address(ip: [u8; 4], into: &mut Bytes) -> Result<(), NoMemory>
    ensures { OnOk result (into.new ≡ into.old ++ space ∷ address ip) }
{
    let [a, b, c, d] = ip;
    push_number(u64::from(a), into)?;
    push_octet(b, into)?;
    push_octet(c, into)?;
    push_octet(d, into)
}

// A number behind a dot.
fn push_octet(octet: u8, into: &mut Bytes) -> Result<(), NoMemory>
    ensures { OnOk result (into.new ≡ into.old ++ 46 ∷ decimal octet) }
{
    into.push(b'.')?;
    let mut buffer = Buffer::new();
    into.extend_from_slice(buffer.format(octet).as_bytes())
}

// The answer to a `bind` behind its space.
fn push_port(port: Option<u16>, into: &mut Bytes) -> Result<(), NoMemory>
    ensures { OnOk result (into.new ≡ into.old ++ port_word port) }
{
    match port {
        Some(port) => push_number(u64::from(port), into),
        None => push_word(b"failed", into),
    }
}

// Bytes behind a space, and whether the call failed.
fn push_bytes(bytes: &[u8], failed: bool, into: &mut Bytes) -> Result<(), NoMemory>
    ensures { OnOk result (into.new ≡ into.old ++ space ∷ encode_lower bytes.now ++ outcome failed) }
{
    into.push(b' ')?;
    push_hex(bytes, into)?;
    if failed {
        push_word(b"failed", into)?;
    }
    Ok(())
}
