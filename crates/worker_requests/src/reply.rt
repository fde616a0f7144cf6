ghost use Rattle.std.specs.Prelude.{◌≡◌, ◌≤◌, Some, IfOk, length, string_bytes, option_map};
ghost use Rattle.serde_json.specs.View.{view};
ghost use Rattle.ms_base.specs.Words.{ip_text};
ghost use Rattle.worker_requests.specs.Said.{local_content, remote_content, type_text, accepted_content, answer_payload, max_said};

use crate::accepted::Accepted;
use crate::refusal::Refusal;
use crate::short::answer_is_short;
use channel_msgs::{Answer, Reply, write_reply};
use ms_base::{Bytes, NoMemory, Text, Tuple};
use serde_json::{Value, json};
use std::alloc::{AllocError, Global};
use std::net::Ipv4Addr;

/// The payload of the reply to the request of this id, which accepts or refuses it.
pub fn write_answer(
    alloc: Global,
    id: u32,
    answer: Result<Accepted, Refusal>,
) -> Result<Bytes, NoMemory>
    ensures payload { IfOk result (λ bytes. bytes ≡ answer_payload id answer) }
    ensures short { IfOk result (λ bytes. length bytes ≤ max_said) }
{
    answer_is_short(answer);
    answer_bytes(alloc, id, answer)
}

fn answer_bytes(
    alloc: Global,
    id: u32,
    answer: Result<Accepted, Refusal>,
) -> Result<Bytes, NoMemory>
    ensures { IfOk result (λ bytes. bytes ≡ answer_payload id answer) }
{
    let answer = match answer {
        Ok(told) => Answer::Accepted(accepted_value(alloc, told)?),
        Err(why) => Answer::Refused {
            error: why.error(),
            reason: Text::from_str(alloc, why.code())?,
        },
    };
    write_reply(alloc, &Reply { id, answer })
}

// The content of an accepted reply.
fn accepted_value(alloc: Global, told: Accepted) -> Result<Option<Value>, AllocError>
    ensures { IfOk result (λ found. option_map view found ≡ accepted_content told) }
{
    match told {
        Accepted::Done => Ok(None),
        Accepted::Local(tuple) => Ok(Some(local_value(alloc, tuple)?)),
        Accepted::Remote(tuple) => Ok(Some(remote_value(alloc, tuple)?)),
        Accepted::Produced { simulcast } => Ok(Some(produced_value(alloc, simulcast)?)),
        Accepted::Consumed {
            paused,
            producer_paused,
        } => Ok(Some(consumed_value(alloc, paused, producer_paused)?)),
    }
}

// The text of an IPv4 address.
fn ip_text(alloc: Global, ip: [u8; 4]) -> Result<String, AllocError>
    ensures { IfOk result (λ text. string_bytes text ≡ ip_text ip) }
{
    Ipv4Addr::from_octets(ip).to_string(alloc)
}

// A tuple as a transport's own end.
fn local_value(alloc: Global, tuple: Tuple) -> Result<Value, AllocError>
    ensures { IfOk result (λ v. view v ≡ local_content tuple) }
{
    let ip = ip_text(alloc, tuple.ip)?;
    json!(in alloc; {"tuple": {"localIp": ip.as_str(), "localPort": tuple.port}})
}

/// A tuple as a transport's other end.
pub(crate) fn remote_value(alloc: Global, tuple: Tuple) -> Result<Value, AllocError>
    ensures { IfOk result (λ v. view v ≡ remote_content tuple) }
{
    let ip = ip_text(alloc, tuple.ip)?;
    json!(in alloc; {"tuple": {"remoteIp": ip.as_str(), "remotePort": tuple.port}})
}

// The word for a Producer's type.
fn type_text(simulcast: bool) -> &'static str
    ensures { result.now ≡ type_text simulcast }
{
    if simulcast { "simulcast" } else { "simple" }
}

fn produced_value(alloc: Global, simulcast: bool) -> Result<Value, AllocError>
    ensures { IfOk result (λ v. Some (view v) ≡ accepted_content (Accepted.Produced simulcast)) }
{
    json!(in alloc; {"type": type_text(simulcast)})
}

fn consumed_value(alloc: Global, paused: bool, producer_paused: bool) -> Result<Value, AllocError>
    ensures { IfOk result (λ v. Some (view v) ≡ accepted_content (Accepted.Consumed paused producer_paused)) }
{
    json!(in alloc; {"paused": paused, "producerPaused": producer_paused})
}
