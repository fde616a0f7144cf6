ghost use Rattle.std.specs.Prelude.{◌≡◌, ◌≤◌, IfOk, OnOk, Some, option_map, true, false, IsUtf8};
ghost use Rattle.serde_json.specs.Data.{depth, object, Members};
ghost use Rattle.serde_json.specs.Read.{max_depth};
ghost use Rattle.serde_json.specs.View.{view, members_view};
ghost use Rattle.serde_json.specs.Written.{compact_text, has_float};
ghost use Rattle.channel_msgs.specs.Json.{request_json, reply_json, notice_json, internal_json, internal_members, id_json, put_optional, error_text, answer_content, has_whole_numbers};
ghost use Rattle.channel_msgs.specs.Laws.{CanReadRequest, CanReadReply, CanReadNotice};
ghost use Rattle.channel_msgs.specs.Read.{message_of, message_in, request_of, request_in, ids_in, id_in};
ghost use Rattle.channel_msgs.specs.View.{request_view, reply_view, notice_view, reply as reply_message, notice as notice_message};

use crate::message::{Answer, Ids, Notice, Reply, Request};
use crate::object;
use ms_base::{Bytes, Id, NoMemory, WorkerError};
use serde_json::{Value, json};
use std::alloc::{AllocError, Global};

/// A request as compact JSON: `data` where there is a content, `id`, `internal` with the ids that there
/// are, and `method`.
#[tactic(auto, using(crate::proofs::ContentLemmas::request_has_no_float, crate::proofs::ContentLemmas::request_nests))]
pub fn write_request(alloc: Global, request: &Request) -> Result<Bytes, NoMemory>
    // A float's digits are such as read back as the float.
    ensures text { IfOk result (λ b. has_whole_numbers (request_view request.now).content ≡ true
        → b ≡ compact_text (request_json (request_view request.now))) }
    ensures reads_back { IfOk result (λ b. CanReadRequest (request_view request.now)
        → request_of b ≡ Some (request_view request.now)) }
{
    let value = request_value(alloc, request)?;
    write_value(alloc, &value)
}

/// A reply as compact JSON: `accepted`, `data` where there is a content, and `id`, or `error`, `id` and
/// `reason`.
#[tactic(auto, using(crate::proofs::ContentLemmas::reply_has_no_float, crate::proofs::ContentLemmas::reply_nests))]
pub fn write_reply(alloc: Global, reply: &Reply) -> Result<Bytes, NoMemory>
    // A float's digits are such as read back as the float.
    ensures text { IfOk result (λ b. has_whole_numbers (answer_content (reply_view reply.now).answer) ≡ true
        → b ≡ compact_text (reply_json (reply_view reply.now))) }
    ensures reads_back { IfOk result (λ b. CanReadReply (reply_view reply.now)
        → message_of b ≡ Some (reply_message (reply_view reply.now))) }
{
    let value = reply_value(alloc, reply)?;
    write_value(alloc, &value)
}

/// A notice as compact JSON: `data` where there is a content, `event` and `targetId`.
#[tactic(auto, using(crate::proofs::ContentLemmas::notice_has_no_float, crate::proofs::ContentLemmas::notice_nests))]
pub fn write_notice(alloc: Global, notice: &Notice) -> Result<Bytes, NoMemory>
    // A float's digits are such as read back as the float.
    ensures text { IfOk result (λ b. has_whole_numbers (notice_view notice.now).content ≡ true
        → b ≡ compact_text (notice_json (notice_view notice.now))) }
    ensures reads_back { IfOk result (λ b. CanReadNotice (notice_view notice.now)
        → message_of b ≡ Some (notice_message (notice_view notice.now))) }
{
    let value = notice_value(alloc, notice)?;
    write_value(alloc, &value)
}

// The compact text of a value that is an object.
fn write_value(alloc: Global, value: &Value) -> Result<Bytes, NoMemory>
    ensures text { IfOk result (λ b. has_float (view value.now) ≡ false
        → b ≡ compact_text (view value.now)) }
    ensures request { IfOk result (λ b. (ms : Members) → view value.now ≡ object ms
        → depth (object ms) ≤ max_depth → request_of b ≡ request_in ms) }
    ensures message { IfOk result (λ b. (ms : Members) → view value.now ≡ object ms
        → depth (object ms) ≤ max_depth → message_of b ≡ message_in ms) }
{
    Ok(Bytes::from_vec(value.to_vec(alloc)?))
}

// The value that a request is written as. The texts of its ids read back as these.
fn request_value(alloc: Global, request: &Request) -> Result<Value, AllocError>
    ensures value { IfOk result (λ v. view v ≡ request_json (request_view request.now)) }
    ensures ids { OnOk result (ids_in (Some (internal_members request.now.ids)) ≡ request.now.ids) }
{
    let internal = internal_value(alloc, &request.ids)?;
    match &request.content {
        Some(content) => json!(in alloc; {
            "data": content,
            "id": request.id,
            "internal": internal,
            "method": request.method.as_str()
        }),
        None => json!(in alloc; {
            "id": request.id,
            "internal": internal,
            "method": request.method.as_str()
        }),
    }
}

// The object of the ids that there are. Their texts read back as these.
fn internal_value(alloc: Global, ids: &Ids) -> Result<Value, AllocError>
    ensures value { IfOk result (λ v. view v ≡ internal_json ids.now) }
    ensures ids { OnOk result (ids_in (Some (internal_members ids.now)) ≡ ids.now) }
{
    let mut fields = object::Members::new(alloc);
    put_id(&mut fields, alloc, "transportId", ids.transport)?;
    put_id(&mut fields, alloc, "routerId", ids.router)?;
    put_id(&mut fields, alloc, "producerId", ids.producer)?;
    put_id(&mut fields, alloc, "consumerId", ids.consumer)?;
    Ok(Value::Object(fields))
}

// Puts the member of this name, if there is an id. Its text reads back as the id.
fn put_id(
    fields: &mut object::Members,
    alloc: Global,
    name: &str,
    id: Option<Id>,
) -> Result<(), AllocError>
    ensures value { OnOk result (members_view fields.new.entries
        ≡ put_optional name.now (option_map id_json id) (members_view fields.old.entries)) }
    ensures id { id_in (option_map id_json id) ≡ id }
{
    let Some(id) = id else {
        return Ok(());
    };
    let text = id.text();
    let value = Value::try_from_str(alloc, id_str(&text))?;
    serde_json::put(fields, alloc, name, value)
}

// The text of an id as a `&str`: it is ASCII.
fn id_str(text: &[u8; 36]) -> &str
    requires { IsUtf8 text.now }
    ensures { result.now ≡ text.now }
{
    match std::str::from_utf8(text) {
        Ok(text) => text,
        Err(_) => unreachable!(),
    }
}

// The value that a reply is written as.
fn reply_value(alloc: Global, reply: &Reply) -> Result<Value, AllocError>
    ensures { IfOk result (λ v. view v ≡ reply_json (reply_view reply.now)) }
{
    match &reply.answer {
        Answer::Accepted(Some(content)) => {
            json!(in alloc; {"accepted": true, "data": content, "id": reply.id})
        }
        Answer::Accepted(None) => json!(in alloc; {"accepted": true, "id": reply.id}),
        Answer::Refused { error, reason } => json!(in alloc; {
            "error": error_text(*error),
            "id": reply.id,
            "reason": reason.as_str()
        }),
    }
}

// The word of an error.
fn error_text(error: WorkerError) -> &'static str
    ensures { result.now ≡ error_text error }
{
    match error {
        WorkerError::TypeError => "TypeError",
        WorkerError::Error => "Error",
        WorkerError::BadData => "BadData",
    }
}

// The value that a notice is written as.
fn notice_value(alloc: Global, notice: &Notice) -> Result<Value, AllocError>
    ensures { IfOk result (λ v. view v ≡ notice_json (notice_view notice.now)) }
{
    match &notice.content {
        Some(content) => json!(in alloc; {
            "data": content,
            "event": notice.event.as_str(),
            "targetId": notice.target.as_str()
        }),
        None => json!(in alloc; {
            "event": notice.event.as_str(),
            "targetId": notice.target.as_str()
        }),
    }
}
