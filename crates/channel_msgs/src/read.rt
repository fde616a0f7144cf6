ghost use Rattle.std.specs.Prelude.{◌≡◌, IfOk, Err, Some, None, codes, option_map};
ghost use Rattle.serde_json.specs.Find.{get_member};
ghost use Rattle.serde_json.specs.View.{members_view};
ghost use Rattle.channel_msgs.specs.Packet.{packet_in};
ghost use Rattle.channel_msgs.specs.Read.{message_of, message_in, is_log_letter, reply_in, notice_in, error_named, request_of, request_in, ids_in, id_in};
ghost use Rattle.channel_msgs.specs.View.{message_view, rtp, reply_view, notice_view, request_view};

use crate::message::{Answer, Ids, Message, MessageFault, Notice, Reply, Request};
use crate::object::{
    Members, is_true, member, object_of, read_object, request_id, take_content, text_of,
    text_or_empty,
};
use crate::packet::packet_of;
use ms_base::{Bytes, Id, Text, WorkerError};
use std::alloc::Global;

/// The message that a payload is: a reply, a notice, a line of a log, or a packet. `Unexpected` comes
/// exactly where it has none of these forms.
#[tactic(auto, using(crate::proofs::ReadLemmas::message_of_nothing, crate::proofs::ReadLemmas::message_of_packet, crate::proofs::ReadLemmas::message_of_log, crate::proofs::ReadLemmas::message_of_json))]
pub fn read_message(alloc: Global, payload: &[u8]) -> Result<Message, MessageFault>
    ensures ok { IfOk result (λ m. message_of payload.now ≡ Some (message_view m)) }
    ensures unexpected { result ≡ Err MessageFault.Unexpected → message_of payload.now ≡ None }
{
    match payload {
        [] => Err(MessageFault::Unexpected),
        [b'R', ..] => read_packet(alloc, payload),
        [level, text @ ..] if is_log_letter(*level) => Ok(Message::Log {
            level: *level,
            text: Bytes::from_slice(alloc, text)?,
        }),
        _ => read_fields(alloc, read_object(alloc, payload)?),
    }
}

// Whether a line of a log stands behind the letter.
fn is_log_letter(letter: u8) -> bool
    ensures { result ≡ is_log_letter letter }
{
    matches!(letter, b'D' | b'W' | b'E' | b'X')
}

// A packet, with its bytes copied.
fn read_packet(alloc: Global, payload: &[u8]) -> Result<Message, MessageFault>
    ensures ok { IfOk result (λ m. option_map (λ p. rtp p.0 p.1) (packet_in payload.now)
        ≡ Some (message_view m)) }
    ensures unexpected { result ≡ Err MessageFault.Unexpected → packet_in payload.now ≡ None }
{
    let Some((id, packet)) = packet_of(payload) else {
        return Err(MessageFault::Unexpected);
    };
    let packet = Bytes::from_slice(alloc, packet)?;
    Ok(Message::Rtp { id, packet })
}

// A message that is an object of these members.
fn read_fields(alloc: Global, fields: Members) -> Result<Message, MessageFault>
    ensures ok { IfOk result (λ m. message_in (members_view fields.entries) ≡ Some (message_view m)) }
    ensures unexpected { result ≡ Err MessageFault.Unexpected
        → message_in (members_view fields.entries) ≡ None }
{
    match member(&fields, "id") {
        None => Ok(Message::Notice(read_notice(alloc, fields)?)),
        Some(id) => match request_id(id) {
            Some(id) => Ok(Message::Reply(read_reply(alloc, id, fields)?)),
            None => Err(MessageFault::Unexpected),
        },
    }
}

// A reply to the request of this id.
#[tactic(auto, using(crate::proofs::ReadLemmas::not_accepted, crate::proofs::ReadLemmas::refused_by))]
fn read_reply(alloc: Global, id: u32, fields: Members) -> Result<Reply, MessageFault>
    ensures ok { IfOk result (λ r. reply_in id (members_view fields.entries) ≡ Some (reply_view r)) }
    ensures unexpected { result ≡ Err MessageFault.Unexpected
        → reply_in id (members_view fields.entries) ≡ None }
{
    if is_true(&fields, "accepted") {
        let answer = Answer::Accepted(take_content(fields));
        return Ok(Reply { id, answer });
    }
    let Some(error) = text_of(&fields, "error") else {
        return Err(MessageFault::Unexpected);
    };
    let reason = text_or_empty(&fields, "reason");
    let answer = Answer::Refused {
        error: error_named(error),
        reason: Text::from_str(alloc, reason)?,
    };
    Ok(Reply { id, answer })
}

// Which error a worker names.
fn error_named(text: &str) -> WorkerError
    ensures { result ≡ error_named text.now }
{
    if text == "TypeError" {
        WorkerError::TypeError
    } else {
        WorkerError::Error
    }
}

// A notice, if the object has its texts.
fn read_notice(alloc: Global, fields: Members) -> Result<Notice, MessageFault>
    ensures ok { IfOk result (λ n. notice_in (members_view fields.entries) ≡ Some (notice_view n)) }
    ensures unexpected { result ≡ Err MessageFault.Unexpected
        → notice_in (members_view fields.entries) ≡ None }
{
    let Some(target) = text_of(&fields, "targetId") else {
        return Err(MessageFault::Unexpected);
    };
    let Some(event) = text_of(&fields, "event") else {
        return Err(MessageFault::Unexpected);
    };
    let target = Text::from_str(alloc, target)?;
    let event = Text::from_str(alloc, event)?;
    let content = take_content(fields);
    Ok(Notice {
        target,
        event,
        content,
    })
}

/// The request that a payload is. `Unexpected` comes exactly where it is not a JSON object whose `id` is
/// 1 to `MAX_ID`. A `method` that is no text is the empty one, and an id that `internal` does not have
/// in the form of one is None.
#[tactic(auto, unfolding(crate::specs::Read::request_of))]
pub fn read_request(alloc: Global, payload: &[u8]) -> Result<Request, MessageFault>
    ensures ok { IfOk result (λ r. request_of payload.now ≡ Some (request_view r)) }
    ensures unexpected { result ≡ Err MessageFault.Unexpected → request_of payload.now ≡ None }
{
    let fields = read_object(alloc, payload)?;
    read_request_fields(alloc, fields)
}

// A request that is an object of these members.
fn read_request_fields(alloc: Global, fields: Members) -> Result<Request, MessageFault>
    ensures ok { IfOk result (λ r. request_in (members_view fields.entries) ≡ Some (request_view r)) }
    ensures unexpected { result ≡ Err MessageFault.Unexpected
        → request_in (members_view fields.entries) ≡ None }
{
    let Some(id) = member(&fields, "id").and_then(request_id) else {
        return Err(MessageFault::Unexpected);
    };
    let method = Text::from_str(alloc, text_or_empty(&fields, "method"))?;
    let ids = ids_in(object_of(&fields, "internal"));
    let content = take_content(fields);
    Ok(Request {
        id,
        method,
        ids,
        content,
    })
}

// The ids that `internal` has.
fn ids_in(internal: Option<&Members>) -> Ids
    ensures { result ≡ ids_in (option_map (λ m. members_view m.now.entries) internal.entry) }
{
    match internal {
        Some(fields) => Ids {
            router: id_in(fields, "routerId"),
            transport: id_in(fields, "transportId"),
            producer: id_in(fields, "producerId"),
            consumer: id_in(fields, "consumerId"),
        },
        None => Ids {
            router: None,
            transport: None,
            producer: None,
            consumer: None,
        },
    }
}

// The id whose text the member of this name is.
#[tactic(auto, using(crate::proofs::ReadLemmas::id_of_bytes, crate::proofs::ReadLemmas::id_in_text, crate::proofs::ReadLemmas::id_in_none))]
fn id_in(fields: &Members, name: &str) -> Option<Id>
    ensures { result ≡ id_in (get_member name.now (members_view fields.now.entries)) }
{
    Id::parse(text_of(fields, name)?.as_bytes())
}
