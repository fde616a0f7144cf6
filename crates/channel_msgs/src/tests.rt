use crate::{
    Answer, Ids, Message, MessageFault, Notice, PACKET_HEAD, Reply, Request, packet_of,
    read_message, read_request, write_notice, write_packet_head, write_reply, write_request,
};
use ms_base::{Bytes, Id, NoMemory, Text, WorkerError};
use serde_json::json;
use std::alloc::Global;
use std::test::Fail;

// What a payload reads as: a reply or a notice as it is written, a log line behind its letter and a blank,
// a packet behind the head of its payload and a blank.
fn told(alloc: Global, payload: &[u8]) -> Result<Bytes, MessageFault> {
    match read_message(alloc, payload)? {
        Message::Reply(reply) => Ok(write_reply(alloc, &reply)?),
        Message::Notice(notice) => Ok(write_notice(alloc, &notice)?),
        Message::Log { level, text } => Ok(joined(alloc, &[level], text.as_slice())?),
        Message::Rtp { id, packet } => {
            let mut head = [0; PACKET_HEAD];
            write_packet_head(id, &mut head);
            Ok(joined(alloc, &head, packet.as_slice())?)
        }
    }
}

fn joined(alloc: Global, front: &[u8], back: &[u8]) -> Result<Bytes, NoMemory> {
    let mut bytes = Bytes::from_slice(alloc, front)?;
    bytes.push(b' ')?;
    bytes.extend_from_slice(back)?;
    Ok(bytes)
}

// Whether the payload reads as what is written so, or is unexpected where that is None.
fn is_told(alloc: Global, payload: &[u8], want: Option<&[u8]>) -> Result<bool, NoMemory> {
    match told(alloc, payload) {
        Ok(bytes) => Ok(want == Some(bytes.as_slice())),
        Err(MessageFault::Unexpected) => Ok(want.is_none()),
        Err(MessageFault::NoMemory) => Err(NoMemory),
    }
}

#[test]
fn replies_by_their_form(rt: HostRuntime) -> Result<(), Fail> {
    let running: &[u8] = b"{\"event\":\"running\",\"targetId\":\"worker\"}";
    for (payload, want) in [
        (
            b"{\"accepted\":true,\"id\":1}".as_slice(),
            Some(b"{\"accepted\":true,\"id\":1}".as_slice()),
        ),
        (
            b" {\"id\": 4294967295, \"accepted\": true, \"error\": \"Error\", \"data\": null}",
            Some(b"{\"accepted\":true,\"data\":null,\"id\":4294967295}"),
        ),
        (
            b"{\"accepted\":true,\"data\":{\"tuple\":{\"localIp\":\"127.0.0.1\",\"localPort\":40000}},\"id\":2}",
            Some(
                b"{\"accepted\":true,\"data\":{\"tuple\":{\"localIp\":\"127.0.0.1\",\"localPort\":40000}},\"id\":2}",
            ),
        ),
        (
            b"{\"error\":\"Error\",\"id\":3,\"reason\":\"state\"}",
            Some(b"{\"error\":\"Error\",\"id\":3,\"reason\":\"state\"}"),
        ),
        (
            b"{\"accepted\":false,\"error\":\"TypeError\",\"id\":3}",
            Some(b"{\"error\":\"TypeError\",\"id\":3,\"reason\":\"\"}"),
        ),
        (
            b"{\"accepted\":\"true\",\"error\":\"BadData\",\"id\":3,\"reason\":4}",
            Some(b"{\"error\":\"Error\",\"id\":3,\"reason\":\"\"}"),
        ),
        (b"{\"accepted\":false,\"id\":1}", None),
        (b"{\"error\":1,\"id\":1}", None),
        (b"{\"accepted\":true,\"id\":0}", None),
        (b"{\"accepted\":true,\"id\":4294967296}", None),
        (b"{\"accepted\":true,\"id\":\"1\"}", None),
        (b"{\"accepted\":true,\"id\":1.0}", None),
        (b"{\"accepted\":true,\"id\":-1}", None),
        (b"{\"accepted\":true}", None),
        (
            b"{\"event\":\"running\",\"targetId\":\"worker\"}",
            Some(running),
        ),
        (
            b"{\"targetId\":\"t\",\"event\":\"e\",\"data\":[1.5,{}]}",
            Some(b"{\"data\":[1.5,{}],\"event\":\"e\",\"targetId\":\"t\"}"),
        ),
        (b"{\"event\":\"e\",\"id\":null,\"targetId\":\"t\"}", None),
        (b"{\"event\":\"e\",\"id\":1,\"targetId\":\"t\"}", None),
        (b"{\"event\":7,\"targetId\":\"t\"}", None),
        (b"{\"event\":\"e\"}", None),
    ] {
        assert!(rt; is_told(rt.alloc(), payload, want)?);
    }
    Ok(())
}

#[test]
fn other_payloads_by_their_letter(rt: HostRuntime) -> Result<(), Fail> {
    let head: &[u8] = b"Rabcdef01-2345-6789-abcd-ef0123456789 ";
    for (payload, want) in [
        (b"Dlow".as_slice(), Some(b"D low".as_slice())),
        (b"W\xff", Some(b"W \xff")),
        (b"E{}", Some(b"E {}")),
        (b"X", Some(b"X ")),
        (b"dlow", None),
        (b"RABCDEF01-2345-6789-abcd-EF0123456789", Some(head)),
        (
            b"Rabcdef01-2345-6789-abcd-ef0123456789\x80\x60",
            Some(b"Rabcdef01-2345-6789-abcd-ef0123456789 \x80\x60"),
        ),
        (b"Rabcdef01-2345-6789-abcd-ef012345678", None),
        (b"Rabcdef01-2345-6789-abcd-ef012345678g1", None),
        (b"R", None),
        (b"", None),
        (b"[]", None),
        (b"null", None),
        (b"{}", None),
        (b"{", None),
        (b"\xff", None),
    ] {
        assert!(rt; is_told(rt.alloc(), payload, want)?);
    }
    Ok(())
}

// An accepted reply whose content is so many lists in one another.
fn nested(alloc: Global, depth: usize) -> Result<Bytes, NoMemory> {
    let mut bytes = Bytes::from_slice(alloc, b"{\"accepted\":true,\"data\":")?;
    for _ in 0..depth {
        bytes.push(b'[')?;
    }
    for _ in 0..depth {
        bytes.push(b']')?;
    }
    bytes.extend_from_slice(b",\"id\":1}")?;
    Ok(bytes)
}

#[test]
fn contents_nest_126_deep(rt: HostRuntime) -> Result<(), Fail> {
    let deepest = nested(rt.alloc(), 126)?;
    assert!(rt; is_told(rt.alloc(), deepest.as_slice(), Some(deepest.as_slice()))?);
    assert!(rt; is_told(rt.alloc(), nested(rt.alloc(), 127)?.as_slice(), None)?);
    Ok(())
}

// Whether the payload reads as the request that is written so, or is unexpected where that is None.
fn is_request(alloc: Global, payload: &[u8], want: Option<&[u8]>) -> Result<bool, NoMemory> {
    match read_request(alloc, payload) {
        Ok(request) => Ok(want == Some(write_request(alloc, &request)?.as_slice())),
        Err(MessageFault::Unexpected) => Ok(want.is_none()),
        Err(MessageFault::NoMemory) => Err(NoMemory),
    }
}

#[test]
fn requests_by_their_form(rt: HostRuntime) -> Result<(), Fail> {
    for (payload, want) in [
        (
            b"{\"id\":7}".as_slice(),
            Some(b"{\"id\":7,\"internal\":{},\"method\":\"\"}".as_slice()),
        ),
        (
            b"{\"method\":1,\"internal\":[],\"id\":4294967295}",
            Some(b"{\"id\":4294967295,\"internal\":{},\"method\":\"\"}"),
        ),
        (
            b"{\"id\":1,\"internal\":{\"transportId\":\"x\",\"producerId\":5,\"routerId\":\"ABCDEF01-2345-6789-abcd-EF0123456789\"},\"method\":\"m\",\"data\":{\"port\":5,\"ip\":\"::\"}}",
            Some(
                b"{\"data\":{\"ip\":\"::\",\"port\":5},\"id\":1,\"internal\":{\"routerId\":\"abcdef01-2345-6789-abcd-ef0123456789\"},\"method\":\"m\"}",
            ),
        ),
        (b"{\"id\":0,\"method\":\"m\"}", None),
        (b"{\"id\":4294967296,\"method\":\"m\"}", None),
        (b"{\"method\":\"m\"}", None),
        (b"[{\"id\":1}]", None),
        (b"", None),
    ] {
        assert!(rt; is_request(rt.alloc(), payload, want)?);
    }
    Ok(())
}

#[test]
fn requests_with_their_ids(rt: HostRuntime) -> Result<(), Fail> {
    let alloc = rt.alloc();
    let mut request = Request {
        id: 1,
        method: Text::from_str(alloc, "worker.createRouter")?,
        ids: Ids {
            router: Some(Id::of(7, 2)),
            transport: None,
            producer: None,
            consumer: None,
        },
        content: None,
    };
    let text = write_request(alloc, &request)?;
    assert_eq!(rt;
        text.as_slice(),
        b"{\"id\":1,\"internal\":{\"routerId\":\"00000000-0000-4007-8000-000000000002\"},\"method\":\"worker.createRouter\"}".as_slice()
    );
    assert_eq!(rt; text.len(), 102);
    request.ids.transport = Some(Id::of(7, 3));
    request.ids.producer = Some(Id::of(7, 4));
    request.ids.consumer = Some(Id::of(7, 5));
    let text = write_request(alloc, &request)?;
    assert!(rt; read_request(alloc, text.as_slice())?.ids == request.ids);
    Ok(())
}

#[test]
fn replies_and_notices_of_values(rt: HostRuntime) -> Result<(), Fail> {
    let alloc = rt.alloc();
    let content = json!(in alloc; {"paused": false})?;
    let reply = Reply {
        id: 9,
        answer: Answer::Accepted(Some(content)),
    };
    assert_eq!(rt;
        write_reply(alloc, &reply)?.as_slice(),
        b"{\"accepted\":true,\"data\":{\"paused\":false},\"id\":9}".as_slice()
    );
    let reply = Reply {
        id: 9,
        answer: Answer::Refused {
            error: WorkerError::BadData,
            reason: Text::from_str(alloc, "\"")?,
        },
    };
    assert_eq!(rt;
        write_reply(alloc, &reply)?.as_slice(),
        b"{\"error\":\"BadData\",\"id\":9,\"reason\":\"\\\"\"}".as_slice()
    );
    let notice = Notice {
        target: Text::from_str(alloc, "worker")?,
        event: Text::from_str(alloc, "running")?,
        content: None,
    };
    assert_eq!(rt;
        write_notice(alloc, &notice)?.as_slice(),
        b"{\"event\":\"running\",\"targetId\":\"worker\"}".as_slice()
    );
    Ok(())
}

#[test]
fn packets_without_memory(rt: HostRuntime) {
    let mut payload = [7; PACKET_HEAD + 2];
    write_packet_head(Id::of(7, 2), &mut payload);
    assert_eq!(rt;
        payload.as_slice(),
        b"R00000000-0000-4007-8000-000000000002\x07\x07".as_slice()
    );
    let found = packet_of(&payload);
    assert!(rt;
        found.is_some_and(|(id, packet)| id == Id::of(7, 2) && packet == [7, 7].as_slice())
    );
    assert!(rt; packet_of(b"D").is_none());
}
