use crate::{
    Accepted, Asked, ConsumeContent, Refusal, TUPLE_NOTICE, WorkerNotice, connect_content,
    consume_content, is_direct, pipe_content, plain_content, produce_content, produced, read_asked,
    write_answer, write_tuple_notice, write_worker_notice,
};
use channel_msgs::{Request, read_request};
use ms_base::{Bytes, Id, NoMemory, Tuple};
use serde_json::Value;
use std::alloc::Global;
use std::test::Fail;

// Each line is a request and, behind a blank, the reply to it where nothing but its method, its ids and its content may be in
// the way. Transports listen at port 40000, and no Producer is paused.
const CASES: &str =
    r#"{"id":1,"internal":{"routerId":"00000000-0000-4000-8000-000000000001"},"method":"worker.createRouter"} {"accepted":true,"id":1}
{"id":1,"internal":{"consumerId":"00000000-0000-4000-8000-000000000004","producerId":"00000000-0000-4000-8000-000000000003","transportId":"00000000-0000-4000-8000-000000000002"},"method":"worker.createRouter"} {"error":"TypeError","id":1,"reason":"internal"}
{"id":1,"internal":{"routerId":"00000000-0000-4000-8000-000000000001"},"method":"router.close"} {"accepted":true,"id":1}
{"id":1,"internal":{"consumerId":"00000000-0000-4000-8000-000000000004","producerId":"00000000-0000-4000-8000-000000000003","transportId":"00000000-0000-4000-8000-000000000002"},"method":"router.close"} {"error":"TypeError","id":1,"reason":"internal"}
{"data":{"comedia":false,"listenIp":{"ip":"127.0.0.1"},"rtcpMux":true},"id":1,"internal":{"routerId":"00000000-0000-4000-8000-000000000001","transportId":"00000000-0000-4000-8000-000000000002"},"method":"router.createPlainTransport"} {"accepted":true,"data":{"tuple":{"localIp":"127.0.0.1","localPort":40000}},"id":1}
{"id":1,"internal":{"consumerId":"00000000-0000-4000-8000-000000000004","producerId":"00000000-0000-4000-8000-000000000003","routerId":"00000000-0000-4000-8000-000000000001"},"method":"router.createPlainTransport"} {"error":"TypeError","id":1,"reason":"internal"}
{"id":1,"internal":{"routerId":"00000000-0000-4000-8000-000000000001","transportId":"00000000-0000-4000-8000-000000000002"},"method":"router.createPlainTransport"} {"error":"TypeError","id":1,"reason":"data"}
{"data":{"listenIp":{"ip":"127.0.0.1"},"rtcpMux":true},"id":1,"internal":{"routerId":"00000000-0000-4000-8000-000000000001","transportId":"00000000-0000-4000-8000-000000000002"},"method":"router.createPlainTransport"} {"error":"TypeError","id":1,"reason":"data"}
{"data":{"comedia":null,"listenIp":{"ip":"127.0.0.1"},"rtcpMux":true},"id":1,"internal":{"routerId":"00000000-0000-4000-8000-000000000001","transportId":"00000000-0000-4000-8000-000000000002"},"method":"router.createPlainTransport"} {"error":"TypeError","id":1,"reason":"data"}
{"data":{"comedia":true,"listenIp":{"ip":"127.0.0.1"},"rtcpMux":false},"id":1,"internal":{"routerId":"00000000-0000-4000-8000-000000000001","transportId":"00000000-0000-4000-8000-000000000002"},"method":"router.createPlainTransport"} {"error":"TypeError","id":1,"reason":"data"}
{"data":{"comedia":true,"listenIp":{"ip":"127.0.0.1"}},"id":1,"internal":{"routerId":"00000000-0000-4000-8000-000000000001","transportId":"00000000-0000-4000-8000-000000000002"},"method":"router.createPlainTransport"} {"error":"TypeError","id":1,"reason":"data"}
{"data":{"comedia":true,"listenIp":"127.0.0.1","rtcpMux":true},"id":1,"internal":{"routerId":"00000000-0000-4000-8000-000000000001","transportId":"00000000-0000-4000-8000-000000000002"},"method":"router.createPlainTransport"} {"error":"TypeError","id":1,"reason":"data"}
{"data":{"comedia":true,"listenIp":{"ip":"127.0.0.256"},"rtcpMux":true},"id":1,"internal":{"routerId":"00000000-0000-4000-8000-000000000001","transportId":"00000000-0000-4000-8000-000000000002"},"method":"router.createPlainTransport"} {"error":"TypeError","id":1,"reason":"data"}
{"data":{"comedia":true,"listenIp":{},"rtcpMux":true},"id":1,"internal":{"routerId":"00000000-0000-4000-8000-000000000001","transportId":"00000000-0000-4000-8000-000000000002"},"method":"router.createPlainTransport"} {"error":"TypeError","id":1,"reason":"data"}
{"data":{"enableRtx":true,"listenIp":{"ip":"255.255.255.255"}},"id":1,"internal":{"routerId":"00000000-0000-4000-8000-000000000001","transportId":"00000000-0000-4000-8000-000000000002"},"method":"router.createPipeTransport"} {"accepted":true,"data":{"tuple":{"localIp":"255.255.255.255","localPort":40000}},"id":1}
{"id":1,"internal":{"transportId":"00000000-0000-4000-8000-000000000002"},"method":"router.createPipeTransport"} {"error":"TypeError","id":1,"reason":"internal"}
{"data":{"listenIp":{"ip":"0.0.0.0"}},"id":1,"internal":{"routerId":"00000000-0000-4000-8000-000000000001","transportId":"00000000-0000-4000-8000-000000000002"},"method":"router.createPipeTransport"} {"error":"TypeError","id":1,"reason":"data"}
{"data":{"enableRtx":1,"listenIp":{"ip":"0.0.0.0"}},"id":1,"internal":{"routerId":"00000000-0000-4000-8000-000000000001","transportId":"00000000-0000-4000-8000-000000000002"},"method":"router.createPipeTransport"} {"error":"TypeError","id":1,"reason":"data"}
{"data":{"enableRtx":false,"listenIp":null},"id":1,"internal":{"routerId":"00000000-0000-4000-8000-000000000001","transportId":"00000000-0000-4000-8000-000000000002"},"method":"router.createPipeTransport"} {"error":"TypeError","id":1,"reason":"data"}
{"data":{"direct":true},"id":1,"internal":{"routerId":"00000000-0000-4000-8000-000000000001","transportId":"00000000-0000-4000-8000-000000000002"},"method":"router.createDirectTransport"} {"accepted":true,"id":1}
{"id":1,"internal":{"consumerId":"00000000-0000-4000-8000-000000000004","producerId":"00000000-0000-4000-8000-000000000003","routerId":"00000000-0000-4000-8000-000000000001"},"method":"router.createDirectTransport"} {"error":"TypeError","id":1,"reason":"internal"}
{"data":{"direct":false},"id":1,"internal":{"routerId":"00000000-0000-4000-8000-000000000001","transportId":"00000000-0000-4000-8000-000000000002"},"method":"router.createDirectTransport"} {"error":"TypeError","id":1,"reason":"data"}
{"data":[true],"id":1,"internal":{"routerId":"00000000-0000-4000-8000-000000000001","transportId":"00000000-0000-4000-8000-000000000002"},"method":"router.createDirectTransport"} {"error":"TypeError","id":1,"reason":"data"}
{"id":1,"internal":{"routerId":"00000000-0000-4000-8000-000000000001","transportId":"00000000-0000-4000-8000-000000000002"},"method":"transport.close"} {"accepted":true,"id":1}
{"id":1,"internal":{"routerId":"00000000-0000-4000-8000-000000000001"},"method":"transport.close"} {"error":"TypeError","id":1,"reason":"internal"}
{"data":{"ip":"192.0.2.1","port":65535},"id":1,"internal":{"routerId":"00000000-0000-4000-8000-000000000001","transportId":"00000000-0000-4000-8000-000000000002"},"method":"transport.connect"} {"accepted":true,"data":{"tuple":{"remoteIp":"192.0.2.1","remotePort":65535}},"id":1}
{"id":1,"internal":{"transportId":"00000000-0000-4000-8000-000000000002"},"method":"transport.connect"} {"error":"TypeError","id":1,"reason":"internal"}
{"data":{"ip":"192.0.2.1","port":0},"id":1,"internal":{"routerId":"00000000-0000-4000-8000-000000000001","transportId":"00000000-0000-4000-8000-000000000002"},"method":"transport.connect"} {"error":"TypeError","id":1,"reason":"data"}
{"data":{"ip":"192.0.2.1","port":65536},"id":1,"internal":{"routerId":"00000000-0000-4000-8000-000000000001","transportId":"00000000-0000-4000-8000-000000000002"},"method":"transport.connect"} {"error":"TypeError","id":1,"reason":"data"}
{"data":{"ip":"192.0.2.1","port":5004.0},"id":1,"internal":{"routerId":"00000000-0000-4000-8000-000000000001","transportId":"00000000-0000-4000-8000-000000000002"},"method":"transport.connect"} {"error":"TypeError","id":1,"reason":"data"}
{"data":{"ip":"192.0.2.1"},"id":1,"internal":{"routerId":"00000000-0000-4000-8000-000000000001","transportId":"00000000-0000-4000-8000-000000000002"},"method":"transport.connect"} {"error":"TypeError","id":1,"reason":"data"}
{"data":{"ip":"::1","port":5004},"id":1,"internal":{"routerId":"00000000-0000-4000-8000-000000000001","transportId":"00000000-0000-4000-8000-000000000002"},"method":"transport.connect"} {"error":"TypeError","id":1,"reason":"data"}
{"data":{"ip":[192,0,2,1],"port":5004},"id":1,"internal":{"routerId":"00000000-0000-4000-8000-000000000001","transportId":"00000000-0000-4000-8000-000000000002"},"method":"transport.connect"} {"error":"TypeError","id":1,"reason":"data"}
{"data":{"kind":"audio","paused":true,"rtpMapping":{"codecs":[],"encodings":[]},"rtpParameters":{"codecs":[],"encodings":[{"ssrc":1}]}},"id":1,"internal":{"producerId":"00000000-0000-4000-8000-000000000003","routerId":"00000000-0000-4000-8000-000000000001","transportId":"00000000-0000-4000-8000-000000000002"},"method":"transport.produce"} {"accepted":true,"data":{"type":"simple"},"id":1}
{"data":{"kind":"video","paused":false,"rtpMapping":{"codecs":[{"mappedPayloadType":127,"payloadType":96}],"encodings":[{"mappedSsrc":5,"ssrc":1}]},"rtpParameters":{"codecs":[{"clockRate":90000,"mimeType":"video/VP8","payloadType":96}],"encodings":[{"rtx":{"ssrc":3},"ssrc":1},{"ssrc":2}]}},"id":1,"internal":{"producerId":"00000000-0000-4000-8000-000000000003","routerId":"00000000-0000-4000-8000-000000000001","transportId":"00000000-0000-4000-8000-000000000002"},"method":"transport.produce"} {"accepted":true,"data":{"type":"simulcast"},"id":1}
{"id":1,"internal":{"consumerId":"00000000-0000-4000-8000-000000000004","routerId":"00000000-0000-4000-8000-000000000001","transportId":"00000000-0000-4000-8000-000000000002"},"method":"transport.produce"} {"error":"TypeError","id":1,"reason":"internal"}
{"data":{"kind":"text","paused":false,"rtpMapping":{"codecs":[],"encodings":[]},"rtpParameters":{"codecs":[],"encodings":[{"ssrc":1}]}},"id":1,"internal":{"producerId":"00000000-0000-4000-8000-000000000003","routerId":"00000000-0000-4000-8000-000000000001","transportId":"00000000-0000-4000-8000-000000000002"},"method":"transport.produce"} {"error":"TypeError","id":1,"reason":"data"}
{"data":{"kind":"audio","rtpMapping":{"codecs":[],"encodings":[]},"rtpParameters":{"codecs":[],"encodings":[{"ssrc":1}]}},"id":1,"internal":{"producerId":"00000000-0000-4000-8000-000000000003","routerId":"00000000-0000-4000-8000-000000000001","transportId":"00000000-0000-4000-8000-000000000002"},"method":"transport.produce"} {"error":"TypeError","id":1,"reason":"data"}
{"data":{"kind":"audio","paused":false,"rtpParameters":{"codecs":[],"encodings":[{"ssrc":1}]}},"id":1,"internal":{"producerId":"00000000-0000-4000-8000-000000000003","routerId":"00000000-0000-4000-8000-000000000001","transportId":"00000000-0000-4000-8000-000000000002"},"method":"transport.produce"} {"error":"TypeError","id":1,"reason":"data"}
{"data":{"kind":"audio","paused":false,"rtpMapping":{"codecs":[],"encodings":[]},"rtpParameters":{"codecs":[],"encodings":[]}},"id":1,"internal":{"producerId":"00000000-0000-4000-8000-000000000003","routerId":"00000000-0000-4000-8000-000000000001","transportId":"00000000-0000-4000-8000-000000000002"},"method":"transport.produce"} {"error":"TypeError","id":1,"reason":"data"}
{"data":{"kind":"audio","paused":false,"rtpMapping":{"codecs":[],"encodings":[]},"rtpParameters":{"codecs":[],"encodings":[{"ssrc":1},{"ssrc":1}]}},"id":1,"internal":{"producerId":"00000000-0000-4000-8000-000000000003","routerId":"00000000-0000-4000-8000-000000000001","transportId":"00000000-0000-4000-8000-000000000002"},"method":"transport.produce"} {"error":"TypeError","id":1,"reason":"data"}
{"data":{"consumableRtpEncodings":[{"ssrc":5}],"kind":"audio","paused":true,"rtpParameters":{"codecs":[],"encodings":[{"ssrc":7}]},"type":"simple"},"id":1,"internal":{"consumerId":"00000000-0000-4000-8000-000000000004","producerId":"00000000-0000-4000-8000-000000000003","routerId":"00000000-0000-4000-8000-000000000001","transportId":"00000000-0000-4000-8000-000000000002"},"method":"transport.consume"} {"accepted":true,"data":{"paused":true,"producerPaused":false},"id":1}
{"data":{"consumableRtpEncodings":[{"ssrc":5},{"ssrc":6}],"kind":"video","paused":false,"rtpParameters":{"codecs":[],"encodings":[{"ssrc":7},{"ssrc":8}]},"type":"pipe"},"id":1,"internal":{"consumerId":"00000000-0000-4000-8000-000000000004","producerId":"00000000-0000-4000-8000-000000000003","routerId":"00000000-0000-4000-8000-000000000001","transportId":"00000000-0000-4000-8000-000000000002"},"method":"transport.consume"} {"accepted":true,"data":{"paused":false,"producerPaused":false},"id":1}
{"id":1,"internal":{"producerId":"00000000-0000-4000-8000-000000000003","routerId":"00000000-0000-4000-8000-000000000001","transportId":"00000000-0000-4000-8000-000000000002"},"method":"transport.consume"} {"error":"TypeError","id":1,"reason":"internal"}
{"data":{"consumableRtpEncodings":[{"ssrc":5},{"ssrc":6}],"kind":"video","paused":false,"rtpParameters":{"codecs":[],"encodings":[{"ssrc":7},{"ssrc":8}]},"type":"simple"},"id":1,"internal":{"consumerId":"00000000-0000-4000-8000-000000000004","producerId":"00000000-0000-4000-8000-000000000003","routerId":"00000000-0000-4000-8000-000000000001","transportId":"00000000-0000-4000-8000-000000000002"},"method":"transport.consume"} {"error":"TypeError","id":1,"reason":"data"}
{"data":{"consumableRtpEncodings":[{"ssrc":5}],"kind":"video","paused":false,"rtpParameters":{"codecs":[],"encodings":[{"ssrc":7},{"ssrc":8}]},"type":"pipe"},"id":1,"internal":{"consumerId":"00000000-0000-4000-8000-000000000004","producerId":"00000000-0000-4000-8000-000000000003","routerId":"00000000-0000-4000-8000-000000000001","transportId":"00000000-0000-4000-8000-000000000002"},"method":"transport.consume"} {"error":"TypeError","id":1,"reason":"data"}
{"data":{"consumableRtpEncodings":[],"kind":"video","paused":false,"rtpParameters":{"codecs":[],"encodings":[]},"type":"pipe"},"id":1,"internal":{"consumerId":"00000000-0000-4000-8000-000000000004","producerId":"00000000-0000-4000-8000-000000000003","routerId":"00000000-0000-4000-8000-000000000001","transportId":"00000000-0000-4000-8000-000000000002"},"method":"transport.consume"} {"error":"TypeError","id":1,"reason":"data"}
{"data":{"consumableRtpEncodings":[{"ssrc":5}],"kind":"audio","paused":true,"rtpParameters":{"codecs":[],"encodings":[{"ssrc":7}]},"type":"svc"},"id":1,"internal":{"consumerId":"00000000-0000-4000-8000-000000000004","producerId":"00000000-0000-4000-8000-000000000003","routerId":"00000000-0000-4000-8000-000000000001","transportId":"00000000-0000-4000-8000-000000000002"},"method":"transport.consume"} {"error":"TypeError","id":1,"reason":"data"}
{"id":1,"internal":{"producerId":"00000000-0000-4000-8000-000000000003","routerId":"00000000-0000-4000-8000-000000000001","transportId":"00000000-0000-4000-8000-000000000002"},"method":"producer.close"} {"accepted":true,"id":1}
{"id":1,"internal":{"consumerId":"00000000-0000-4000-8000-000000000004","producerId":"00000000-0000-4000-8000-000000000003","transportId":"00000000-0000-4000-8000-000000000002"},"method":"producer.close"} {"error":"TypeError","id":1,"reason":"internal"}
{"id":1,"internal":{"producerId":"00000000-0000-4000-8000-000000000003","routerId":"00000000-0000-4000-8000-000000000001","transportId":"00000000-0000-4000-8000-000000000002"},"method":"producer.pause"} {"accepted":true,"id":1}
{"id":1,"internal":{"routerId":"00000000-0000-4000-8000-000000000001","transportId":"00000000-0000-4000-8000-000000000002"},"method":"producer.pause"} {"error":"TypeError","id":1,"reason":"internal"}
{"id":1,"internal":{"producerId":"00000000-0000-4000-8000-000000000003","routerId":"00000000-0000-4000-8000-000000000001","transportId":"00000000-0000-4000-8000-000000000002"},"method":"producer.resume"} {"accepted":true,"id":1}
{"id":1,"internal":{"consumerId":"00000000-0000-4000-8000-000000000004","producerId":"00000000-0000-4000-8000-000000000003","routerId":"00000000-0000-4000-8000-000000000001"},"method":"producer.resume"} {"error":"TypeError","id":1,"reason":"internal"}
{"id":1,"internal":{"consumerId":"00000000-0000-4000-8000-000000000004","producerId":"00000000-0000-4000-8000-000000000003","routerId":"00000000-0000-4000-8000-000000000001","transportId":"00000000-0000-4000-8000-000000000002"},"method":"consumer.close"} {"accepted":true,"id":1}
{"id":1,"internal":{"consumerId":"00000000-0000-4000-8000-000000000004","routerId":"00000000-0000-4000-8000-000000000001","transportId":"00000000-0000-4000-8000-000000000002"},"method":"consumer.close"} {"error":"TypeError","id":1,"reason":"internal"}
{"id":1,"internal":{"consumerId":"00000000-0000-4000-8000-000000000004","producerId":"00000000-0000-4000-8000-000000000003","routerId":"00000000-0000-4000-8000-000000000001","transportId":"00000000-0000-4000-8000-000000000002"},"method":"consumer.pause"} {"accepted":true,"id":1}
{"id":1,"internal":{"producerId":"00000000-0000-4000-8000-000000000003","routerId":"00000000-0000-4000-8000-000000000001","transportId":"00000000-0000-4000-8000-000000000002"},"method":"consumer.pause"} {"error":"TypeError","id":1,"reason":"internal"}
{"id":1,"internal":{"consumerId":"00000000-0000-4000-8000-000000000004","producerId":"00000000-0000-4000-8000-000000000003","routerId":"00000000-0000-4000-8000-000000000001","transportId":"00000000-0000-4000-8000-000000000002"},"method":"consumer.resume"} {"accepted":true,"id":1}
{"id":1,"internal":{"consumerId":"00000000-0000-4000-8000-000000000004","producerId":"00000000-0000-4000-8000-000000000003","transportId":"00000000-0000-4000-8000-000000000002"},"method":"consumer.resume"} {"error":"TypeError","id":1,"reason":"internal"}
{"id":1,"internal":{"consumerId":"00000000-0000-4000-8000-000000000004","producerId":"00000000-0000-4000-8000-000000000003","routerId":"00000000-0000-4000-8000-000000000001","transportId":"00000000-0000-4000-8000-000000000002"},"method":"consumer.open"} {"error":"TypeError","id":1,"reason":"method"}
{"id":1} {"error":"TypeError","id":1,"reason":"method"}"#;

fn bound(ip: [u8; 4]) -> Accepted {
    Accepted::Local(Tuple { ip, port: 40_000 })
}

fn produce(alloc: Global, content: Option<&Value>) -> Result<Option<Accepted>, NoMemory> {
    match produce_content(alloc, content)? {
        Some(content) => Ok(Some(produced(&content.params))),
        None => Ok(None),
    }
}

fn consume(alloc: Global, content: Option<&Value>) -> Result<Option<Accepted>, NoMemory> {
    match consume_content(alloc, content)? {
        Some(ConsumeContent { paused, .. }) => Ok(Some(Accepted::Consumed {
            paused,
            producer_paused: false,
        })),
        None => Ok(None),
    }
}

// What is told where the content is of the form.
fn told(
    alloc: Global,
    asked: Asked,
    content: Option<&Value>,
) -> Result<Option<Accepted>, NoMemory> {
    match asked {
        Asked::CreatePlainTransport(_) => Ok(plain_content(content).map(|c| bound(c.ip))),
        Asked::CreatePipeTransport(_) => Ok(pipe_content(content).map(|c| bound(c.ip))),
        Asked::CreateDirectTransport(_) => Ok(is_direct(content).then_some(Accepted::Done)),
        Asked::Connect(_) => Ok(connect_content(content).map(Accepted::Remote)),
        Asked::Produce(_) => produce(alloc, content),
        Asked::Consume(_) => consume(alloc, content),
        _ => Ok(Some(Accepted::Done)),
    }
}

fn answer(alloc: Global, request: &Request) -> Result<Result<Accepted, Refusal>, NoMemory> {
    match read_asked(request) {
        Ok(asked) => Ok(told(alloc, asked, request.content.as_ref())?.ok_or(Refusal::Data)),
        Err(why) => Ok(Err(why)),
    }
}

fn payload(alloc: Global, request: &str) -> Result<Bytes, Fail> {
    let request = read_request(alloc, request.as_bytes())?;
    let answer = answer(alloc, &request)?;
    Ok(write_answer(alloc, request.id, answer)?)
}

// Whether a case is answered as it is to be.
fn is_answered(alloc: Global, case: &str) -> Result<bool, Fail> {
    let (request, reply) = case.split_once(' ').ok_or("no reply")?;
    Ok(payload(alloc, request)?.as_slice() == reply.as_bytes())
}

#[test]
fn each_request_by_its_form(rt: HostRuntime) -> Result<(), Fail> {
    for case in CASES.lines() {
        assert!(rt; is_answered(rt.alloc(), case)?, "{case}");
    }
    Ok(())
}

fn refused(alloc: Global, why: Refusal) -> Result<Bytes, NoMemory> {
    write_answer(alloc, u32::MAX, Err(why))
}

#[test]
fn refusals_by_what_stands_in_the_worker(rt: HostRuntime) -> Result<(), Fail> {
    for (why, text) in [
        (
            Refusal::Missing,
            r#"{"error":"Error","id":4294967295,"reason":"missing"}"#,
        ),
        (
            Refusal::Exists,
            r#"{"error":"Error","id":4294967295,"reason":"exists"}"#,
        ),
        (
            Refusal::State,
            r#"{"error":"Error","id":4294967295,"reason":"state"}"#,
        ),
        (
            Refusal::Ssrc,
            r#"{"error":"Error","id":4294967295,"reason":"ssrc"}"#,
        ),
        (
            Refusal::Link,
            r#"{"error":"Error","id":4294967295,"reason":"link"}"#,
        ),
    ] {
        assert_eq!(rt; refused(rt.alloc(), why)?.as_slice(), text.as_bytes());
    }
    Ok(())
}

const ID: Id = Id([0, 0, 0, 0, 0, 0, 0x40, 0, 0x80, 0, 0, 0, 0, 0, 0, 9]);

fn learnt(ip: [u8; 4], port: u16) -> WorkerNotice {
    WorkerNotice::TupleLearnt(ID, Tuple { ip, port })
}

// The shortest notice of a tuple, and the longest.
const SHORTEST: &str =
    r#"{"data":{"tuple":{"remoteIp":"0.0.0.0","remotePort":0}},"event":"tuple","targetId":"00000000-0000-4000-8000-000000000009"}"#;

const LONGEST: &str =
    r#"{"data":{"tuple":{"remoteIp":"255.255.255.255","remotePort":65535}},"event":"tuple","targetId":"00000000-0000-4000-8000-000000000009"}"#;

#[test]
fn notices_by_their_texts(rt: HostRuntime) -> Result<(), Fail> {
    for (notice, text) in [
        (
            WorkerNotice::Running,
            r#"{"event":"running","targetId":"worker"}"#,
        ),
        (
            WorkerNotice::ProducerClosed(ID),
            r#"{"event":"producerclose","targetId":"00000000-0000-4000-8000-000000000009"}"#,
        ),
        (
            WorkerNotice::ProducerPaused(ID),
            r#"{"event":"producerpause","targetId":"00000000-0000-4000-8000-000000000009"}"#,
        ),
        (
            WorkerNotice::ProducerResumed(ID),
            r#"{"event":"producerresume","targetId":"00000000-0000-4000-8000-000000000009"}"#,
        ),
        (learnt([0, 0, 0, 0], 0), SHORTEST),
        (learnt([255, 255, 255, 255], u16::MAX), LONGEST),
    ] {
        let payload = write_worker_notice(rt.alloc(), notice)?;
        assert_eq!(rt; payload.as_slice(), text.as_bytes());
    }
    Ok(())
}

#[test]
fn a_tuple_is_told_without_memory(rt: HostRuntime) {
    let mut buffer = [7; TUPLE_NOTICE];
    let tuple = Tuple {
        ip: [255; 4],
        port: u16::MAX,
    };
    let length = write_tuple_notice(ID, tuple, &mut buffer);
    assert_eq!(rt; &buffer[..length], LONGEST.as_bytes());
    let tuple = Tuple {
        ip: [0; 4],
        port: 0,
    };
    let length = write_tuple_notice(ID, tuple, &mut buffer);
    assert_eq!(rt; &buffer[..length], SHORTEST.as_bytes());
}
