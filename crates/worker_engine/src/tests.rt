use crate::{Act, Engine, PacketFrom};
use channel_msgs::packet_of;
use ms_base::{Id, Tuple};
use ms_devices::{Failed, MemOutbox, OutCall};
use std::alloc::Global;
use std::test::Fail;

// Each line is what the worker hears, a request, the port of the link that waits, a datagram for a link or a packet for a
// direct Producer, and what goes out by it, each behind a bar.
const CASES: &str =
    r#"{"id":1,"internal":{"routerId":"00000000-0000-4000-8000-000000000001"},"method":"worker.createRouter"} | {"accepted":true,"id":1}
{"data":{"comedia":true,"listenIp":{"ip":"127.0.0.1"},"rtcpMux":true},"id":2,"internal":{"routerId":"00000000-0000-4000-8000-000000000001","transportId":"00000000-0000-4000-8000-000000000002"},"method":"router.createPlainTransport"} | bind 1 127.0.0.1
port 40000 | {"accepted":true,"data":{"tuple":{"localIp":"127.0.0.1","localPort":40000}},"id":2}
{"data":{"comedia":false,"listenIp":{"ip":"127.0.0.1"},"rtcpMux":true},"id":3,"internal":{"routerId":"00000000-0000-4000-8000-000000000001","transportId":"00000000-0000-4000-8000-000000000003"},"method":"router.createPlainTransport"} | bind 2 127.0.0.1
port 40001 | {"accepted":true,"data":{"tuple":{"localIp":"127.0.0.1","localPort":40001}},"id":3}
{"data":{"enableRtx":false,"listenIp":{"ip":"127.0.0.1"}},"id":4,"internal":{"routerId":"00000000-0000-4000-8000-000000000001","transportId":"00000000-0000-4000-8000-000000000004"},"method":"router.createPipeTransport"} | bind 3 127.0.0.1
port 40002 | {"accepted":true,"data":{"tuple":{"localIp":"127.0.0.1","localPort":40002}},"id":4}
{"data":{"direct":true},"id":5,"internal":{"routerId":"00000000-0000-4000-8000-000000000001","transportId":"00000000-0000-4000-8000-000000000005"},"method":"router.createDirectTransport"} | {"accepted":true,"id":5}
{"data":{"kind":"audio","paused":false,"rtpMapping":{"codecs":[{"mappedPayloadType":100,"payloadType":111}],"encodings":[{"mappedSsrc":100000000,"ssrc":2222}]},"rtpParameters":{"codecs":[{"channels":2,"clockRate":48000,"mimeType":"audio/opus","payloadType":111}],"encodings":[{"ssrc":2222}]}},"id":6,"internal":{"producerId":"00000000-0000-4000-8000-00000000000a","routerId":"00000000-0000-4000-8000-000000000001","transportId":"00000000-0000-4000-8000-000000000002"},"method":"transport.produce"} | {"accepted":true,"data":{"type":"simple"},"id":6}
{"data":{"consumableRtpEncodings":[{"ssrc":100000000}],"kind":"audio","paused":false,"rtpParameters":{"codecs":[{"channels":2,"clockRate":48000,"mimeType":"audio/opus","payloadType":100}],"encodings":[{"ssrc":100000001}]},"type":"simple"},"id":7,"internal":{"consumerId":"00000000-0000-4000-8000-000000000014","producerId":"00000000-0000-4000-8000-00000000000a","routerId":"00000000-0000-4000-8000-000000000001","transportId":"00000000-0000-4000-8000-000000000003"},"method":"transport.consume"} | {"accepted":true,"data":{"paused":false,"producerPaused":false},"id":7}
{"data":{"consumableRtpEncodings":[{"ssrc":100000000}],"kind":"audio","paused":false,"rtpParameters":{"codecs":[{"channels":2,"clockRate":48000,"mimeType":"audio/opus","payloadType":100}],"encodings":[{"ssrc":100000002}]},"type":"pipe"},"id":8,"internal":{"consumerId":"00000000-0000-4000-8000-000000000015","producerId":"00000000-0000-4000-8000-00000000000a","routerId":"00000000-0000-4000-8000-000000000001","transportId":"00000000-0000-4000-8000-000000000004"},"method":"transport.consume"} | {"accepted":true,"data":{"paused":false,"producerPaused":false},"id":8}
{"data":{"consumableRtpEncodings":[{"ssrc":100000000}],"kind":"audio","paused":false,"rtpParameters":{"codecs":[{"channels":2,"clockRate":48000,"mimeType":"audio/opus","payloadType":100}],"encodings":[{"ssrc":100000003}]},"type":"simple"},"id":9,"internal":{"consumerId":"00000000-0000-4000-8000-000000000016","producerId":"00000000-0000-4000-8000-00000000000a","routerId":"00000000-0000-4000-8000-000000000001","transportId":"00000000-0000-4000-8000-000000000005"},"method":"transport.consume"} | {"accepted":true,"data":{"paused":false,"producerPaused":false},"id":9}
{"data":{"ip":"127.0.0.1","port":6000},"id":10,"internal":{"routerId":"00000000-0000-4000-8000-000000000001","transportId":"00000000-0000-4000-8000-000000000003"},"method":"transport.connect"} | {"accepted":true,"data":{"tuple":{"remoteIp":"127.0.0.1","remotePort":6000}},"id":10}
from 1 127.0.0.1:5004 8080808080808080808080
from 1 127.0.0.1:5004 806f00070000000a000008aeaabb | {"data":{"tuple":{"remoteIp":"127.0.0.1","remotePort":5004}},"event":"tuple","targetId":"00000000-0000-4000-8000-000000000002"} | send 2 127.0.0.1:6000 806400010000000a05f5e101aabb | packet 00000000-0000-4000-8000-000000000016 806400010000000a05f5e103aabb
from 1 127.0.0.1:5005 806f00080000000a000008aeaabb
from 1 127.0.0.1:5004 806f00080000000a000008afaabb
from 9 127.0.0.1:5004 806f00080000000a000008aeaabb
{"data":{"ip":"127.0.0.1","port":6001},"id":11,"internal":{"routerId":"00000000-0000-4000-8000-000000000001","transportId":"00000000-0000-4000-8000-000000000004"},"method":"transport.connect"} | {"accepted":true,"data":{"tuple":{"remoteIp":"127.0.0.1","remotePort":6001}},"id":11}
from 1 127.0.0.1:5004 806f00080000000a000008aecc | send 2 127.0.0.1:6000 806400020000000a05f5e101cc | send 3 127.0.0.1:6001 806400010000000a05f5e102cc | packet 00000000-0000-4000-8000-000000000016 806400020000000a05f5e103cc
{"id":12,"internal":{"producerId":"00000000-0000-4000-8000-00000000000a","routerId":"00000000-0000-4000-8000-000000000001","transportId":"00000000-0000-4000-8000-000000000002"},"method":"producer.pause"} | {"event":"producerpause","targetId":"00000000-0000-4000-8000-000000000014"} | {"event":"producerpause","targetId":"00000000-0000-4000-8000-000000000015"} | {"event":"producerpause","targetId":"00000000-0000-4000-8000-000000000016"} | {"accepted":true,"id":12}
from 1 127.0.0.1:5004 806f00090000000a000008aedd
{"id":13,"internal":{"producerId":"00000000-0000-4000-8000-00000000000a","routerId":"00000000-0000-4000-8000-000000000001","transportId":"00000000-0000-4000-8000-000000000002"},"method":"producer.resume"} | {"event":"producerresume","targetId":"00000000-0000-4000-8000-000000000014"} | {"event":"producerresume","targetId":"00000000-0000-4000-8000-000000000015"} | {"event":"producerresume","targetId":"00000000-0000-4000-8000-000000000016"} | {"accepted":true,"id":13}
{"id":14,"internal":{"consumerId":"00000000-0000-4000-8000-000000000015","producerId":"00000000-0000-4000-8000-00000000000a","routerId":"00000000-0000-4000-8000-000000000001","transportId":"00000000-0000-4000-8000-000000000004"},"method":"consumer.pause"} | {"accepted":true,"id":14}
from 1 127.0.0.1:5004 806f001e0000000a000008aeee | send 2 127.0.0.1:6000 806400030000000a05f5e101ee | packet 00000000-0000-4000-8000-000000000016 806400030000000a05f5e103ee
{"data":{"kind":"video","paused":false,"rtpMapping":{"codecs":[{"mappedPayloadType":101,"payloadType":96}],"encodings":[{"mappedSsrc":200000000,"ssrc":3333}]},"rtpParameters":{"codecs":[{"clockRate":90000,"mimeType":"video/VP8","payloadType":96}],"encodings":[{"ssrc":3333}]}},"id":15,"internal":{"producerId":"00000000-0000-4000-8000-00000000000b","routerId":"00000000-0000-4000-8000-000000000001","transportId":"00000000-0000-4000-8000-000000000002"},"method":"transport.produce"} | {"accepted":true,"data":{"type":"simple"},"id":15}
{"data":{"consumableRtpEncodings":[{"ssrc":200000000}],"kind":"video","paused":false,"rtpParameters":{"codecs":[{"clockRate":90000,"mimeType":"video/VP8","payloadType":101}],"encodings":[{"ssrc":200000001}]},"type":"simple"},"id":16,"internal":{"consumerId":"00000000-0000-4000-8000-000000000017","producerId":"00000000-0000-4000-8000-00000000000b","routerId":"00000000-0000-4000-8000-000000000001","transportId":"00000000-0000-4000-8000-000000000003"},"method":"transport.consume"} | {"accepted":true,"data":{"paused":false,"producerPaused":false},"id":16}
from 1 127.0.0.1:5004 806000010000000a00000d051001
from 1 127.0.0.1:5004 806000020000000a00000d051000 | send 2 127.0.0.1:6000 806500010000000a0bebc2011000
from 1 127.0.0.1:5004 806000030000000a00000d051001 | send 2 127.0.0.1:6000 806500020000000a0bebc2011001
{"data":{"kind":"audio","paused":false,"rtpMapping":{"codecs":[{"mappedPayloadType":100,"payloadType":111}],"encodings":[{"mappedSsrc":300000000,"ssrc":4444},{"mappedSsrc":300000001,"ssrc":4445}]},"rtpParameters":{"codecs":[{"channels":2,"clockRate":48000,"mimeType":"audio/opus","payloadType":111}],"encodings":[{"ssrc":4444},{"ssrc":4445}]}},"id":17,"internal":{"producerId":"00000000-0000-4000-8000-00000000000c","routerId":"00000000-0000-4000-8000-000000000001","transportId":"00000000-0000-4000-8000-000000000005"},"method":"transport.produce"} | {"accepted":true,"data":{"type":"simulcast"},"id":17}
{"data":{"consumableRtpEncodings":[{"ssrc":300000000},{"ssrc":300000001}],"kind":"audio","paused":false,"rtpParameters":{"codecs":[{"channels":2,"clockRate":48000,"mimeType":"audio/opus","payloadType":100}],"encodings":[{"ssrc":300000002},{"ssrc":300000003}]},"type":"pipe"},"id":18,"internal":{"consumerId":"00000000-0000-4000-8000-000000000018","producerId":"00000000-0000-4000-8000-00000000000c","routerId":"00000000-0000-4000-8000-000000000001","transportId":"00000000-0000-4000-8000-000000000004"},"method":"transport.consume"} | {"accepted":true,"data":{"paused":false,"producerPaused":false},"id":18}
direct 00000000-0000-4000-8000-00000000000c 806f00320000000a0000115dff | send 3 127.0.0.1:6001 806400010000000a11e1a303ff
direct 00000000-0000-4000-8000-00000000000c 806f003c0000000a0000115cff | send 3 127.0.0.1:6001 806400010000000a11e1a302ff
direct 00000000-0000-4000-8000-00000000000c 806f00330000000a0000115dff | send 3 127.0.0.1:6001 806400020000000a11e1a303ff
direct 00000000-0000-4000-8000-00000000000d 806f00340000000a0000115dff
{"id":19,"internal":{"consumerId":"00000000-0000-4000-8000-000000000014","producerId":"00000000-0000-4000-8000-00000000000a","routerId":"00000000-0000-4000-8000-000000000001","transportId":"00000000-0000-4000-8000-000000000003"},"method":"consumer.close"} | {"accepted":true,"id":19}
from 1 127.0.0.1:5004 806f001f0000000a000008aeab | packet 00000000-0000-4000-8000-000000000016 806400040000000a05f5e103ab
{"id":20,"internal":{"producerId":"00000000-0000-4000-8000-00000000000c","routerId":"00000000-0000-4000-8000-000000000001","transportId":"00000000-0000-4000-8000-000000000005"},"method":"producer.close"} | {"event":"producerclose","targetId":"00000000-0000-4000-8000-000000000018"} | {"accepted":true,"id":20}
direct 00000000-0000-4000-8000-00000000000c 806f00350000000a0000115dff
{"id":21,"internal":{"routerId":"00000000-0000-4000-8000-000000000001","transportId":"00000000-0000-4000-8000-000000000002"},"method":"transport.close"} | {"event":"producerclose","targetId":"00000000-0000-4000-8000-000000000015"} | {"event":"producerclose","targetId":"00000000-0000-4000-8000-000000000016"} | {"event":"producerclose","targetId":"00000000-0000-4000-8000-000000000017"} | shut 1 | {"accepted":true,"id":21}
from 1 127.0.0.1:5004 806f00200000000a000008aeab"#;

// The channel's payload: a packet for an id, or a text.
fn payload_text(alloc: Global, payload: &[u8]) -> Result<String, Fail> {
    match packet_of(payload) {
        Some((id, packet)) => {
            let id = id.text();
            let id = std::str::from_utf8(&id).ok().ok_or("no text")?;
            let packet = hex::encode(alloc, packet)?;
            Ok(format!(in alloc; "packet {id} {packet}")?)
        }
        None => {
            let text = std::str::from_utf8(payload).ok().ok_or("no text")?;
            Ok(format!(in alloc; "{text}")?)
        }
    }
}

fn call_text(alloc: Global, call: &OutCall) -> Result<String, Fail> {
    match call {
        OutCall::Channel { frame, .. } => {
            let payload = frame.as_slice().get(4..).ok_or("no frame")?;
            payload_text(alloc, payload)
        }
        OutCall::Datagram {
            link,
            to,
            packet,
            ..
        } => {
            let [a, b, c, d] = to.ip;
            let port = to.port;
            let packet = hex::encode(alloc, packet.as_slice())?;
            Ok(format!(in alloc; "send {link} {a}.{b}.{c}.{d}:{port} {packet}")?)
        }
        _ => Ok(format!(in alloc; "no packet")?),
    }
}

fn act_text(alloc: Global, act: &Act) -> Result<String, Fail> {
    match act {
        Act::Say(payload) => payload_text(alloc, payload.as_slice()),
        Act::Bind { link, ip } => {
            let [a, b, c, d] = *ip;
            Ok(format!(in alloc; "bind {link} {a}.{b}.{c}.{d}")?)
        }
        Act::Shut { link } => Ok(format!(in alloc; "shut {link}")?),
    }
}

// The link and the tuple of a datagram, and its packet in hexadecimal digits.
fn datagram(event: &str) -> Result<(PacketFrom, &str), Fail> {
    let (link, rest) = event.split_once(' ').ok_or("no link")?;
    let (tuple, packet) = rest.split_once(' ').ok_or("no tuple")?;
    let port = tuple.strip_prefix("127.0.0.1:").ok_or("no address")?;
    let from = Tuple {
        ip: [127, 0, 0, 1],
        port: port.parse::<u16>().ok().ok_or("no port")?,
    };
    Ok((
        PacketFrom::Link(link.parse::<u32>().ok().ok_or("no number")?, from),
        packet,
    ))
}

// The id of a direct Producer, and its packet in hexadecimal digits.
fn direct(event: &str) -> Result<(PacketFrom, &str), Fail> {
    let (id, packet) = event.split_once(' ').ok_or("no id")?;
    let id = Id::parse(id.as_bytes()).ok_or("no id")?;
    Ok((PacketFrom::Direct(id), packet))
}

fn outbox(alloc: Global, fails: &[u32]) -> Result<MemOutbox, Fail> {
    Ok(MemOutbox::new(alloc, Vec::new(alloc), Vec::from_slice(alloc, fails)?)?)
}

// What goes out by a packet.
fn sent(
    alloc: Global,
    engine: &mut Engine,
    event: (PacketFrom, &str),
    mut text: String,
) -> Result<String, Fail> {
    let mut outbox = outbox(alloc, &[])?;
    let packet = hex::decode(alloc, event.1)?;
    engine.on_packet(event.0, packet.as_slice(), &mut outbox)?;
    for call in outbox.told().ok_or("nothing told")? {
        let call = call_text(alloc, call)?;
        text = format!(in alloc; "{text} | {call}")?;
    }
    Ok(text)
}

// What goes out by a request, or by a port.
fn acted(
    alloc: Global,
    engine: &mut Engine,
    event: &str,
    mut text: String,
) -> Result<String, Fail> {
    let mut acts = Vec::new(alloc);
    match event.strip_prefix("port ") {
        Some(port) => engine.on_bound(port.parse::<u16>().ok(), &mut acts)?,
        None => engine.on_payload(event.as_bytes(), &mut acts)?,
    }
    for act in &acts {
        let act = act_text(alloc, act)?;
        text = format!(in alloc; "{text} | {act}")?;
    }
    Ok(text)
}

// What is heard, and what goes out by it.
fn heard(alloc: Global, engine: &mut Engine, case: &str) -> Result<String, Fail> {
    let event = case.split_once(" | ").map_or(case, |parts| parts.0);
    let text = format!(in alloc; "{event}")?;
    if let Some(rest) = event.strip_prefix("from ") {
        return sent(alloc, engine, datagram(rest)?, text);
    }
    if let Some(rest) = event.strip_prefix("direct ") {
        return sent(alloc, engine, direct(rest)?, text);
    }
    acted(alloc, engine, event, text)
}

#[test]
fn packets_and_requests_one_after_another(rt: HostRuntime) -> Result<(), Fail> {
    let mut engine = Engine::new(rt.alloc())?;
    for case in CASES.lines() {
        assert_eq!(rt; heard(rt.alloc(), &mut engine, case)?.as_str(), case);
    }
    Ok(())
}

// A worker that has heard so many of the cases.
fn worker_after(alloc: Global, count: usize) -> Result<Engine, Fail> {
    let mut engine = Engine::new(alloc)?;
    for case in CASES.lines().take(count) {
        let _text = heard(alloc, &mut engine, case)?;
    }
    Ok(engine)
}

// How a packet ends where calls of the outbox fail, and how many calls there were.
fn failing(alloc: Global, fails: &[u32], case: &str) -> Result<(Result<(), Failed>, usize), Fail> {
    let mut engine = worker_after(alloc, 14)?;
    let mut outbox = outbox(alloc, fails)?;
    let (from, packet) = datagram(case)?;
    let packet = hex::decode(alloc, packet)?;
    let result = engine.on_packet(from, packet.as_slice(), &mut outbox);
    Ok((result, outbox.told().map_or(0, |calls| calls.len())))
}

const FIRST: &str = "1 127.0.0.1:5004 806f00070000000a000008aeaabb";

#[test]
fn a_lost_datagram_is_passed_over(rt: HostRuntime) -> Result<(), Fail> {
    assert_eq!(rt; failing(rt.alloc(), &[], FIRST)?, (Ok(()), 3));
    assert_eq!(rt; failing(rt.alloc(), &[2], FIRST)?, (Ok(()), 3));
    Ok(())
}

#[test]
fn the_channel_call_that_fails_is_the_last(rt: HostRuntime) -> Result<(), Fail> {
    assert_eq!(rt; failing(rt.alloc(), &[1], FIRST)?, (Err(Failed), 1));
    assert_eq!(rt; failing(rt.alloc(), &[3], FIRST)?, (Err(Failed), 3));
    Ok(())
}
