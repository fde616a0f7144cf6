use crate::{ServeEnd, serve};
use channel_frames::write_frame;
use ms_base::{Bytes, Tuple};
use ms_devices::{Inbox, MemEvent, MemInbox, MemOutbox, OutCall, Outbox};
use std::alloc::Global;
use std::test::Fail;

// The frame by which a worker says that it runs.
const RUNNING: &[u8] = b"\x27\0\0\0{\"event\":\"running\",\"targetId\":\"worker\"}";

// How a worker ends over these bytes of its channel, and the frames that it sends.
fn served(
    alloc: Global,
    bytes: &[u8],
    reads: &[u32],
    writes: &[u32],
) -> Result<(ServeEnd, Vec<u8>), Fail> {
    let mut events = Vec::new(alloc);
    events.push(MemEvent::Channel(Bytes::from_slice(alloc, bytes)?))?;
    let mut inbox = MemInbox::new(alloc, events, Vec::from_slice(alloc, reads)?)?;
    let mut outbox = MemOutbox::new(alloc, Vec::new(alloc), Vec::from_slice(alloc, writes)?)?;
    let end = serve_over(alloc, &mut inbox, &mut outbox);
    let mut sent = Vec::new(alloc);
    for call in outbox.told().unwrap_or(&[]) {
        if let OutCall::Channel {
            frame,
            failed: false,
        } = call
        {
            sent.extend_from_slice(frame.as_slice())?;
        }
    }
    Ok((end, sent))
}

// Through the bounds alone.
fn serve_over<I: Inbox, O: Outbox>(alloc: Global, inbox: &mut I, outbox: &mut O) -> ServeEnd {
    serve(alloc, inbox, outbox)
}

#[test]
fn says_that_it_runs_and_ends_by_its_channel(rt: HostRuntime) -> Result<(), Fail> {
    let broken = ServeEnd::TooLong {
        place: 0,
        length: 4_194_305,
    };
    let table: [(&[u8], &[u32], &[u32], ServeEnd, &[u8]); 4] = [
        (b"", &[], &[], ServeEnd::End, RUNNING),
        (b"\x01\0\x40\0", &[], &[], broken, RUNNING),
        (b"", &[1], &[], ServeEnd::Read, RUNNING),
        (b"", &[], &[1], ServeEnd::Write, b""),
    ];
    for (bytes, reads, writes, end, frames) in table {
        let (ended, sent) = served(rt.alloc(), bytes, reads, writes)?;
        assert_eq!(rt; ended, end, "{bytes:?}");
        assert_eq!(rt; sent.as_slice(), frames, "{bytes:?}");
    }
    Ok(())
}

// A Router, a plain transport that learns its other end, a pipe transport whose link fails and then one whose link
// opens, a Producer on the one and a Consumer on the other.
const REQUESTS: &str =
    r#"{"id":1,"internal":{"routerId":"00000000-0000-4000-8000-000000000001"},"method":"worker.createRouter"}
{"data":{"comedia":true,"listenIp":{"ip":"127.0.0.1"},"rtcpMux":true},"id":2,"internal":{"routerId":"00000000-0000-4000-8000-000000000001","transportId":"00000000-0000-4000-8000-000000000002"},"method":"router.createPlainTransport"}
{"data":{"enableRtx":false,"listenIp":{"ip":"127.0.0.1"}},"id":3,"internal":{"routerId":"00000000-0000-4000-8000-000000000001","transportId":"00000000-0000-4000-8000-000000000003"},"method":"router.createPipeTransport"}
{"data":{"enableRtx":false,"listenIp":{"ip":"127.0.0.1"}},"id":4,"internal":{"routerId":"00000000-0000-4000-8000-000000000001","transportId":"00000000-0000-4000-8000-000000000003"},"method":"router.createPipeTransport"}
{"data":{"ip":"127.0.0.1","port":5004},"id":5,"internal":{"routerId":"00000000-0000-4000-8000-000000000001","transportId":"00000000-0000-4000-8000-000000000003"},"method":"transport.connect"}
{"data":{"kind":"audio","paused":false,"rtpMapping":{"codecs":[{"mappedPayloadType":100,"payloadType":111}],"encodings":[{"mappedSsrc":100000000,"ssrc":2222}]},"rtpParameters":{"codecs":[{"channels":2,"clockRate":48000,"mimeType":"audio/opus","payloadType":111}],"encodings":[{"ssrc":2222}]}},"id":6,"internal":{"producerId":"00000000-0000-4000-8000-000000000005","routerId":"00000000-0000-4000-8000-000000000001","transportId":"00000000-0000-4000-8000-000000000002"},"method":"transport.produce"}
{"data":{"consumableRtpEncodings":[{"ssrc":100000000}],"kind":"audio","paused":false,"rtpParameters":{"codecs":[{"channels":2,"clockRate":48000,"mimeType":"audio/opus","payloadType":100}],"encodings":[{"ssrc":100000001}]},"type":"simple"},"id":7,"internal":{"consumerId":"00000000-0000-4000-8000-000000000008","producerId":"00000000-0000-4000-8000-000000000005","routerId":"00000000-0000-4000-8000-000000000001","transportId":"00000000-0000-4000-8000-000000000003"},"method":"transport.consume"}"#;

// What the worker does then, where the second of its calls for a link fails, and the first of its datagrams.
const CALLS: &str = r#"channel {"event":"running","targetId":"worker"}
channel {"accepted":true,"id":1}
bind 1 40000
channel {"accepted":true,"data":{"tuple":{"localIp":"127.0.0.1","localPort":40000}},"id":2}
bind 2 failed
channel {"error":"Error","id":3,"reason":"link"}
bind 3 40001
channel {"accepted":true,"data":{"tuple":{"localIp":"127.0.0.1","localPort":40001}},"id":4}
channel {"accepted":true,"data":{"tuple":{"remoteIp":"127.0.0.1","remotePort":5004}},"id":5}
channel {"accepted":true,"data":{"type":"simple"},"id":6}
channel {"accepted":true,"data":{"paused":false,"producerPaused":false},"id":7}
channel {"data":{"tuple":{"remoteIp":"127.0.0.1","remotePort":6000}},"event":"tuple","targetId":"00000000-0000-4000-8000-000000000002"}
datagram 3 5004 [128, 100, 0, 1, 0, 0, 0, 10, 5, 245, 225, 1, 170] failed
datagram 3 5004 [128, 100, 0, 2, 0, 0, 0, 10, 5, 245, 225, 1, 187]
"#;

// What it does where its reply behind the first link can't be sent.
const CUT: &str = r#"channel {"event":"running","targetId":"worker"}
channel {"accepted":true,"id":1}
bind 1 40000
channel {"accepted":true,"data":{"tuple":{"localIp":"127.0.0.1","localPort":40000}},"id":2} failed
"#;

// Two packets of the Producer.
const PACKETS: [&[u8]; 2] = [
    b"\x80\x6f\0\x07\0\0\0\x0a\0\0\x08\xae\xaa",
    b"\x80\x6f\0\x08\0\0\0\x0a\0\0\x08\xae\xbb",
];

// The requests on the channel, and the packets by the first link.
fn played(alloc: Global) -> Result<MemInbox, Fail> {
    let mut frames = Bytes::new(alloc);
    for request in REQUESTS.lines() {
        write_frame(alloc, request.as_bytes(), &mut frames)?;
    }
    let mut events = Vec::new(alloc);
    events.push(MemEvent::Channel(frames))?;
    for packet in PACKETS {
        events.push(MemEvent::Datagram {
            link: 1,
            from: Tuple {
                ip: [127, 0, 0, 1],
                port: 6000,
            },
            packet: Bytes::from_slice(alloc, packet)?,
        })?;
    }
    Ok(MemInbox::new(alloc, events, Vec::new(alloc))?)
}

fn call_text(alloc: Global, call: &OutCall) -> Result<String, Fail> {
    let (text, failed) = match call {
        OutCall::Bind {
            link,
            port: Some(port),
            ..
        } => (format!(in alloc; "bind {link} {port}")?, false),
        OutCall::Bind { link, .. } => (format!(in alloc; "bind {link}")?, true),
        OutCall::Shut { link } => (format!(in alloc; "shut {link}")?, false),
        OutCall::Channel { frame, failed } => {
            let payload = frame.as_slice().get(4..).ok_or("no frame")?;
            let text = std::str::from_utf8(payload).ok().ok_or("no text")?;
            (format!(in alloc; "channel {text}")?, *failed)
        }
        OutCall::Datagram {
            link,
            to,
            packet,
            failed,
        } => {
            let (port, bytes) = (to.port, packet.as_slice());
            (
                format!(in alloc; "datagram {link} {port} {bytes:?}")?,
                *failed,
            )
        }
    };
    let end = if failed { " failed" } else { "" };
    Ok(format!(in alloc; "{text}{end}\n")?)
}

// How the worker ends where these of its calls fail, and all of them.
fn calls_of(alloc: Global, fails: &[u32]) -> Result<(ServeEnd, String), Fail> {
    let mut answers = Vec::new(alloc);
    for answer in [Some(40000), None, Some(40001)] {
        answers.push(answer)?;
    }
    let mut outbox = MemOutbox::with_answers(alloc, answers, Vec::from_slice(alloc, fails)?);
    let end = serve_over(alloc, &mut played(alloc)?, &mut outbox);
    let mut text = String::new(alloc);
    for call in outbox.told().unwrap_or(&[]) {
        text.push_str(call_text(alloc, call)?.as_str())?;
    }
    Ok((end, text))
}

#[test]
fn goes_on_behind_a_failed_link_and_a_failed_datagram(rt: HostRuntime) -> Result<(), Fail> {
    let (end, text) = calls_of(rt.alloc(), &[13])?;
    assert_eq!(rt; text.as_str(), CALLS);
    assert_eq!(rt; end, ServeEnd::End);
    Ok(())
}

#[test]
fn ends_where_the_channel_fails_behind_a_link(rt: HostRuntime) -> Result<(), Fail> {
    let (end, text) = calls_of(rt.alloc(), &[4])?;
    assert_eq!(rt; text.as_str(), CUT);
    assert_eq!(rt; end, ServeEnd::Write);
    Ok(())
}
