//! Journals of the whole tree, with the lines that follow from them.

use crate::{Status, replay_top};
use ms_devices::{MemSink, MemSource};
use std::alloc::Global;
use std::string::String;
use std::test::Fail;

// A Worker w (serial 1), and a Router r (2), whose request had the id 1. A line `S: TEXT` stands for a chunk of the worker of slot
// S, with a frame for each text between bars.
const ROUTER: &str = r#"journal 1 7
call 1 worker w 0
spawned 1 1 up
1: {"event":"running","targetId":"worker"}
call 1 router r w {"mediaCodecs":[{"mimeType":"audio/opus","clockRate":48000,"channels":2},{"mimeType":"video/VP8","clockRate":90000}]}
1: {"accepted":true,"id":1}
"#;

// Behind it a direct transport d (3), a Producer p (4) and a Consumer c (5) of it, with the requests 2, 3 and 4.
const CONSUMER: &str = r#"call 1 direct d r
1: {"accepted":true,"id":2}
call 1 produce p d {"kind":"audio","rtpParameters":{"codecs":[{"mimeType":"audio/opus","payloadType":111,"clockRate":48000,"channels":2}],"encodings":[{"ssrc":2222}]}}
1: {"accepted":true,"id":3}
call 1 consume c d p {"rtpCapabilities":{"codecs":[{"mimeType":"audio/opus","clockRate":48000,"channels":2}]}}
1: {"accepted":true,"data":{"paused":false,"producerPaused":false},"id":4}
"#;

// How many lines follow from the first, and from both.
const OF_ROUTER: usize = 8;

const OF_CONSUMER: usize = 17;

// The text of a journal that is told so.
fn journal_of(alloc: Global, stories: &[&str]) -> Result<Vec<u8>, Fail> {
    let mut text = Vec::new(alloc);
    for story in stories {
        for line in story.lines() {
            match line.split_once(": ") {
                Some((slot, said)) => add_chunk(alloc, slot, said, &mut text)?,
                None => text.extend_from_slice(line.as_bytes())?,
            }
            text.push(b'\n')?;
        }
    }
    Ok(text)
}

fn add_chunk(alloc: Global, slot: &str, said: &str, text: &mut Vec<u8>) -> Result<(), Fail> {
    let mut bytes = Vec::new(alloc);
    for payload in said.split(" | ") {
        let length = u32::try_from(payload.len()).unwrap_or(0);
        bytes.extend_from_slice(&length.to_le_bytes())?;
        bytes.extend_from_slice(payload.as_bytes())?;
    }
    text.extend_from_slice(b"chunk ")?;
    text.extend_from_slice(slot.as_bytes())?;
    text.extend_from_slice(b" 1 ")?;
    let digits = hex::encode(alloc, bytes.as_slice())?;
    text.extend_from_slice(digits.as_bytes())?;
    Ok(())
}

// The lines behind so many of what the stories give.
fn told(alloc: Global, stories: &[&str], behind: usize) -> Result<Vec<u8>, Fail> {
    let journal = journal_of(alloc, stories)?;
    let mut source = MemSource::new(alloc, journal.as_slice(), Vec::new(alloc))?;
    let mut sink = MemSink::new(alloc, Vec::new(alloc))?;
    let status = replay_top(alloc, &mut source, &mut sink);
    let mut lines = Vec::new(alloc);
    if status != Status::DONE {
        lines.extend_from_slice(b"another status\n")?;
    }
    let got = sink.told().unwrap_or(b"no more told");
    for line in got.split_inclusive(|byte| *byte == b'\n').skip(behind) {
        lines.extend_from_slice(line)?;
    }
    Ok(lines)
}

#[test]
fn settles_the_request_of_its_own_id_and_channel(rt: HostRuntime) -> Result<(), Fail> {
    let alloc = rt.alloc();
    let second = r#"call 1 worker w2 0
spawned 2 1 up
2: {"event":"running","targetId":"worker"}
call 1 router r2 w2 {"mediaCodecs":[]}
1: {"accepted":true,"id":1}
2: {"accepted":true,"id":1}
"#;
    let table: [(&str, usize, &str); 3] = [
        (r#"1: {"accepted":true,"id":9}"#, OF_ROUTER, "late 1 1 9\n"),
        (r#"1: {"accepted":true,"id":1}"#, OF_ROUTER, "late 1 1 1\n"),
        (
            second,
            OF_ROUTER + 6,
            "late 1 1 1\nopen 4 router r2 00000000-0000-4007-8000-000000000004\nsettled 1 4 ok\n",
        ),
    ];
    for (story, behind, lines) in table {
        let got = told(alloc, &[ROUTER, story], behind)?;
        assert_eq!(rt; got.as_slice(), lines.as_bytes(), "{story}");
    }
    Ok(())
}

// A transport closes while its Producer is being made.
const CLOSED_UNDER: &str = r#"call 1 direct d r
1: {"accepted":true,"id":2}
call 1 produce p d {"kind":"audio","rtpParameters":{"codecs":[{"mimeType":"audio/opus","payloadType":111,"clockRate":48000,"channels":2}],"encodings":[{"ssrc":2222}]}}
call 2 close d
1: {"accepted":true,"id":3}
1: {"accepted":true,"id":4}
"#;

const CLOSED_UNDER_LINES: &str = r#"closed 3 d close
settled 1 4 closed d
sent 1 1 {"id":4,"internal":{"routerId":"00000000-0000-4007-8000-000000000002","transportId":"00000000-0000-4007-8000-000000000003"},"method":"transport.close"}
settled 2 1 ok
late 1 1 3
"#;

#[test]
fn settles_what_waits_under_a_closed_object(rt: HostRuntime) -> Result<(), Fail> {
    let got = told(rt.alloc(), &[ROUTER, CLOSED_UNDER], OF_ROUTER + 4)?;
    assert_eq!(rt; got.as_slice(), CLOSED_UNDER_LINES.as_bytes());
    Ok(())
}

#[test]
fn hears_a_pause_and_a_close_in_their_order(rt: HostRuntime) -> Result<(), Fail> {
    let alloc = rt.alloc();
    let accepted = r#"{"accepted":true,"id":5}"#;
    let closed = r#"{"event":"producerclose","targetId":"00000000-0000-4007-8000-000000000005"}"#;
    let table = [
        (
            format!(in alloc; "call 1 pause c\n1: {accepted} | {closed}\n")?,
            "paused c\nsettled 1 6 ok\nclosed 5 c producerclose\n",
        ),
        (
            format!(in alloc; "call 1 pause c\n1: {closed} | {accepted}\n")?,
            "closed 5 c producerclose\nsettled 1 6 closed c\nlate 1 1 5\n",
        ),
    ];
    for (story, lines) in table {
        let got = told(alloc, &[ROUTER, CONSUMER, story.as_str()], OF_CONSUMER + 1)?;
        assert_eq!(rt; got.as_slice(), lines.as_bytes(), "{story}");
    }
    Ok(())
}

// A client's video: VP8 with its retransmission, header extensions, and members that nobody reads.
const VIDEO: &str = r#"call 1 direct d r
1: {"accepted":true,"id":2}
call 1 produce p d {"kind":"video","rtpParameters":{"codecs":[{"mimeType":"video/VP8","payloadType":96,"clockRate":90000},{"mimeType":"video/rtx","payloadType":97,"clockRate":90000,"parameters":{"apt":96}}],"headerExtensions":[{"uri":"urn:ietf:params:rtp-hdrext:sdes:mid","id":1},{"uri":"http://www.webrtc.org/experiments/rtp-hdrext/abs-send-time","id":4}],"encodings":[{"ssrc":2222,"rtx":{"ssrc":2223},"rid":"h","scalabilityMode":"L1T3"}]}}
1: {"accepted":true,"id":3}
call 1 canconsume p {"codecs":[{"mimeType":"video/VP8","clockRate":90000}]}
call 1 canconsume p {"codecs":[{"mimeType":"video/VP9","clockRate":90000}]}
"#;

const MAPPING: &[u8] =
    br#""rtpMapping":{"codecs":[{"mappedPayloadType":101,"payloadType":96},{"mappedPayloadType":102,"payloadType":97}],"encodings":[{"mappedSsrc":100000000,"ssrc":2222}]}"#;

const VIDEO_LINES: &str = r#"open 4 producer p 00000000-0000-4007-8000-000000000004
settled 1 4 ok
settled 1 5 yes
settled 1 6 no
"#;

#[test]
fn maps_what_a_client_sends(rt: HostRuntime) -> Result<(), Fail> {
    let got = told(rt.alloc(), &[ROUTER, VIDEO], OF_ROUTER + 3)?;
    let is_mapped = got.windows(MAPPING.len()).any(|part| part == MAPPING);
    assert!(rt; is_mapped, "the mapping that is sent");
    assert!(rt; got.ends_with(VIDEO_LINES.as_bytes()), "what follows");
    Ok(())
}

#[test]
fn refuses_each_call_by_its_first_fault(rt: HostRuntime) -> Result<(), Fail> {
    let alloc = rt.alloc();
    let closing = r#"closed 2 r close
sent 1 1 {"id":2,"internal":{"routerId":"00000000-0000-4007-8000-000000000002"},"method":"router.close"}
settled 1 3 ok
"#;
    let table: [(&str, &str, &str); 9] = [
        (
            r#"call 1 router r w {"mediaCodecs":[]}"#,
            "",
            "settled 1 3 nametaken\n",
        ),
        (
            r#"call 1 router x zz {"mediaCodecs":[]}"#,
            "",
            "settled 1 3 noname\n",
        ),
        ("call 1 direct x w", "", "settled 1 3 wrongkind\n"),
        ("call 1 consume x w zz {}", "", "settled 1 3 noname\n"),
        (
            "call 1 close r\ncall 1 direct x r",
            closing,
            "settled 1 4 invalidstate\n",
        ),
        ("call 1 router x w []", "", "settled 1 3 typeerror form\n"),
        (
            r#"call 1 router x w {"mediaCodecs":[{"mimeType":"video/H264","clockRate":90000}]}"#,
            "",
            "settled 1 3 unsupported codec\n",
        ),
        (
            r#"call 1 plain x r {"listenIp":"127.0.0.1","rtcpMux":false}"#,
            "",
            "settled 1 3 unsupported mux\n",
        ),
        (
            "call 1 close r\nawait 1 r closed 1\nawait 1 r tuple 1",
            closing,
            "settled 1 4 ok\nsettled 1 5 missed\n",
        ),
    ];
    for (story, first, last) in table {
        let mut lines = String::from_str(alloc, first)?;
        lines.push_str(last)?;
        let got = told(alloc, &[ROUTER, story], OF_ROUTER)?;
        assert_eq!(rt; got.as_slice(), lines.as_bytes(), "{story}");
    }
    Ok(())
}

#[test]
fn refuses_a_request_that_is_too_long(rt: HostRuntime) -> Result<(), Fail> {
    let alloc = rt.alloc();
    let mut story = String::from_str(
        alloc,
        r#"call 1 produce q d {"kind":"audio","rtpParameters":{"codecs":[{"mimeType":"audio/opus","payloadType":111,"clockRate":48000,"channels":2}],"encodings":[{"ssrc":2223}],"rtcp":{"cname":""#,
    )?;
    for _ in 0..42_000 {
        story.push_str(
            "abcdefghijklmnopqrstuvwxyzabcdefghijklmnopqrstuvwxyzabcdefghijklmnopqrstuvwxyzabcdefghijklmnopqrstuv",
        )?;
    }
    story.push_str("\"}}}\n")?;
    let got = told(alloc, &[ROUTER, CONSUMER, story.as_str()], OF_CONSUMER)?;
    assert_eq!(rt; got.as_slice(), b"settled 1 6 toobig\n".as_slice());
    Ok(())
}
