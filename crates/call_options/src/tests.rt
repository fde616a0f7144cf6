use crate::{
    ConsumeOptions, OptionFault, PipeOptions, PlainOptions, ProduceOptions, caps_options,
    connect_options, consume_options, pipe_options, piped_consume_options, plain_options,
    produce_options, router_options,
};
use ms_base::{Code, Id, Media, NoMemory, Text, Tuple};
use rtp_params::{write_caps, write_params};
use std::alloc::Global;
use std::test::Fail;

const FORM: OptionFault = OptionFault::TypeError { code: Code::Form };

const MUX: OptionFault = OptionFault::Unsupported { code: Code::Mux };

fn text(alloc: Global, options: &str) -> Result<Text, NoMemory> {
    Text::from_str(alloc, options)
}

// What a reading comes to, in one word.
fn word_of<T: Drop>(read: Result<T, OptionFault>) -> &'static [u8] {
    match read {
        Ok(_) => b"ok",
        Err(OptionFault::TypeError { code }) => code.word(),
        Err(OptionFault::Unsupported { .. }) => b"unsupported",
        Err(OptionFault::NoMemory) => b"memory",
    }
}

// ---- transports

const HERE: [u8; 4] = [127, 0, 0, 1];

fn plain(comedia: bool) -> Result<PlainOptions, OptionFault> {
    Ok(PlainOptions {
        listen_ip: HERE,
        comedia,
    })
}

#[test]
fn plain_transports(rt: HostRuntime) -> Result<(), Fail> {
    for (options, expected) in [
        (r#"{"listenIp":"127.0.0.1"}"#, plain(false)),
        (
            r#" {"listenIp":{"ip":"127.0.0.1"},"comedia":true,"rtcpMux":true} "#,
            plain(true),
        ),
        (
            r#"{"listenIp":{"ip":"127.0.0.1","more":null},"comedia":false}"#,
            plain(false),
        ),
        (r#"{"listenIp":"127.0.0.1","rtcpMux":false}"#, Err(MUX)),
        (
            r#"{"listenIp":"127.0.0.1","rtcpMux":false,"comedia":0}"#,
            Err(FORM),
        ),
        (r#"{"listenIp":"127.0.0.1","rtcpMux":null}"#, Err(FORM)),
        (r#"{"listenIp":"127.0.0.1","comedia":null}"#, Err(FORM)),
        (r#"{"listenIp":"127.0.0.01"}"#, Err(FORM)),
        (r#"{"listenIp":"127.0.0.1 "}"#, Err(FORM)),
        (r#"{"listenIp":"::1"}"#, Err(FORM)),
        (r#"{"listenIp":{}}"#, Err(FORM)),
        (r#"{"listenIp":{"ip":{"ip":"127.0.0.1"}}}"#, Err(FORM)),
        (r#"{"listenIp":["127.0.0.1"]}"#, Err(FORM)),
        (r#"{"listenIp":null}"#, Err(FORM)),
        (r#"{"comedia":true}"#, Err(FORM)),
        (r#"["127.0.0.1"]"#, Err(FORM)),
        (r#"{"listenIp":"127.0.0.1"} x"#, Err(FORM)),
        ("", Err(FORM)),
    ] {
        let text = text(rt.alloc(), options)?;
        assert_eq!(rt; plain_options(rt.alloc(), &text), expected, "{options}");
    }
    Ok(())
}

fn pipe(enable_rtx: bool) -> Result<PipeOptions, OptionFault> {
    Ok(PipeOptions {
        listen_ip: HERE,
        enable_rtx,
    })
}

#[test]
fn pipe_transports(rt: HostRuntime) -> Result<(), Fail> {
    for (options, expected) in [
        (r#"{"listenIp":"127.0.0.1"}"#, pipe(false)),
        (
            r#"{"listenIp":{"ip":"127.0.0.1"},"enableRtx":true}"#,
            pipe(true),
        ),
        (r#"{"listenIp":"127.0.0.1","rtcpMux":false}"#, pipe(false)),
        (r#"{"listenIp":"127.0.0.1","enableRtx":null}"#, Err(FORM)),
        (r#"{"listenIp":"127.0.0.1","enableRtx":"true"}"#, Err(FORM)),
        (r#"{"listenIp":"256.0.0.1"}"#, Err(FORM)),
        (r#"{"enableRtx":true}"#, Err(FORM)),
        ("null", Err(FORM)),
    ] {
        let text = text(rt.alloc(), options)?;
        assert_eq!(rt; pipe_options(rt.alloc(), &text), expected, "{options}");
    }
    Ok(())
}

fn there(port: u16) -> Result<Tuple, OptionFault> {
    Ok(Tuple {
        ip: [192, 0, 2, 255],
        port,
    })
}

#[test]
fn other_ends(rt: HostRuntime) -> Result<(), Fail> {
    for (options, expected) in [
        (r#"{"ip":"192.0.2.255","port":1}"#, there(1)),
        (r#"{"port":65535,"ip":"192.0.2.255"}"#, there(65_535)),
        (r#"{"ip":"192.0.2.255","port":0}"#, Err(FORM)),
        (r#"{"ip":"192.0.2.255","port":65536}"#, Err(FORM)),
        (r#"{"ip":"192.0.2.255","port":1.0}"#, Err(FORM)),
        (r#"{"ip":"192.0.2.255","port":"1"}"#, Err(FORM)),
        (r#"{"ip":"192.0.2.255","port":null}"#, Err(FORM)),
        (r#"{"ip":"192.0.2.255"}"#, Err(FORM)),
        (r#"{"ip":"192.0.2","port":1}"#, Err(FORM)),
        (r#"{"ip":{"ip":"192.0.2.255"},"port":1}"#, Err(FORM)),
        (r#"{"port":1}"#, Err(FORM)),
        (r#""192.0.2.255""#, Err(FORM)),
    ] {
        let text = text(rt.alloc(), options)?;
        assert_eq!(rt; connect_options(rt.alloc(), &text), expected, "{options}");
    }
    Ok(())
}

// ---- lists of a length

const CODEC: &str = r#"{"mimeType":"audio/opus","clockRate":48000,"payloadType":100}"#;

const EXT: &str = r#"{"uri":"urn:x","id":1,"preferredId":1}"#;

const ENCODINGS: &str =
    r#"{"ssrc":1},{"ssrc":2},{"ssrc":3},{"ssrc":4},{"ssrc":5},{"ssrc":6},{"ssrc":7},{"ssrc":8}"#;

// A text between two others, as often as said, with commas.
fn add_list(
    options: &mut String,
    before: &str,
    item: &str,
    count: u32,
    behind: &str,
) -> Result<(), NoMemory> {
    options.push_str(before)?;
    for i in 0..count {
        if i > 0 {
            options.push_str(",")?;
        }
        options.push_str(item)?;
    }
    options.push_str(behind)?;
    Ok(())
}

fn router_with(alloc: Global, codecs: u32) -> Result<Text, NoMemory> {
    let mut options = String::new(alloc);
    add_list(&mut options, r#"{"mediaCodecs":["#, CODEC, codecs, "]}")?;
    Ok(Text::from_string(options))
}

fn caps_with(alloc: Global, codecs: u32, exts: u32) -> Result<Text, NoMemory> {
    let mut options = String::new(alloc);
    add_list(&mut options, r#"{"codecs":["#, CODEC, codecs, "]")?;
    add_list(&mut options, r#","headerExtensions":["#, EXT, exts, "]}")?;
    Ok(Text::from_string(options))
}

fn consume_with(alloc: Global, codecs: u32, exts: u32) -> Result<Text, NoMemory> {
    let caps = caps_with(alloc, codecs, exts)?;
    let mut options = String::from_str(alloc, r#"{"rtpCapabilities":"#)?;
    options.push_str(caps.as_str())?;
    options.push_str("}")?;
    Ok(Text::from_string(options))
}

fn produce_with(
    alloc: Global,
    kind: &str,
    codecs: u32,
    exts: u32,
    encodings: &str,
) -> Result<Text, NoMemory> {
    let mut options = String::from_str(alloc, r#"{"kind":""#)?;
    options.push_str(kind)?;
    options.push_str(r#"","rtpParameters":{"#)?;
    add_list(&mut options, r#""codecs":["#, CODEC, codecs, "]")?;
    add_list(&mut options, r#","headerExtensions":["#, EXT, exts, "]")?;
    add_list(&mut options, r#","encodings":["#, encodings, 1, "]}}")?;
    Ok(Text::from_string(options))
}

// ---- Routers

// Options of Routers: each a code, or `ok`, and what comes to it.
const ROUTERS: &str = r#"ok {"mediaCodecs":[]}
ok {"mediaCodecs":[{"mimeType":"video/VP8","clockRate":90000}],"more":1}
form {"mediaCodecs":[{"mimeType":"video/VP8","clockRate":90000,"preferredPayloadType":128}]}
form {"mediaCodecs":[7]}
form {"mediaCodecs":{}}
form {"mediaCodecs":null}
form {"codecs":[]}
form {}
form []
form {"#;

#[test]
fn router_codecs(rt: HostRuntime) -> Result<(), Fail> {
    for case in ROUTERS.lines() {
        let (expected, options) = case.split_once(' ').ok_or("no options")?;
        let text = text(rt.alloc(), options)?;
        let word = word_of(router_options(rt.alloc(), &text));
        assert_eq!(rt; word, expected.as_bytes(), "{options}");
    }
    Ok(())
}

#[test]
fn a_router_has_up_to_32_codecs(rt: HostRuntime) -> Result<(), Fail> {
    for (codecs, expected) in [(0, "ok"), (32, "ok"), (33, "many")] {
        let text = router_with(rt.alloc(), codecs)?;
        assert_eq!(rt;
            word_of(router_options(rt.alloc(), &text)),
            expected.as_bytes()
        );
    }
    let codecs = router_options(rt.alloc(), &router_with(rt.alloc(), 2)?)?;
    let found = codecs.as_slice();
    assert_eq!(rt; found.len(), 2);
    assert_eq!(rt; found[1].clock_rate, 48_000);
    assert_eq!(rt; found[1].payload_type, None);
    Ok(())
}

// ---- Producers

// Options of Producers: the first fault of form or SSRC counts, then a limit, and then the kind.
const PRODUCERS: &str =
    r#"ok {"kind":"video","rtpParameters":{"codecs":[{"mimeType":"VIDEO/VP8","clockRate":90000,"payloadType":96},{"mimeType":"video/rtx","clockRate":90000,"payloadType":97}],"encodings":[{"ssrc":0}]}}
form {"rtpParameters":{"codecs":[],"encodings":[{}]}}
form {"kind":7,"rtpParameters":{"codecs":[],"encodings":[{}]}}
form {"kind":"audio"}
form {"kind":"audio","rtpParameters":null}
form {"kind":"audio","rtpParameters":{"encodings":[{}]}}
form {"kind":"audio","rtpParameters":{"codecs":[]}}
ssrc {"kind":"data","rtpParameters":{"codecs":[],"encodings":[{}]},"paused":0,"id":0}
ssrc {"kind":"data","rtpParameters":{"codecs":[],"encodings":[{"ssrc":7},{"ssrc":7}]}}
form {"kind":"data","rtpParameters":{"codecs":[],"encodings":[{"ssrc":7,"rtx":{}}]}}
form {"kind":"data","rtpParameters":{"codecs":[],"encodings":[]},"paused":null}
form {"kind":"data","rtpParameters":{"codecs":[],"encodings":[]},"id":null}
form {"kind":"data","rtpParameters":{"codecs":[],"encodings":[]},"id":"00000000-0000-4000-8000-00000000000"}
form {"kind":"data","rtpParameters":{"codecs":[],"encodings":[]},"id":"{00000000-0000-4000-8000-000000000001}"}
many {"kind":"data","rtpParameters":{"codecs":[],"encodings":[{"ssrc":7}]}}
many {"kind":"data","rtpParameters":{"codecs":[{"mimeType":"audio/opus","clockRate":48000,"payloadType":100}],"encodings":[]}}
kind {"kind":"data","rtpParameters":{"codecs":[{"mimeType":"audio/opus","clockRate":48000,"payloadType":100}],"encodings":[{"ssrc":7}]}}
kind {"kind":"Audio","rtpParameters":{"codecs":[{"mimeType":"audio/opus","clockRate":48000,"payloadType":100}],"encodings":[{"ssrc":7}]}}
kind {"kind":"video","rtpParameters":{"codecs":[{"mimeType":"audio/opus","clockRate":48000,"payloadType":100}],"encodings":[{"ssrc":7}]}}
kind {"kind":"video","rtpParameters":{"codecs":[{"mimeType":"video/VP8","clockRate":90000,"payloadType":96},{"mimeType":"audio/rtx","clockRate":90000,"payloadType":97}],"encodings":[{"ssrc":7}]}}
form []
form "#;

#[test]
fn producers(rt: HostRuntime) -> Result<(), Fail> {
    for case in PRODUCERS.lines() {
        let (expected, options) = case.split_once(' ').ok_or("no options")?;
        let text = text(rt.alloc(), options)?;
        let word = word_of(produce_options(rt.alloc(), &text));
        assert_eq!(rt; word, expected.as_bytes(), "{options}");
    }
    Ok(())
}

#[test]
fn a_producer_has_as_many_items_as_it_may(rt: HostRuntime) -> Result<(), Fail> {
    for (codecs, exts, encodings, expected) in [
        (1, 0, r#"{"ssrc":9}"#, "ok"),
        (32, 32, ENCODINGS, "ok"),
        (0, 0, ENCODINGS, "many"),
        (33, 0, ENCODINGS, "many"),
        (1, 33, ENCODINGS, "many"),
        (1, 0, "", "many"),
    ] {
        let text = produce_with(rt.alloc(), "audio", codecs, exts, encodings)?;
        assert_eq!(rt;
            word_of(produce_options(rt.alloc(), &text)),
            expected.as_bytes()
        );
    }
    let mut nine = String::from_str(rt.alloc(), ENCODINGS)?;
    nine.push_str(r#",{"ssrc":9}"#)?;
    let text = produce_with(rt.alloc(), "video", 1, 0, nine.as_str())?;
    assert_eq!(rt;
        word_of(produce_options(rt.alloc(), &text)),
        b"many".as_slice()
    );
    Ok(())
}

const MICROPHONE: &str =
    r#"{"codecs":[{"channels":2,"clockRate":48000,"mimeType":"audio/opus","parameters":{"minptime":10},"payloadType":111,"rtcpFeedback":[]}],"encodings":[{"rtx":{"ssrc":3},"ssrc":2}],"headerExtensions":[{"id":4,"uri":"urn:x"}],"rtcp":{"cname":"c","reducedSize":false}}"#;

// The options of a Producer of the microphone, with these members beside its kind and its parameters.
fn microphone_with(alloc: Global, more: &str) -> Result<ProduceOptions, Fail> {
    let mut options = String::from_str(alloc, r#"{"kind":"audio","rtpParameters":"#)?;
    options.push_str(MICROPHONE)?;
    options.push_str(more)?;
    options.push_str("}")?;
    Ok(produce_options(alloc, &Text::from_string(options))?)
}

const ID: Id = Id([
    0xAB, 0xCD, 0xEF, 1, 0x23, 0x45, 0x46, 0x78, 0x89, 0xAB, 0, 0, 0, 0, 0, 9,
]);

#[test]
fn a_producer_is_what_its_options_say(rt: HostRuntime) -> Result<(), Fail> {
    for (more, paused, id) in [
        ("", false, None),
        (r#","paused":false"#, false, None),
        (r#","paused":true"#, true, None),
        (
            r#","id":"abcdef01-2345-4678-89ab-000000000009""#,
            false,
            Some(ID),
        ),
        (
            r#","id":"ABCDEF01-2345-4678-89Ab-000000000009","paused":true"#,
            true,
            Some(ID),
        ),
    ] {
        let options = microphone_with(rt.alloc(), more)?;
        assert_eq!(rt; options.media, Media::Audio);
        assert_eq!(rt; (options.paused, options.id), (paused, id), "{more}");
        let params = write_params(rt.alloc(), &options.params)?.to_string(rt.alloc())?;
        assert_eq!(rt; params.as_str(), MICROPHONE);
    }
    Ok(())
}

// ---- Consumers

// Options of Consumers.
const CONSUMERS: &str = r#"ok {"rtpCapabilities":{}}
ok {"rtpCapabilities":{"codecs":[],"headerExtensions":[]},"paused":true}
form {"rtpCapabilities":{"codecs":null}}
form {"rtpCapabilities":{"headerExtensions":[{}]}}
form {"rtpCapabilities":[]}
form {"rtpCapabilities":{},"paused":null}
form {"paused":true}
form 7"#;

#[test]
fn consumers(rt: HostRuntime) -> Result<(), Fail> {
    for case in CONSUMERS.lines() {
        let (expected, options) = case.split_once(' ').ok_or("no options")?;
        let text = text(rt.alloc(), options)?;
        let word = word_of(consume_options(rt.alloc(), &text));
        assert_eq!(rt; word, expected.as_bytes(), "{options}");
    }
    Ok(())
}

#[test]
fn capabilities_have_up_to_128_items(rt: HostRuntime) -> Result<(), Fail> {
    for (codecs, exts, expected) in [
        (0, 0, "ok"),
        (128, 128, "ok"),
        (129, 0, "many"),
        (0, 129, "many"),
    ] {
        let consume = consume_with(rt.alloc(), codecs, exts)?;
        assert_eq!(rt;
            word_of(consume_options(rt.alloc(), &consume)),
            expected.as_bytes()
        );
        let caps = caps_with(rt.alloc(), codecs, exts)?;
        assert_eq!(rt;
            word_of(caps_options(rt.alloc(), &caps)),
            expected.as_bytes()
        );
    }
    Ok(())
}

#[test]
fn consumers_over_a_pipe(rt: HostRuntime) -> Result<(), Fail> {
    for (options, expected) in [
        ("{}", Ok(false)),
        (r#"{"paused":true}"#, Ok(true)),
        (r#"{"paused":false,"rtpCapabilities":null}"#, Ok(false)),
        (r#"{"paused":null}"#, Err(FORM)),
        ("true", Err(FORM)),
        ("", Err(FORM)),
    ] {
        let text = text(rt.alloc(), options)?;
        assert_eq!(rt;
            piped_consume_options(rt.alloc(), &text),
            expected,
            "{options}"
        );
    }
    Ok(())
}

const RECEIVER: &str =
    r#"{"codecs":[{"clockRate":90000,"mimeType":"video/VP8","parameters":{},"rtcpFeedback":[]}],"headerExtensions":[{"direction":"recvonly","kind":"video","preferredId":2,"uri":"urn:x"}]}"#;

// Capabilities.
const CAPABILITIES: &str = r#"ok {}
ok {"rtpCapabilities":{}}
form {"codecs":{}}
form []
form {}{}"#;

#[test]
fn capabilities(rt: HostRuntime) -> Result<(), Fail> {
    for case in CAPABILITIES.lines() {
        let (expected, options) = case.split_once(' ').ok_or("no options")?;
        let text = text(rt.alloc(), options)?;
        let word = word_of(caps_options(rt.alloc(), &text));
        assert_eq!(rt; word, expected.as_bytes(), "{options}");
    }
    let caps = caps_options(rt.alloc(), &text(rt.alloc(), RECEIVER)?)?;
    let written = write_caps(rt.alloc(), &caps)?.to_string(rt.alloc())?;
    assert_eq!(rt; written.as_str(), RECEIVER);
    Ok(())
}

#[test]
fn a_consumer_is_what_its_options_say(rt: HostRuntime) -> Result<(), Fail> {
    let mut options = String::from_str(rt.alloc(), r#"{"paused":true,"rtpCapabilities":"#)?;
    options.push_str(RECEIVER)?;
    options.push_str("}")?;
    let ConsumeOptions { caps, paused } = consume_options(rt.alloc(), &Text::from_string(options))?;
    let written = write_caps(rt.alloc(), &caps)?.to_string(rt.alloc())?;
    assert_eq!(rt; written.as_str(), RECEIVER);
    assert!(rt; paused);
    Ok(())
}
