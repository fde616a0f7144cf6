use crate::{MapFault, producer_mapping, router_caps};
use ms_base::Code;
use rtp_params::{Caps, Codec, Items, Mapping, Params, read_caps, read_params, write_caps};
use serde_json::Value;
use std::alloc::Global;
use std::test::Fail;

// What Routers are given, each with what comes of it: a fault, or the payload types of its codecs.
const ROUTERS: &str = r#"[
    ["[]", []],
    ["[Some(100), Some(101), Some(102)]", [{"mimeType": "audio/opus", "clockRate": 48000, "channels": 2}, {"mimeType": "video/VP8", "clockRate": 90000}]],
    ["[Some(101), Some(100), Some(0), Some(102)]", [{"mimeType": "VIDEO/vp9", "clockRate": 90000, "preferredPayloadType": 101}, {"mimeType": "audio/pcmu", "clockRate": 8000}, {"mimeType": "audio/opus", "clockRate": 48000, "channels": 2}]],
    ["[Some(8), Some(7)]", [{"mimeType": "audio/PCMA", "clockRate": 8000}, {"mimeType": "audio/PCMA", "clockRate": 8000, "preferredPayloadType": 7}]],
    ["unsupported codec", [{"mimeType": "audio/ISAC", "clockRate": 16000}]],
    ["unsupported codec", [{"mimeType": "audio/opus", "clockRate": 48000}]],
    ["unsupported codec", [{"mimeType": "audio/VP8", "clockRate": 90000}]],
    ["unsupported codec", [{"mimeType": "video/VP8", "clockRate": 48000}]],
    ["unsupported codec", [{"mimeType": "video/rtx", "clockRate": 90000, "parameters": {"apt": 96}}]],
    ["typeerror duplicate_type", [{"mimeType": "audio/PCMU", "clockRate": 8000}, {"mimeType": "audio/PCMU", "clockRate": 8000}, {"mimeType": "audio/ISAC", "clockRate": 16000}]],
    ["typeerror duplicate_type", [{"mimeType": "video/VP8", "clockRate": 90000, "preferredPayloadType": 96}, {"mimeType": "video/VP9", "clockRate": 90000, "preferredPayloadType": 100}]]
]"#;

// What Producers send to a Router with opus (100), VP8 (101, 102), VP9 of profile 0 (103, 104) and of profile 2 (105,
// 106), each with what comes of it.
const PRODUCERS: &str = r#"[
    ["[(111, 100)] [(5, 4294967295)]", {"codecs": [{"mimeType": "audio/opus", "payloadType": 111, "clockRate": 48000, "channels": 2}], "encodings": [{"ssrc": 5}]}],
    ["[] []", {"codecs": [], "encodings": []}],
    ["[(98, 105), (96, 103), (99, 106)] []", {"codecs": [{"mimeType": "video/rtx", "payloadType": 99, "clockRate": 90000, "parameters": {"apt": 98}}, {"mimeType": "video/VP9", "payloadType": 98, "clockRate": 90000, "parameters": {"profile-id": "02"}}, {"mimeType": "video/VP9", "payloadType": 96, "clockRate": 90000}], "encodings": []}],
    ["unsupported codec", {"codecs": [{"mimeType": "video/H264", "payloadType": 125, "clockRate": 90000}], "encodings": []}],
    ["unsupported codec", {"codecs": [{"mimeType": "audio/opus", "payloadType": 111, "clockRate": 48000}], "encodings": []}],
    ["unsupported codec", {"codecs": [{"mimeType": "video/VP9", "payloadType": 98, "clockRate": 90000, "parameters": {"profile-id": 1}}], "encodings": []}],
    ["unsupported codec", {"codecs": [{"mimeType": "video/VP9", "payloadType": 98, "clockRate": 90000, "parameters": {"profile-id": ""}}], "encodings": []}],
    ["unsupported codec", {"codecs": [{"mimeType": "video/rtx", "payloadType": 97, "clockRate": 90000}, {"mimeType": "video/H264", "payloadType": 125, "clockRate": 90000}], "encodings": []}],
    ["typeerror apt", {"codecs": [{"mimeType": "video/VP8", "payloadType": 96, "clockRate": 90000}, {"mimeType": "video/rtx", "payloadType": 97, "clockRate": 90000}], "encodings": []}],
    ["typeerror apt", {"codecs": [{"mimeType": "video/VP8", "payloadType": 96, "clockRate": 90000}, {"mimeType": "video/rtx", "payloadType": 97, "clockRate": 90000, "parameters": {"apt": 95}}], "encodings": []}],
    ["unsupported codec", {"codecs": [{"mimeType": "video/rtx", "payloadType": 97, "clockRate": 90000, "parameters": {"apt": 97}}], "encodings": []}],
    ["unsupported codec", {"codecs": [{"mimeType": "audio/opus", "payloadType": 111, "clockRate": 48000, "channels": 2}, {"mimeType": "audio/RTX", "payloadType": 112, "clockRate": 48000, "parameters": {"apt": 111}}], "encodings": []}]
]"#;

const OPUS_AND_VIDEO: &str =
    r#"{"codecs": [{"mimeType": "audio/opus", "clockRate": 48000, "channels": 2}, {"mimeType": "video/VP8", "clockRate": 90000}, {"mimeType": "video/VP9", "clockRate": 90000}, {"mimeType": "video/VP9", "clockRate": 90000, "parameters": {"profile-id": 2}}]}"#;

const OPUS_AND_VP8: &str =
    r#"{"codecs": [{"mimeType": "audio/OPUS", "clockRate": 48000, "channels": 2, "parameters": {"useinbandfec": 1}, "rtcpFeedback": [{"type": "nack"}]}, {"mimeType": "video/VP8", "clockRate": 90000}]}"#;

// The capabilities of a Router of these, whole.
const ITS_CAPS: &str =
    r#"{"codecs":[{"channels":2,"clockRate":48000,"mimeType":"audio/opus","parameters":{"useinbandfec":1},"preferredPayloadType":100,"rtcpFeedback":[{"parameter":"","type":"transport-cc"}]},{"clockRate":90000,"mimeType":"video/VP8","parameters":{},"preferredPayloadType":101,"rtcpFeedback":[{"parameter":"","type":"nack"},{"parameter":"pli","type":"nack"},{"parameter":"fir","type":"ccm"},{"parameter":"","type":"goog-remb"},{"parameter":"","type":"transport-cc"}]},{"clockRate":90000,"mimeType":"video/rtx","parameters":{"apt":101},"preferredPayloadType":102,"rtcpFeedback":[]}],"headerExtensions":[{"direction":"sendrecv","kind":"","preferredId":1,"uri":"urn:ietf:params:rtp-hdrext:sdes:mid"},{"direction":"recvonly","kind":"video","preferredId":2,"uri":"urn:ietf:params:rtp-hdrext:sdes:rtp-stream-id"},{"direction":"recvonly","kind":"video","preferredId":3,"uri":"urn:ietf:params:rtp-hdrext:sdes:repaired-rtp-stream-id"},{"direction":"sendrecv","kind":"","preferredId":4,"uri":"http://www.webrtc.org/experiments/rtp-hdrext/abs-send-time"},{"direction":"sendrecv","kind":"","preferredId":5,"uri":"http://www.ietf.org/id/draft-holmer-rmcat-transport-wide-cc-extensions-01"},{"direction":"sendrecv","kind":"video","preferredId":7,"uri":"urn:ietf:params:rtp-hdrext:framemarking"},{"direction":"sendrecv","kind":"audio","preferredId":10,"uri":"urn:ietf:params:rtp-hdrext:ssrc-audio-level"},{"direction":"sendrecv","kind":"video","preferredId":11,"uri":"urn:3gpp:video-orientation"},{"direction":"sendrecv","kind":"video","preferredId":12,"uri":"urn:ietf:params:rtp-hdrext:toffset"}]}"#;

// A camera as a browser offers it, and what ffmpeg is told to send.
const BROWSER: &str =
    r#"{"codecs": [{"mimeType": "video/VP8", "payloadType": 96, "clockRate": 90000, "parameters": {}, "rtcpFeedback": [{"type": "goog-remb", "parameter": ""}, {"type": "transport-cc", "parameter": ""}, {"type": "ccm", "parameter": "fir"}, {"type": "nack", "parameter": ""}, {"type": "nack", "parameter": "pli"}]}, {"mimeType": "video/rtx", "payloadType": 97, "clockRate": 90000, "parameters": {"apt": 96}, "rtcpFeedback": []}], "headerExtensions": [{"uri": "urn:ietf:params:rtp-hdrext:sdes:mid", "id": 9, "encrypt": false}, {"uri": "urn:3gpp:video-orientation", "id": 3}], "encodings": [{"ssrc": 2222, "rid": "r0", "scalabilityMode": "L1T3", "rtx": {"ssrc": 2223}}], "rtcp": {"cname": "x1", "reducedSize": true}, "mid": "0"}"#;

const FFMPEG: &str =
    r#"{"codecs": [{"mimeType": "video/vp8", "payloadType": 102, "clockRate": 90000}], "encodings": [{"ssrc": 22222222}]}"#;

fn word_of(fault: MapFault) -> &'static str {
    match fault {
        MapFault::TypeError { code } => match code {
            Code::DuplicateType => "typeerror duplicate_type",
            Code::Apt => "typeerror apt",
            _ => "another code",
        },
        MapFault::Unsupported { code } => match code {
            Code::Codec => "unsupported codec",
            Code::Types => "unsupported types",
            _ => "another code",
        },
        MapFault::NoMemory => "out of memory",
    }
}

// What a case is to come to.
fn expected(case: &Value) -> &str {
    case.get(0).and_then(Value::as_str).unwrap_or("")
}

// The codecs of capabilities that have these.
fn codecs_of(alloc: Global, list: &Value) -> Result<Items<Codec>, Fail> {
    let mut members = serde_json::Map::new(alloc);
    serde_json::put(&mut members, alloc, "codecs", list.clone()?)?;
    Ok(read_caps(alloc, &Value::Object(members))?.codecs)
}

fn types_of(alloc: Global, caps: &Caps) -> Result<String, Fail> {
    let mut types = Vec::new(alloc);
    for codec in caps.codecs.as_slice() {
        types.push(codec.payload_type)?;
    }
    Ok(format!(in alloc; "{types:?}")?)
}

// The payload types of a Router of these codecs, or the fault.
fn router_answer(alloc: Global, codecs: &[Codec]) -> Result<String, Fail> {
    match router_caps(alloc, codecs) {
        Ok(caps) => types_of(alloc, &caps),
        Err(fault) => Ok(String::from_str(alloc, word_of(fault))?),
    }
}

#[test]
fn each_fault_of_a_router_has_its_code(rt: HostRuntime) -> Result<(), Fail> {
    let cases = Value::from_str(rt.alloc(), ROUTERS)?;
    let cases = cases.as_array().ok_or("no list")?;
    assert_eq!(rt; cases.len(), 11);
    for case in cases {
        let codecs = codecs_of(rt.alloc(), case.get(1).ok_or("no case")?)?;
        let answer = router_answer(rt.alloc(), codecs.as_slice())?;
        assert_eq!(rt; answer.as_str(), expected(case));
    }
    Ok(())
}

fn caps_in(alloc: Global, text: &str) -> Result<Caps, Fail> {
    let value = Value::from_str(alloc, text)?;
    Ok(read_caps(alloc, &value)?)
}

// The same codec again and again.
fn repeated(alloc: Global, codec: &Codec, times: u8) -> Result<Vec<Codec>, Fail> {
    let mut codecs = Vec::new(alloc);
    for _ in 0..times {
        codecs.push(codec.copy(alloc)?)?;
    }
    Ok(codecs)
}

// How many codecs a Router of so many VP8 has, or the fault.
fn many_answer(alloc: Global, times: u8) -> Result<String, Fail> {
    let caps = caps_in(alloc, OPUS_AND_VP8)?;
    let vp8 = caps.codecs.as_slice().last().ok_or("no codec")?;
    let codecs = repeated(alloc, vp8, times)?;
    match router_caps(alloc, codecs.as_slice()) {
        Ok(caps) => Ok(format!(in alloc; "{}", caps.codecs.len())?),
        Err(fault) => Ok(String::from_str(alloc, word_of(fault))?),
    }
}

#[test]
fn thirty_two_types_are_drawn(rt: HostRuntime) -> Result<(), Fail> {
    let answer = many_answer(rt.alloc(), 16)?;
    assert_eq!(rt; answer.as_str(), "32");
    let answer = many_answer(rt.alloc(), 17)?;
    assert_eq!(rt; answer.as_str(), "unsupported types");
    Ok(())
}

// The Router's capabilities of these codecs, as a text.
fn router_text(alloc: Global, text: &str) -> Result<String, Fail> {
    let given = caps_in(alloc, text)?;
    let caps = router_caps(alloc, given.codecs.as_slice())?;
    Ok(write_caps(alloc, &caps)?.to_string(alloc)?)
}

#[test]
fn a_router_of_opus_and_vp8(rt: HostRuntime) -> Result<(), Fail> {
    let text = router_text(rt.alloc(), OPUS_AND_VP8)?;
    assert_eq!(rt; text.as_str(), ITS_CAPS);
    Ok(())
}

fn router_in(alloc: Global, text: &str) -> Result<Caps, Fail> {
    let given = caps_in(alloc, text)?;
    Ok(router_caps(alloc, given.codecs.as_slice())?)
}

fn shown(alloc: Global, mapping: &Mapping) -> Result<String, Fail> {
    let codecs = mapping.codecs.as_slice();
    let encodings = mapping.encodings.as_slice();
    Ok(format!(in alloc; "{codecs:?} {encodings:?}")?)
}

// The mapping of these parameters, or the fault. The last SSRC of all is the first that is drawn.
fn mapping_answer(alloc: Global, router: &Caps, params: &Params) -> Result<String, Fail> {
    if params.encodings.len() > 1 {
        return Ok(String::new(alloc));
    }
    match producer_mapping(alloc, params, router, u32::MAX) {
        Ok(mapping) => shown(alloc, &mapping),
        Err(fault) => Ok(String::from_str(alloc, word_of(fault))?),
    }
}

#[test]
fn each_fault_of_a_mapping_has_its_code(rt: HostRuntime) -> Result<(), Fail> {
    let router = router_in(rt.alloc(), OPUS_AND_VIDEO)?;
    let cases = Value::from_str(rt.alloc(), PRODUCERS)?;
    let cases = cases.as_array().ok_or("no list")?;
    assert_eq!(rt; cases.len(), 12);
    for case in cases {
        let params = read_params(rt.alloc(), case.get(1).ok_or("no case")?)?;
        let answer = mapping_answer(rt.alloc(), &router, &params)?;
        assert_eq!(rt; answer.as_str(), expected(case));
    }
    Ok(())
}

// How parameters in a text are mapped to a Router of opus and VP8.
fn mapping_text(alloc: Global, text: &str) -> Result<String, Fail> {
    let router = router_in(alloc, OPUS_AND_VP8)?;
    let value = Value::from_str(alloc, text)?;
    let params = read_params(alloc, &value)?;
    if params.encodings.len() > 1 {
        return Ok(String::new(alloc));
    }
    let mapping = producer_mapping(alloc, &params, &router, 100000000)?;
    shown(alloc, &mapping)
}

#[test]
fn a_camera_is_mapped(rt: HostRuntime) -> Result<(), Fail> {
    let browser = mapping_text(rt.alloc(), BROWSER)?;
    assert_eq!(rt;
        browser.as_str(),
        "[(96, 101), (97, 102)] [(2222, 100000000)]"
    );
    let ffmpeg = mapping_text(rt.alloc(), FFMPEG)?;
    assert_eq!(rt; ffmpeg.as_str(), "[(102, 101)] [(22222222, 100000000)]");
    Ok(())
}
