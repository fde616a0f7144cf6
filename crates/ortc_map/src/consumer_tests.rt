use crate::{MapFault, can_consume, consumable, consumer_params, producer_mapping, router_caps};
use ms_base::{Code, Media};
use rtp_params::{Caps, Params, read_caps, read_params, write_params};
use serde_json::Value;
use std::alloc::Global;
use std::test::Fail;

// What a Router is given: opus and VP8.
const ROUTER: &str =
    r#"{"codecs":[{"mimeType":"audio/opus","clockRate":48000,"channels":2},{"mimeType":"video/VP8","clockRate":90000}]}"#;

// What a client sends of a camera.
const CAMERA: &str =
    r#"{"codecs":[{"mimeType":"video/VP8","payloadType":96,"clockRate":90000,"parameters":{"x-google-start-bitrate":1000},"rtcpFeedback":[{"type":"nack"}]},{"mimeType":"video/rtx","payloadType":97,"clockRate":90000,"parameters":{"apt":96}}],"headerExtensions":[{"uri":"urn:ietf:params:rtp-hdrext:sdes:mid","id":4}],"encodings":[{"ssrc":2222,"rtx":{"ssrc":2223},"rid":"r0","scalabilityMode":"S1T3"}],"rtcp":{"cname":"F4hLxdCdV2vmVJPk","reducedSize":false}}"#;

// What the Router offers of it, the members in the order of their names.
const OFFER: &str =
    r#"{"codecs":[{"clockRate":90000,"mimeType":"video/VP8","parameters":{"x-google-start-bitrate":1000},"payloadType":101,"rtcpFeedback":[{"parameter":"","type":"nack"},{"parameter":"pli","type":"nack"},{"parameter":"fir","type":"ccm"},{"parameter":"","type":"goog-remb"},{"parameter":"","type":"transport-cc"}]},{"clockRate":90000,"mimeType":"video/rtx","parameters":{"apt":101},"payloadType":102,"rtcpFeedback":[]}],"encodings":[{"ssrc":100000000}],"headerExtensions":[{"id":1,"uri":"urn:ietf:params:rtp-hdrext:sdes:mid"},{"id":4,"uri":"http://www.webrtc.org/experiments/rtp-hdrext/abs-send-time"},{"id":5,"uri":"http://www.ietf.org/id/draft-holmer-rmcat-transport-wide-cc-extensions-01"},{"id":7,"uri":"urn:ietf:params:rtp-hdrext:framemarking"},{"id":11,"uri":"urn:3gpp:video-orientation"},{"id":12,"uri":"urn:ietf:params:rtp-hdrext:toffset"}],"rtcp":{"cname":"F4hLxdCdV2vmVJPk","reducedSize":true}}"#;

// Receivers: each the members of a codec of capabilities, and what is received of the offer, `codecs` where it is refused.
// The first three differ in their extensions: 5 and 4, 4 and another id of 5, none.
const RECEIVERS: &str = r#"[
    [{"codecs":[{"mimeType":"video/VP8","clockRate":90000,"rtcpFeedback":[{"type":"nack"},{"type":"goog-remb"},{"type":"transport-cc"}]}],"headerExtensions":[{"uri":"http://www.ietf.org/id/draft-holmer-rmcat-transport-wide-cc-extensions-01","preferredId":5},{"uri":"http://www.webrtc.org/experiments/rtp-hdrext/abs-send-time","preferredId":4}]},
     {"codecs":[{"clockRate":90000,"mimeType":"video/VP8","parameters":{"x-google-start-bitrate":1000},"payloadType":101,"rtcpFeedback":[{"parameter":"","type":"nack"},{"parameter":"","type":"transport-cc"}]}],"encodings":[{"ssrc":4294967294}],"headerExtensions":[{"id":4,"uri":"http://www.webrtc.org/experiments/rtp-hdrext/abs-send-time"},{"id":5,"uri":"http://www.ietf.org/id/draft-holmer-rmcat-transport-wide-cc-extensions-01"}],"rtcp":{"cname":"F4hLxdCdV2vmVJPk","reducedSize":true}}],
    [{"codecs":[{"mimeType":"video/VP8","clockRate":90000,"rtcpFeedback":[{"type":"goog-remb","parameter":"x"},{"type":"transport-cc","parameter":"x"},{"type":"ccm","parameter":"fir"}]}],"headerExtensions":[{"uri":"http://www.ietf.org/id/draft-holmer-rmcat-transport-wide-cc-extensions-01","preferredId":6},{"uri":"http://www.webrtc.org/experiments/rtp-hdrext/abs-send-time","preferredId":4}]},
     {"codecs":[{"clockRate":90000,"mimeType":"video/VP8","parameters":{"x-google-start-bitrate":1000},"payloadType":101,"rtcpFeedback":[{"parameter":"x","type":"goog-remb"},{"parameter":"fir","type":"ccm"}]}],"encodings":[{"ssrc":4294967294}],"headerExtensions":[{"id":4,"uri":"http://www.webrtc.org/experiments/rtp-hdrext/abs-send-time"}],"rtcp":{"cname":"F4hLxdCdV2vmVJPk","reducedSize":true}}],
    [{"codecs":[{"mimeType":"VIDEO/rtx","clockRate":90000},{"mimeType":"video/vp8","clockRate":90000,"rtcpFeedback":[{"type":"goog-remb"},{"type":"transport-cc"}]}]},
     {"codecs":[{"clockRate":90000,"mimeType":"video/VP8","parameters":{"x-google-start-bitrate":1000},"payloadType":101,"rtcpFeedback":[]},{"clockRate":90000,"mimeType":"video/rtx","parameters":{"apt":101},"payloadType":102,"rtcpFeedback":[]}],"encodings":[{"rtx":{"ssrc":4294967295},"ssrc":4294967294}],"headerExtensions":[],"rtcp":{"cname":"F4hLxdCdV2vmVJPk","reducedSize":true}}],
    [{"codecs":[{"mimeType":"video/VP9","clockRate":90000}]}, "codecs"],
    [{"codecs":[{"mimeType":"video/rtx","clockRate":90000}]}, "codecs"],
    [{"codecs":[{"mimeType":"video/VP8","clockRate":8000}]}, "codecs"],
    [{}, "codecs"]
]"#;

fn caps_in(alloc: Global, text: &str) -> Result<Caps, Fail> {
    let value = Value::from_str(alloc, text)?;
    Ok(read_caps(alloc, &value)?)
}

fn params_in(alloc: Global, text: &str) -> Result<Params, Fail> {
    let value = Value::from_str(alloc, text)?;
    Ok(read_params(alloc, &value)?)
}

fn text_of(alloc: Global, params: &Params) -> Result<String, Fail> {
    Ok(write_params(alloc, params)?.to_string(alloc)?)
}

fn router(alloc: Global) -> Result<Caps, Fail> {
    let given = caps_in(alloc, ROUTER)?;
    Ok(router_caps(alloc, given.codecs.as_slice())?)
}

// What a Router offers of a video Producer with one encoding.
fn offered(alloc: Global, params: &Params, caps: &Caps) -> Result<Params, Fail> {
    if params.encodings.len() > 1 {
        return Err("too many encodings".into());
    }
    let mapping = producer_mapping(alloc, params, caps, 100000000)?;
    Ok(consumable(alloc, Media::Video, params, caps, &mapping)?)
}

fn offer(alloc: Global) -> Result<Params, Fail> {
    let caps = router(alloc)?;
    let params = params_in(alloc, CAMERA)?;
    offered(alloc, &params, &caps)
}

#[test]
fn a_camera_is_offered_as_the_router_has_it(rt: HostRuntime) -> Result<(), Fail> {
    let offer = offer(rt.alloc())?;
    let text = text_of(rt.alloc(), &offer)?;
    assert_eq!(rt; text.as_str(), OFFER);
    Ok(())
}

// Whether the offer can be consumed with these capabilities.
fn can(alloc: Global, caps: &str) -> Result<bool, Fail> {
    let offer = params_in(alloc, OFFER)?;
    let caps = caps_in(alloc, caps)?;
    Ok(can_consume(&offer, &caps))
}

#[test]
fn vp8_can_be_consumed_and_vp9_alone_cannot(rt: HostRuntime) -> Result<(), Fail> {
    let vp8 = can(
        rt.alloc(),
        r#"{"codecs":[{"mimeType":"video/VP9","clockRate":90000},{"mimeType":"video/VP8","clockRate":90000}]}"#,
    )?;
    assert!(rt; vp8);
    let vp9 = can(
        rt.alloc(),
        r#"{"codecs":[{"mimeType":"video/VP9","clockRate":90000}]}"#,
    )?;
    assert!(rt; !vp9);
    Ok(())
}

// The text of what is received of an offer, from the last SSRCs on, or the code.
fn received_by(alloc: Global, offer: &Params, caps: &Caps) -> Result<String, Fail> {
    match consumer_params(alloc, offer, caps, 4294967294) {
        Ok(params) => text_of(alloc, &params),
        Err(MapFault::Unsupported { code: Code::Codecs }) => {
            Ok(String::from_str(alloc, "\"codecs\"")?)
        }
        Err(fault) => Err(fault.into()),
    }
}

fn received(alloc: Global, caps: &Value) -> Result<String, Fail> {
    let offer = params_in(alloc, OFFER)?;
    let caps = read_caps(alloc, caps)?;
    received_by(alloc, &offer, &caps)
}

fn expected(alloc: Global, case: &Value) -> Result<String, Fail> {
    Ok(case.get(1).ok_or("no answer")?.to_string(alloc)?)
}

#[test]
fn each_receiver_has_what_it_can_receive(rt: HostRuntime) -> Result<(), Fail> {
    let cases = Value::from_str(rt.alloc(), RECEIVERS)?;
    let cases = cases.as_array().ok_or("no list")?;
    assert_eq!(rt; cases.len(), 7);
    for case in cases {
        let caps = case.get(0).ok_or("no capabilities")?;
        let text = received(rt.alloc(), caps)?;
        assert_eq!(rt; text.as_str(), expected(rt.alloc(), case)?.as_str());
    }
    Ok(())
}
