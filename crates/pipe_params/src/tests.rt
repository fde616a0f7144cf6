use crate::pipe_consumer_params;
use rtp_params::{Params, read_params, write_params};
use serde_json::Value;
use std::alloc::Global;
use std::test::Fail;

// Consumable parameters of a camera with two streams, the members in the order of their names.
const CAMERA: &str =
    r#"{"codecs":[{"clockRate":90000,"mimeType":"video/VP8","parameters":{},"payloadType":101,"rtcpFeedback":[{"parameter":"","type":"nack"},{"parameter":"pli","type":"nack"},{"parameter":"fir","type":"ccm"},{"parameter":"","type":"goog-remb"},{"parameter":"","type":"transport-cc"}]},{"clockRate":90000,"mimeType":"video/rtx","parameters":{"apt":101},"payloadType":102,"rtcpFeedback":[]}],"encodings":[{"ssrc":100000000},{"ssrc":100000001}],"headerExtensions":[{"id":1,"uri":"urn:ietf:params:rtp-hdrext:sdes:mid"},{"id":4,"uri":"http://www.webrtc.org/experiments/rtp-hdrext/abs-send-time"},{"id":5,"uri":"http://www.ietf.org/id/draft-holmer-rmcat-transport-wide-cc-extensions-01"},{"id":7,"uri":"urn:ietf:params:rtp-hdrext:framemarking"},{"id":11,"uri":"urn:3gpp:video-orientation"}],"rtcp":{"cname":"F4hLxdCdV2vmVJPk","reducedSize":true}}"#;

// What a pipe without retransmissions has of it, from the last SSRCs on.
const PLAIN: &str =
    r#"{"codecs":[{"clockRate":90000,"mimeType":"video/VP8","parameters":{},"payloadType":101,"rtcpFeedback":[{"parameter":"pli","type":"nack"},{"parameter":"fir","type":"ccm"}]}],"encodings":[{"ssrc":4294967292},{"ssrc":4294967293}],"headerExtensions":[{"id":7,"uri":"urn:ietf:params:rtp-hdrext:framemarking"},{"id":11,"uri":"urn:3gpp:video-orientation"}],"rtcp":{"cname":"F4hLxdCdV2vmVJPk","reducedSize":true}}"#;

// What a pipe with retransmissions has of it.
const WITH_RTX: &str =
    r#"{"codecs":[{"clockRate":90000,"mimeType":"video/VP8","parameters":{},"payloadType":101,"rtcpFeedback":[{"parameter":"","type":"nack"},{"parameter":"pli","type":"nack"},{"parameter":"fir","type":"ccm"}]},{"clockRate":90000,"mimeType":"video/rtx","parameters":{"apt":101},"payloadType":102,"rtcpFeedback":[]}],"encodings":[{"rtx":{"ssrc":4294967294},"ssrc":4294967292},{"rtx":{"ssrc":4294967295},"ssrc":4294967293}],"headerExtensions":[{"id":7,"uri":"urn:ietf:params:rtp-hdrext:framemarking"},{"id":11,"uri":"urn:3gpp:video-orientation"}],"rtcp":{"cname":"F4hLxdCdV2vmVJPk","reducedSize":true}}"#;

fn camera(alloc: Global) -> Result<Params, Fail> {
    let value = Value::from_str(alloc, CAMERA)?;
    Ok(read_params(alloc, &value)?)
}

// The text of what a pipe has of the camera, where the SSRCs suffice.
fn piped(alloc: Global, enable_rtx: bool) -> Result<String, Fail> {
    let consumable = camera(alloc)?;
    if consumable.encodings.len() > 2 {
        return Err("too many encodings".into());
    }
    let params = pipe_consumer_params(alloc, &consumable, enable_rtx, 4294967292)?;
    Ok(write_params(alloc, &params)?.to_string(alloc)?)
}

#[test]
fn a_pipe_has_a_stream_for_each_encoding(rt: HostRuntime) -> Result<(), Fail> {
    let text = piped(rt.alloc(), false)?;
    assert_eq!(rt; text.as_str(), PLAIN);
    Ok(())
}

#[test]
fn a_pipe_with_retransmissions_has_two_ssrcs_an_encoding(rt: HostRuntime) -> Result<(), Fail> {
    let text = piped(rt.alloc(), true)?;
    assert_eq!(rt; text.as_str(), WITH_RTX);
    Ok(())
}
