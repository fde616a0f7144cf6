use crate::{
    Caps, Codec, Encoding, Mapping, ParamFault, Params, all_exts, is_same_name, read_caps,
    read_encodings, read_mapping, read_params, table_exts, write_caps, write_params,
};
use ms_base::Media;
use serde_json::Value;
use std::alloc::{AllocError, Global};
use std::test::Fail;

// Parameters as a browser offers them for a camera with three streams, the members in the order of their names.
const CAMERA: &str =
    r#"{"codecs":[{"clockRate":90000,"mimeType":"video/VP8","parameters":{},"payloadType":96,"rtcpFeedback":[{"parameter":"","type":"goog-remb"},{"parameter":"","type":"transport-cc"},{"parameter":"fir","type":"ccm"},{"parameter":"","type":"nack"},{"parameter":"pli","type":"nack"}]},{"clockRate":90000,"mimeType":"video/rtx","parameters":{"apt":96},"payloadType":97,"rtcpFeedback":[]},{"clockRate":90000,"mimeType":"video/VP9","parameters":{"profile-id":2,"x-google-start-bitrate":-1,"x-note":"two\nlines"},"payloadType":100,"rtcpFeedback":[]}],"encodings":[{"rtx":{"ssrc":4294967295},"ssrc":0},{"rtx":{"ssrc":1112},"ssrc":1111},{"ssrc":1113}],"headerExtensions":[{"id":4,"uri":"urn:ietf:params:rtp-hdrext:sdes:mid"},{"id":255,"uri":"urn:3gpp:video-orientation"}],"rtcp":{"cname":"F4hLxdCdV2vmVJPk","reducedSize":false}}"#;

// Capabilities of a device.
const DEVICE: &str =
    r#"{"codecs":[{"channels":2,"clockRate":48000,"mimeType":"audio/opus","parameters":{"minptime":10,"stereo":"1","useinbandfec":1},"preferredPayloadType":111,"rtcpFeedback":[{"parameter":"","type":"transport-cc"}]},{"channels":1,"clockRate":8000,"mimeType":"audio/PCMU","parameters":{},"preferredPayloadType":0,"rtcpFeedback":[]},{"clockRate":90000,"mimeType":"video/VP8","parameters":{},"rtcpFeedback":[]}],"headerExtensions":[{"direction":"sendrecv","kind":"","preferredId":1,"uri":"urn:ietf:params:rtp-hdrext:sdes:mid"},{"direction":"recvonly","kind":"video","preferredId":2,"uri":"urn:ietf:params:rtp-hdrext:sdes:rtp-stream-id"},{"direction":"sendrecv","kind":"audio","preferredId":10,"uri":"urn:ietf:params:rtp-hdrext:ssrc-audio-level"}]}"#;

// Cases of capabilities: each a code, or `ok`, and the members of a codec of audio or of an extension beside
// those that it has to have.
const CASES_OF_CODECS: &str = r#"[
    ["ok", {"mimeType": "AUDIO/a/b", "clockRate": 4294967295}],
    ["ok", {"mimeType": "video/x", "clockRate": 1, "channels": null}],
    ["ok", {"mimeType": "audio/x", "clockRate": 1, "parameters": {"apt": 127, "a": -9223372036854775808, "b": 9223372036854775807}}],
    ["form", null],
    ["form", {"clockRate": 1}],
    ["form", {"mimeType": null, "clockRate": 1}],
    ["form", {"mimeType": "text/x", "clockRate": 1}],
    ["form", {"mimeType": "audio/", "clockRate": 1}],
    ["form", {"mimeType": "audio", "clockRate": 1}],
    ["form", {"mimeType": "audio/x"}],
    ["form", {"mimeType": "audio/x", "clockRate": 0}],
    ["form", {"mimeType": "audio/x", "clockRate": 4294967296}],
    ["form", {"mimeType": "audio/x", "clockRate": 1.0}],
    ["form", {"mimeType": "audio/x", "clockRate": 1, "channels": 0}],
    ["form", {"mimeType": "audio/x", "clockRate": 1, "channels": 256}],
    ["form", {"mimeType": "audio/x", "clockRate": 1, "channels": null}],
    ["form", {"mimeType": "audio/x", "clockRate": 1, "preferredPayloadType": 128}],
    ["form", {"mimeType": "audio/x", "clockRate": 1, "parameters": []}],
    ["form", {"mimeType": "audio/x", "clockRate": 1, "parameters": {"a": true}}],
    ["form", {"mimeType": "audio/x", "clockRate": 1, "parameters": {"a": 9223372036854775808}}],
    ["form", {"mimeType": "audio/x", "clockRate": 1, "parameters": {"apt": 128}}],
    ["form", {"mimeType": "audio/x", "clockRate": 1, "parameters": {"apt": "96"}}],
    ["form", {"mimeType": "audio/x", "clockRate": 1, "rtcpFeedback": {}}],
    ["form", {"mimeType": "audio/x", "clockRate": 1, "rtcpFeedback": [7]}],
    ["form", {"mimeType": "audio/x", "clockRate": 1, "rtcpFeedback": [{}]}],
    ["form", {"mimeType": "audio/x", "clockRate": 1, "rtcpFeedback": [{"type": "nack", "parameter": 1}]}]
]"#;

const CASES_OF_EXTS: &str = r#"[
    ["ok", {"kind": "", "uri": "u", "preferredId": 255, "direction": "inactive"}],
    ["form", "u"],
    ["form", {"kind": "Audio", "uri": "u", "preferredId": 1}],
    ["form", {"kind": null, "uri": "u", "preferredId": 1}],
    ["form", {"preferredId": 1}],
    ["form", {"uri": "", "preferredId": 1}],
    ["form", {"uri": "u"}],
    ["form", {"uri": "u", "preferredId": 0}],
    ["form", {"uri": "u", "preferredId": 256}],
    ["form", {"uri": "u", "preferredId": 1, "direction": 7}]
]"#;

// Whole parameters.
const CASES: &str = r#"[
    ["ok", {"codecs": [], "encodings": [], "other": null}],
    ["ok", {"codecs": [], "encodings": [{"ssrc": 7}, {"ssrc": 8, "rtx": {"ssrc": 7}}], "rtcp": {}}],
    ["form", []],
    ["form", {"encodings": []}],
    ["form", {"codecs": null, "encodings": []}],
    ["form", {"codecs": [{"mimeType": "audio/x", "clockRate": 1}], "encodings": []}],
    ["form", {"codecs": [{"mimeType": "audio/x", "clockRate": 1, "payloadType": 128}], "encodings": []}],
    ["form", {"codecs": [], "headerExtensions": null, "encodings": [{}]}],
    ["form", {"codecs": [], "headerExtensions": [{"uri": "", "id": 1}], "encodings": []}],
    ["form", {"codecs": [], "headerExtensions": [{"uri": "u", "id": 0}], "encodings": []}],
    ["form", {"codecs": []}],
    ["form", {"codecs": [], "encodings": {}}],
    ["form", {"codecs": [], "encodings": [7]}],
    ["ssrc", {"codecs": [], "encodings": [{}]}],
    ["ssrc", {"codecs": [], "encodings": [{"ssrc": null}]}],
    ["ssrc", {"codecs": [], "encodings": [{"ssrc": 4294967296}], "rtcp": null}],
    ["ssrc", {"codecs": [], "encodings": [{"ssrc": 7}, {"ssrc": 7, "rtx": null}]}],
    ["form", {"codecs": [], "encodings": [{"ssrc": 7, "rtx": null}, {"ssrc": 7}]}],
    ["form", {"codecs": [], "encodings": [{"ssrc": 7, "rtx": {}}]}],
    ["form", {"codecs": [], "encodings": [{"ssrc": 7, "rtx": {"ssrc": -1}}]}],
    ["form", {"codecs": [], "encodings": [], "rtcp": null}],
    ["form", {"codecs": [], "encodings": [], "rtcp": {"cname": 7}}],
    ["form", {"codecs": [], "encodings": [], "rtcp": {"reducedSize": "true"}}]
]"#;

// Mappings.
const CASES_OF_MAPPINGS: &str = r#"[
    ["ok", {"codecs": [], "encodings": [], "other": null}],
    ["ok", {"codecs": [{"mappedPayloadType": 0, "payloadType": 127}], "encodings": [{"mappedSsrc": 0, "ssrc": 4294967295}]}],
    ["form", []],
    ["form", {"encodings": []}],
    ["form", {"codecs": []}],
    ["form", {"codecs": {}, "encodings": []}],
    ["form", {"codecs": [], "encodings": null}],
    ["form", {"codecs": [7], "encodings": []}],
    ["form", {"codecs": [{"payloadType": 1}], "encodings": []}],
    ["form", {"codecs": [{"mappedPayloadType": 1}], "encodings": []}],
    ["form", {"codecs": [{"mappedPayloadType": 128, "payloadType": 1}], "encodings": []}],
    ["form", {"codecs": [{"mappedPayloadType": 1, "payloadType": 128}], "encodings": []}],
    ["form", {"codecs": [], "encodings": [{"ssrc": 1}]}],
    ["form", {"codecs": [], "encodings": [{"mappedSsrc": 1}]}],
    ["form", {"codecs": [], "encodings": [{"mappedSsrc": 4294967296, "ssrc": 1}]}],
    ["form", {"codecs": [], "encodings": [{"mappedSsrc": 1, "ssrc": -1}]}]
]"#;

// What a reading comes to, in one word.
fn word_of<T: Drop>(read: Result<T, ParamFault>) -> &'static [u8] {
    match read {
        Ok(_) => b"ok",
        Err(ParamFault::TypeError { code }) => code.word(),
        Err(ParamFault::NoMemory) => b"memory",
    }
}

fn word_of_params(alloc: Global, value: &Value) -> &'static [u8] {
    word_of(read_params(alloc, value))
}

// What capabilities with the one item in the list of this name come to.
fn word_of_item(alloc: Global, list: &str, item: &Value) -> Result<&'static [u8], AllocError> {
    let mut items = Vec::new(alloc);
    items.push(item.clone()?)?;
    let mut members = serde_json::Map::new(alloc);
    serde_json::put(&mut members, alloc, list, Value::Array(items))?;
    Ok(word_of(read_caps(alloc, &Value::Object(members))))
}

// The word that a case is to come to.
fn expected(case: &Value) -> &[u8] {
    case.get(0).and_then(Value::as_str).unwrap_or("").as_bytes()
}

#[test]
fn each_fault_of_parameters_has_its_code(rt: HostRuntime) -> Result<(), Fail> {
    let cases = Value::from_str(rt.alloc(), CASES)?;
    let cases = cases.as_array().ok_or("no list")?;
    assert_eq!(rt; cases.len(), 23);
    for case in cases {
        let value = case.get(1).ok_or("no case")?;
        assert_eq!(rt; word_of_params(rt.alloc(), value), expected(case));
    }
    Ok(())
}

#[test]
fn each_fault_of_a_codec_has_its_code(rt: HostRuntime) -> Result<(), Fail> {
    let cases = Value::from_str(rt.alloc(), CASES_OF_CODECS)?;
    let cases = cases.as_array().ok_or("no list")?;
    assert_eq!(rt; cases.len(), 26);
    for case in cases {
        let codec = case.get(1).ok_or("no case")?;
        assert_eq!(rt; word_of_item(rt.alloc(), "codecs", codec)?, expected(case));
    }
    Ok(())
}

#[test]
fn each_fault_of_an_extension_has_its_code(rt: HostRuntime) -> Result<(), Fail> {
    let cases = Value::from_str(rt.alloc(), CASES_OF_EXTS)?;
    let cases = cases.as_array().ok_or("no list")?;
    assert_eq!(rt; cases.len(), 10);
    for case in cases {
        let ext = case.get(1).ok_or("no case")?;
        assert_eq!(rt;
            word_of_item(rt.alloc(), "headerExtensions", ext)?,
            expected(case)
        );
    }
    Ok(())
}

fn word_of_mapping(alloc: Global, value: &Value) -> &'static [u8] {
    word_of(read_mapping(alloc, value))
}

#[test]
fn each_fault_of_a_mapping_has_its_code(rt: HostRuntime) -> Result<(), Fail> {
    let cases = Value::from_str(rt.alloc(), CASES_OF_MAPPINGS)?;
    let cases = cases.as_array().ok_or("no list")?;
    assert_eq!(rt; cases.len(), 16);
    for case in cases {
        let value = case.get(1).ok_or("no case")?;
        assert_eq!(rt; word_of_mapping(rt.alloc(), value), expected(case));
    }
    Ok(())
}

fn mapping_in(alloc: Global, text: &str) -> Result<Mapping, Fail> {
    let value = Value::from_str(alloc, text)?;
    Ok(read_mapping(alloc, &value)?)
}

#[test]
fn a_mapping_has_pairs_of_own_and_mapped(rt: HostRuntime) -> Result<(), Fail> {
    let mapping = mapping_in(
        rt.alloc(),
        r#"{"codecs":[{"mappedPayloadType":101,"payloadType":96},{"mappedPayloadType":102,"payloadType":97}],"encodings":[{"mappedSsrc":100000000,"ssrc":2222}]}"#,
    )?;
    assert_eq!(rt;
        mapping.codecs.as_slice(),
        [(96, 101), (97, 102)].as_slice()
    );
    assert_eq!(rt;
        mapping.encodings.as_slice(),
        [(2222, 100000000)].as_slice()
    );
    Ok(())
}

fn encodings_in(alloc: Global, text: &str) -> Result<Vec<Encoding>, Fail> {
    let value = Value::from_str(alloc, text)?;
    Ok(read_encodings(alloc, &value)?.into_vec())
}

#[test]
fn encodings_are_read_by_themselves(rt: HostRuntime) -> Result<(), Fail> {
    let encodings = encodings_in(rt.alloc(), r#"[{"ssrc":7},{"rtx":{"ssrc":9},"ssrc":8}]"#)?;
    assert_eq!(rt;
        encodings.as_slice(),
        [
            Encoding { ssrc: 7, rtx: None },
            Encoding {
                ssrc: 8,
                rtx: Some(9)
            }
        ]
        .as_slice()
    );
    Ok(())
}

fn read_camera(alloc: Global) -> Result<Params, Fail> {
    let value = Value::from_str(alloc, CAMERA)?;
    Ok(read_params(alloc, &value)?)
}

fn read_device(alloc: Global) -> Result<Caps, Fail> {
    let value = Value::from_str(alloc, DEVICE)?;
    Ok(read_caps(alloc, &value)?)
}

#[test]
fn parameters_are_written_as_they_were_read(rt: HostRuntime) -> Result<(), Fail> {
    let params = read_camera(rt.alloc())?.copy(rt.alloc())?;
    let text = write_params(rt.alloc(), &params)?.to_string(rt.alloc())?;
    assert_eq!(rt; text.as_str(), CAMERA);
    Ok(())
}

#[test]
fn capabilities_are_written_as_they_were_read(rt: HostRuntime) -> Result<(), Fail> {
    let caps = read_device(rt.alloc())?.copy(rt.alloc())?;
    let text = write_caps(rt.alloc(), &caps)?.to_string(rt.alloc())?;
    assert_eq!(rt; text.as_str(), DEVICE);
    Ok(())
}

// Whether the codec is one for retransmissions, and of which payload type.
fn look(codec: &Codec) -> (bool, Option<u8>) {
    (codec.is_rtx(), codec.apt())
}

#[test]
fn retransmissions_name_their_codec(rt: HostRuntime) -> Result<(), Fail> {
    let codecs = read_camera(rt.alloc())?.codecs;
    let looks = codecs.as_slice();
    assert_eq!(rt; looks.len(), 3);
    assert_eq!(rt; look(&looks[0]), (false, None));
    assert_eq!(rt; look(&looks[1]), (true, Some(96)));
    assert!(rt; is_same_name("VP8", "vp8"));
    assert!(rt; !is_same_name("VP8", "vp9"));
    Ok(())
}

// The ids of the extensions that are sent for this media, as bytes.
fn sent_ids(alloc: Global, media: Media) -> Result<Vec<u8>, Fail> {
    let exts = table_exts(alloc, media)?;
    let mut ids = Vec::new(alloc);
    for ext in &exts {
        ids.push(ext.id)?;
    }
    Ok(ids)
}

#[test]
fn the_table_has_each_extension(rt: HostRuntime) -> Result<(), Fail> {
    let exts = all_exts(rt.alloc())?;
    let mut ids = Vec::new(rt.alloc());
    for ext in exts.iter() {
        ids.push(ext.id)?;
    }
    assert_eq!(rt; ids.as_slice(), [1, 2, 3, 4, 5, 7, 10, 11, 12].as_slice());
    Ok(())
}

#[test]
fn the_table_has_what_is_sent_for_each_media(rt: HostRuntime) -> Result<(), Fail> {
    let audio = sent_ids(rt.alloc(), Media::Audio)?;
    assert_eq!(rt; audio.as_slice(), [1, 4, 5, 10].as_slice());
    let video = sent_ids(rt.alloc(), Media::Video)?;
    assert_eq!(rt; video.as_slice(), [1, 4, 5, 7, 11, 12].as_slice());
    Ok(())
}
