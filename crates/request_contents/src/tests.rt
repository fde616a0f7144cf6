use crate::{
    ids_of, method_of, write_connect, write_consume, write_direct, write_pipe, write_plain,
    write_produce,
};
use channel_msgs::{Request, read_request, write_request};
use ms_base::{Id, Media, Text, Tuple};
use rtp_params::{Mapping, Params, read_mapping, read_params};
use serde_json::Value;
use std::alloc::Global;
use std::test::Fail;
use worker_requests::{Asked, ConsumerIds, PipeContent, PlainContent, ProducerIds, read_asked};

const PARAMS: &str =
    r#"{"codecs":[{"clockRate":90000,"mimeType":"video/VP8","parameters":{"x-google":5},"payloadType":96,"rtcpFeedback":[{"parameter":"pli","type":"nack"}]}],"encodings":[{"rtx":{"ssrc":2223},"ssrc":2222},{"ssrc":4294967295}],"headerExtensions":[{"id":9,"uri":"urn:x"}],"rtcp":{"cname":"c","reducedSize":true}}"#;

const MAPPING: &str =
    r#"{"codecs":[{"mappedPayloadType":101,"payloadType":96},{"mappedPayloadType":102,"payloadType":97}],"encodings":[{"mappedSsrc":100000000,"ssrc":2222}]}"#;

fn params(alloc: Global) -> Result<Params, Fail> {
    let value = Value::from_str(alloc, PARAMS)?;
    Ok(read_params(alloc, &value)?)
}

fn mapping(alloc: Global) -> Result<Mapping, Fail> {
    let value = Value::from_str(alloc, MAPPING)?;
    Ok(read_mapping(alloc, &value)?)
}

const LISTENS: [u8; 4] = [192, 0, 2, 1];

#[test]
fn a_plain_transport_listens_with_rtcp_on_the_same_port(rt: HostRuntime) -> Result<(), Fail> {
    let content = PlainContent {
        comedia: true,
        ip: LISTENS,
    };
    let text = write_plain(rt.alloc(), content)?.to_string(rt.alloc())?;
    assert_eq!(rt;
        text.as_str(),
        r#"{"comedia":true,"listenIp":{"ip":"192.0.2.1"},"rtcpMux":true}"#
    );
    Ok(())
}

#[test]
fn an_end_of_a_pipe_listens(rt: HostRuntime) -> Result<(), Fail> {
    let content = PipeContent {
        enable_rtx: false,
        ip: LISTENS,
    };
    let text = write_pipe(rt.alloc(), content)?.to_string(rt.alloc())?;
    assert_eq!(rt;
        text.as_str(),
        r#"{"enableRtx":false,"listenIp":{"ip":"192.0.2.1"}}"#
    );
    Ok(())
}

#[test]
fn a_direct_transport_is_direct(rt: HostRuntime) -> Result<(), Fail> {
    let text = write_direct(rt.alloc())?.to_string(rt.alloc())?;
    assert_eq!(rt; text.as_str(), r#"{"direct":true}"#);
    Ok(())
}

#[test]
fn a_transport_is_connected(rt: HostRuntime) -> Result<(), Fail> {
    let to = Tuple {
        ip: [255, 0, 10, 99],
        port: 65535,
    };
    let text = write_connect(rt.alloc(), to)?.to_string(rt.alloc())?;
    assert_eq!(rt; text.as_str(), r#"{"ip":"255.0.10.99","port":65535}"#);
    Ok(())
}

#[test]
fn a_producer_has_its_mapping_and_its_parameters(rt: HostRuntime) -> Result<(), Fail> {
    let alloc = rt.alloc();
    let (mapping, params) = (mapping(alloc)?, params(alloc)?);
    let text = write_produce(alloc, Media::Video, true, &mapping, &params)?.to_string(alloc)?;
    assert_eq!(rt;
        text.as_str(),
        r#"{"kind":"video","paused":true,"rtpMapping":{"codecs":[{"mappedPayloadType":101,"payloadType":96},{"mappedPayloadType":102,"payloadType":97}],"encodings":[{"mappedSsrc":100000000,"ssrc":2222}]},"rtpParameters":{"codecs":[{"clockRate":90000,"mimeType":"video/VP8","parameters":{"x-google":5},"payloadType":96,"rtcpFeedback":[{"parameter":"pli","type":"nack"}]}],"encodings":[{"rtx":{"ssrc":2223},"ssrc":2222},{"ssrc":4294967295}],"headerExtensions":[{"id":9,"uri":"urn:x"}],"rtcp":{"cname":"c","reducedSize":true}}}"#
    );
    Ok(())
}

// What a Consumer of the parameters' own encodings is made of.
fn consumed(alloc: Global, simple: bool) -> Result<String, Fail> {
    let params = params(alloc)?;
    let encodings = params.encodings.as_slice();
    let value = write_consume(alloc, Media::Audio, false, encodings, &params, simple)?;
    Ok(value.to_string(alloc)?)
}

#[test]
fn a_consumer_of_a_pipe_has_what_it_consumes(rt: HostRuntime) -> Result<(), Fail> {
    let text = consumed(rt.alloc(), false)?;
    assert_eq!(rt;
        text.as_str(),
        r#"{"consumableRtpEncodings":[{"rtx":{"ssrc":2223},"ssrc":2222},{"ssrc":4294967295}],"kind":"audio","paused":false,"rtpParameters":{"codecs":[{"clockRate":90000,"mimeType":"video/VP8","parameters":{"x-google":5},"payloadType":96,"rtcpFeedback":[{"parameter":"pli","type":"nack"}]}],"encodings":[{"rtx":{"ssrc":2223},"ssrc":2222},{"ssrc":4294967295}],"headerExtensions":[{"id":9,"uri":"urn:x"}],"rtcp":{"cname":"c","reducedSize":true}},"type":"pipe"}"#
    );
    Ok(())
}

#[test]
fn another_consumer_is_simple(rt: HostRuntime) -> Result<(), Fail> {
    let text = consumed(rt.alloc(), true)?;
    assert_eq!(rt; text.as_str().ends_with(r#""type":"simple"}"#), true);
    Ok(())
}

fn id(last: u8) -> Id {
    Id([0, 0, 0, 0, 0, 0, 0x40, 0, 0x80, 0, 0, 0, 0, 0, 0, last])
}

// What the worker reads of a request that was written.
fn read_again(alloc: Global, asked: Asked) -> Result<Option<Asked>, Fail> {
    let request = Request {
        id: 7,
        method: Text::from_str(alloc, method_of(&asked))?,
        ids: ids_of(&asked),
        content: None,
    };
    let payload = write_request(alloc, &request)?;
    let request = read_request(alloc, payload.as_slice())?;
    Ok(read_asked(&request).ok())
}

#[test]
fn the_worker_reads_what_is_asked(rt: HostRuntime) -> Result<(), Fail> {
    let producer = ProducerIds {
        router: id(1),
        transport: id(2),
        producer: id(3),
    };
    let consumer = ConsumerIds {
        router: id(1),
        transport: id(2),
        producer: id(3),
        consumer: id(4),
    };
    let cases = [
        Asked::CreateRouter(id(1)),
        Asked::ResumeProducer(producer),
        Asked::Consume(consumer),
    ];
    for asked in cases {
        assert_eq!(rt; read_again(rt.alloc(), asked)?, Some(asked));
    }
    Ok(())
}
