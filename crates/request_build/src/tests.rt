mod host;
mod ops;
mod told;

use crate::{Names, RouterIds};
use channel_msgs::Ids;
use host::{id_of, kept, name, text, tree};
use ms_base::{Id, Op, Part, Serial, Tuple};
use ops::{connect, consume, direct, pipe, pipe_router, plain, produce, router, send, worker};
use std::test::Fail;
use told::{check, check_behind, check_close, check_part};

const OPUS_CAPS: &str = r#"{"codecs":[{"mimeType":"audio/opus","clockRate":48000,"channels":2}]}"#;

#[test]
fn nothing_is_kept_of_what_has_closed(rt: HostRuntime) -> Result<(), Fail> {
    let mut kept = kept(rt.alloc(), 1, false)?;
    kept.forget(Serial(7));
    let found = (
        kept.producers.get(Serial(6)).is_some(),
        kept.producers.get(Serial(7)).is_some(),
        kept.pipes.get(Serial(14)).copied(),
    );
    assert_eq!(rt; found, (true, false, Some(true)));
    Ok(())
}

#[test]
fn what_is_pending_is_counted(rt: HostRuntime) -> Result<(), Fail> {
    let a = rt.alloc();
    let (twice, once) = (name(a, "twice")?, name(a, "once")?);
    let mut names = Names::new(a);
    for added in [&twice, &once, &twice] {
        names.add(added)?;
    }
    names.remove(&twice);
    names.remove(&once);
    names.remove(&once);
    assert_eq!(rt; (names.times(&twice), names.has(&once)), (1, false));
    let (one, other) = (Id::of(7, 1), Id::of(7, 2));
    let mut ids = RouterIds::new(a);
    for router in [2, 9, 2] {
        ids.add(Serial(router), one)?;
    }
    ids.remove(Serial(2), one);
    ids.remove(Serial(9), one);
    let found = (
        ids.times(Serial(2), one),
        ids.has(Serial(9), one),
        ids.has(Serial(2), other),
    );
    assert_eq!(rt; found, (1, false, false));
    Ok(())
}

#[test]
fn an_open_producer_is_found_by_its_id(rt: HostRuntime) -> Result<(), Fail> {
    let mut kept = kept(rt.alloc(), 1, false)?;
    let id = Id::of(7, 107);
    let before = (
        kept.producers.has_id(Serial(2), id),
        kept.producers.has_id(Serial(9), id),
    );
    kept.forget(Serial(7));
    assert_eq!(rt; before, (true, false));
    assert!(rt; !kept.producers.has_id(Serial(2), id));
    Ok(())
}

#[test]
fn workers_and_routers(rt: HostRuntime) -> Result<(), Fail> {
    let a = rt.alloc();
    let none = r#"{"mediaCodecs":[]}"#;
    check(&rt, a, worker(a, "x")?, "own")?;
    check(&rt, a, worker(a, "gone")?, "nametaken")?;
    check_behind(&rt, a, 64, false, worker(a, "x")?, "typeerror slots")?;
    check_behind(&rt, a, 64, true, worker(a, "x")?, "invalidstate")?;
    check(&rt, a, router(a, "r", "w", none)?, "nametaken")?;
    check(&rt, a, router(a, "soon", "zz", none)?, "nametaken")?;
    check(&rt, a, router(a, "x", "zz", none)?, "noname")?;
    check(&rt, a, router(a, "x", "r", none)?, "wrongkind")?;
    check(&rt, a, router(a, "x", "still", none)?, "invalidstate")?;
    check(&rt, a, router(a, "x", "w", "[]")?, "typeerror form")?;
    check(
        &rt,
        a,
        router(
            a,
            "x",
            "w",
            r#"{"mediaCodecs":[{"mimeType":"video/H264","clockRate":90000}]}"#,
        )?,
        "unsupported codec",
    )?;
    check(
        &rt,
        a,
        router(a, "x", "w", none)?,
        "worker.createRouter 1 21 100000003 ",
    )?;
    Ok(())
}

#[test]
fn transports(rt: HostRuntime) -> Result<(), Fail> {
    let a = rt.alloc();
    let listens = r#"{"listenIp":"127.0.0.1"}"#;
    check(&rt, a, direct(a, "x", "w")?, "wrongkind")?;
    check(&rt, a, direct(a, "x", "shut")?, "invalidstate")?;
    check(
        &rt,
        a,
        direct(a, "x", "r")?,
        "router.createDirectTransport {\"direct\":true} 2 21 100000003 ",
    )?;
    check_behind(&rt, a, 1, true, direct(a, "x", "r")?, "invalidstate")?;
    check(
        &rt,
        a,
        plain(a, "x", "r", r#"{"listenIp":"127.0.0.1","rtcpMux":false}"#)?,
        "unsupported mux",
    )?;
    check(
        &rt,
        a,
        plain(a, "x", "r", listens)?,
        "router.createPlainTransport {\"comedia\":false,\"listenIp\":{\"ip\":\"127.0.0.1\"},\"rtcpMux\":true} 2 21 100000003 ",
    )?;
    check(
        &rt,
        a,
        pipe(a, "x", "s", listens)?,
        "router.createPipeTransport {\"enableRtx\":false,\"listenIp\":{\"ip\":\"127.0.0.1\"}} 9 21 100000003 ",
    )?;
    check(
        &rt,
        a,
        connect(a, "d", r#"{"ip":"10.0.0.1","port":5004}"#)?,
        "wrongkind",
    )?;
    check(
        &rt,
        a,
        connect(a, "t", r#"{"ip":"10.0.0.1","port":0}"#)?,
        "typeerror form",
    )?;
    check(
        &rt,
        a,
        connect(a, "t", r#"{"ip":"10.0.0.1","port":5004}"#)?,
        "transport.connect {\"ip\":\"10.0.0.1\",\"port\":5004} 4 20 100000003 ",
    )?;
    Ok(())
}

// A camera's VP8 with its retransmissions.
const CAMERA: &str =
    r#"{"kind":"video","rtpParameters":{"codecs":[{"mimeType":"video/VP8","payloadType":96,"clockRate":90000},{"mimeType":"video/rtx","payloadType":97,"clockRate":90000,"parameters":{"apt":96}}],"encodings":[{"ssrc":2222,"rtx":{"ssrc":2223},"rid":"x","scalabilityMode":"L1T1"}]}}"#;

#[test]
fn producers(rt: HostRuntime) -> Result<(), Fail> {
    let a = rt.alloc();
    check(&rt, a, produce(a, "x", "r", CAMERA)?, "wrongkind")?;
    check(
        &rt,
        a,
        produce(
            a,
            "x",
            "t",
            r#"{"kind":"audio","rtpParameters":{"codecs":[],"encodings":[]}}"#,
        )?,
        "typeerror many",
    )?;
    check(
        &rt,
        a,
        produce(
            a,
            "x",
            "t",
            r#"{"kind":"audio","rtpParameters":{"codecs":[{"mimeType":"audio/opus","payloadType":111,"clockRate":48000,"channels":2}],"encodings":[{"ssrc":1}]},"id":"00000000-0000-4007-8000-00000000006a"}"#,
        )?,
        "typeerror duplicate_id",
    )?;
    check(
        &rt,
        a,
        produce(
            a,
            "x",
            "t",
            r#"{"kind":"audio","rtpParameters":{"codecs":[{"mimeType":"audio/opus","payloadType":111,"clockRate":48000,"channels":2}],"encodings":[{"ssrc":1}]},"id":"00000000-0000-4007-8000-00000000004d"}"#,
        )?,
        "typeerror duplicate_id",
    )?;
    check(
        &rt,
        a,
        produce(
            a,
            "x",
            "t",
            r#"{"kind":"audio","rtpParameters":{"codecs":[{"mimeType":"audio/ISAC","payloadType":111,"clockRate":16000}],"encodings":[{"ssrc":1}]}}"#,
        )?,
        "unsupported codec",
    )?;
    check(
        &rt,
        a,
        produce(a, "x", "t", CAMERA)?,
        "transport.produce {\"kind\":\"video\",\"paused\":false,\"rtpMapping\":{\"codecs\":[{\"mappedPayloadType\":101,\"payloadType\":96},{\"mappedPayloadType\":102,\"payloadType\":97}],\"encodings\":[{\"mappedSsrc\":100000003,\"ssrc\":2222}]},\"rtpParameters\":{\"codecs\":[{\"clockRate\":90000,\"mimeType\":\"video/VP8\",\"parameters\":{},\"payloadType\":96,\"rtcpFeedback\":[]},{\"clockRate\":90000,\"mimeType\":\"video/rtx\",\"parameters\":{\"apt\":96},\"payloadType\":97,\"rtcpFeedback\":[]}],\"encodings\":[{\"rtx\":{\"ssrc\":2223},\"ssrc\":2222}],\"headerExtensions\":[],\"rtcp\":{\"cname\":\"\",\"reducedSize\":true}}} 4 21 100000004 ",
    )?;
    Ok(())
}

#[test]
fn consumers(rt: HostRuntime) -> Result<(), Fail> {
    let a = rt.alloc();
    let wants =
        r#"{"rtpCapabilities":{"codecs":[{"mimeType":"audio/opus","clockRate":48000,"channels":2}]},"paused":true}"#;
    check(&rt, a, consume(a, "x", "p", "zz", wants)?, "noname")?;
    check(&rt, a, consume(a, "x", "p", "p", wants)?, "wrongkind")?;
    check(&rt, a, consume(a, "x", "d", "t", wants)?, "wrongkind")?;
    check(&rt, a, consume(a, "x", "d", "gone", wants)?, "invalidstate")?;
    check(&rt, a, consume(a, "x", "f", "p", wants)?, "invalidstate")?;
    check(&rt, a, consume(a, "x", "d", "p", "{}")?, "typeerror form")?;
    check(
        &rt,
        a,
        consume(a, "x", "d", "q", wants)?,
        "unsupported simulcast",
    )?;
    check(
        &rt,
        a,
        consume(a, "x", "d", "p", r#"{"rtpCapabilities":{}}"#)?,
        "unsupported codecs",
    )?;
    check(
        &rt,
        a,
        consume(a, "x", "d", "p", wants)?,
        "transport.consume {\"consumableRtpEncodings\":[{\"ssrc\":100000000}],\"kind\":\"audio\",\"paused\":true,\"rtpParameters\":{\"codecs\":[{\"channels\":2,\"clockRate\":48000,\"mimeType\":\"audio/opus\",\"parameters\":{},\"payloadType\":100,\"rtcpFeedback\":[]}],\"encodings\":[{\"ssrc\":100000003}],\"headerExtensions\":[],\"rtcp\":{\"cname\":\"c\",\"reducedSize\":true}},\"type\":\"simple\"} 3 21 100000004 ",
    )?;
    check(
        &rt,
        a,
        consume(a, "x", "rtx", "q", "{}")?,
        "transport.consume {\"consumableRtpEncodings\":[{\"ssrc\":100000001},{\"ssrc\":100000002}],\"kind\":\"video\",\"paused\":false,\"rtpParameters\":{\"codecs\":[{\"clockRate\":90000,\"mimeType\":\"video/VP8\",\"parameters\":{},\"payloadType\":101,\"rtcpFeedback\":[]}],\"encodings\":[{\"rtx\":{\"ssrc\":100000005},\"ssrc\":100000003},{\"rtx\":{\"ssrc\":100000006},\"ssrc\":100000004}],\"headerExtensions\":[],\"rtcp\":{\"cname\":\"c\",\"reducedSize\":true}},\"type\":\"pipe\"} 14 21 100000007 ",
    )?;
    Ok(())
}

#[test]
fn calls_of_one_object(rt: HostRuntime) -> Result<(), Fail> {
    let a = rt.alloc();
    check(
        &rt,
        a,
        Op::Pause {
            name: name(a, "d")?,
        },
        "wrongkind",
    )?;
    check(
        &rt,
        a,
        Op::Pause {
            name: name(a, "p")?,
        },
        "producer.pause 6 20 100000003 ",
    )?;
    check(
        &rt,
        a,
        Op::Resume {
            name: name(a, "c")?,
        },
        "consumer.resume 8 20 100000003 ",
    )?;
    check(
        &rt,
        a,
        Op::Close {
            name: name(a, "shut")?,
        },
        "own",
    )?;
    check_behind(
        &rt,
        a,
        1,
        true,
        Op::Close {
            name: name(a, "w")?,
        },
        "own",
    )?;
    check(
        &rt,
        a,
        Op::Close {
            name: name(a, "zz")?,
        },
        "noname",
    )?;
    check(
        &rt,
        a,
        Op::CanConsume {
            producer: name(a, "p")?,
            caps: text(a, OPUS_CAPS)?,
        },
        "yes",
    )?;
    check(
        &rt,
        a,
        Op::CanConsume {
            producer: name(a, "q")?,
            caps: text(a, OPUS_CAPS)?,
        },
        "no",
    )?;
    check(
        &rt,
        a,
        Op::CanConsume {
            producer: name(a, "p")?,
            caps: text(a, "7")?,
        },
        "typeerror form",
    )?;
    check(&rt, a, send(a, "gone", 12)?, "wrongkind")?;
    check(&rt, a, send(a, "p", 12)?, "own")?;
    Ok(())
}

// The ids of the Router, the transport, the Producer and the Consumer of these serials; 0 names none.
fn ids(router: u32, transport: u32, producer: u32, consumer: u32) -> Ids {
    Ids {
        router: named_id(router),
        transport: named_id(transport),
        producer: named_id(producer),
        consumer: named_id(consumer),
    }
}

fn named_id(serial: u32) -> Option<Id> {
    if serial == 0 {
        None
    } else {
        Some(id_of(serial))
    }
}

#[test]
fn closes(rt: HostRuntime) -> Result<(), Fail> {
    let tree = tree(rt.alloc())?;
    check_close(&rt, &tree, 1, None)?;
    check_close(&rt, &tree, 11, Some(("router.close", ids(11, 0, 0, 0))))?;
    check_close(&rt, &tree, 4, Some(("transport.close", ids(2, 4, 0, 0))))?;
    check_close(&rt, &tree, 10, Some(("transport.close", ids(9, 10, 0, 0))))?;
    check_close(&rt, &tree, 7, Some(("producer.close", ids(2, 4, 7, 0))))?;
    check_close(&rt, &tree, 8, Some(("consumer.close", ids(2, 3, 6, 8))))?;
    Ok(())
}

#[test]
fn pipes_to_other_routers(rt: HostRuntime) -> Result<(), Fail> {
    let a = rt.alloc();
    check(&rt, a, pipe_router(a, "k", "p", "s")?, "nametaken")?;
    check(&rt, a, pipe_router(a, "m", "p", "p")?, "wrongkind")?;
    check(&rt, a, pipe_router(a, "m", "p", "shut")?, "invalidstate")?;
    check(
        &rt,
        a,
        pipe_router(a, "m", "p", "r")?,
        "typeerror same_router",
    )?;
    check(&rt, a, pipe_router(a, "m", "p", "s")?, "own")?;
    Ok(())
}

#[test]
fn parts_of_a_pipe(rt: HostRuntime) -> Result<(), Fail> {
    let a = rt.alloc();
    let end = Part::Pipe {
        name: name(a, "m_a")?,
        router: name(a, "r")?,
    };
    check_part(
        &rt,
        a,
        end,
        "router.createPipeTransport {\"enableRtx\":false,\"listenIp\":{\"ip\":\"127.0.0.1\"}} 2 21 100000003 ",
    )?;
    let to = Tuple {
        ip: [127, 0, 0, 1],
        port: 40001,
    };
    let connects = Part::Connect {
        transport: name(a, "e")?,
        to,
    };
    check_part(
        &rt,
        a,
        connects,
        "transport.connect {\"ip\":\"127.0.0.1\",\"port\":40001} 5 20 100000003 ",
    )?;
    let consumes = Part::Consume {
        name: name(a, "m_c")?,
        transport: name(a, "e")?,
        producer: name(a, "p")?,
    };
    check_part(
        &rt,
        a,
        consumes,
        "transport.consume {\"consumableRtpEncodings\":[{\"ssrc\":100000000}],\"kind\":\"audio\",\"paused\":false,\"rtpParameters\":{\"codecs\":[{\"channels\":2,\"clockRate\":48000,\"mimeType\":\"audio/opus\",\"parameters\":{},\"payloadType\":100,\"rtcpFeedback\":[]}],\"encodings\":[{\"ssrc\":100000003}],\"headerExtensions\":[],\"rtcp\":{\"cname\":\"c\",\"reducedSize\":true}},\"type\":\"pipe\"} 5 21 100000004 ",
    )?;
    let produces = Part::Produce {
        name: name(a, "m_p")?,
        transport: name(a, "f")?,
        producer: Serial(6),
        consumer: Serial(8),
        paused: true,
    };
    check_part(
        &rt,
        a,
        produces,
        "transport.produce {\"kind\":\"audio\",\"paused\":true,\"rtpMapping\":{\"codecs\":[{\"mappedPayloadType\":100,\"payloadType\":100}],\"encodings\":[{\"mappedSsrc\":100000003,\"ssrc\":100000000}]},\"rtpParameters\":{\"codecs\":[{\"channels\":2,\"clockRate\":48000,\"mimeType\":\"audio/opus\",\"parameters\":{},\"payloadType\":100,\"rtcpFeedback\":[]}],\"encodings\":[{\"ssrc\":100000000}],\"headerExtensions\":[],\"rtcp\":{\"cname\":\"c\",\"reducedSize\":true}}} 10 21 100000004 ",
    )?;
    let resumes = Part::Resume {
        name: name(a, "p")?,
    };
    check_part(&rt, a, resumes, "producer.resume 6 20 100000003 ")?;
    Ok(())
}
