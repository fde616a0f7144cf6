use crate::Host;
use journal_text::read_journal;
use ms_base::{
    ApplyFault, Bytes, CallKey, Entry, GoneCause, Name, NoMemory, Op, SlotLook, Verdict, WorkerKey,
};
use std::alloc::Global;
use std::test::Fail;
use transcript::{Note, note_line};

const FIRST: WorkerKey = WorkerKey {
    slot: 1,
    generation: 1,
};

// A Worker that runs, and a Router on it.
const BEGIN: &str =
    "journal 1 7\ncall 1 worker w 0\nspawned 1 1 up\nchunk 1 1 270000007b226576656e74223a2272756e6e696e67222c227461726765744964223a22776f726b6572227d\ncall 1 router r w {\"mediaCodecs\":[]}\nchunk 1 1 180000007b226163636570746564223a747275652c226964223a317d\n";

// The same, with a Router for Opus.
const BEGIN_WITH_OPUS: &str =
    "journal 1 7\ncall 1 worker w 0\nspawned 1 1 up\nchunk 1 1 270000007b226576656e74223a2272756e6e696e67222c227461726765744964223a22776f726b6572227d\ncall 1 router r w {\"mediaCodecs\":[{\"kind\":\"audio\",\"mimeType\":\"audio/opus\",\"clockRate\":48000,\"channels\":2}]}\nchunk 1 1 180000007b226163636570746564223a747275652c226964223a317d\n";

// A host that has heard the entries of a journal.
fn host_of(alloc: Global, text: &[u8]) -> Result<Host, Fail> {
    let (seed, entries) = read_journal(alloc, text)?;
    let mut host = Host::new(alloc, seed)?;
    for entry in entries {
        host.apply(entry)?;
    }
    Ok(host)
}

// The lines of these notes.
fn lines_of(alloc: Global, notes: &[Note]) -> Result<Bytes, NoMemory> {
    let mut lines = Bytes::from_slice(alloc, b"")?;
    for note in notes {
        note_line(alloc, note, &mut lines)?;
    }
    Ok(lines)
}

// The lines that a host shows behind its first notes, whose journal begins and goes on so.
fn shown(alloc: Global, before: &str, more: &str, first: usize) -> Result<Bytes, Fail> {
    let mut text = Vec::from_slice(alloc, before.as_bytes())?;
    text.extend_from_slice(more.as_bytes())?;
    let host = host_of(alloc, text.as_slice())?;
    let notes = host.notes().get(first..).unwrap_or(&[]);
    Ok(lines_of(alloc, notes)?)
}

#[test]
fn a_missing_name_comes_before_a_wrong_kind(rt: HostRuntime) -> Result<(), Fail> {
    let more = "call 2 consume c w missing {}\n";
    let lines = shown(rt.alloc(), BEGIN, more, 8)?;
    let expected: &str = "settled 2 1 noname\n";
    assert_eq!(rt; lines.as_slice(), expected.as_bytes());
    Ok(())
}

#[test]
fn a_close_asks_the_worker_once(rt: HostRuntime) -> Result<(), Fail> {
    let more =
        "call 1 direct d r\nchunk 1 1 180000007b226163636570746564223a747275652c226964223a327d\ncall 1 close r\n";
    let lines = shown(rt.alloc(), BEGIN, more, 8)?;
    let expected: &str =
        "sent 1 1 {\"data\":{\"direct\":true},\"id\":2,\"internal\":{\"routerId\":\"00000000-0000-4007-8000-000000000002\",\"transportId\":\"00000000-0000-4007-8000-000000000003\"},\"method\":\"router.createDirectTransport\"}\nopen 3 direct d 00000000-0000-4007-8000-000000000003\nsettled 1 3 ok\nclosed 2 r close\nclosed 3 d routerclose\nsent 1 1 {\"id\":3,\"internal\":{\"routerId\":\"00000000-0000-4007-8000-000000000002\"},\"method\":\"router.close\"}\nsettled 1 4 ok\n";
    assert_eq!(rt; lines.as_slice(), expected.as_bytes());
    Ok(())
}

#[test]
fn awaits_settle_last(rt: HostRuntime) -> Result<(), Fail> {
    let more = "await 4 r open 2\nawait 3 r closed 1\nawait 2 r open 1\ncall 1 close r\n";
    let lines = shown(rt.alloc(), BEGIN, more, 8)?;
    let expected: &str =
        "settled 2 1 ok\nclosed 2 r close\nsent 1 1 {\"id\":2,\"internal\":{\"routerId\":\"00000000-0000-4007-8000-000000000002\"},\"method\":\"router.close\"}\nsettled 1 3 ok\nsettled 4 1 missed\nsettled 3 1 ok\n";
    assert_eq!(rt; lines.as_slice(), expected.as_bytes());
    Ok(())
}

#[test]
fn a_response_for_what_has_fallen_is_late(rt: HostRuntime) -> Result<(), Fail> {
    let more =
        "call 2 direct d r\ncall 1 close r\nchunk 1 1 180000007b226163636570746564223a747275652c226964223a327d\n";
    let lines = shown(rt.alloc(), BEGIN, more, 8)?;
    let expected: &str =
        "sent 1 1 {\"data\":{\"direct\":true},\"id\":2,\"internal\":{\"routerId\":\"00000000-0000-4007-8000-000000000002\",\"transportId\":\"00000000-0000-4007-8000-000000000003\"},\"method\":\"router.createDirectTransport\"}\nclosed 2 r close\nsettled 2 1 closed r\nsent 1 1 {\"id\":3,\"internal\":{\"routerId\":\"00000000-0000-4007-8000-000000000002\"},\"method\":\"router.close\"}\nsettled 1 3 ok\nlate 1 1 2\n";
    assert_eq!(rt; lines.as_slice(), expected.as_bytes());
    Ok(())
}

#[test]
fn a_consumer_is_paused_as_its_worker_says(rt: HostRuntime) -> Result<(), Fail> {
    let more =
        "call 1 direct d r\nchunk 1 1 180000007b226163636570746564223a747275652c226964223a327d\ncall 1 produce p d {\"kind\":\"audio\",\"rtpParameters\":{\"codecs\":[{\"mimeType\":\"audio/opus\",\"payloadType\":100,\"clockRate\":48000,\"channels\":2}],\"encodings\":[{\"ssrc\":1111}]}}\nchunk 1 1 310000007b226163636570746564223a747275652c2264617461223a7b2274797065223a2273696d706c65227d2c226964223a337d\ncall 1 consume c d p {\"rtpCapabilities\":{\"codecs\":[{\"kind\":\"audio\",\"mimeType\":\"audio/opus\",\"preferredPayloadType\":100,\"clockRate\":48000,\"channels\":2}]}}\nchunk 1 1 460000007b226163636570746564223a747275652c2264617461223a7b22706175736564223a747275652c2270726f6475636572506175736564223a66616c73657d2c226964223a347d\nchunk 1 1 4b0000007b226576656e74223a2270726f64756365727061757365222c227461726765744964223a2230303030303030302d303030302d343030372d383030302d303030303030303030303035227d\nchunk 1 1 4c0000007b226576656e74223a2270726f6475636572726573756d65222c227461726765744964223a2230303030303030302d303030302d343030372d383030302d303030303030303030303035227d\n";
    let lines = shown(rt.alloc(), BEGIN_WITH_OPUS, more, 15)?;
    let expected: &str = "open 5 consumer c 00000000-0000-4007-8000-000000000005\nsettled 1 5 ok\n";
    assert_eq!(rt; lines.as_slice(), expected.as_bytes());
    Ok(())
}

#[test]
fn what_was_settled_and_sent_is_told(rt: HostRuntime) -> Result<(), Fail> {
    let host = host_of(rt.alloc(), BEGIN.as_bytes())?;
    let call = CallKey { lane: 1, place: 2 };
    assert_eq!(rt; host.verdict(call), Some(Verdict::Done));
    assert_eq!(rt; host.sent(FIRST).len(), 106);
    assert_eq!(rt; host.size(), BEGIN.len() as u64);
    assert_eq!(rt;
        host.slot(1),
        SlotLook::Live {
            generation: 1,
            sent: 106
        }
    );
    Ok(())
}

// What a host that has heard nothing answers to an entry of a form that is not built.
fn answer_to_unbuilt(alloc: Global, form: usize) -> Result<Option<ApplyFault>, Fail> {
    let name = Name::read(alloc, b"w")?;
    let entry = match form {
        0 => Entry::Call {
            lane: 1,
            op: Op::Worker { name, budget: 1 },
        },
        1 => Entry::Gone {
            worker: FIRST,
            cause: GoneCause::End,
        },
        _ => Entry::Stop,
    };
    let mut host = Host::new(alloc, 7)?;
    Ok(host.apply(entry).err())
}

#[test]
fn what_is_not_built_is_refused(rt: HostRuntime) -> Result<(), Fail> {
    for form in 0..3 {
        let fault = answer_to_unbuilt(rt.alloc(), form)?;
        assert_eq!(rt; fault, Some(ApplyFault::Unbuilt));
    }
    Ok(())
}
