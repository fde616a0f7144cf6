use crate::{Status, media_top, replay_top};
use host_core::Host;
use journal_text::read_journal;
use ms_base::{CallKey, Code, Entry, Name, Op, SlotLook, Text, Verdict, WorkerKey};
use ms_devices::{MemInbox, MemOutbox, MemSink, MemSource, Sink, Source};
use std::alloc::Global;
use std::test::Fail;

const JOURNAL: &[u8] = b"journal 1 7
call 1 worker w 0
spawned 1 1 up
chunk 1 1 270000007b226576656e74223a2272756e6e696e67222c227461726765744964223a22776f726b6572227d
call 1 router r w {\"mediaCodecs\":[]}
chunk 1 1 180000007b226163636570746564223a747275652c226964223a317d
";

const LINES: &[u8] = b"open 1 worker w 00000000-0000-4007-8000-000000000001
spawn 1 1
up 1 1
running w 1
settled 1 1 ok
sent 1 1 {\"id\":1,\"internal\":{\"routerId\":\"00000000-0000-4007-8000-000000000002\"},\"method\":\"worker.createRouter\"}
open 2 router r 00000000-0000-4007-8000-000000000002
settled 1 2 ok
";

// The request for the router, of 102 bytes, as its worker gets it.
const SENT: &[u8] =
    b"\x66\0\0\0{\"id\":1,\"internal\":{\"routerId\":\"00000000-0000-4007-8000-000000000002\"},\"method\":\"worker.createRouter\"}";

// Each refusal of `worker` and `router`, and responses that come late. A refused call draws no serial.
const CALLS: &[u8] = b"journal 1 7
call 1 worker w 0
spawned 1 1 up
call 1 router r w {\"mediaCodecs\":[]}
chunk 1 1 270000007b226576656e74223a2272756e6e696e67222c227461726765744964223a22776f726b6572227d
call 1 router r w {\"mediaCodecs\":[]}
call 2 router r w {\"mediaCodecs\":[]}
chunk 1 1 180000007b226163636570746564223a747275652c226964223a317d
call 2 worker r 0
call 2 router x zz {\"mediaCodecs\":[]}
call 2 router x r {\"mediaCodecs\":[]}
call 2 router x w {\"mediaCodecs\":[]}
chunk 1 1 2a0000007b226572726f72223a224572726f72222c226964223a322c22726561736f6e223a22657869737473227d
chunk 1 1 180000007b226163636570746564223a747275652c226964223a397d
chunk 1 1 180000007b226163636570746564223a747275652c226964223a317d
call 2 router x w {\"mediaCodecs\":[]}
";

const CALL_LINES: &[u8] = b"open 1 worker w 00000000-0000-4007-8000-000000000001
spawn 1 1
up 1 1
settled 1 2 invalidstate
running w 1
settled 1 1 ok
sent 1 1 {\"id\":1,\"internal\":{\"routerId\":\"00000000-0000-4007-8000-000000000002\"},\"method\":\"worker.createRouter\"}
settled 2 1 nametaken
open 2 router r 00000000-0000-4007-8000-000000000002
settled 1 3 ok
settled 2 2 nametaken
settled 2 3 noname
settled 2 4 wrongkind
sent 1 1 {\"id\":2,\"internal\":{\"routerId\":\"00000000-0000-4007-8000-000000000003\"},\"method\":\"worker.createRouter\"}
settled 2 5 worker Error \"exists\"
late 1 1 9
late 1 1 1
sent 1 1 {\"id\":3,\"internal\":{\"routerId\":\"00000000-0000-4007-8000-000000000004\"},\"method\":\"worker.createRouter\"}
";

// What a replay of a text ends with, and what is written.
fn replayed(
    alloc: Global,
    text: &[u8],
    reads: &[u32],
    writes: &[u32],
) -> Result<(Status, Vec<u8>), Fail> {
    let mut source = MemSource::new(alloc, text, Vec::from_slice(alloc, reads)?)?;
    let mut sink = MemSink::new(alloc, Vec::from_slice(alloc, writes)?)?;
    let status = replay_over(alloc, &mut source, &mut sink);
    let got = sink.told().unwrap_or(b"no more told");
    Ok((status, Vec::from_slice(alloc, got)?))
}

// Through the bounds alone.
fn replay_over<S: Source, K: Sink>(alloc: Global, source: &mut S, sink: &mut K) -> Status {
    replay_top(alloc, source, sink)
}

// The text with each chunk of the first worker replaced by one chunk for each of its bytes.
fn in_single_bytes(alloc: Global, text: &[u8]) -> Result<Vec<u8>, Fail> {
    let mut cut = Vec::new(alloc);
    for line in text.split_inclusive(|byte| *byte == b'\n') {
        match line.strip_prefix(b"chunk 1 1 ".as_slice()) {
            None => cut.extend_from_slice(line)?,
            Some(digits) => add_single_bytes(digits, &mut cut)?,
        }
    }
    Ok(cut)
}

// A chunk for each two digits of a line.
fn add_single_bytes(digits: &[u8], cut: &mut Vec<u8>) -> Result<(), Fail> {
    for byte in digits.chunks_exact(2) {
        cut.extend_from_slice(b"chunk 1 1 ")?;
        cut.extend_from_slice(byte)?;
        cut.push(b'\n')?;
    }
    Ok(())
}

#[test]
fn makes_a_worker_and_a_router(rt: HostRuntime) -> Result<(), Fail> {
    let cut = in_single_bytes(rt.alloc(), JOURNAL)?;
    for text in [JOURNAL, cut.as_slice()] {
        let (status, got) = replayed(rt.alloc(), text, &[], &[])?;
        assert_eq!(rt; status, Status::DONE);
        assert_eq!(rt; got.as_slice(), LINES);
    }
    Ok(())
}

#[test]
fn answers_each_text_with_its_status(rt: HostRuntime) -> Result<(), Fail> {
    let alloc = rt.alloc();
    let table: [(&[u8], Status, &[u8]); 8] = [
        (CALLS, Status::DONE, CALL_LINES),
        (b"journal 1 7\n", Status::DONE, b""),
        (b"", Status::BAD_TEXT, b"bad 1 head\n"),
        (b"journal 1 7", Status::BAD_TEXT, b"bad 1 cut\n"),
        (b"journal 1 7\nstop x\n", Status::BAD_TEXT, b"bad 2 op\n"),
        (
            b"journal 1 7\ncall 1 worker w 1\n",
            Status::BAD_TEXT,
            b"bad 2 op\n",
        ),
        (
            b"journal 1 7\ncall 1 worker w 0\nspawned 1 1 failed\nstop\n",
            Status::BAD_TEXT,
            b"bad 4 op\n",
        ),
        (
            b"journal 1 7\ncall 1 worker w 0\nspawned 1 1 failed\n",
            Status::BAD_TEXT,
            b"bad 3 op\n",
        ),
    ];
    for (text, status, written) in table {
        let (ended, got) = replayed(alloc, text, &[], &[])?;
        assert_eq!(rt; ended, status, "{text:?}");
        assert_eq!(rt; got.as_slice(), written, "{text:?}");
    }
    Ok(())
}

#[test]
fn tells_which_side_failed(rt: HostRuntime) -> Result<(), Fail> {
    let alloc = rt.alloc();
    let table: [(&[u8], &[u32], &[u32], Status, &[u8]); 3] = [
        (JOURNAL, &[2], &[], Status::READ_FAILED, b""),
        (JOURNAL, &[], &[1], Status::WRITE_FAILED, LINES),
        (b"", &[], &[1], Status::BAD_TEXT, b"bad 1 head\n"),
    ];
    for (text, reads, writes, status, whole) in table {
        let (ended, got) = replayed(alloc, text, reads, writes)?;
        assert_eq!(rt; ended, status, "{text:?}");
        // A write that fails adds half of its piece.
        assert_eq!(rt; got.as_slice(), &whole[..whole.len() / 2], "{text:?}");
    }
    Ok(())
}

// How the words end over the shortest journal, and an inbox that gives its end.
fn ended(alloc: Global, texts: &[&str]) -> Result<Status, Fail> {
    let mut words = Vec::new(alloc);
    for text in texts {
        words.push(Text::from_str(alloc, text)?)?;
    }
    let mut source = MemSource::new(alloc, b"journal 1 7\n", Vec::new(alloc))?;
    let mut sink = MemSink::new(alloc, Vec::new(alloc))?;
    let mut inbox = MemInbox::new(alloc, Vec::new(alloc), Vec::new(alloc))?;
    let mut outbox = MemOutbox::new(alloc, Vec::new(alloc), Vec::new(alloc))?;
    Ok(media_top(
        alloc,
        words.as_slice(),
        &mut source,
        &mut sink,
        &mut inbox,
        &mut outbox,
    ))
}

#[test]
fn knows_each_command(rt: HostRuntime) -> Result<(), Fail> {
    let table: [(&[&str], Status); 6] = [
        (&["replay"], Status::DONE),
        (&["worker"], Status::DONE),
        (&["replay", "now"], Status::NO_COMMAND),
        (&[], Status::NO_COMMAND),
        (&["Replay"], Status::NO_COMMAND),
        (&["worker", "now"], Status::NO_COMMAND),
    ];
    for (texts, status) in table {
        assert_eq!(rt; ended(rt.alloc(), texts)?, status, "{texts:?}");
    }
    Ok(())
}

// A host of seed 7 that has heard the entries of a text.
fn heard(alloc: Global, text: &[u8]) -> Result<Host, Fail> {
    let (_seed, entries) = read_journal(alloc, text)?;
    let mut host = Host::new(alloc, 7)?;
    for entry in entries {
        host.apply(entry)?;
    }
    Ok(host)
}

fn sent(host: &Host, slot: u32) -> &[u8] {
    host.sent(WorkerKey {
        slot,
        generation: 1,
    })
}

// What became of a call of the first lane, and what a slot shows.
fn shown(host: &Host, place: u32, slot: u32) -> (Option<Verdict>, SlotLook) {
    (host.verdict(CallKey { lane: 1, place }), host.slot(slot))
}

#[test]
fn shows_what_it_sent_and_what_came_of_it(rt: HostRuntime) -> Result<(), Fail> {
    let host = heard(rt.alloc(), JOURNAL)?;
    let live = SlotLook::Live {
        generation: 1,
        sent: 106,
    };
    assert_eq!(rt; sent(&host, 1), SENT);
    assert_eq!(rt; shown(&host, 2, 1), (Some(Verdict::Done), live));
    assert_eq!(rt; shown(&host, 3, 2), (None, SlotLook::Idle));
    Ok(())
}

#[test]
fn counts_what_it_heard(rt: HostRuntime) -> Result<(), Fail> {
    let host = heard(rt.alloc(), JOURNAL)?;
    assert_eq!(rt; host.size(), JOURNAL.len() as u64);
    assert_eq!(rt; host.journal().len(), 5);
    Ok(())
}

// A call for a worker of this number.
fn worker_call(alloc: Global, number: u32) -> Result<Entry, Fail> {
    let name = format!(in alloc; "w{number}")?;
    let name = Name::read(alloc, name.as_bytes())?;
    let op = Op::Worker { name, budget: 0 };
    Ok(Entry::Call { lane: 1, op })
}

// A host that was called for so many workers.
fn called_for_workers(alloc: Global, count: u32) -> Result<Host, Fail> {
    let mut host = Host::new(alloc, 7)?;
    for number in 0..count {
        host.apply(worker_call(alloc, number)?)?;
    }
    Ok(host)
}

#[test]
fn has_no_slot_for_a_65th_worker(rt: HostRuntime) -> Result<(), Fail> {
    let host = called_for_workers(rt.alloc(), 65)?;
    let refused = Verdict::TypeError { code: Code::Slots };
    assert_eq!(rt; shown(&host, 64, 64), (None, SlotLook::Want(1)));
    assert_eq!(rt; shown(&host, 65, 65), (Some(refused), SlotLook::Idle));
    Ok(())
}
