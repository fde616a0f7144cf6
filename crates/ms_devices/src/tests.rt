ghost use Rattle.std.specs.Prelude.{◌≡◌, ◌≤◌, IfOk, length};

use crate::{
    EVENT_BYTES, Failed, GivenEvent, InEvent, Inbox, MemEvent, MemInbox, MemOutbox, MemSink,
    MemSource, OutCall, Outbox, Sink, Source,
};
use ms_base::{Bytes, Tuple};
use std::alloc::Global;
use std::test::Fail;

// What two reads and a read at the end answer, with the bytes of the first.
fn three_reads<S: Source>(source: &mut S, place: &mut [u8; 4]) -> [Result<usize, Failed>; 3] {
    let first = source.read(place);
    let mut other = [0; 4];
    [first, source.read(&mut other), source.read(&mut other)]
}

fn two_writes<S: Sink>(sink: &mut S) -> [Result<(), Failed>; 2] {
    [sink.write(b"abcd"), sink.write(b"ef")]
}

fn numbers(alloc: Global, list: &[u32]) -> Result<Vec<u32>, Fail> {
    Ok(Vec::from_slice(alloc, list)?)
}

#[test]
fn a_source_gives_its_bytes_and_then_its_end(rt: HostRuntime) -> Result<(), Fail> {
    let mut source = MemSource::new(rt.alloc(), b"abcdef", numbers(rt.alloc(), &[])?)?;
    let mut place = [0; 4];
    let answers = three_reads(&mut source, &mut place);
    assert!(rt; answers.as_slice() == [Ok(4), Ok(2), Ok(0)].as_slice());
    assert_eq!(rt; place.as_slice(), b"abcd".as_slice());
    Ok(())
}

#[test]
fn a_source_fails_at_its_second_read(rt: HostRuntime) -> Result<(), Fail> {
    let mut source = MemSource::new(rt.alloc(), b"abcdef", numbers(rt.alloc(), &[2])?)?;
    let answers = three_reads(&mut source, &mut [0; 4]);
    assert!(rt; answers.as_slice() == [Ok(4), Err(Failed), Ok(2)].as_slice());
    Ok(())
}

#[test]
fn a_sink_tells_what_it_got(rt: HostRuntime) -> Result<(), Fail> {
    for (fails, answers, told) in [
        (&[] as &[u32], [Ok(()), Ok(())], b"abcdef".as_slice()),
        (&[1], [Err(Failed), Ok(())], b"abef"),
        (&[2, 9], [Ok(()), Err(Failed)], b"abcde"),
    ] {
        let mut sink = MemSink::new(rt.alloc(), numbers(rt.alloc(), fails)?)?;
        assert_eq!(rt; two_writes(&mut sink).as_slice(), answers.as_slice());
        assert_eq!(rt; sink.told().unwrap_or(b"no more told"), told);
    }
    Ok(())
}

const PEER: Tuple = Tuple {
    ip: [127, 0, 0, 1],
    port: 6000,
};

// Bytes of this length, all 7.
fn long(alloc: Global, len: usize) -> Result<Bytes, Fail> {
    Ok(Bytes::from_vec(vec![in alloc; 7; len]?))
}

// Bytes of the channel that take two events, none, and a datagram that is cut.
fn long_events(alloc: Global) -> Result<Vec<MemEvent>, Fail> {
    let mut events = Vec::new(alloc);
    events.push(MemEvent::Channel(long(alloc, EVENT_BYTES + 2)?))?;
    events.push(MemEvent::Channel(Bytes::new(alloc)))?;
    events.push(MemEvent::Datagram {
        link: 3,
        from: PEER,
        packet: long(alloc, EVENT_BYTES + 1)?,
    })?;
    Ok(events)
}

fn place(alloc: Global, len: usize) -> Result<Vec<u8>, Fail>
    ensures { IfOk result (λ place. length place.items ≡ len) }
{
    Ok(vec![in alloc; 0; len]?)
}

// What the next six calls answer.
fn six_answers<I: Inbox>(inbox: &mut I, into: &mut [u8]) -> [Result<InEvent, Failed>; 6]
    requires { EVENT_BYTES ≤ length into.old }
{
    [
        inbox.next(into),
        inbox.next(into),
        inbox.next(into),
        inbox.next(into),
        inbox.next(into),
        inbox.next(into),
    ]
}

#[test]
fn an_inbox_gives_its_events_and_then_its_end(rt: HostRuntime) -> Result<(), Fail> {
    let events = long_events(rt.alloc())?;
    let mut inbox = MemInbox::new(rt.alloc(), events, numbers(rt.alloc(), &[3])?)?;
    let mut into = place(rt.alloc(), EVENT_BYTES)?;
    let answers = six_answers(&mut inbox, &mut into);
    let cut = InEvent::Datagram {
        link: 3,
        from: PEER,
        len: EVENT_BYTES,
    };
    let wanted = [
        Ok(InEvent::Channel { len: EVENT_BYTES }),
        Ok(InEvent::Channel { len: 2 }),
        Err(Failed),
        Ok(cut),
        Ok(InEvent::End),
        Ok(InEvent::End),
    ];
    assert!(rt; answers.as_slice() == wanted.as_slice());
    assert!(rt; tells_five(&inbox));
    Ok(())
}

// Whether it tells five events, with the bytes of the second one and two ends at the end.
fn tells_five(inbox: &MemInbox) -> bool {
    let Some([_, GivenEvent::Channel(bytes), _, first, second]) = inbox.told() else {
        return false;
    };
    bytes.as_slice() == [7, 7].as_slice() && *first == GivenEvent::End && *second == GivenEvent::End
}

// A call of each kind, a `bind` twice.
fn five_calls<O: Outbox>(outbox: &mut O) -> (Result<u16, Failed>, Result<u16, Failed>, [bool; 2]) {
    let first = outbox.bind(1, [127, 0, 0, 1]);
    let frame = outbox.channel(b"frame").is_ok();
    outbox.shut(1);
    let sent = outbox.datagram(1, PEER, b"packet").is_ok();
    let second = outbox.bind(2, [10, 0, 0, 1]);
    (first, second, [frame, sent])
}

fn told_calls(alloc: Global) -> Result<Vec<OutCall>, Fail> {
    Ok(vec![in alloc;
        OutCall::Bind {
            link: 1,
            ip: [127, 0, 0, 1],
            port: Some(40_000)
        },
        OutCall::Channel {
            frame: Bytes::from_slice(alloc, b"frame")?,
            failed: true
        },
        OutCall::Shut { link: 1 },
        OutCall::Datagram {
            link: 1,
            to: PEER,
            packet: Bytes::from_slice(alloc, b"packet")?,
            failed: false
        },
        OutCall::Bind {
            link: 2,
            ip: [10, 0, 0, 1],
            port: None
        },
    ]?)
}

#[test]
fn an_outbox_tells_each_call_with_its_answer(rt: HostRuntime) -> Result<(), Fail> {
    let ports = Vec::from_slice(rt.alloc(), &[40_000])?;
    let mut outbox = MemOutbox::new(rt.alloc(), ports, numbers(rt.alloc(), &[2])?)?;
    let answers = five_calls(&mut outbox);
    assert!(rt; answers == (Ok(40_000), Err(Failed), [false, true]));
    let told = told_calls(rt.alloc())?;
    assert!(rt; outbox.told() == Some(told.as_slice()));
    Ok(())
}
