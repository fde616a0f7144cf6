ghost use Rattle.std.specs.Prelude.{◌≤◌, length};

use crate::{RealSink, RealSource, open_worker};
use ms_base::Tuple;
use ms_devices::{EVENT_BYTES, Failed, InEvent, Inbox, Outbox, Sink, Source};
use std::alloc::Global;
use std::io;
use std::io::{ErrorKind, Read, Write};
use std::test::Fail;

const LOCAL: [u8; 4] = [127, 0, 0, 1];

// It is interrupted, gives one byte, fails, and then is at its end.
#[derive(Drop)]
struct Reader {
    turn: u8,
}

impl Read for Reader {
    fn read(&mut self, buf: &mut [u8]) -> io::Result<usize> {
        self.turn = self.turn.saturating_add(1);
        match self.turn {
            1 => Err(io::Error::from(ErrorKind::Interrupted)),
            2 => Ok(first_is_7(buf)),
            3 => Err(io::Error::from(ErrorKind::BrokenPipe)),
            _ => Ok(0),
        }
    }
}

fn first_is_7(buf: &mut [u8]) -> usize
    ensures { result ≤ length buf.new }
{
    match buf.first_mut() {
        None => 0,
        Some(first) => {
            *first = 7;
            1
        }
    }
}

// It is interrupted, takes two bytes a call, and fails at its fifth call.
#[derive(Drop)]
struct Writer {
    turn: u8,
    taken: Vec<u8>,
}

impl Write for Writer {
    fn write(&mut self, buf: &[u8]) -> io::Result<usize> {
        self.turn = self.turn.saturating_add(1);
        match self.turn {
            1 => Err(io::Error::from(ErrorKind::Interrupted)),
            5 => Err(io::Error::from(ErrorKind::BrokenPipe)),
            _ => {
                let count = buf.len().min(2);
                self.taken.extend_from_slice(&buf[..count])?;
                Ok(count)
            }
        }
    }

    fn flush(&mut self) -> io::Result<()> {
        Ok(())
    }
}

// It takes every piece, and can't hand it on.
#[derive(Drop)]
struct Held;

impl Write for Held {
    fn write(&mut self, buf: &[u8]) -> io::Result<usize> {
        Ok(buf.len())
    }

    fn flush(&mut self) -> io::Result<()> {
        Err(io::Error::from(ErrorKind::BrokenPipe))
    }
}

// It is never read.
#[derive(Drop)]
struct Unread;

impl Read for Unread {
    fn read(&mut self, _buf: &mut [u8]) -> io::Result<usize> {
        Err(io::Error::from(ErrorKind::Other))
    }
}

fn three_reads<S: Source>(source: &mut S, place: &mut [u8; 4]) -> [Result<usize, Failed>; 3] {
    let mut other = [0; 4];
    [
        source.read(place),
        source.read(&mut other),
        source.read(&mut other),
    ]
}

fn three_writes<K: Sink>(sink: &mut K) -> [Result<(), Failed>; 3] {
    [sink.write(b"abcd"), sink.write(b"ef"), sink.write(b"gh")]
}

#[test]
fn a_read_goes_on_after_an_interruption_and_fails_in_mid_stream(
    rt: HostRuntime,
) -> Result<(), Fail> {
    let mut place = [0; 4];
    let answers = three_reads(&mut RealSource::new(Reader { turn: 0 }), &mut place);
    assert!(rt; answers.as_slice() == [Ok(1), Err(Failed), Ok(0)].as_slice());
    assert_eq!(rt; place[0], 7);
    Ok(())
}

#[test]
fn a_piece_is_written_to_its_end(rt: HostRuntime) -> Result<(), Fail> {
    let mut writer = Writer {
        turn: 0,
        taken: Vec::with_capacity(rt.alloc(), 6)?,
    };
    let answers = three_writes(&mut RealSink::new(&mut writer));
    assert!(rt; answers.as_slice() == [Ok(()), Ok(()), Err(Failed)].as_slice());
    assert_eq!(rt; writer.taken.as_slice(), b"abcdef".as_slice());
    Ok(())
}

#[test]
fn a_piece_that_is_not_flushed_is_a_fault(rt: HostRuntime) {
    let answers = three_writes(&mut RealSink::new(Held));
    assert!(rt; answers.as_slice() == [Err(Failed), Err(Failed), Err(Failed)].as_slice());
}

fn place(alloc: Global) -> Result<Vec<u8>, Fail> {
    Ok(vec![in alloc; 0u8; EVENT_BYTES]?)
}

fn next<I: Inbox>(inbox: &mut I, place: &mut [u8]) -> Result<InEvent, Failed> {
    if place.len() < EVENT_BYTES {
        return Err(Failed);
    }
    inbox.next(place)
}

fn at(port: u16) -> Tuple {
    Tuple { ip: LOCAL, port }
}

// Two links: a datagram from the first to the second, and one after the first was shut.
fn two_links<I: Inbox, O: Outbox>(
    inbox: &mut I,
    outbox: &mut O,
    place: &mut [u8],
) -> Result<bool, Failed> {
    let one = outbox.bind(1, LOCAL)?;
    let two = outbox.bind(2, LOCAL)?;
    outbox.datagram(1, at(two), b"abc")?;
    let came = next(inbox, place)?;
    outbox.shut(1);
    let wanted = InEvent::Datagram {
        link: 2,
        from: at(one),
        len: 3,
    };
    Ok(came == wanted && outbox.datagram(1, at(two), b"abc").is_err())
}

// Whether these bytes of the channel come next.
fn comes<I: Inbox>(inbox: &mut I, place: &mut [u8], wanted: &[u8]) -> bool {
    match next(inbox, place) {
        Ok(InEvent::Channel { len }) => place.get(..len) == Some(wanted),
        _ => false,
    }
}

// Whether the end comes next, and again.
fn has_ended<I: Inbox>(inbox: &mut I, place: &mut [u8]) -> bool {
    let first = next(inbox, place);
    let second = next(inbox, place);
    first == Ok(InEvent::End) && second == Ok(InEvent::End)
}

#[test]
fn links_and_the_channel_come_to_one_inbox(rt: HostRuntime) -> Result<(), Fail> {
    let (input, mut host) = io::pipe(&rt)?;
    let mut edges = open_worker(rt, rt.alloc(), input, io::sink())?;
    let mut room = place(rt.alloc())?;
    let linked = two_links(&mut edges.inbox, &mut edges.outbox, room.as_mut_slice());
    assert_eq!(rt; linked, Ok(true));
    let written = host.write(b"wxyz")?;
    assert_eq!(rt; written, 4);
    let came = comes(&mut edges.inbox, room.as_mut_slice(), b"wxyz");
    assert!(rt; came);
    drop(host);
    let ended = has_ended(&mut edges.inbox, room.as_mut_slice());
    assert!(rt; ended);
    edges.close();
    Ok(())
}

// What lies in a pipe whose other end is closed, at most 8 bytes.
fn lies_in<R: Read>(pipe: &mut R) -> io::Result<(usize, usize, [u8; 8])> {
    let mut place = [0; 8];
    let count = pipe.read(&mut place)?;
    Ok((count, pipe.read(&mut [0; 8])?, place))
}

#[test]
fn frames_go_to_the_output_which_is_let_go_of(rt: HostRuntime) -> Result<(), Fail> {
    let (mut heard, output) = io::pipe(&rt)?;
    let mut edges = open_worker(rt, rt.alloc(), Unread, output)?;
    let said = edges.outbox.channel(b"frame");
    assert_eq!(rt; said, Ok(()));
    edges.close();
    let lies = lies_in(&mut heard)?;
    assert_eq!(rt; lies, (5, 0, *b"frame\0\0\0"));
    Ok(())
}

// How many of these datagrams come in order, each with its first byte: lengths from 1 up, and one of 40,000 bytes.
fn come_in_order<I: Inbox, O: Outbox>(
    inbox: &mut I,
    outbox: &mut O,
    place: &mut [u8],
) -> Result<usize, Failed> {
    let _ = outbox.bind(1, LOCAL)?;
    let two = outbox.bind(2, LOCAL)?;
    let packet = [9u8; 40_000];
    for len in 1..100 {
        outbox.datagram(1, at(two), &packet[..len])?;
    }
    outbox.datagram(1, at(two), &packet)?;
    let mut count = 0usize;
    for wanted in 1..101 {
        let len = if wanted == 100 { 40_000 } else { wanted };
        if let InEvent::Datagram { len: came, .. } = next(inbox, place)? {
            count = count.saturating_add(usize::from(came == len && place.first() == Some(&9)));
        }
    }
    Ok(count)
}

#[test]
fn datagrams_of_a_link_come_whole_and_in_order(rt: HostRuntime) -> Result<(), Fail> {
    let (input, host) = io::pipe(&rt)?;
    let mut edges = open_worker(rt, rt.alloc(), input, io::sink())?;
    let mut room = place(rt.alloc())?;
    let count = come_in_order(&mut edges.inbox, &mut edges.outbox, room.as_mut_slice());
    assert_eq!(rt; count, Ok(100));
    drop(host);
    let end = next(&mut edges.inbox, room.as_mut_slice());
    assert_eq!(rt; end, Ok(InEvent::End));
    edges.close();
    Ok(())
}

#[test]
fn a_fault_of_the_channel_comes_again(rt: HostRuntime) -> Result<(), Fail> {
    let mut edges = open_worker(rt, rt.alloc(), Reader { turn: 0 }, Held)?;
    let mut room = place(rt.alloc())?;
    let place = room.as_mut_slice();
    let answers = [
        next(&mut edges.inbox, place),
        next(&mut edges.inbox, place),
        next(&mut edges.inbox, place),
    ];
    let wanted = [Ok(InEvent::Channel { len: 1 }), Err(Failed), Err(Failed)];
    assert!(rt; answers.as_slice() == wanted.as_slice());
    let said = edges.outbox.channel(b"frame");
    assert_eq!(rt; said, Err(Failed));
    edges.close();
    Ok(())
}

// Opens 40 links, each of the upper half twice, and shuts the lower half.
fn opens_and_shuts<O: Outbox>(outbox: &mut O) -> bool {
    let mut all = true;
    for link in 0..40 {
        all &= outbox.bind(link, LOCAL).is_ok();
    }
    for link in 0..20 {
        outbox.shut(link);
    }
    for link in 20..40 {
        all &= outbox.bind(link, LOCAL).is_ok();
    }
    all
}

#[test]
fn all_links_are_closed_where_nothing_was_read(rt: HostRuntime) -> Result<(), Fail> {
    let mut edges = open_worker(rt, rt.alloc(), Unread, io::sink())?;
    let opened = opens_and_shuts(&mut edges.outbox);
    assert!(rt; opened);
    edges.close();
    Ok(())
}
