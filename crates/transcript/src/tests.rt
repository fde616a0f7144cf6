use crate::{Cause, Note, note_line};
use ms_base::{
    Bytes, CallKey, Code, Id, Kind, Name, Outcome, Reason, Serial, Text, Tuple, WorkerError,
    WorkerKey,
};
use std::alloc::Global;
use std::test::Fail;

const FAR: WorkerKey = WorkerKey {
    slot: 64,
    generation: 1001,
};

// One note of each form that tells of a worker.
fn note_of_worker(alloc: Global, form: usize) -> Result<Note, Fail> {
    let worker = FAR;
    Ok(match form {
        0 => Note::Spawn { worker },
        1 => Note::Up { worker },
        2 => Note::Gone {
            worker,
            cause: Cause::Start,
        },
        3 => Note::Sent {
            worker,
            payload: Bytes::from_slice(alloc, b"{\"id\":1}")?,
        },
        4 => Note::SentRtp {
            worker,
            id: Id::of(7, 5),
            packet: Bytes::from_slice(alloc, b"\x80\x6f")?,
        },
        5 => Note::Late { worker, id: 9 },
        6 => Note::Stray { worker },
        7 => Note::Unexpected { worker },
        _ => Note::Log {
            worker,
            level: b'W',
            text: Bytes::new(alloc),
        },
    })
}

// One note of each form that tells of an object.
fn note_of_object(alloc: Global, form: usize) -> Result<Note, Fail> {
    let name = Name::read(alloc, b"x_1")?;
    Ok(match form {
        0 => Note::Open {
            serial: Serial(2),
            kind: Kind::Router,
            name,
            id: Id::of(7, 2),
        },
        1 => Note::Running {
            name,
            generation: 1,
        },
        2 => Note::Closed {
            serial: Serial(2),
            name,
            reason: Reason::WorkerClose,
        },
        3 => Note::Paused { name },
        4 => Note::Resumed { name },
        5 => Note::Tuple {
            name,
            remote: Tuple {
                ip: [10, 0, 0, 1],
                port: 5004,
            },
        },
        _ => Note::Rtp {
            name,
            packet: Bytes::from_slice(alloc, b"\x00\xff")?,
        },
    })
}

const OF_WORKERS: &[u8] = b"spawn 64 1001
up 64 1001
gone 64 1001 start
sent 64 1001 {\"id\":1}
sent 64 1001 rtp 00000000-0000-4007-8000-000000000005 806f
late 64 1001 9
stray 64 1001
unexpected 64 1001
log 64 1001 W 
";

const OF_OBJECTS: &[u8] = b"open 2 router x_1 00000000-0000-4007-8000-000000000002
running x_1 1
closed 2 x_1 workerclose
paused x_1
resumed x_1
tuple x_1 10.0.0.1 5004
rtp x_1 00ff
";

#[test]
fn each_note_of_a_worker_has_its_line(rt: HostRuntime) -> Result<(), Fail> {
    let mut lines = Bytes::new(rt.alloc());
    for form in 0..9 {
        note_line(rt.alloc(), &note_of_worker(rt.alloc(), form)?, &mut lines)?;
    }
    assert_eq!(rt; lines.as_slice(), OF_WORKERS);
    Ok(())
}

#[test]
fn each_note_of_an_object_has_its_line(rt: HostRuntime) -> Result<(), Fail> {
    let mut lines = Bytes::new(rt.alloc());
    for form in 0..7 {
        note_line(rt.alloc(), &note_of_object(rt.alloc(), form)?, &mut lines)?;
    }
    assert_eq!(rt; lines.as_slice(), OF_OBJECTS);
    Ok(())
}

// The line of a call that has come to this.
fn settled(alloc: Global, outcome: Outcome) -> Result<Bytes, Fail> {
    let call = CallKey { lane: 1, place: 2 };
    let mut line = Bytes::new(alloc);
    note_line(alloc, &Note::Settled { call, outcome }, &mut line)?;
    Ok(line)
}

#[test]
fn outcomes_have_their_words(rt: HostRuntime) -> Result<(), Fail> {
    let by = Name::read(rt.alloc(), b"w")?;
    let code = Code::SameRouter;
    let table: [(Outcome, &[u8]); 4] = [
        (Outcome::Done, b"settled 1 2 ok\n"),
        (Outcome::Answer(false), b"settled 1 2 no\n"),
        (
            Outcome::TypeError { code },
            b"settled 1 2 typeerror same_router\n",
        ),
        (Outcome::Closed { by }, b"settled 1 2 closed w\n"),
    ];
    for (outcome, line) in table {
        assert_eq!(rt; settled(rt.alloc(), outcome)?.as_slice(), line);
    }
    Ok(())
}

#[test]
fn a_reason_stands_in_quotes(rt: HostRuntime) -> Result<(), Fail> {
    let reason = Text::from_str(rt.alloc(), "a\"b\\c\nd\u{1} \u{fc}/")?;
    let error = WorkerError::BadData;
    let line = settled(rt.alloc(), Outcome::Worker { error, reason })?;
    assert_eq!(rt;
        line.as_slice(),
        b"settled 1 2 worker BadData \"a\\\"b\\\\c\\nd\\u0001 \xc3\xbc/\"\n".as_slice()
    );
    Ok(())
}
