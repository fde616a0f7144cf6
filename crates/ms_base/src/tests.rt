use crate::{
    Bytes, Code, Entry, Event, GoneCause, Id, IdFault, Name, NameFault, Op, Outcome, Part, Serial,
    Text, Tuple, Verdict, WorkerError, WorkerKey, push_hex, push_ip, push_number, push_word,
    push_worker,
};
use std::alloc::Global;
use std::test::Fail;

#[test]
fn ids_and_their_texts(rt: HostRuntime) {
    let id = Id::of(7, 1);
    assert_eq!(rt;
        id.text().as_slice(),
        b"00000000-0000-4007-8000-000000000001".as_slice()
    );
    for (text, want) in [
        (b"00000000-0000-4007-8000-000000000001".as_slice(), Ok(id)),
        (b"00000000000040078000000000000001", Err(IdFault::BadId)),
        (
            b"{00000000-0000-4007-8000-000000000001}",
            Err(IdFault::BadId),
        ),
        (b"00000000-0000-4007-8000_000000000001", Err(IdFault::BadId)),
        (
            b"00000000-0000-4007-8000-0000000000\xc3\xa9",
            Err(IdFault::BadId),
        ),
        (b"", Err(IdFault::BadId)),
    ] {
        assert!(rt; Id::read(rt.alloc(), text) == want);
    }
    let upper = Id::read(rt.alloc(), b"ABCDEF01-2345-6789-abcd-EF0123456789");
    assert!(rt;
        upper
            == Ok(Id([
                0xab, 0xcd, 0xef, 1, 0x23, 0x45, 0x67, 0x89, 0xab, 0xcd, 0xef, 1, 0x23, 0x45, 0x67,
                0x89
            ]))
    );
}

#[test]
fn names_by_their_form(rt: HostRuntime) -> Result<(), Fail> {
    let name = Name::read(rt.alloc(), b"w_01")?;
    assert_eq!(rt; name.as_str(), "w_01");
    assert!(rt; name.copy(rt.alloc())? == name);
    for bad in [b"".as_slice(), b"W1", b"w 1", b"w-1", &[b'a'; 65]] {
        assert!(rt; Name::read(rt.alloc(), bad).err() == Some(NameFault::BadName));
    }
    Name::read(rt.alloc(), &[b'z'; 64])?;
    Ok(())
}

#[test]
fn a_verdict_leaves_the_reason_out(rt: HostRuntime) -> Result<(), Fail> {
    let reason = Text::from_str(rt.alloc(), "no such worker")?;
    let error = WorkerError::TypeError;
    let outcome = Outcome::Worker { error, reason };
    assert!(rt; outcome.verdict() == Verdict::Worker { error });
    Ok(())
}

#[test]
fn words_behind_their_spaces(rt: HostRuntime) -> Result<(), Fail> {
    let worker = WorkerKey {
        slot: 64,
        generation: 1001,
    };
    let mut line = Bytes::new(rt.alloc());
    push_worker(b"chunk", worker, &mut line)?;
    push_word(Code::SameRouter.word(), &mut line)?;
    push_number(0, &mut line)?;
    push_hex(&[0x0a, 0xf0], &mut line)?;
    assert_eq!(rt;
        line.as_slice(),
        b"chunk 64 1001 same_router 00af0".as_slice()
    );
    Ok(())
}

#[test]
fn addresses_by_their_form(rt: HostRuntime) {
    for (text, want) in [
        (b"127.0.0.1".as_slice(), Some([127, 0, 0, 1])),
        (b"255.255.255.255", Some([255; 4])),
        (b"0.0.0.0", Some([0; 4])),
        (b"256.0.0.1", None),
        (b"01.0.0.1", None),
        (b"1.2.3", None),
        (b"1.2.3.4.5", None),
        (b"1.2.3.4 ", None),
        (b"::1", None),
        (b"", None),
    ] {
        assert!(rt; Tuple::read_ip(text) == want);
    }
}

// A name that is told apart from others by its letter.
fn name(alloc: Global, letter: u8) -> Result<Name, Fail> {
    Ok(Name::read(alloc, &[letter])?)
}

fn options(alloc: Global) -> Result<Text, Fail> {
    Ok(Text::from_str(alloc, "{}")?)
}

// A call of each form that takes options.
fn op_with_options(alloc: Global, form: usize, name: Name, other: Name) -> Result<Op, Fail> {
    let options = options(alloc)?;
    Ok(match form {
        0 => Op::Router {
            name,
            worker: other,
            options,
        },
        1 => Op::Plain {
            name,
            router: other,
            options,
        },
        2 => Op::Pipe {
            name,
            router: other,
            options,
        },
        3 => Op::Produce {
            name,
            transport: other,
            options,
        },
        4 => Op::Connect {
            transport: name,
            options,
        },
        _ => Op::CanConsume {
            producer: name,
            caps: options,
        },
    })
}

// A call of each form that takes two names at most, and no options.
fn op_of_names(form: usize, name: Name, other: Name) -> Op {
    match form {
        6 => Op::Worker { name, budget: 1000 },
        7 => Op::Direct {
            name,
            router: other,
        },
        8 => Op::Pause { name },
        9 => Op::Resume { name },
        _ => Op::Close { name },
    }
}

// A call of each other form.
fn op_of_three(alloc: Global, form: usize, name: Name, other: Name) -> Result<Op, Fail> {
    match form {
        11 => consume(alloc, name, other),
        12 => Ok(Op::Send {
            producer: name,
            packet: Bytes::from_slice(alloc, &[1, 2])?,
        }),
        _ => Ok(Op::PipeRouter {
            name,
            producer: other,
            router: Name::read(alloc, b"c")?,
        }),
    }
}

fn consume(alloc: Global, name: Name, transport: Name) -> Result<Op, Fail> {
    Ok(Op::Consume {
        name,
        transport,
        producer: Name::read(alloc, b"c")?,
        options: options(alloc)?,
    })
}

// A call of each form.
fn op_of_form(alloc: Global, form: usize) -> Result<Op, Fail> {
    let first = name(alloc, b'a')?;
    let second = name(alloc, b'b')?;
    if form < 6 {
        op_with_options(alloc, form, first, second)
    } else if form < 11 {
        Ok(op_of_names(form, first, second))
    } else {
        op_of_three(alloc, form, first, second)
    }
}

// Whether the copy of a value is equal to it.
fn is_copied_op(alloc: Global, op: &Op) -> Result<bool, Fail> {
    let copy = op.copy(alloc)?;
    Ok(copy == *op)
}

#[test]
fn copies_of_calls_are_equal(rt: HostRuntime) -> Result<(), Fail> {
    for form in 0..14 {
        let op = op_of_form(rt.alloc(), form)?;
        assert!(rt; is_copied_op(rt.alloc(), &op)?);
    }
    Ok(())
}

// An entry of each form.
fn entry_of_form(alloc: Global, form: usize) -> Result<Entry, Fail> {
    let worker = WorkerKey {
        slot: 2,
        generation: 3,
    };
    Ok(match form {
        0 => Entry::Call {
            lane: 3,
            op: op_of_form(alloc, 4)?,
        },
        1 => Entry::Await {
            lane: 3,
            name: name(alloc, b'b')?,
            event: Event::Tuple,
            count: 4,
        },
        2 => Entry::Spawned { worker, up: true },
        3 => Entry::Chunk {
            worker,
            bytes: Bytes::from_slice(alloc, &[1, 2, 3])?,
        },
        4 => Entry::Gone {
            worker,
            cause: GoneCause::Write,
        },
        _ => Entry::Stop,
    })
}

// Whether the copy of a value is equal to it.
fn is_copied_entry(alloc: Global, entry: &Entry) -> Result<bool, Fail> {
    let copy = entry.copy(alloc)?;
    Ok(copy == *entry)
}

#[test]
fn copies_of_entries_are_equal(rt: HostRuntime) -> Result<(), Fail> {
    for form in 0..6 {
        let entry = entry_of_form(rt.alloc(), form)?;
        assert!(rt; is_copied_entry(rt.alloc(), &entry)?);
    }
    Ok(())
}

// A part of each form.
fn part_of_form(alloc: Global, form: usize) -> Result<Part, Fail> {
    let name = name(alloc, b'a')?;
    let to = Tuple {
        ip: [127, 0, 0, 1],
        port: 40000,
    };
    match form {
        0 => Ok(Part::Connect {
            transport: name,
            to,
        }),
        1 => Ok(Part::Pause { name }),
        2 => Ok(Part::Resume { name }),
        _ => part_that_makes(alloc, form, name),
    }
}

// A part of each form that makes an object.
fn part_that_makes(alloc: Global, form: usize, first: Name) -> Result<Part, Fail> {
    let second = name(alloc, b'b')?;
    match form {
        3 => Ok(Part::Pipe {
            name: first,
            router: second,
        }),
        4 => Ok(Part::Produce {
            name: first,
            transport: second,
            producer: Serial(5),
            consumer: Serial(9),
            paused: true,
        }),
        _ => Ok(Part::Consume {
            name: first,
            transport: second,
            producer: name(alloc, b'c')?,
        }),
    }
}

// Whether the copy of a value is equal to it.
fn is_copied_part(alloc: Global, part: &Part) -> Result<bool, Fail> {
    let copy = part.copy(alloc)?;
    Ok(copy == *part)
}

#[test]
fn copies_of_parts_are_equal(rt: HostRuntime) -> Result<(), Fail> {
    for form in 0..6 {
        let part = part_of_form(rt.alloc(), form)?;
        assert!(rt; is_copied_part(rt.alloc(), &part)?);
    }
    Ok(())
}

// An outcome of each form, with what it is without its texts.
fn outcome_of_form(alloc: Global, form: usize) -> Result<(Outcome, Verdict), Fail> {
    let error = WorkerError::BadData;
    let code = Code::Many;
    Ok(match form {
        0 => (Outcome::Done, Verdict::Done),
        1 => (Outcome::Answer(true), Verdict::Answer(true)),
        2 => (Outcome::NameTaken, Verdict::NameTaken),
        3 => (Outcome::NoName, Verdict::NoName),
        4 => (Outcome::WrongKind, Verdict::WrongKind),
        5 => (Outcome::InvalidState, Verdict::InvalidState),
        6 => (Outcome::TypeError { code }, Verdict::TypeError { code }),
        7 => (Outcome::Unsupported { code }, Verdict::Unsupported { code }),
        8 => (Outcome::IdsSpent, Verdict::IdsSpent),
        9 => (Outcome::TooBig, Verdict::TooBig),
        10 => {
            let reason = options(alloc)?;
            (Outcome::Worker { error, reason }, Verdict::Worker { error })
        }
        11 => {
            let by = name(alloc, b'c')?;
            (Outcome::Closed { by }, Verdict::Closed)
        }
        _ => (Outcome::Missed, Verdict::Missed),
    })
}

// Whether the copy of a value is equal to it.
fn is_copied_outcome(alloc: Global, outcome: &Outcome) -> Result<bool, Fail> {
    let copy = outcome.copy(alloc)?;
    Ok(copy == *outcome)
}

#[test]
fn copies_of_outcomes_are_equal_and_have_one_verdict(rt: HostRuntime) -> Result<(), Fail> {
    for form in 0..13 {
        let (outcome, verdict) = outcome_of_form(rt.alloc(), form)?;
        assert!(rt; is_copied_outcome(rt.alloc(), &outcome)?);
        assert!(rt; outcome.verdict() == verdict);
    }
    Ok(())
}

#[test]
fn addresses_are_written_as_they_are_read(rt: HostRuntime) -> Result<(), Fail> {
    for ip in [[127, 0, 0, 1], [255, 10, 0, 99]] {
        let mut text = Bytes::new(rt.alloc());
        push_ip(ip, &mut text)?;
        assert!(rt; Tuple::read_ip(text.as_slice()) == Some(ip));
    }
    Ok(())
}
