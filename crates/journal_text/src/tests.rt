use crate::{JournalFault, entry_size, head_size, read_journal, write_journal};
use ms_base::{Bytes, Code, Entry, Event, GoneCause, Name, Op, Text, WorkerKey};
use std::alloc::Global;
use std::test::Fail;

// Each line that is read, as it is written.
const ALL_LINES: &[u8] = b"journal 1 1152921504606846975
call 1 worker w 1000
call 64 router r w {\"mediaCodecs\": []} 
call 2 plain t r {}
call 2 pipe k r {}
call 2 direct d r
call 2 connect t {\"port\":1}
call 2 produce p d {}
call 2 consume c t p {}
call 2 pause p
call 2 resume p
call 2 close c
call 2 canconsume p [1, 2]
call 2 send p 806f00
await 1 w running 1
await 1 r open 1000000000
await 1 r closed 2
await 1 p paused 3
await 1 p resumed 4
await 1 t tuple 5
await 1 c rtp 6
spawned 1 1 up
spawned 64 1001 failed
chunk 2 3 00ff
";

// A text that was read, written again.
fn written_again(alloc: Global, text: &[u8]) -> Result<Bytes, Fail> {
    let (seed, entries) = read_journal(alloc, text)?;
    let mut again = Bytes::new(alloc);
    write_journal(alloc, seed, entries.as_slice(), &mut again)?;
    Ok(again)
}

#[test]
fn every_line_is_read_and_written(rt: HostRuntime) -> Result<(), Fail> {
    let again = written_again(rt.alloc(), ALL_LINES)?;
    assert_eq!(rt; again.as_slice(), ALL_LINES);
    Ok(())
}

#[test]
fn digits_are_written_in_lower_case(rt: HostRuntime) -> Result<(), Fail> {
    let again = written_again(
        rt.alloc(),
        b"journal 1 0\ncall 1 canconsume p \"A\"\ncall 1 send p fFAa\nchunk 2 3 00fFAa\n",
    )?;
    assert_eq!(rt;
        again.as_slice(),
        b"journal 1 0\ncall 1 canconsume p \"A\"\ncall 1 send p ffaa\nchunk 2 3 00ffaa\n".as_slice()
    );
    Ok(())
}

// Texts with the number of their first bad line and its code.
const BAD: [(&[u8], u32, Code); 30] = [
    (b"\x80", 1, Code::Utf8),
    (b"journal 1 7\nspawned \xff", 2, Code::Utf8),
    (b"", 1, Code::Head),
    (b"journal 1 1152921504606846976\n", 1, Code::Head),
    (b"journal 1 7\r\n", 1, Code::Head),
    (b"script 1 7\n", 1, Code::Head),
    (b"journal 1 x", 1, Code::Head),
    (b"journal 1 7", 1, Code::Cut),
    (b"journal 1 7\nspawned 1 1 up", 2, Code::Cut),
    (b"journal 1 7\n\n", 2, Code::Op),
    (b"journal 1 7\nstop\n", 2, Code::Op),
    (b"journal 1 7\ngone 1 1 end\n", 2, Code::Op),
    (b"journal 1 7\ncall 0\n", 2, Code::Op),
    (b"journal 1 7\ncall 0 piperouter n p r\n", 2, Code::Op),
    (b"journal 1 7\ncall 1 await w running 1\n", 2, Code::Op),
    (b"journal 1 7\ncall 0 worker W\n", 2, Code::Words),
    (b"journal 1 7\nawait 0\n", 2, Code::Words),
    (b"journal 1 7\nspawned 0 1\n", 2, Code::Words),
    (b"journal 1 7\ncall 1 worker W x\n", 2, Code::Name),
    (b"journal 1 7\nawait 1 W x 0\n", 2, Code::Name),
    (b"journal 1 7\ncall 65 pause P\n", 2, Code::Number),
    (b"journal 1 7\nawait 0 W x 0\n", 2, Code::Number),
    (b"journal 1 7\nawait 1 w open 0\n", 2, Code::Number),
    (b"journal 1 7\nspawned 1 1002 x\n", 2, Code::Number),
    (b"journal 1 7\nawait 1 w gone 0\n", 2, Code::Event),
    (b"journal 1 7\nspawned 1 1 gone\n", 2, Code::Event),
    (b"journal 1 7\ncall 1 router r w \n", 2, Code::Json),
    (b"journal 1 7\ncall 1 send p 0\n", 2, Code::Hex),
    (b"journal 1 7\nchunk 1 1 \n", 2, Code::Hex),
    (
        b"journal 1 7\nspawned 1 1 up\nchunk 1 1 0g\nstop\n",
        3,
        Code::Hex,
    ),
];

// Why a text is refused.
fn refusal(alloc: Global, text: &[u8]) -> Option<JournalFault> {
    read_journal(alloc, text).err()
}

#[test]
fn the_first_bad_line_is_told(rt: HostRuntime) {
    for (text, line, code) in BAD {
        let bad = JournalFault::BadJournal { line, code };
        assert_eq!(rt; refusal(rt.alloc(), text), Some(bad), "{text:?}");
    }
}

// Why a chunk of so many bytes is refused.
fn refused_chunk(alloc: Global, len: usize) -> Result<Option<JournalFault>, Fail> {
    let mut text = Bytes::from_slice(alloc, b"journal 1 7\nchunk 1 1 ")?;
    for _ in 0..len {
        text.extend_from_slice(b"00")?;
    }
    text.push(b'\n')?;
    Ok(refusal(alloc, text.as_slice()))
}

#[test]
fn a_chunk_has_at_most_65536_bytes(rt: HostRuntime) -> Result<(), Fail> {
    let bad = JournalFault::BadJournal {
        line: 2,
        code: Code::Hex,
    };
    assert_eq!(rt; refused_chunk(rt.alloc(), 65_536)?, None);
    assert_eq!(rt; refused_chunk(rt.alloc(), 65_537)?, Some(bad));
    Ok(())
}

const FAR: WorkerKey = WorkerKey {
    slot: 10,
    generation: u32::MAX,
};

// One entry of each form.
fn entry_of_form(alloc: Global, form: usize) -> Result<Entry, Fail> {
    let name = Name::read(alloc, b"r_1")?;
    Ok(match form {
        0 => Entry::Call {
            lane: u32::MAX,
            op: Op::CanConsume {
                producer: name,
                caps: Text::from_str(alloc, "{\"codecs\":[]}")?,
            },
        },
        1 => Entry::Await {
            lane: 1,
            name,
            event: Event::Opened,
            count: 12,
        },
        2 => Entry::Spawned {
            worker: FAR,
            up: false,
        },
        3 => Entry::Chunk {
            worker: FAR,
            bytes: Bytes::from_slice(alloc, b"\x00\x7b\xff")?,
        },
        4 => Entry::Gone {
            worker: FAR,
            cause: GoneCause::Write,
        },
        _ => Entry::Stop,
    })
}

// The length of the line of each.
const SIZES: [u64; 6] = [45, 20, 29, 27, 25, 5];

const JOURNAL: &[u8] = b"journal 1 7
call 4294967295 canconsume r_1 {\"codecs\":[]}
await 1 r_1 open 12
spawned 10 4294967295 failed
chunk 10 4294967295 007bff
gone 10 4294967295 write
stop
";

#[test]
fn writes_a_journal_and_tells_its_sizes(rt: HostRuntime) -> Result<(), Fail> {
    let mut entries = Vec::new(rt.alloc());
    for (form, size) in SIZES.iter().enumerate() {
        let entry = entry_of_form(rt.alloc(), form)?;
        assert_eq!(rt; entry_size(&entry), *size, "for {entry:?}");
        entries.push(entry)?;
    }
    assert_eq!(rt; head_size(7), 12);
    let mut text = Bytes::new(rt.alloc());
    write_journal(rt.alloc(), 7, entries.as_slice(), &mut text)?;
    assert_eq!(rt; text.as_slice(), JOURNAL);
    Ok(())
}
