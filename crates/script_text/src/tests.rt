use crate::{
    MAX_SCRIPT, ScriptFault, Step, await_size, first_word, op_size, push_await, push_op,
    read_await, read_op, read_script,
};
use ms_base::{Bytes, Code};
use std::alloc::Global;
use std::test::Fail;

// A line of each call.
const CALLS: [&str; 13] = [
    "worker w_1 1000",
    "router r w { \"mediaCodecs\": [] } ",
    "plain t r {}",
    "pipe q r {}",
    "direct d r",
    "connect t {}",
    "produce p t {\"kind\":\"audio\"}",
    "consume c t p []",
    "pause p",
    "resume p",
    "close w",
    "canconsume p null",
    "send p 0080ff",
];

// The words of a call that is read, written again.
fn written(alloc: Global, line: &str) -> Result<Bytes, Fail> {
    let (first, rest) = first_word(line);
    let op = read_op(alloc, first, rest)?;
    let mut words = Bytes::new(alloc);
    push_op(&op, &mut words)?;
    Ok(words)
}

// The length that is told of a call that is read.
fn size(alloc: Global, line: &str) -> Result<u64, Fail> {
    let (first, rest) = first_word(line);
    Ok(op_size(&read_op(alloc, first, rest)?))
}

#[test]
fn each_call_is_written_as_it_was_read(rt: HostRuntime) -> Result<(), Fail> {
    for line in CALLS {
        assert_eq!(rt; written(rt.alloc(), line)?.as_slice(), line.as_bytes());
        assert_eq!(rt; size(rt.alloc(), line)?, line.len() as u64);
    }
    Ok(())
}

// The words of each event's wait, read and written again, and their length.
fn wait_written(alloc: Global, line: &str) -> Result<(Bytes, u64), Fail> {
    let (name, event, count) = read_await(alloc, Some(line))?;
    let mut words = Bytes::new(alloc);
    push_await(&name, event, count, &mut words)?;
    Ok((words, await_size(&name, event, count)))
}

const WAITS: [&str; 7] = [
    "w running 1",
    "w open 1000000000",
    "w closed 2",
    "w paused 3",
    "w resumed 4",
    "w tuple 5",
    "w rtp 6",
];

#[test]
fn each_wait_is_written_as_it_was_read(rt: HostRuntime) -> Result<(), Fail> {
    for line in WAITS {
        let (words, len) = wait_written(rt.alloc(), line)?;
        assert_eq!(rt; words.as_slice(), line.as_bytes());
        assert_eq!(rt; len, line.len() as u64);
    }
    Ok(())
}

const SCRIPT: &[u8] =
    b"script 1 7\r\n# two lanes\n\nlane\nworker w 0\r\nawait w running 1\nlane\nclose w";

// The seed, the steps of each lane, and how many of them wait.
fn shape(alloc: Global, text: &[u8]) -> Result<(u64, Vec<usize>, usize), Fail> {
    let script = read_script(alloc, text)?;
    let mut lengths = Vec::new(alloc);
    let mut waits = 0;
    for lane in script.lanes.as_slice() {
        lengths.push(lane.as_slice().len())?;
        waits = waits_behind(waits, lane.as_slice());
    }
    Ok((script.seed, lengths, waits))
}

// These and the steps that wait.
fn waits_behind(before: usize, steps: &[Step]) -> usize {
    before.saturating_add(
        steps
            .iter()
            .filter(|step| matches!(step, Step::Wait { .. }))
            .count(),
    )
}

#[test]
fn a_script_is_read(rt: HostRuntime) -> Result<(), Fail> {
    let (seed, lengths, waits) = shape(rt.alloc(), SCRIPT)?;
    assert_eq!(rt; seed, 7);
    assert_eq!(rt; lengths.as_slice(), [2, 1].as_slice());
    assert_eq!(rt; waits, 1);
    Ok(())
}

// The first line that is wrong, and its code.
const BAD: [(&[u8], u32, Code); 25] = [
    (b"", 1, Code::Head),
    (b"\x80", 1, Code::Utf8),
    (b"script 1 07", 1, Code::Head),
    (b"script 1 7\r", 1, Code::Head),
    (b"script 1 7\n#\xff", 2, Code::Utf8),
    (b"script 1 7\nworker w 0", 2, Code::NoLane),
    (b"script 1 7\nlane x", 2, Code::NoLane),
    (b"script 1 7\nlane\nlane x", 3, Code::Op),
    (b"script 1 7\nlane\nstop", 3, Code::Op),
    (b"script 1 7\nlane\npiperouter k p r", 3, Code::Op),
    (b"script 1 7\nlane\ntogether 2", 3, Code::Op),
    (b"script 1 7\nlane\n lane", 3, Code::Op),
    (b"script 1 7\nlane\nworker W", 3, Code::Words),
    (b"script 1 7\nlane\nclose w\r", 3, Code::Name),
    (b"script 1 7\nlane\nclose w \n", 3, Code::Words),
    (b"script 1 7\nlane\nawait w", 3, Code::Words),
    (b"script 1 7\nlane\nworker W x", 3, Code::Name),
    (b"script 1 7\nlane\nworker w 1001", 3, Code::Number),
    (b"script 1 7\nlane\nawait w gone 0", 3, Code::Event),
    (b"script 1 7\nlane\nawait w open 0", 3, Code::Number),
    (b"script 1 7\nlane\nplain t r {", 3, Code::Json),
    (b"script 1 7\nlane\nplain t r ", 3, Code::Json),
    (b"script 1 7\nlane\nsend p 0", 3, Code::Hex),
    (b"script 1 7\nlane\nsend p ", 3, Code::Hex),
    (b"script 1 7\nlane\n\nclose w\nfoo\nsend p 0", 5, Code::Op),
];

// Why a text is refused.
fn refusal(alloc: Global, text: &[u8]) -> Option<ScriptFault> {
    read_script(alloc, text).err()
}

#[test]
fn the_first_bad_line_is_told(rt: HostRuntime) {
    for (text, line, code) in BAD {
        let bad = ScriptFault::BadScript { line, code };
        assert_eq!(rt; refusal(rt.alloc(), text), Some(bad), "{text:?}");
    }
}

// A head, and so many times this line behind a first lane.
fn repeated(alloc: Global, line: &[u8], times: usize) -> Result<Vec<u8>, Fail> {
    let mut text = Vec::from_slice(alloc, b"script 1 7\nlane")?;
    for _ in 0..times {
        text.extend_from_slice(line)?;
    }
    Ok(text)
}

#[test]
fn a_lane_or_a_worker_too_many_is_told(rt: HostRuntime) -> Result<(), Fail> {
    let many = |line: u32| {
        Some(ScriptFault::BadScript {
            line,
            code: Code::TooMany,
        })
    };
    let most = repeated(rt.alloc(), b"\nlane", 63)?;
    assert_eq!(rt; refusal(rt.alloc(), most.as_slice()), None);
    let lanes = repeated(rt.alloc(), b"\nlane", 64)?;
    assert_eq!(rt; refusal(rt.alloc(), lanes.as_slice()), many(66));
    let workers = repeated(rt.alloc(), b"\nworker w 0", 65)?;
    assert_eq!(rt; refusal(rt.alloc(), workers.as_slice()), many(67));
    Ok(())
}

#[test]
fn a_script_that_is_too_long_is_told(rt: HostRuntime) -> Result<(), Fail> {
    let text = repeated(rt.alloc(), b"\n", MAX_SCRIPT)?;
    let long = ScriptFault::BadScript {
        line: 1,
        code: Code::Long,
    };
    assert_eq!(rt; refusal(rt.alloc(), text.as_slice()), Some(long));
    Ok(())
}
