ghost use Rattle.std.specs.Prelude.{◌≡◌, ◌∷◌, [], Err};
ghost use Rattle.std.specs.Option.{option_copied};
ghost use Rattle.ms_base.specs.declared.entry.Entry.TheVariants as entry;
ghost use Rattle.journal_text.specs.Reading.{entry_of_line, entry_line_of, call_of, wait_of, in_lane, fault_in_lane, is_of_line, worker_line, up_of, chunk_of};
ghost use Rattle.script_text.specs.Words.{words_behind};
ghost use Rattle.script_text.specs.Calls.{op_of, await_of};
ghost use Rattle.script_text.specs.Gives.{Gives};

use ms_base::{Bytes, Code, Entry};
use script_text::{
    WordFault, first_two, first_word, read_await, read_hex, read_lane, read_op, read_worker,
    three_words,
};
use std::alloc::Global;

// The most bytes that a chunk has.
const MAX_CHUNK: usize = 65_536;

/// The entry of a line other than the first.
pub(crate) fn read_entry(alloc: Global, line: &[u8]) -> Result<Entry, WordFault>
    ensures { Gives result (entry_of_line line.now) }
{
    match std::str::from_utf8(line) {
        Ok(line) => {
            let (first, rest) = first_word(line);
            read_entry_line(alloc, first, rest)
        }
        Err(_) => Err(WordFault::Bad(Code::Utf8)),
    }
}

// The first word of a line, and what stands behind it.
fn read_entry_line(alloc: Global, first: &str, rest: Option<&str>) -> Result<Entry, WordFault>
    ensures { Gives result (entry_line_of first.now (words_behind (option_copied rest.entry))) }
{
    match first {
        "call" => read_call(alloc, rest),
        "await" => read_wait(alloc, rest),
        "spawned" => read_spawned(rest),
        "chunk" => read_chunk(alloc, rest),
        _ => Err(WordFault::Bad(Code::Op)),
    }
}

// Behind `call`: a lane, and a call.
#[tactic(auto, using(crate::proofs::Shapes::call_short, crate::proofs::Shapes::call_at))]
fn read_call(alloc: Global, rest: Option<&str>) -> Result<Entry, WordFault>
    ensures { Gives result (call_of (words_behind (option_copied rest.entry))) }
{
    match first_two(rest) {
        Some((lane, first, rest)) => read_lane_call(alloc, lane, first, rest),
        None => Err(WordFault::Bad(Code::Op)),
    }
}

// `L CALL`
fn read_lane_call(
    alloc: Global,
    lane: &str,
    first: &str,
    rest: Option<&str>,
) -> Result<Entry, WordFault>
    ensures { Gives result (in_lane entry.Call lane.now (op_of first.now (words_behind (option_copied rest.entry)))) }
{
    match read_op(alloc, first, rest) {
        Ok(op) => {
            let lane = read_lane(lane)?;
            Ok(Entry::Call { lane, op })
        }
        Err(WordFault::Bad(code)) => Err(WordFault::Bad(fault_in_lane(lane, code))),
        Err(WordFault::NoMemory) => Err(WordFault::NoMemory),
    }
}

// Behind `await`: a lane, and what is waited for.
#[tactic(auto, using(crate::proofs::Shapes::no_wait, crate::proofs::Shapes::wait_at))]
fn read_wait(alloc: Global, rest: Option<&str>) -> Result<Entry, WordFault>
    ensures { Gives result (wait_of (words_behind (option_copied rest.entry))) }
{
    match rest {
        Some(rest) => {
            let (lane, rest) = first_word(rest);
            read_lane_wait(alloc, lane, rest)
        }
        None => Err(WordFault::Bad(Code::Words)),
    }
}

// `L X EVENT COUNT`
fn read_lane_wait(alloc: Global, lane: &str, rest: Option<&str>) -> Result<Entry, WordFault>
    ensures { Gives result (in_lane (λ l a. entry.Await l a.0 a.1 a.2) lane.now (await_of (words_behind (option_copied rest.entry)))) }
{
    match read_await(alloc, rest) {
        Ok((name, event, count)) => {
            let lane = read_lane(lane)?;
            Ok(Entry::Await {
                lane,
                name,
                event,
                count,
            })
        }
        Err(WordFault::Bad(code)) => Err(WordFault::Bad(fault_in_lane(lane, code))),
        Err(WordFault::NoMemory) => Err(WordFault::NoMemory),
    }
}

// The code of a line with a lane where the words behind the lane have this one.
fn fault_in_lane(lane: &str, code: Code) -> Code
    ensures { fault_in_lane lane.now code ≡ Err result }
{
    if is_of_line(code) {
        return code;
    }
    match read_lane(lane) {
        Ok(_) => code,
        Err(wrong) => wrong,
    }
}

// Whether a code says that there is no such line, or none of so many words.
#[tactic(auto, using(crate::proofs::Shapes::other_code))]
fn is_of_line(code: Code) -> bool
    ensures { result ≡ is_of_line code }
{
    matches!(code, Code::Op | Code::Words)
}

// Behind `spawned`.
#[tactic(auto, using(crate::proofs::Shapes::worker_other))]
fn read_spawned(rest: Option<&str>) -> Result<Entry, WordFault>
    ensures { Gives result (worker_line up_of entry.Spawned (words_behind (option_copied rest.entry))) }
{
    match three_words(rest) {
        Some((slot, generation, event)) => read_spawned_words(slot, generation, event),
        None => Err(WordFault::Bad(Code::Words)),
    }
}

// `S G up` or `S G failed`
#[tactic(auto, unfolding(crate::specs::Reading::worker_line))]
fn read_spawned_words(slot: &str, generation: &str, event: &str) -> Result<Entry, WordFault>
    ensures { Gives result (worker_line up_of entry.Spawned (slot.now ∷ generation.now ∷ event.now ∷ [])) }
{
    let worker = read_worker(slot, generation)?;
    let up = read_up(event)?;
    Ok(Entry::Spawned { worker, up })
}

// Whether a start has come up.
fn read_up(word: &str) -> Result<bool, Code>
    ensures { result ≡ up_of word.now }
{
    match word {
        "up" => Ok(true),
        "failed" => Ok(false),
        _ => Err(Code::Event),
    }
}

// Behind `chunk`.
#[tactic(auto, using(crate::proofs::Shapes::worker_other))]
fn read_chunk(alloc: Global, rest: Option<&str>) -> Result<Entry, WordFault>
    ensures { Gives result (worker_line chunk_of entry.Chunk (words_behind (option_copied rest.entry))) }
{
    match three_words(rest) {
        Some((slot, generation, digits)) => read_chunk_words(alloc, slot, generation, digits),
        None => Err(WordFault::Bad(Code::Words)),
    }
}

// `S G H`
#[tactic(auto, unfolding(crate::specs::Reading::worker_line))]
fn read_chunk_words(
    alloc: Global,
    slot: &str,
    generation: &str,
    digits: &str,
) -> Result<Entry, WordFault>
    ensures { Gives result (worker_line chunk_of entry.Chunk (slot.now ∷ generation.now ∷ digits.now ∷ [])) }
{
    let worker = read_worker(slot, generation)?;
    let bytes = read_bytes(alloc, digits)?;
    Ok(Entry::Chunk { worker, bytes })
}

// The bytes of a chunk.
fn read_bytes(alloc: Global, digits: &str) -> Result<Bytes, WordFault>
    ensures { Gives result (chunk_of digits.now) }
{
    let bytes = read_hex(alloc, digits)?;
    if bytes.len() <= MAX_CHUNK {
        Ok(bytes)
    } else {
        Err(WordFault::Bad(Code::Hex))
    }
}
