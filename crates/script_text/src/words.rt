ghost use Rattle.std.specs.Prelude.{◌≡◌, ◌≤◌, IfOk};
ghost use Rattle.script_text.specs.Words.{number_of, worker_of, event_of, name_of, json_of, hex_of, seed_of_line, head_of};
ghost use Rattle.script_text.specs.Gives.{Gives, is_plain};

use crate::fault::WordFault;
use crate::lines::three_words;
use hex::FromHexError;
use ms_base::{Bytes, Code, Event, Name, NameFault, Text, WorkerKey};
use serde_json::Value;
use std::alloc::Global;

// Whether a word has neither a sign nor a leading zero, other than `0` itself.
fn is_plain(word: &str) -> bool
    ensures { result ≡ is_plain word.now }
{
    !word.starts_with('+') && (word.len() <= 1 || !word.starts_with('0'))
}

/// A number from `low` to `high`: decimal digits without a leading zero other than `0` itself.
pub fn read_number(word: &str, low: u64, high: u64) -> Result<u64, Code>
    ensures value { result ≡ number_of low high word.now }
    ensures within { IfOk result (λ number. number ≤ high) }
{
    if !is_plain(word) {
        return Err(Code::Number);
    }
    match word.parse::<u64>() {
        Ok(number) if low <= number && number <= high => Ok(number),
        _ => Err(Code::Number),
    }
}

/// The number of a lane, 1 to 64.
pub fn read_lane(word: &str) -> Result<u32, Code>
    ensures { result ≡ number_of 1 64 word.now }
{
    Ok(read_number(word, 1, 64)? as u32)
}

/// The times that a Worker may be restarted, 0 to 1,000.
pub(crate) fn read_budget(word: &str) -> Result<u32, Code>
    ensures { result ≡ number_of 0 1000 word.now }
{
    Ok(read_number(word, 0, 1000)? as u32)
}

/// How many notes are waited for, 1 to 1,000,000,000.
pub(crate) fn read_count(word: &str) -> Result<u32, Code>
    ensures { result ≡ number_of 1 1000000000 word.now }
{
    Ok(read_number(word, 1, 1_000_000_000)? as u32)
}

/// A slot, 1 to 64, and a generation, 1 to 1,001.
pub fn read_worker(slot: &str, generation: &str) -> Result<WorkerKey, Code>
    ensures { result ≡ worker_of slot.now generation.now }
{
    let slot = read_number(slot, 1, 64)? as u32;
    let generation = read_number(generation, 1, 1001)? as u32;
    Ok(WorkerKey { slot, generation })
}

/// A kind of note.
pub fn read_event(word: &str) -> Result<Event, Code>
    ensures { result ≡ event_of word.now }
{
    match word {
        "running" => Ok(Event::Running),
        "open" => Ok(Event::Opened),
        "closed" => Ok(Event::Closed),
        "paused" => Ok(Event::Paused),
        "resumed" => Ok(Event::Resumed),
        "tuple" => Ok(Event::Tuple),
        "rtp" => Ok(Event::Rtp),
        _ => Err(Code::Event),
    }
}

/// A name.
pub fn read_name(alloc: Global, word: &str) -> Result<Name, WordFault>
    ensures { Gives result (name_of word.now) }
{
    match Name::read(alloc, word.as_bytes()) {
        Ok(name) => Ok(name),
        Err(NameFault::BadName) => Err(WordFault::Bad(Code::Name)),
        Err(NameFault::NoMemory) => Err(WordFault::NoMemory),
    }
}

/// A JSON text. Its bytes are kept as they stand.
pub fn read_json(alloc: Global, text: &str) -> Result<Text, WordFault>
    ensures { Gives result (json_of text.now) }
{
    match Value::from_str(alloc, text) {
        Ok(_value) => Ok(Text::from_str(alloc, text)?),
        Err(error) if error.is_memory() => Err(WordFault::NoMemory),
        Err(_) => Err(WordFault::Bad(Code::Json)),
    }
}

/// At least one byte in hexadecimal, of either case.
pub fn read_hex(alloc: Global, word: &str) -> Result<Bytes, WordFault>
    ensures { Gives result (hex_of word.now) }
{
    match hex::decode(alloc, word) {
        Ok(bytes) if !bytes.is_empty() => Ok(Bytes::from_vec(bytes)),
        Err(FromHexError::OutOfMemory) => Err(WordFault::NoMemory),
        _ => Err(WordFault::Bad(Code::Hex)),
    }
}

/// The seed of a first line that begins with this word. The codes are `utf8` and `head`.
pub fn read_head(word: &str, line: &[u8]) -> Result<u64, Code>
    ensures { result ≡ seed_of_line word.now line.now }
{
    let Ok(line) = std::str::from_utf8(line) else {
        return Err(Code::Utf8);
    };
    match three_words(Some(line)) {
        Some((first, version, seed)) => read_seed(word, first, version, seed),
        None => Err(Code::Head),
    }
}

// The word, `1` and the seed.
fn read_seed(word: &str, first: &str, version: &str, seed: &str) -> Result<u64, Code>
    ensures { result ≡ head_of word.now first.now version.now seed.now }
{
    if first != word || version != "1" {
        return Err(Code::Head);
    }
    match read_number(seed, 0, MAX_SEED) {
        Ok(seed) => Ok(seed),
        Err(_) => Err(Code::Head),
    }
}

// The greatest seed.
const MAX_SEED: u64 = 1_152_921_504_606_846_975;
