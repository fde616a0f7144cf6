ghost use Rattle.std.specs.Prelude.{◌≡◌, ◌++◌, ◌∷◌, [], ◌≤◌, length, flat_map, OnOk, OnErr};
ghost use Rattle.ms_base.specs.Words.{space, spaced, IsFrontOf};
ghost use Rattle.journal_text.specs.Written.{head_line, cause_word, entry_words, entry_line, journal_text};

use ms_base::{Bytes, Entry, GoneCause, NoMemory, push_hex, push_number, push_word, push_worker};
use script_text::{push_await, push_op};
use std::alloc::Global;

/// Appends the written form of a journal, the line of its seed and a line for each entry, whole or not at
/// all. The memory is that of the buffer's own allocator.
pub fn write_journal(
    _alloc: Global,
    seed: u64,
    entries: &[Entry],
    into: &mut Bytes,
) -> Result<(), NoMemory>
    ensures ok { OnOk result (into.new ≡ into.old ++ journal_text seed entries.now) }
    ensures err { OnErr result (into.new ≡ into.old) }
{
    let len = into.len();
    let written = write_lines(seed, entries, into);
    if written.is_err() {
        into.truncate(len);
    }
    written
}

// What follows appends lines and words. Where memory runs out a beginning of them may stand behind the old bytes.

// Appends all lines of a journal.
fn write_lines(seed: u64, entries: &[Entry], into: &mut Bytes) -> Result<(), NoMemory>
    ensures ok { OnOk result (into.new ≡ into.old ++ journal_text seed entries.now) }
    ensures err { OnErr result (IsFrontOf into.old into.new) }
{
    write_head(seed, into)?;
    write_entries(entries, into)
}

// Appends the lines of entries.
fn write_entries(entries: &[Entry], into: &mut Bytes) -> Result<(), NoMemory>
    ensures ok { OnOk result (into.new ≡ into.old ++ flat_map entry_line entries.now) }
    ensures err { OnErr result (IsFrontOf into.old into.new) }
{
    for entry in entries {
        write_entry(entry, into)?;
    }
    Ok(())
}

// Appends the first line of a journal.
fn write_head(seed: u64, into: &mut Bytes) -> Result<(), NoMemory>
    ensures ok { OnOk result (into.new ≡ into.old ++ head_line seed) }
    ensures err { OnErr result (IsFrontOf into.old into.new) }
{
    into.extend_from_slice(b"journal 1")?;
    push_number(seed, into)?;
    into.push(b'\n')
}

// Appends the line of an entry.
fn write_entry(entry: &Entry, into: &mut Bytes) -> Result<(), NoMemory>
    ensures ok { OnOk result (into.new ≡ into.old ++ entry_line entry.now) }
    ensures err { OnErr result (IsFrontOf into.old into.new) }
{
    write_words(entry, into)?;
    into.push(b'\n')
}

// Appends the words of an entry.
fn write_words(entry: &Entry, into: &mut Bytes) -> Result<(), NoMemory>
    ensures ok { OnOk result (into.new ≡ into.old ++ entry_words entry.now) }
    ensures err { OnErr result (IsFrontOf into.old into.new) }
{
    match entry {
        Entry::Call { lane, op } => {
            write_lane(b"call", *lane, into)?;
            push_op(op, into)
        }
        Entry::Await {
            lane,
            name,
            event,
            count,
        } => {
            write_lane(b"await", *lane, into)?;
            push_await(name, *event, *count, into)
        }
        Entry::Spawned { worker, up } => {
            push_worker(b"spawned", *worker, into)?;
            push_word(if *up { b"up" } else { b"failed" }, into)
        }
        Entry::Chunk { worker, bytes } => {
            push_worker(b"chunk", *worker, into)?;
            into.push(b' ')?;
            push_hex(bytes.as_slice(), into)
        }
        Entry::Gone { worker, cause } => {
            push_worker(b"gone", *worker, into)?;
            push_word(cause_word(*cause), into)
        }
        Entry::Stop => into.extend_from_slice(b"stop"),
    }
}

// Appends a first word, a lane and the space behind it.
fn write_lane(word: &[u8], lane: u32, into: &mut Bytes) -> Result<(), NoMemory>
    ensures ok { OnOk result (into.new ≡ into.old ++ (word.now ++ spaced lane ++ space ∷ [])) }
    ensures err { OnErr result (IsFrontOf into.old into.new) }
{
    into.extend_from_slice(word)?;
    push_number(u64::from(lane), into)?;
    into.push(b' ')
}

/// The word of what has ended a worker's channel.
pub(crate) fn cause_word(cause: GoneCause) -> &'static [u8]
    ensures value { result.now ≡ cause_word cause }
    ensures few { length result.now ≤ 5 }
{
    match cause {
        GoneCause::End => b"end",
        GoneCause::Read => b"read",
        GoneCause::Write => b"write",
    }
}
