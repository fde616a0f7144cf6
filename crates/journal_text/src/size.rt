ghost use Rattle.std.specs.Prelude.{◌≡◌, ◌+◌, ◌≤◌, length, decimal};
ghost use Rattle.ms_base.specs.declared.entry.Entry.TheVariants as entry;
ghost use Rattle.journal_text.specs.Written.{told_entry_size, head_line};

use crate::write::cause_word;
use ms_base::{Entry, WorkerKey, digits};
use script_text::{await_size, op_size};

/// How many bytes the text of a journal may have.
pub const MAX_JOURNAL: u64 = 268_435_456;

/// The length in bytes of the first line of a journal with its line feed.
pub fn head_size(seed: u64) -> u64
    ensures value { result ≡ length (head_line seed) }
    ensures few { result ≤ 31 }
{
    b"journal 1 \n".len() as u64 + digits(seed)
}

/// The length in bytes of an entry's line with its line feed, or 2^64 - 1 where that is greater.
pub fn entry_size(entry: &Entry) -> u64
    ensures { result ≡ told_entry_size entry.now }
{
    match entry {
        Entry::Call { lane, op } => {
            op_size(op).saturating_add(b"call  \n".len() as u64 + digits(u64::from(*lane)))
        }
        Entry::Await {
            lane,
            name,
            event,
            count,
        } => {
            b"await  \n".len() as u64 + digits(u64::from(*lane)) + await_size(name, *event, *count)
        }
        Entry::Spawned { worker, up } => {
            let word = if *up { "up".len() } else { "failed".len() };
            b"spawned   \n".len() as u64 + key_size(*worker) + word as u64
        }
        Entry::Chunk { worker, bytes } => chunk_size(*worker, bytes.as_slice()),
        Entry::Gone { worker, cause } => {
            b"gone   \n".len() as u64 + key_size(*worker) + cause_word(*cause).len() as u64
        }
        Entry::Stop => b"stop\n".len() as u64,
    }
}

// How many digits the slot and the generation of a worker have.
fn key_size(worker: WorkerKey) -> u64
    ensures value { result ≡ length (decimal worker.slot) + length (decimal worker.generation) }
    ensures few { result ≤ 40 }
{
    digits(u64::from(worker.slot)) + digits(u64::from(worker.generation))
}

// The length in bytes of a chunk's line with its line feed, or 2^64 - 1 where that is greater.
#[tactic(auto, using(crate::proofs::Sizes::told_chunk))]
fn chunk_size(worker: WorkerKey, bytes: &[u8]) -> u64
    ensures { result ≡ told_entry_size (entry.Chunk worker bytes.now) }
{
    let digits = (bytes.len() as u64).saturating_mul(2);
    digits.saturating_add(b"chunk   \n".len() as u64 + key_size(worker))
}
