ghost use Rattle.std.specs.Prelude.{◌≡◌, ◌<◌, ◌≤◌, ◌^◌, ◌⊎◌, length, IfOk, IfErr};
ghost use Rattle.journal_text.specs.Gives.{Tells as TellsFault};
ghost use Rattle.journal_text.specs.Reading.{reading_of};
ghost use Rattle.journal_text.specs.Written.{journal_size, max_journal};
ghost use Rattle.ms_devices.specs.Causes.{Rose};
ghost use Rattle.ms_devices.specs.Told.{Tells, AddsPrefix};
ghost use Rattle.host_model.specs.Run.{Journal, transcript_of};
ghost use Rattle.run_top.specs.Answers.{IsRefusedAs};
ghost use Rattle.run_top.specs.Replay.{IsReplay, ReadsAs, Adds, AddsBehind, bad_line_of, told_words};

use crate::apply::{StopFault, transcript};
use crate::read::{ReadFault, read_text};
use crate::status::Status;
use journal_text::{JournalFault, read_journal};
use ms_base::{Bytes, Code, Entry, NoMemory, push_number, push_word};
use ms_devices::{Sink, Source};
use std::alloc::Global;

/// Why the text of a journal has no transcript.
#[derive(Clone, Copy, Debug, PartialEq, Eq)]
enum TextFault {
    Bad { line: u32, code: Code },
    NoMemory,
}

/// Reads a journal from the source to its end, applies it to a new host, and writes the transcript to the sink.
pub fn replay_top<S: Source, K: Sink>(alloc: Global, source: &mut S, sink: &mut K) -> Status
    ensures { IsReplay result.0
        (record { held = S.holds source.old; read_faults = S.faults source.old; got = K.got sink.old; write_faults = K.faults sink.old })
        (record { held = S.holds source.new; read_faults = S.faults source.new; got = K.got sink.new; write_faults = K.faults sink.new })
        sink.old sink.new }
{
    let text = match read_text(alloc, source) {
        Ok(text) => text,
        Err(ReadFault::Failed) => return Status::READ_FAILED,
        Err(ReadFault::TooLong) => return Status::TOO_LONG,
        Err(ReadFault::NoMemory) => return Status::OUT_OF_MEMORY,
    };
    match lines_of_text(alloc, text) {
        Ok(lines) => write_lines(sink, lines.as_slice()),
        Err(TextFault::Bad { line, code }) => write_bad_line(alloc, sink, line, code),
        Err(TextFault::NoMemory) => Status::OUT_OF_MEMORY,
    }
}

// Writes a transcript.
fn write_lines<K: Sink>(sink: &mut K, lines: &[u8]) -> Status
    ensures statuses { (result ≡ Status.DONE) ⊎ (result ≡ Status.WRITE_FAILED) }
    ensures done { result ≡ Status.DONE → Tells (Adds lines.now) (K.got sink.old) (K.got sink.new) }
    ensures still { result ≡ Status.DONE → K.faults sink.new ≡ K.faults sink.old }
    ensures rose { result ≡ Status.WRITE_FAILED → Rose (K.faults sink.old) (K.faults sink.new) }
    ensures cut_short { result ≡ Status.WRITE_FAILED → Tells (AddsPrefix lines.now) (K.got sink.old) (K.got sink.new) }
    ensures count { K.faults sink.old ≤ K.faults sink.new }
    ensures behind { Tells AddsBehind (K.got sink.old) (K.got sink.new) }
{
    match sink.write(lines) {
        Ok(()) => Status::DONE,
        Err(_) => Status::WRITE_FAILED,
    }
}

// Writes the line that says what is bad in a text.
fn write_bad_line<K: Sink>(alloc: Global, sink: &mut K, line: u32, code: Code) -> Status
    ensures statuses { (result ≡ Status.BAD_TEXT) ⊎ (result ≡ Status.OUT_OF_MEMORY) }
    ensures told { result ≡ Status.BAD_TEXT →
        ((K.faults sink.new ≡ K.faults sink.old) × Tells (Adds (told_words line code)) (K.got sink.old) (K.got sink.new))
        ⊎ (Rose (K.faults sink.old) (K.faults sink.new) × Tells (AddsPrefix (told_words line code)) (K.got sink.old) (K.got sink.new)) }
    ensures same { result ≡ Status.OUT_OF_MEMORY → sink.new ≡ sink.old }
    ensures count { K.faults sink.old ≤ K.faults sink.new }
    ensures behind { Tells AddsBehind (K.got sink.old) (K.got sink.new) }
{
    let Ok(text) = bad_line(alloc, line, code) else {
        return Status::OUT_OF_MEMORY;
    };
    match sink.write(text.as_slice()) {
        Ok(()) => Status::BAD_TEXT,
        // The text is bad all the same.
        Err(_) => Status::BAD_TEXT,
    }
}

// The line that says what is bad in a text.
fn bad_line(alloc: Global, line: u32, code: Code) -> Result<Bytes, NoMemory>
    ensures { IfOk result (λ text. text ≡ told_words line code) }
{
    let mut text = Bytes::from_slice(alloc, b"bad")?;
    push_number(u64::from(line), &mut text)?;
    push_word(code.word(), &mut text)?;
    text.push(b'\n')?;
    Ok(text)
}

// The transcript of the journal that a text is read as.
fn lines_of_text(alloc: Global, text: Bytes) -> Result<Bytes, TextFault>
    requires { length text ≤ max_journal }
    ensures ok { IfOk result (λ lines. (j : Journal) × ReadsAs text j × (lines ≡ transcript_of j)) }
    ensures err { IfErr result (IsRefusedAs (bad_line_of text)) }
{
    let (seed, entries) = match read_and_let_go(alloc, text) {
        Ok(read) => read,
        Err(JournalFault::BadJournal { line, code }) => return Err(TextFault::Bad { line, code }),
        Err(JournalFault::NoMemory) => return Err(TextFault::NoMemory),
    };
    match transcript(alloc, seed, entries) {
        Ok(lines) => Ok(lines),
        Err(StopFault::Unbuilt { line }) => Err(TextFault::Bad {
            line,
            code: Code::Op,
        }),
        Err(StopFault::NoMemory) => Err(TextFault::NoMemory),
    }
}

// The journal of a text, which takes no room any more while its entries are applied.
fn read_and_let_go(alloc: Global, text: Bytes) -> Result<(u64, Vec<Entry>), JournalFault>
    ensures ok { IfOk result (λ read. reading_of text ≡ Ok (read.0, read.1.items)) }
    ensures bad { IfErr result (λ fault. TellsFault fault (reading_of text)) }
    ensures seed { IfOk result (λ read. read.0 < 2 ^ 60) }
    ensures size { IfOk result (λ read. journal_size read.0 read.1.items ≡ length text) }
{
    read_journal(alloc, text.as_slice())
}
