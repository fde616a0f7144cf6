ghost use Rattle.std.specs.Prelude.{◌≡◌, ◌<◌, ◌^◌, [], ◌∷◌, length, true, Ok, IfOk, IfErr};
ghost use Rattle.journal_text.specs.Reading.{reading_of, entries_of, with_front, cut};
ghost use Rattle.journal_text.specs.WellFormed.{are_well_formed};
ghost use Rattle.journal_text.specs.Written.{journal_size};
ghost use Rattle.journal_text.specs.declared.fault.JournalFault.TheVariants as fault;
ghost use Rattle.journal_text.specs.Gives.{Tells, told_line};
ghost use Rattle.script_text.specs.Words.{lines};

mod line;

use crate::fault::JournalFault;
use crate::laws::{what_reads_has_a_seed, what_reads_is_as_long, what_reads_is_well_formed};
use line::read_entry;
use ms_base::{Code, Entry};
use script_text::{WordFault, first_line, read_head};
use std::alloc::Global;

/// The seed and the entries of the text of a journal.
///
/// `BadJournal` comes exactly where the text is not one, with the first line that is wrong and its
/// first fault.
pub fn read_journal(alloc: Global, text: &[u8]) -> Result<(u64, Vec<Entry>), JournalFault>
    ensures ok { IfOk result (λ read. reading_of text.now ≡ Ok (read.0, read.1.items)) }
    ensures bad { IfErr result (λ fault. Tells fault (reading_of text.now)) }

    // What is read is in its bounds, and as long as the text.
    ensures seed { IfOk result (λ read. read.0 < 2 ^ 60) }
    ensures form { IfOk result (λ read. are_well_formed read.1.items ≡ true) }
    ensures size { IfOk result (λ read. journal_size read.0 read.1.items ≡ length text.now) }
{
    let (head, rest) = first_line(text);
    let seed = match read_head("journal", head) {
        Ok(seed) => seed,
        Err(code) => return Err(bad_line(1, code)),
    };
    let Some(rest) = rest else {
        return Err(bad_line(1, Code::Cut));
    };
    what_reads_has_a_seed();
    what_reads_is_well_formed();
    what_reads_is_as_long();
    match read_entries(alloc, rest) {
        Ok(entries) => Ok((seed, entries)),
        Err(fault) => Err(fault),
    }
}

// The entries of what stands behind the first line.
fn read_entries(alloc: Global, text: &[u8]) -> Result<Vec<Entry>, JournalFault>
    ensures ok { IfOk result (λ entries. entries_of 2 (lines text.now) ≡ Ok entries.items) }
    ensures bad { IfErr result (λ fault. Tells fault (entries_of 2 (lines text.now))) }
{
    let mut entries = Vec::new(alloc);
    let mut number = 2;
    let mut rest = text;
    'lines: loop {
        let (line, behind) = first_line(rest);
        let Some(next) = behind else {
            return end_of_text(entries, number, line);
        };
        let entry = match read_entry(alloc, line) {
            Ok(entry) => entry,
            Err(WordFault::Bad(code)) => return Err(bad_line(number, code)),
            Err(WordFault::NoMemory) => return Err(JournalFault::NoMemory),
        };
        entries.push(entry)?;
        number += 1;
        rest = next;
    }
}

// All entries, where nothing stands behind the last line feed.
fn end_of_text(entries: Vec<Entry>, number: usize, last: &[u8]) -> Result<Vec<Entry>, JournalFault>
    ensures ok { IfOk result (λ all. with_front entries.items (entries_of number (last.now ∷ [])) ≡ Ok all.items) }
    ensures bad { IfErr result (λ wrong. Tells wrong (with_front entries.items (entries_of number (last.now ∷ [])))) }
{
    if last.is_empty() {
        Ok(entries)
    } else {
        Err(bad_line(number, cut_code(last)))
    }
}

// What is wrong with a last line that has no line feed.
fn cut_code(line: &[u8]) -> Code
    ensures { cut line.now ≡ result }
{
    match std::str::from_utf8(line) {
        Ok(_) => Code::Cut,
        Err(_) => Code::Utf8,
    }
}

// The fault of the line of this number.
fn bad_line(number: usize, code: Code) -> JournalFault
    ensures { result ≡ fault.BadJournal (told_line number) code }
{
    JournalFault::BadJournal {
        line: u32::try_from(number).unwrap_or(u32::MAX),
        code,
    }
}
