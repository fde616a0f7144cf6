ghost use Rattle.std.specs.Prelude.{◌≡◌, ◌<◌, ◌≤◌, ◌^◌, [], IfOk, IfErr, OnOk, false, None, flat_map};
ghost use Rattle.journal_text.specs.Written.{journal_size, max_journal};
ghost use Rattle.transcript.specs.Lines.{note_line};
ghost use Rattle.host_model.specs.Run.{transcript_of};
ghost use Rattle.host_model.specs.State.{start};
ghost use Rattle.run_top.specs.Replay.{first_unbuilt};
ghost use Rattle.run_top.specs.Applying.{IsStopped};

use host_core::Host;
use journal_text::journals_grow_by_lines;
use ms_base::{ApplyFault, Bytes, Entry, NoMemory};
use std::alloc::Global;
use transcript::{Note, note_line};

/// Why not all entries of a journal were applied.
#[derive(Clone, Copy, Debug, PartialEq, Eq)]
pub(crate) enum StopFault {
    /// The entry of this line, from 1, is of a kind that is not built yet.
    Unbuilt { line: u32 },
    NoMemory,
}

/// The transcript of a journal that is within its limit.
pub(crate) fn transcript(alloc: Global, seed: u64, entries: Vec<Entry>) -> Result<Bytes, StopFault>
    requires seed { seed < 2 ^ 60 }
    requires limit { journal_size seed entries.items ≤ max_journal }
    ensures ok { IfOk result (λ lines. lines ≡ transcript_of (record { seed = seed; entries = entries.items })) }
    ensures built { OnOk result (first_unbuilt (start seed) 2 entries.items ≡ None) }
    ensures err { IfErr result (IsStopped (first_unbuilt (start seed) 2 entries.items)) }
{
    let Ok(mut host) = Host::new(alloc, seed) else {
        return Err(StopFault::NoMemory);
    };
    apply_all(&mut host, entries)?;
    // The lines are made of the notes alone: the journal and the tables take no room beside them.
    let notes = host.into_notes();
    match lines_of(alloc, notes.as_slice()) {
        Ok(lines) => Ok(lines),
        Err(NoMemory) => Err(StopFault::NoMemory),
    }
}

// Applies the entries, one after another.
fn apply_all(host: &mut Host, entries: Vec<Entry>) -> Result<(), StopFault>
    requires new { host.old ≡ record { journal = record { seed = host.old.journal.seed; entries = [] }; spent = false } }
    requires limit { journal_size host.old.journal.seed entries.items ≤ max_journal }
    ensures ok { OnOk result (host.new ≡ record { journal = record { seed = host.old.journal.seed; entries = entries.items }; spent = false }) }
    ensures built { OnOk result (first_unbuilt (start host.old.journal.seed) 2 entries.items ≡ None) }
    ensures err { IfErr result (IsStopped (first_unbuilt (start host.old.journal.seed) 2 entries.items)) }
{
    // A law: a journal within its limit never passes it on the way.
    journals_grow_by_lines();
    let mut left = entries;
    left.reverse();
    let mut line = 2u32;
    while let Some(entry) = left.pop() {
        give_back_room(&mut left);
        match host.apply(entry) {
            Ok(_) => {}
            Err(ApplyFault::Unbuilt) => return Err(StopFault::Unbuilt { line }),
            Err(ApplyFault::NoMemory) => return Err(StopFault::NoMemory),
            Err(ApplyFault::Full { .. }) => unreachable!(),
        }
        line = line.saturating_add(1);
    }
    Ok(())
}

// A list that gets shorter gives back its room whenever half of it is empty, so that entries don't take it twice: here, and in
// the host.
fn give_back_room(left: &mut Vec<Entry>)
    ensures { left.new.items ≡ left.old.items }
{
    if left.len() <= left.capacity() / 2 {
        left.shrink_to_fit();
    }
}

// The lines of the notes, one after another.
fn lines_of(alloc: Global, notes: &[Note]) -> Result<Bytes, NoMemory>
    ensures { IfOk result (λ lines. lines ≡ flat_map note_line notes.now) }
{
    let mut lines = Bytes::new(alloc);
    for note in notes {
        note_line(alloc, note, &mut lines)?;
    }
    Ok(lines)
}
