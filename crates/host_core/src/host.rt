ghost use Rattle.std.specs.Prelude.{◌≡◌, ◌≢◌, ◌&&◌, ◌+◌, ◌^◌, ◌<◌, ◌≤◌, ℕ, List, [], ◌∷◌, ◌++◌, length, map, drop, flat_map, true, false, Err, None, OnOk, OnErr, IfOk, IfSome, IfErr, IsOkUnless, min};
ghost use Rattle.ms_base.specs.declared.entry.Entry.TheVariants as entry;
ghost use Rattle.ms_base.specs.declared.keys.WorkerKey.{WorkerKey};
ghost use Rattle.channel_frames.specs.Frames.{frames, rest_of, is_broken};
ghost use Rattle.channel_msgs.specs.Read.{message_of};
ghost use Rattle.journal_text.specs.Written.{journal_size, max_journal, max_told};
ghost use Rattle.transcript.specs.Lines.{note_line};
ghost use Rattle.host_core.specs.Apply.{fault_of, size_with};
ghost use Rattle.host_core.specs.Tables.{CanHear, HasRoom, Goes, IsHeld};
ghost use Rattle.host_tables.specs.Kept.{ShowsTheSame};
ghost use Rattle.host_tables.specs.LookUps.{phase_of};
ghost use Rattle.host_core.specs.LookUps.{unread_of};
ghost use Rattle.host_model.specs.Run.{with_entry, after, state_of, notes_of, transcript_of, slot_look, look_at};
ghost use Rattle.host_notes.specs.Sent.{sent_of};
ghost use Rattle.host_notes.specs.Verdicts.{verdict_in};
ghost use Rattle.host_model.specs.State.{State, is_up};
ghost use Rattle.host_notes.specs.Keys.{same_worker};
ghost use Rattle.host_model.specs.Step.{Awaits, Calls, Says, step, steps};

use crate::calls::call;
use crate::hear::hear_payload;
use crate::readers::Readers;
use channel_frames::{FrameFault, frames_of_a_cut_stream};
use host_laws::{draws_are_bounded, journals_go_on, streams_stand};
use host_model::hosts_are_sound;
use host_notes::Notes;
use host_tables::{Phase, Shown, Tables};
use journal_text::{MAX_JOURNAL, entry_size, head_size};
use ms_base::{
    Applied, ApplyFault, CallKey, Entry, Event, Name, NoMemory, Op, SlotLook, Verdict, WorkerKey,
};
use std::alloc::Global;
use std::marker::Model;
use transcript::Note;

/// A host: what it has heard, and what has followed. Contracts see its journal, and whether it has run out of
/// memory; all that it shows is a function of its journal.
#[derive(Drop)]
pub struct Host {
    seed: u64,
    spent: bool,
    journal: Vec<Entry>,
    size: u64,
    tables: Tables,
    readers: Readers,
}

impl Model for Host {
    ghost use Rattle.host_model.specs.Run.{HostView};
    ghost use Rattle.host_core.specs.Tables.{IsRun};

    ghost Value = { HostView };

    ghost view = { λ h. record { journal = record { seed = h.seed; entries = h.journal.items }; spent = h.spent } };

    ghost invariant = { λ h. IsRun (record { seed = h.seed; entries = h.journal.items }) h.spent h.size h.tables h.readers };
}

impl Host {
    /// A host that has heard nothing. Its ids are made of the seed, which is below 2^60.
    pub fn new(alloc: Global, seed: u64) -> Result<Host, NoMemory>
        requires { seed < 2 ^ 60 }
        ensures { IfOk result (λ host. host ≡ record { journal = record { seed = seed; entries = [] }; spent = false }) }
    {
        hosts_are_sound();
        Ok(Host {
            seed,
            spent: false,
            journal: Vec::new(alloc),
            size: head_size(seed),
            tables: Tables::new(alloc, seed),
            readers: Readers::new(alloc),
        })
    }

    /// Hears one entry. A refused entry leaves the host as it was, but that after `NoMemory` it answers that
    /// alone; what it shows is as it was then too.
    pub fn apply(&mut self, entry: Entry) -> Result<Applied, ApplyFault>
        // The journal has this entry behind it.
        ensures ok { OnOk result (self.new ≡ record self.old { journal = with_entry self.old.journal entry }) }

        // Where the entry and its notes stand, and what they add to the transcript.
        ensures entry { IfOk result (λ at. at.entry ≡ length self.old.journal.entries) }
        ensures first_note { IfOk result (λ at. at.first_note ≡ length (notes_of self.old.journal)) }
        ensures end_note { IfOk result (λ at. at.end_note ≡ length (notes_of (with_entry self.old.journal entry))) }
        ensures transcript { IfOk result (λ at. transcript_of self.new.journal ≡ transcript_of self.old.journal ++ flat_map note_line (drop at.first_note (notes_of self.new.journal))) }

        // Which fault comes, and when. Running out of memory alone is free.
        ensures fault { IfSome (fault_of self.old entry) (λ fault. result ≡ Err fault) }
        ensures no_other { fault_of self.old entry ≡ None → IsOkUnless result ApplyFault.NoMemory }

        // What a fault leaves.
        ensures memory { result ≡ Err ApplyFault.NoMemory → self.new ≡ record self.old { spent = true } }
        ensures unchanged { IfErr result (λ fault. fault ≢ ApplyFault.NoMemory → self.new ≡ self.old) }
    {
        journals_go_on();
        let size = self.size.saturating_add(entry_size(&entry));
        match self.fault(&entry, size) {
            Some(fault) => Err(fault),
            None => self.enter(entry, size),
        }
    }

    // What stands in the way of an entry, with which the journal would have so many bytes.
    fn fault(&self, entry: &Entry, size: u64) -> Option<ApplyFault>
        requires { size ≡ min (size_with self.now.journal entry.now) max_told }
        ensures { result ≡ fault_of self.now entry.now }
    {
        if self.spent {
            return Some(ApplyFault::NoMemory);
        }
        if size > MAX_JOURNAL {
            return Some(ApplyFault::Full { bytes: size });
        }
        if self.is_unbuilt(entry) {
            return Some(ApplyFault::Unbuilt);
        }
        None
    }

    // Whether an entry is of a kind that is not built yet.
    fn is_unbuilt(&self, entry: &Entry) -> bool
        requires { self.now.spent ≡ false }
        ensures { result ≡ Rattle.host_core.specs.Apply.is_unbuilt (state_of self.now.journal) entry.now }
    {
        frames_of_a_cut_stream();
        match entry {
            Entry::Call { op, .. } => is_unbuilt_op(op),
            Entry::Spawned { worker, up } => !*up && self.tables.slots.is_wanted(*worker),
            Entry::Chunk { worker, bytes } => {
                self.tables.slots.is_up(*worker)
                    && self.readers.breaks_with(*worker, bytes.as_slice())
            }
            Entry::Await { .. } => false,
            Entry::Gone { .. } | Entry::Stop => true,
        }
    }

    // Hears an entry for which there is room, and which is built.
    fn enter(&mut self, entry: Entry, size: u64) -> Result<Applied, ApplyFault>
        requires open { self.old.spent ≡ false }
        requires built { Rattle.host_core.specs.Apply.is_unbuilt (state_of self.old.journal) entry ≡ false }
        requires size { size ≡ size_with self.old.journal entry }
        requires limit { size ≤ max_journal }
        ensures ok { OnOk result (self.new ≡ record self.old { journal = with_entry self.old.journal entry }) }
        ensures entry { IfOk result (λ at. at.entry ≡ length self.old.journal.entries) }
        ensures first_note { IfOk result (λ at. at.first_note ≡ length (notes_of self.old.journal)) }
        ensures end_note { IfOk result (λ at. at.end_note ≡ length (notes_of (with_entry self.old.journal entry))) }
        ensures only { IsOkUnless result ApplyFault.NoMemory }
        ensures memory { result ≡ Err ApplyFault.NoMemory → self.new ≡ record self.old { spent = true } }
    {
        draws_are_bounded();
        journals_go_on();
        frames_of_a_cut_stream();
        hosts_are_sound();
        let place = self.journal.len();
        let first_note = self.tables.notes.len();
        if self.journal.reserve(1).is_err() {
            self.spent = true;
            return Err(ApplyFault::NoMemory);
        }
        if hear(&mut self.tables, &mut self.readers, &entry).is_err() {
            self.tables.notes.truncate(first_note);
            self.spent = true;
            return Err(ApplyFault::NoMemory);
        }
        self.tables.slots.show();
        self.journal.push_reserved(entry);
        self.size = size;
        Ok(Applied {
            entry: place as u64,
            first_note: first_note as u64,
            end_note: self.tables.notes.len() as u64,
        })
    }

    /// All notes so far, in order.
    pub fn notes(&self) -> &[Note]
        ensures { result.now ≡ notes_of self.now.journal }
    {
        self.tables.notes.as_slice()
    }

    /// All notes, as `notes` gives them. What else the host holds takes no room any more.
    pub fn into_notes(self) -> Notes
        ensures { result ≡ notes_of self.journal }
    {
        let tables = self.tables;
        tables.notes
    }

    /// The entries so far, in order.
    pub fn journal(&self) -> &[Entry]
        ensures { result.now ≡ self.now.journal.entries }
    {
        self.journal.as_slice()
    }

    /// The length in bytes of the journal's text, its first line included.
    pub fn size(&self) -> u64
        ensures size { result ≡ journal_size self.now.journal.seed self.now.journal.entries }
        ensures limit { result ≤ max_journal }
    {
        self.size
    }

    /// The bytes that go to a worker, from its start on: the frames of its requests.
    pub fn sent(&self, worker: WorkerKey) -> &[u8]
        ensures { result.now ≡ sent_of (notes_of self.now.journal) worker }
    {
        self.tables.notes.sent(worker)
    }

    /// What a call has come to, if it has settled.
    pub fn verdict(&self, key: CallKey) -> Option<Verdict>
        ensures { result ≡ verdict_in (notes_of self.now.journal) key }
    {
        self.tables.notes.verdict(key)
    }

    /// The state of a slot, counted from 1.
    pub fn slot(&self, slot: u32) -> SlotLook
        ensures { result ≡ slot_look (state_of self.now.journal) slot }
    {
        if slot == 0 {
            return SlotLook::Idle;
        }
        match self.tables.slots.shown_at(slot as usize - 1) {
            None => SlotLook::Idle,
            Some(shown) => self.look_at(shown),
        }
    }

    // The state of a slot of which this is shown.
    fn look_at(&self, shown: Shown) -> SlotLook
        ensures { result ≡ look_at (notes_of self.now.journal) shown.key (phase_of shown.phase) }
    {
        let generation = shown.key.generation;
        match shown.phase {
            Phase::Wanted => SlotLook::Want(generation),
            Phase::Up => SlotLook::Live {
                generation,
                sent: self.sent(shown.key).len() as u64,
            },
            Phase::Over { died } => SlotLook::Over { died },
        }
    }
}

// Whether a call is of a kind that is not built yet.
fn is_unbuilt_op(op: &Op) -> bool
    ensures { result ≡ Rattle.host_core.specs.Apply.is_unbuilt_op op.now }
{
    match op {
        Op::Worker { budget, .. } => *budget != 0,
        Op::PipeRouter { .. } => true,
        Op::Router { .. }
        | Op::Plain { .. }
        | Op::Pipe { .. }
        | Op::Direct { .. }
        | Op::Connect { .. }
        | Op::Produce { .. }
        | Op::Consume { .. }
        | Op::Pause { .. }
        | Op::Resume { .. }
        | Op::Close { .. }
        | Op::CanConsume { .. }
        | Op::Send { .. } => false,
    }
}

// Hears an entry that is built: the tables and the readers go on, and what follows is noted.
fn hear(tables: &mut Tables, readers: &mut Readers, entry: &Entry) -> Result<(), NoMemory>
    requires room { HasRoom tables.old }
    requires can { CanHear tables.old readers.old entry.now }
    ensures ok { OnOk result ((seed : ℕ) (s : State) → IsHeld seed s tables.old readers.old → IsHeld seed (after s entry.now) tables.new readers.new) }
    ensures shown { ShowsTheSame tables.old tables.new }
{
    hosts_are_sound();
    streams_stand();
    match entry {
        Entry::Call { lane, op } => hear_call(tables, *lane, op),
        Entry::Await {
            lane,
            name,
            event,
            count,
        } => hear_await(tables, *lane, name, *event, *count),
        Entry::Spawned { worker, up } => hear_start(tables, *worker, *up),
        Entry::Chunk { worker, bytes } => hear_chunk(tables, readers, *worker, bytes.as_slice()),
        // No other entry is built.
        Entry::Gone { .. } | Entry::Stop => Ok(()),
    }
}

// A lane has made a call.
fn hear_call(tables: &mut Tables, lane: u32, op: &Op) -> Result<(), NoMemory>
    requires room { HasRoom tables.old }
    requires built { Rattle.host_core.specs.Apply.is_unbuilt_op op.now ≡ false }
    ensures ok { OnOk result (Goes (λ s. step s (Calls lane op.now)) tables.old tables.new) }
    ensures shown { ShowsTheSame tables.old tables.new }
{
    call(tables, lane, op)?;
    tables.settle_awaits()
}

// A lane waits for notes.
fn hear_await(
    tables: &mut Tables,
    lane: u32,
    name: &Name,
    event: Event,
    count: u32,
) -> Result<(), NoMemory>
    requires { HasRoom tables.old }
    ensures ok { OnOk result (Goes (λ s. step s (Awaits lane name.now event count)) tables.old tables.new) }
    ensures shown { ShowsTheSame tables.old tables.new }
{
    tables.add_await(lane, name, event, count)?;
    tables.settle_awaits()
}

// A start of a worker has been tried.
fn hear_start(tables: &mut Tables, worker: WorkerKey, up: bool) -> Result<(), NoMemory>
    ensures ok { OnOk result (Goes (λ s. after s (entry.Spawned worker up)) tables.old tables.new) }
    ensures shown { ShowsTheSame tables.old tables.new }
{
    if !(up && tables.slots.is_wanted(worker)) {
        return Ok(());
    }
    tables.start(worker)?;
    tables.settle_awaits()
}

// Bytes have come from a worker.
fn hear_chunk(
    tables: &mut Tables,
    readers: &mut Readers,
    worker: WorkerKey,
    bytes: &[u8],
) -> Result<(), NoMemory>
    requires { (is_up tables.old.slots.slots worker && is_broken (unread_of readers.old worker ++ bytes.now)) ≡ false }
    ensures ok { OnOk result ((seed : ℕ) (s : State) → IsHeld seed s tables.old readers.old → IsHeld seed (after s (entry.Chunk worker bytes.now)) tables.new readers.new) }
    ensures shown { ShowsTheSame tables.old tables.new }
{
    frames_of_a_cut_stream();
    hosts_are_sound();
    streams_stand();
    if !tables.slots.is_up(worker) {
        return Ok(());
    }
    readers.feed(worker, bytes)?;
    // That bytes come is a micro step, as each payload behind it is, and a micro step ends with this. It only looks at awaits of
    // names of which something has changed, and here nothing has.
    tables.settle_awaits()?;
    hear_payloads(tables, readers, worker)
}

// Hears the payloads of a worker that are whole, one after another.
fn hear_payloads(
    tables: &mut Tables,
    readers: &mut Readers,
    worker: WorkerKey,
) -> Result<(), NoMemory>
    requires { is_broken (unread_of readers.old worker) ≡ false }
    ensures tables { OnOk result (Goes (λ s. steps s (map (λ payload. Says worker (message_of payload)) (frames (unread_of readers.old worker)))) tables.old tables.new) }
    ensures rest { OnOk result (unread_of readers.new worker ≡ rest_of (unread_of readers.old worker)) }
    ensures others { (w : WorkerKey) → same_worker worker w ≡ false → unread_of readers.new w ≡ unread_of readers.old w }
    ensures shown { ShowsTheSame tables.old tables.new }
{
    hosts_are_sound();
    loop {
        match readers.next_payload(worker) {
            Ok(Some(payload)) => hear_said(tables, worker, payload.as_slice())?,
            Ok(None) => return Ok(()),
            Err(FrameFault::NoMemory) => return Err(NoMemory),
            // The stream doesn't break: no entry with a break is built. Nothing is written.
            Err(FrameFault::TooLong { .. } | FrameFault::TooBig) => unreachable!(),
        }
    }
}

// A worker has said something.
fn hear_said(tables: &mut Tables, worker: WorkerKey, payload: &[u8]) -> Result<(), NoMemory>
    ensures ok { OnOk result (Goes (λ s. step s (Says worker (message_of payload.now))) tables.old tables.new) }
    ensures shown { ShowsTheSame tables.old tables.new }
{
    hear_payload(tables, worker, payload)?;
    tables.settle_awaits()
}
