ghost use Rattle.std.specs.Prelude.{◌≡◌, ℕ, ◌+◌, List, [], ◌∷◌, ◌++◌, map, option_map, OnOk, IfOk, if◌then◌else◌};
ghost use Rattle.std.specs.List.{AllByRecursion};
ghost use Rattle.std.specs.Str.{bytes_eq};
ghost use Rattle.ms_base.specs.declared.keys.Event.{Event};
ghost use Rattle.host_awaits.specs.Awaits.{counts, event_of, tells_of, settled_by, waiting_by};
ghost use Rattle.host_awaits.specs.Watching.{HasNoneYet, awaits_in, just_entered, looked_at, times_in, touched_by};

use crate::entered::Await;
use crate::names::Names;
use crate::settle::look_at_each;
use crate::standing::Standing;
use ms_base::{CallKey, Event, Name, NoMemory, Outcome};
use std::alloc::Global;
use std::collections::BTreeMap;
use std::marker::Model;
use transcript::Note;

/// The awaits that wait, in order of their entry, and how often each event was noted for each name. Where a call
/// runs out of memory, nothing is known of them any more.
#[derive(Debug, Drop)]
pub struct Awaits {
    alloc: Global,
    names: Names,
    /// By their numbers, which rise in the order of entry.
    waiting: BTreeMap<u64, Await>,
    /// The numbers of those that have to be looked at.
    touched: Vec<u64>,
    /// The number of the next one.
    next: u64,
}

impl Model for Awaits {
    ghost use Rattle.host_awaits.specs.Watching.{Watching};

    ghost Value = { Watching };

    ghost use Rattle.std.specs.Prelude.{map};
    ghost use Rattle.host_awaits.specs.Keeping.{AreKept, times_seen, watched};

    ghost view = { λ a. record { waiting = map (watched a.names) a.waiting.entries; times = times_seen a.names } };

    ghost invariant = { λ a. AreKept a.next a.waiting.entries a.names a.touched.items };
}

impl Awaits {
    /// Nothing waits, and nothing was noted.
    pub fn new(alloc: Global) -> Awaits
        ensures waiting { result.waiting ≡ [] }
        ensures times { (name : List ℕ) (event : Event) → times_in result name event ≡ 0 }
    {
        let names = Names::new(alloc);
        let waiting = BTreeMap::new(alloc);
        Awaits {
            alloc,
            names,
            waiting,
            touched: Vec::new(alloc),
            next: 0,
        }
    }

    /// Counts a note, where it is of an event.
    pub fn hear(&mut self, note: &Note) -> Result<(), NoMemory>
        ensures waiting { OnOk result (self.new.waiting ≡ map (touched_by (λ name. tells_of name note.now)) self.old.waiting) }
        ensures times { OnOk result ((name : List ℕ) (event : Event) → times_in self.new name event ≡ (if counts name event note.now then times_in self.old name event + 1 else times_in self.old name event)) }
    {
        let Some((name, event)) = event_of(note) else {
            return Ok(());
        };
        self.names.hear(name, event, &mut self.touched)?;
        Ok(())
    }

    /// Something else of a name has changed.
    pub fn touch(&mut self, name: &Name) -> Result<(), NoMemory>
        ensures waiting { OnOk result (self.new.waiting ≡ map (touched_by (bytes_eq name.now)) self.old.waiting) }
        ensures times { OnOk result ((name : List ℕ) (event : Event) → times_in self.new name event ≡ times_in self.old name event) }
    {
        self.names.touch(name, &mut self.touched)?;
        Ok(())
    }

    /// Adds an await behind the others.
    pub fn add(&mut self, awaited: Await) -> Result<(), NoMemory>
        ensures waiting { OnOk result (self.new.waiting ≡ self.old.waiting ++ just_entered awaited ∷ []) }
        ensures times { OnOk result ((name : List ℕ) (event : Event) → times_in self.new name event ≡ times_in self.old name event) }
    {
        let number = self.next;
        let next = behind(number)?;
        self.touched.push(number)?;
        self.waiting.insert(number, awaited)?;
        self.next = next;
        Ok(())
    }

    /// Takes out the awaits that settle, and answers what each comes to, in order of their entry. It looks at those
    /// alone of whose names something has changed: these are all where the others have no outcome.
    pub fn settle<S: Standing>(&mut self, standing: &S) -> Result<Vec<(CallKey, Outcome)>, NoMemory>
        ensures settled { IfOk result (λ list. AllByRecursion (HasNoneYet (times_in self.old) (S.hopeless standing.now)) self.old.waiting → list.items ≡ settled_by (times_in self.old) (S.hopeless standing.now) (awaits_in self.old)) }
        ensures waiting { OnOk result (AllByRecursion (HasNoneYet (times_in self.old) (S.hopeless standing.now)) self.old.waiting → self.new.waiting ≡ map looked_at (waiting_by (times_in self.old) (S.hopeless standing.now) (awaits_in self.old))) }
        ensures times { OnOk result ((name : List ℕ) (event : Event) → times_in self.new name event ≡ times_in self.old name event) }
    {
        self.touched.sort_unstable();
        let settled = look_at_each(
            self.alloc,
            self.touched.as_slice(),
            standing,
            &mut self.names,
            &mut self.waiting,
        )?;
        self.touched.clear();
        Ok(settled)
    }
}

// The number behind another. As many awaits as a `u64` counts are in no memory.
fn behind(number: u64) -> Result<u64, NoMemory>
    ensures { IfOk result (λ next. next ≡ number + 1) }
{
    number.checked_add(1).ok_or(NoMemory)
}

// The name and the event that a note is of.
fn event_of(note: &Note) -> Option<(&Name, Event)>
    ensures { option_map (λ told. (told.0.now, told.1)) result ≡ event_of note.now }
{
    match note {
        Note::Running { name, .. } => Some((name, Event::Running)),
        Note::Open { name, .. } => Some((name, Event::Opened)),
        Note::Closed { name, .. } => Some((name, Event::Closed)),
        Note::Paused { name } => Some((name, Event::Paused)),
        Note::Resumed { name } => Some((name, Event::Resumed)),
        Note::Tuple { name, .. } => Some((name, Event::Tuple)),
        Note::Rtp { name, .. } => Some((name, Event::Rtp)),
        _ => None,
    }
}
