ghost use Rattle.std.specs.Prelude.{◌≡◌, ◌≤◌, [], ◌∷◌, ◌++◌, length, map, OnOk, OnErr, option_copied, slice_get, option_map, vec_capacity};
ghost use Rattle.host_tables.specs.LookUps.{shown_of, shown_view};
ghost use Rattle.object_tree.specs.Falls.{is_among};
ghost use Rattle.host_model.specs.Falls.{over_if, with_over};
ghost use Rattle.host_model.specs.State.{channel_of, is_up, is_wanted, up_if, up_slot, with_up};

use ms_base::{Name, NoMemory, Reason, Serial, WorkerKey};
use std::alloc::Global;
use std::marker::Model;

/// How far the start of a slot's latest worker is.
#[derive(Clone, Copy, Debug, PartialEq, Eq)]
pub enum Phase {
    /// It is wanted, and was not tried yet.
    Wanted,
    /// The worker was started.
    Up,
    /// Its Worker has closed, and none comes after it.
    Over { died: bool },
}

/// A place for worker processes, one generation after another.
#[derive(Debug, Drop)]
pub struct Slot {
    /// Its number, from 1, and the generation of its latest worker.
    pub key: WorkerKey,
    /// The name of its Workers.
    pub name: Name,
    /// How many restarts it has.
    pub budget: u32,
    /// How many of them were used.
    pub used: u32,
    pub phase: Phase,
    /// Its latest Worker.
    pub worker: Serial,
}

impl Model for Slot {
    ghost use Rattle.host_model.specs.State.{Slot};

    ghost Value = { Slot };

    ghost use Rattle.host_tables.specs.LookUps.{phase_of};

    ghost view = { λ x. record { key = x.key; name = x.name; budget = x.budget; used = x.used; phase = phase_of x.phase; worker = x.worker } };
}

impl Slot {
    // Notes the start of the worker, if it is the latest here.
    fn start_if(&mut self, worker: WorkerKey)
        ensures { self.new ≡ up_if worker self.old }
    {
        if self.key == worker {
            self.phase = Phase::Up;
        }
    }

    // Notes the close of its Worker, if that is among the fallen.
    fn end_if(&mut self, fallen: &[Serial], reason: Reason)
        ensures { self.new ≡ over_if fallen.now reason self.old }
    {
        if is_among(fallen, self.worker) {
            self.phase = Phase::Over {
                died: reason == Reason::Died,
            };
        }
    }
}

// Whether a serial is among these. They are looked through once for each slot, of which there are 64 at most (`max_slots`): so a
// fall costs in proportion to what falls.
fn is_among(serials: &[Serial], serial: Serial) -> bool
    ensures { result ≡ is_among serials.now serial }
{
    serials.iter().any(|one| *one == serial)
}

/// What is shown of a slot.
#[derive(Clone, Copy, Debug, PartialEq, Eq)]
pub struct Shown {
    pub key: WorkerKey,
    pub phase: Phase,
}

/// The slots, in order of their numbers; and what is shown of them, which stays as it is until it is kept anew.
#[derive(Debug, Drop)]
pub struct Slots {
    items: Vec<Slot>,
    shown: Vec<Shown>,
    /// Whether no slot has changed since they were shown.
    fresh: bool,
}

impl Model for Slots {
    ghost use Rattle.host_tables.specs.LookUps.{SlotsView};

    ghost Value = { SlotsView };

    ghost use Rattle.std.specs.Prelude.{map};
    ghost use Rattle.host_tables.specs.LookUps.{shown_view, MayShow};

    ghost view = { λ s. record { slots = s.items.items; shown = map shown_view s.shown.items } };

    ghost invariant = { λ s. MayShow s.items.items s.shown s.fresh };
}

impl Slots {
    pub fn new(alloc: Global) -> Slots
        ensures { result ≡ record { slots = []; shown = [] } }
    {
        Slots {
            items: Vec::new(alloc),
            shown: Vec::new(alloc),
            fresh: true,
        }
    }

    pub fn len(&self) -> usize
        ensures { result ≡ length self.now.slots }
    {
        self.items.len()
    }

    /// Adds a slot behind the others.
    pub fn add(&mut self, slot: Slot) -> Result<(), NoMemory>
        ensures ok { OnOk result (self.new ≡ record self.old { slots = self.old.slots ++ slot ∷ [] }) }
        ensures err { OnErr result (self.new ≡ self.old) }
    {
        let lacking = self.items.len() + 1 - self.shown.len();
        self.shown.reserve(lacking)?;
        self.items.push(slot)?;
        self.fresh = false;
        Ok(())
    }

    /// From now on what is shown is that of the slots as they are.
    pub fn show(&mut self)
        ensures { self.new ≡ record self.old { shown = map shown_of self.old.slots } }
    {
        if self.fresh {
            return;
        }
        show_all(self.items.as_slice(), &mut self.shown);
        self.fresh = true;
    }

    /// What is shown of the slot at a place, from 0.
    pub fn shown_at(&self, place: usize) -> Option<Shown>
        ensures { option_map shown_view result ≡ slice_get self.now.shown place }
    {
        self.shown.get(place).copied()
    }

    /// The slot whose latest worker this is, where it is up.
    pub fn up(&self, worker: WorkerKey) -> Option<&Slot>
        ensures { option_copied result ≡ up_slot self.now.slots worker }
    {
        self.items
            .iter()
            .find(|slot| slot.key == worker && slot.phase == Phase::Up)
    }

    /// Whether a worker is up.
    pub fn is_up(&self, worker: WorkerKey) -> bool
        ensures { result ≡ is_up self.now.slots worker }
    {
        self.up(worker).is_some()
    }

    /// Whether the start of a worker is wanted and was not tried yet.
    pub fn is_wanted(&self, worker: WorkerKey) -> bool
        ensures { result ≡ is_wanted self.now.slots worker }
    {
        self.items
            .iter()
            .any(|slot| slot.key == worker && slot.phase == Phase::Wanted)
    }

    /// The channel of the Worker of a serial, while its process is up.
    pub fn channel_of(&self, worker: Serial) -> Option<WorkerKey>
        ensures { result ≡ channel_of self.now.slots worker }
    {
        self.items
            .iter()
            .find(|slot| slot.worker == worker && slot.phase == Phase::Up)
            .map(|slot| slot.key)
    }

    /// Notes that a worker was started.
    pub fn start(&mut self, worker: WorkerKey)
        ensures { self.new ≡ record self.old { slots = with_up worker self.old.slots } }
    {
        self.fresh = false;
        for slot in self.items.iter_mut() {
            slot.start_if(worker);
        }
    }

    /// Notes that these objects have fallen: the slots of Workers among them are over.
    pub fn end(&mut self, fallen: &[Serial], reason: Reason)
        ensures { self.new ≡ record self.old { slots = with_over fallen.now reason self.old.slots } }
    {
        self.fresh = false;
        for slot in self.items.iter_mut() {
            slot.end_if(fallen, reason);
        }
    }
}

// Shows these slots and no others. There is room for them.
fn show_all(slots: &[Slot], shown: &mut Vec<Shown>)
    requires { length slots.now ≤ vec_capacity shown.old }
    ensures shown { map shown_view shown.new.items ≡ map shown_of slots.now }
    ensures room { vec_capacity shown.new ≡ vec_capacity shown.old }
{
    shown.clear();
    for slot in slots {
        shown.push_reserved(Shown {
            key: slot.key,
            phase: slot.phase,
        });
    }
}
