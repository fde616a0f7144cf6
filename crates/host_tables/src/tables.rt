ghost use Rattle.std.specs.Prelude.{◌≡◌, ◌+◌, ◌++◌, ◌∷◌, ◌<◌, ◌^◌, [], IfOk, OnOk, option_copied};
ghost use Rattle.host_notes.specs.Sent.{IsShort};
ghost use Rattle.request_build.specs.Built.{max_slots};
ghost use Rattle.host_model.specs.Changes.{call_settled, lost, noted, owner_settled};
ghost use Rattle.host_model.specs.State.{call_key, calls_of, names_of, start};
ghost use Rattle.host_model.specs.Step.{awaited, started};
ghost use Rattle.host_tables.specs.Kept.{Hears, IsKept, Moves, ShowsTheSame, names_in};
ghost use Rattle.host_tables.specs.LookUps.{counted};

use crate::calls::Calls;
use crate::slots::{Slot, Slots};
use host_awaits::{Await, Awaits};
use host_model::Due;
use host_notes::Notes;
use host_requests::Requests;
use ms_base::{CallKey, Event, Name, NoMemory, Outcome, WorkerKey};
use object_tree::Tree;
use pending_calls::Owner;
use request_build::{Draws, Kept, Names};
use std::alloc::Global;
use transcript::Note;

/// SSRCs are drawn from this one on.
const FIRST_SSRC: u32 = 100_000_000;

/// What the host knows, but for the streams of its workers.
#[derive(Drop)]
pub struct Tables {
    pub alloc: Global,
    pub tree: Tree,
    /// What is kept of open objects, and what pending requests are to make.
    pub kept: Kept,
    /// What is drawn next.
    pub next: Draws,
    pub requests: Requests<Due>,
    pub calls: Calls,
    /// The names that calls were to make which have come to another outcome than Done.
    pub failed: Names,
    pub awaits: Awaits,
    pub slots: Slots,
    pub notes: Notes,
}

impl Tables {
    /// Those of a host that has heard nothing.
    pub fn new(alloc: Global, seed: u64) -> Tables
        ensures kept { IsKept (start seed) result }
        ensures shown { result.slots.shown ≡ [] }
    {
        let tree = Tree::new(alloc);
        let kept = Kept::new(alloc);
        let requests = Requests::new(alloc);
        let calls = Calls::new(alloc);
        let failed = Names::new(alloc);
        let awaits = Awaits::new(alloc);
        let slots = Slots::new(alloc);
        let notes = Notes::new(alloc);
        let next = Draws {
            seed,
            serial: 1,
            ssrc: FIRST_SSRC,
        };
        Tables {
            alloc,
            tree,
            kept,
            next,
            requests,
            calls,
            failed,
            awaits,
            slots,
            notes,
        }
    }

    /// A note comes behind the others.
    pub fn note(&mut self, note: Note) -> Result<(), NoMemory>
        requires { IsShort note }
        ensures ok { OnOk result (Moves (noted note) self.old self.new) }
        ensures tree { self.new.tree ≡ self.old.tree }
        ensures heard { OnOk result (Hears (note ∷ []) self.old self.new) }
        ensures shown { ShowsTheSame self.old self.new }
    {
        self.awaits.hear(&note)?;
        self.notes.push(note)
    }

    /// A call has come to its outcome. `makes` is the name of the object that it was to make, if one: where the outcome isn't
    /// `Done`, that name is given up.
    pub fn settle_call(
        &mut self,
        call: CallKey,
        outcome: Outcome,
        makes: Option<&Name>,
    ) -> Result<(), NoMemory>
        ensures ok { OnOk result (Moves (call_settled call outcome (names_in (option_copied makes.entry))) self.old self.new) }
        ensures tree { self.new.tree ≡ self.old.tree }
        ensures shown { ShowsTheSame self.old self.new }
    {
        self.lose_by(&outcome, makes)?;
        self.note(Note::Settled { call, outcome })
    }

    // A call has come to this outcome, which was to make an object of this name, if one: so it may be that it doesn't.
    fn lose_by(&mut self, outcome: &Outcome, makes: Option<&Name>) -> Result<(), NoMemory>
        ensures ok { OnOk result (Moves (λ s. record s { failed = s.failed ++ lost outcome.now (names_in (option_copied makes.entry)) }) self.old self.new) }
        ensures tree { self.new.tree ≡ self.old.tree }
        ensures shown { ShowsTheSame self.old self.new }
    {
        match lost_name(outcome, makes) {
            Some(name) => self.lose(name),
            None => Ok(()),
        }
    }

    // The call that was to make a name doesn't.
    fn lose(&mut self, name: &Name) -> Result<(), NoMemory>
        ensures ok { OnOk result (Moves (λ s. record s { failed = s.failed ++ name.now ∷ [] }) self.old self.new) }
        ensures tree { self.new.tree ≡ self.old.tree }
        ensures shown { ShowsTheSame self.old self.new }
    {
        self.failed.add(name)?;
        self.awaits.touch(name)?;
        Ok(())
    }

    /// The call that a request was issued for, if there is one, has come to its outcome.
    pub fn settle_owner(
        &mut self,
        owner: Owner,
        outcome: Outcome,
        due: &Due,
    ) -> Result<(), NoMemory>
        ensures ok { OnOk result (Moves (owner_settled owner outcome (names_of due.now)) self.old self.new) }
        ensures tree { self.new.tree ≡ self.old.tree }
        ensures shown { ShowsTheSame self.old self.new }
    {
        match owner {
            Owner::Call(call) => self.settle_call(call, outcome, made_name(due)),
            Owner::Job { .. } | Owner::Close | Owner::Follow => Ok(()),
        }
    }

    // ---- calls and awaits

    /// A lane makes a call, or waits; its key.
    pub fn enter_call(&mut self, lane: u32) -> Result<CallKey, NoMemory>
        requires { counted self.old.calls lane + 1 < 2 ^ 32 }
        ensures key { IfOk result (λ call. call ≡ call_key lane (counted self.old.calls lane)) }
        ensures others { self.new ≡ record self.old { calls = self.new.calls } }
        ensures ok { OnOk result (Moves (λ s. record s { calls = s.calls ++ call_key lane (calls_of s.calls lane) ∷ [] }) self.old self.new) }
        ensures shown { ShowsTheSame self.old self.new }
    {
        let call = self.calls.next(lane);
        self.calls.add(lane)?;
        Ok(call)
    }

    /// A lane waits for notes.
    pub fn add_await(
        &mut self,
        lane: u32,
        name: &Name,
        event: Event,
        count: u32,
    ) -> Result<(), NoMemory>
        requires { counted self.old.calls lane + 1 < 2 ^ 32 }
        ensures ok { OnOk result (Moves (awaited lane name.now event count) self.old self.new) }
        ensures shown { ShowsTheSame self.old self.new }
    {
        let key = self.enter_call(lane)?;
        let name = name.copy(self.alloc)?;
        self.awaits.add(Await {
            key,
            name,
            event,
            count,
        })?;
        Ok(())
    }

    // ---- slots

    /// One slot more is made, of 64 at most (`max_slots`).
    pub fn add_slot(&mut self, slot: Slot) -> Result<(), NoMemory>
        requires { self.old.kept.slots < max_slots }
        ensures ok { OnOk result (Moves (λ s. record s { slots = s.slots ++ slot ∷ [] }) self.old self.new) }
        ensures shown { ShowsTheSame self.old self.new }
    {
        self.slots.add(slot)?;
        self.kept.slots += 1;
        Ok(())
    }

    /// A wanted worker was started.
    pub fn start(&mut self, worker: WorkerKey) -> Result<(), NoMemory>
        ensures ok { OnOk result (Moves (started worker) self.old self.new) }
        ensures shown { ShowsTheSame self.old self.new }
    {
        self.note(Note::Up { worker })?;
        self.slots.start(worker);
        Ok(())
    }
}

// The name that can't come any more, where a call that was to make one has this outcome.
fn lost_name<'n>(outcome: &Outcome, makes: Option<&'n Name>) -> Option<&'n Name>
    ensures { names_in (option_copied result) ≡ lost outcome.now (names_in (option_copied makes.entry)) }
{
    match outcome {
        Outcome::Done => None,
        _ => makes,
    }
}

// The name of what a request is to make.
fn made_name(due: &Due) -> Option<&Name>
    ensures { names_in (option_copied result) ≡ names_of due.now }
{
    match due {
        Due::Opens { object, .. } => Some(&object.name),
        Due::Turns { .. } | Due::Nothing => None,
    }
}
