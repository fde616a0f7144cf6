ghost use Rattle.std.specs.Prelude.{◌≡◌, ℕ, List, [], ◌∷◌, ◌++◌, length, OnOk, OnErr};
ghost use Rattle.script_text.specs.Script.{onto_last, with_row};

use crate::row::Row;
use ms_base::{Event, Name, NoMemory, Op};
use std::alloc::Global;
use std::marker::Model;

/// A script: the seed of the run, and what each lane does.
#[derive(Debug, Drop)]
pub struct Script {
    /// Below 2^60.
    pub seed: u64,
    pub lanes: Lanes,
}

/// What a lane does next.
#[derive(Debug, Drop, PartialEq, Eq)]
pub enum Step {
    /// Make a call.
    Do(Op),
    /// Wait for `count` notes of this event for objects of this name.
    Wait {
        name: Name,
        event: Event,
        count: u32,
    },
}

/// The steps of a lane, in order. Contracts see them as their list.
#[derive(Debug, Drop)]
pub struct Steps {
    items: Vec<Step>,
}

impl Model for Steps {
    ghost use Rattle.std.specs.Prelude.{List};
    ghost use Rattle.script_text.specs.declared.script.Step.{Step};

    ghost Value = { List Step };

    ghost view = { λ s. s.items.items };
}

/// The lanes, in order. Contracts see them as the list of the lists of their steps.
#[derive(Debug, Drop)]
pub struct Lanes {
    alloc: Global,
    items: Vec<Steps>,
}

impl Model for Lanes {
    ghost use Rattle.std.specs.Prelude.{List};
    ghost use Rattle.script_text.specs.declared.script.Step.{Step};

    ghost Value = { List (List Step) };

    ghost view = { λ l. l.items.items };
}

impl Steps {
    /// No steps. It takes memory only when steps are added.
    pub fn new(alloc: Global) -> Steps
        ensures { result ≡ [] }
    {
        Steps {
            items: Vec::new(alloc),
        }
    }

    /// Adds a step at the end.
    pub fn push(&mut self, step: Step) -> Result<(), NoMemory>
        ensures ok { OnOk result (self.new ≡ self.old ++ step ∷ []) }
        ensures err { OnErr result (self.new ≡ self.old) }
    {
        self.items.push(step)?;
        Ok(())
    }

    /// The steps as a slice.
    pub fn as_slice(&self) -> &[Step]
        ensures { result.now ≡ self.now }
    {
        self.items.as_slice()
    }
}

impl Lanes {
    /// No lanes. It takes memory only when lanes are added.
    pub fn new(alloc: Global) -> Lanes
        ensures { result ≡ [] }
    {
        Lanes {
            alloc,
            items: Vec::new(alloc),
        }
    }

    /// Adds a lane at the end.
    pub fn push(&mut self, lane: Steps) -> Result<(), NoMemory>
        ensures ok { OnOk result (self.new ≡ self.old ++ lane ∷ []) }
        ensures err { OnErr result (self.new ≡ self.old) }
    {
        self.items.push(lane)?;
        Ok(())
    }

    /// The lanes as a slice.
    pub fn as_slice(&self) -> &[Steps]
        ensures { result.now ≡ self.now }
    {
        self.items.as_slice()
    }

    /// Adds what a line is: a lane, or a step of the last lane.
    pub(crate) fn add(&mut self, row: Row) -> Result<(), NoMemory>
        ensures ok { OnOk result (self.new ≡ with_row self.old row) }
        ensures err { OnErr result (self.new ≡ self.old) }
    {
        match row {
            Row::Skip => Ok(()),
            Row::Lane => self.push(Steps::new(self.alloc)),
            Row::Step(step) => self.push_step(step),
        }
    }

    // Adds a step to the last lane, where there is one.
    fn push_step(&mut self, step: Step) -> Result<(), NoMemory>
        ensures ok { OnOk result (self.new ≡ onto_last step self.old) }
        ensures err { OnErr result (self.new ≡ self.old) }
    {
        let Some(lane) = self.items.last_mut() else {
            return Ok(());
        };
        lane.push(step)
    }

    /// How many lanes there are.
    pub fn len(&self) -> usize
        ensures { result ≡ length self.now }
    {
        self.items.len()
    }
}
