ghost use Rattle.std.specs.Prelude.{◌≡◌, map, OnOk};
ghost use Rattle.host_model.specs.Step.{settle_awaits, settled_note};
ghost use Rattle.host_tables.specs.Kept.{Hears, Moves, ShowsTheSame};

use crate::tables::Tables;
use host_awaits::{Standing, touching_leaves_the_awaits, untouched_awaits_have_no_outcome};
use ms_base::{CallKey, Name, NoMemory, Outcome};
use object_tree::Tree;
use request_build::Names;
use transcript::Note;

/// How the names of a host stand.
#[derive(Drop)]
struct HostNames<'t> {
    tree: &'t Tree,
    /// Those that pending requests are to make.
    being_made: &'t Names,
    /// Those that calls were to make which came to another outcome than Done.
    failed: &'t Names,
}

impl<'t> Standing for HostNames<'t> {
    ghost use Rattle.host_tables.specs.Kept.{is_lost};

    ghost hopeless = { λ n name. is_lost n.tree.now n.being_made.now n.failed.now name };

    fn is_hopeless(&self, name: &Name) -> bool {
        match self.tree.by_name(name) {
            Some(object) => object.closed.is_some(),
            None => !self.being_made.has(name) && self.failed.has(name),
        }
    }
}

impl Tables {
    /// The awaits settle that are done or can't be done any more.
    pub fn settle_awaits(&mut self) -> Result<(), NoMemory>
        ensures ok { OnOk result (Moves settle_awaits self.old self.new) }
        ensures shown { ShowsTheSame self.old self.new }
    {
        // Laws: awaits that have been looked at have no outcome, and are as they were.
        untouched_awaits_have_no_outcome();
        touching_leaves_the_awaits();
        let names = HostNames {
            tree: &self.tree,
            being_made: &self.kept.names,
            failed: &self.failed,
        };
        let settled = self.awaits.settle(&names)?;
        self.note_settled(settled)
    }

    // These awaits have settled: nothing hangs on that.
    fn note_settled(&mut self, settled: Vec<(CallKey, Outcome)>) -> Result<(), NoMemory>
        ensures told { OnOk result (Hears (map settled_note settled.items) self.old self.new) }
        ensures shown { ShowsTheSame self.old self.new }
    {
        for (call, outcome) in settled {
            self.note(Note::Settled { call, outcome })?;
        }
        Ok(())
    }
}
