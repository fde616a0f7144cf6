ghost use Rattle.std.specs.Prelude.{◌≡◌, IfOk, IfSome, IsSomeAnd, IsTrue, OnOk};
ghost use Rattle.host_notes.specs.Sent.{IsShort};
ghost use Rattle.object_tree.specs.declared.object.Mark.TheVariants as marks;
ghost use Rattle.object_tree.specs.Objects.{is_open, marked, numbered, with_mark};
ghost use Rattle.host_model.specs.Changes.{is_quiet, turn_notes, turned};
ghost use Rattle.host_tables.specs.Kept.{Moves, ShowsTheSame, noted_by};

use crate::tables::Tables;
use ms_base::{Kind, NoMemory, Serial};
use object_tree::{Mark, Object};
use std::alloc::Global;
use transcript::Note;

impl Tables {
    /// The open object of a serial is paused or resumed, or its Producer is. It is noted where the object gets quiet or stops
    /// being so.
    pub fn turn(&mut self, serial: Serial, mark: Mark) -> Result<(), NoMemory>
        ensures ok { OnOk result (Moves (turned serial mark) self.old self.new) }
        ensures shown { ShowsTheSame self.old self.new }
    {
        let Some(object) = self.tree.get(serial) else {
            return Ok(());
        };
        if object.closed.is_some() {
            return Ok(());
        }
        let note = turn_note(self.alloc, object, mark)?;
        self.tree.mark(serial, mark);
        match note {
            Some(note) => self.note(note),
            None => Ok(()),
        }
    }

    /// The process of an open Worker is running.
    pub fn mark_running(&mut self, worker: Serial)
        requires { IsSomeAnd (numbered self.old.tree worker) (λ o. IsTrue (is_open o)) }
        ensures ok { Moves (λ s. record s { objects = with_mark worker marks.Running s.objects }) self.old self.new }
        ensures shown { ShowsTheSame self.old self.new }
    {
        self.tree.mark(worker, Mark::Running);
    }
}

// What is noted where a mark changes whether an object is quiet.
fn turn_note(alloc: Global, object: &Object, mark: Mark) -> Result<Option<Note>, NoMemory>
    ensures noted { IfOk result (λ note. noted_by note ≡ turn_notes object.now (marked mark object.now)) }
    ensures short { IfOk result (λ note. IfSome note (λ n. IsShort n)) }
{
    let after = is_quiet_after(object, mark);
    if is_quiet_with(object, object.paused, object.producer_paused) == after {
        return Ok(None);
    }
    let name = object.name.copy(alloc)?;
    if after {
        Ok(Some(Note::Paused { name }))
    } else {
        Ok(Some(Note::Resumed { name }))
    }
}

// Whether an object is quiet once a mark has changed it.
fn is_quiet_after(object: &Object, mark: Mark) -> bool
    ensures { result ≡ is_quiet (marked mark object.now) }
{
    match mark {
        Mark::Paused(paused) => is_quiet_with(object, paused, object.producer_paused),
        Mark::ProducerPaused(paused) => is_quiet_with(object, object.paused, paused),
        Mark::Running | Mark::Far(_) => {
            is_quiet_with(object, object.paused, object.producer_paused)
        }
    }
}

// Whether an object with these flags is quiet: paused, or a Consumer whose Producer is paused.
fn is_quiet_with(object: &Object, paused: bool, producer_paused: bool) -> bool
    ensures { result ≡ is_quiet (record object.now { paused = paused; producer_paused = producer_paused }) }
{
    paused || object.kind == Kind::Consumer && producer_paused
}
