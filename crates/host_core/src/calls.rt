//! A lane makes a call.

ghost use Rattle.std.specs.Prelude.{◌≡◌, ◌<◌, ◌∷◌, [], false, option_copied, OnOk};
ghost use Rattle.request_build.specs.Built.{max_slots};
ghost use Rattle.request_build.specs.Columns.{makes};
ghost use Rattle.request_build.specs.Known.{IsDrawn};
ghost use Rattle.object_tree.specs.declared.object.Object.{Object};
ghost use Rattle.host_model.specs.Answer as model;
ghost use Rattle.host_model.specs.Step.{answered, called, closed_if_open, worker_wanted};
ghost use Rattle.host_tables.specs.Kept.{IsNew, Moves, ShowsTheSame, names_in};
ghost use Rattle.host_core.specs.Answers.{IsAnswer, IsDue, IsFree, if_open, slot_of, worker_of};
ghost use Rattle.host_core.specs.Apply.{is_unbuilt_op};
ghost use Rattle.host_core.specs.Tables.{Goes, HasRoom};

use crate::answer::{Course, answer_to};
use crate::fall::fall;
use host_tables::{Phase, Slot, Tables};
use ms_base::{
    CallKey, Id, Kind, Name, NoMemory, Op, Outcome, Reason, Serial, WorkerKey, ids_differ,
};
use object_tree::Object;
use pending_calls::Owner;
use request_build::{Draws, Keep};
use transcript::Note;

/// A lane makes a call.
pub(crate) fn call(tables: &mut Tables, lane: u32, op: &Op) -> Result<(), NoMemory>
    requires room { HasRoom tables.old }
    requires built { is_unbuilt_op op.now ≡ false }
    ensures ok { OnOk result (Goes (called lane op.now) tables.old tables.new) }
    ensures shown { ShowsTheSame tables.old tables.new }
{
    ids_differ();
    let course = answer_to(tables, op)?;
    let call = tables.enter_call(lane)?;
    follow(tables, call, op, course)
}

// What a call has come to is done.
fn follow(tables: &mut Tables, call: CallKey, op: &Op, course: Course) -> Result<(), NoMemory>
    requires built { is_unbuilt_op op.now ≡ false }
    requires drawn { IsDrawn tables.old.next }
    requires due { IsDue tables.old course }
    ensures ok { OnOk result ((a : model.Answer) → IsAnswer op.now course a → IsFree tables.old course → Moves (answered call op.now a) tables.old tables.new) }
    ensures shown { ShowsTheSame tables.old tables.new }
{
    match course {
        Course::Refuses { outcome } => tables.settle_call(call, outcome, made_by(op)),
        Course::AddsWorker { name, budget } => want_worker(tables, call, name, budget),
        Course::Issues {
            channel,
            under,
            due,
            next,
            payload,
        } => {
            tables.issue(channel, Owner::Call(call), under, due, payload)?;
            tables.draw(next);
            Ok(())
        }
        Course::Closes { falls } => {
            close(tables, falls)?;
            tables.settle_call(call, Outcome::Done, None)
        }
        Course::Tells { answer } => tables.settle_call(call, Outcome::Answer(answer), None),
        Course::Sends {
            channel,
            producer,
            packet,
        } => {
            tables.note(Note::SentRtp {
                worker: channel,
                id: producer,
                packet,
            })?;
            tables.settle_call(call, Outcome::Done, None)
        }
    }
}

// The name that a call is to make, where it is one of an object.
fn made_by(op: &Op) -> Option<&Name>
    ensures { is_unbuilt_op op.now ≡ false → names_in (option_copied result) ≡ makes op.now }
{
    match op {
        Op::Worker { name, .. }
        | Op::Router { name, .. }
        | Op::Plain { name, .. }
        | Op::Pipe { name, .. }
        | Op::Direct { name, .. }
        | Op::Produce { name, .. }
        | Op::Consume { name, .. } => Some(name),
        Op::Connect { .. }
        | Op::Pause { .. }
        | Op::Resume { .. }
        | Op::Close { .. }
        | Op::CanConsume { .. }
        | Op::Send { .. }
        | Op::PipeRouter { .. } => None,
    }
}

// An object that is open falls.
fn close(tables: &mut Tables, falls: Option<Serial>) -> Result<(), NoMemory>
    ensures ok { OnOk result ((object : Object) → falls ≡ if_open object → Moves (closed_if_open object) tables.old tables.new) }
    ensures shown { ShowsTheSame tables.old tables.new }
{
    match falls {
        Some(serial) => fall(tables, serial, Reason::Close),
        None => Ok(()),
    }
}

// A Worker stands in the tree from its call on, and its start is wanted.
fn want_worker(tables: &mut Tables, call: CallKey, name: Name, budget: u32) -> Result<(), NoMemory>
    requires drawn { IsDrawn tables.old.next }
    requires slots { tables.old.kept.slots < max_slots }
    ensures ok { OnOk result (IsNew tables.old.tree (worker_of tables.old.next name) → Moves (worker_wanted call name budget) tables.old tables.new) }
    ensures shown { ShowsTheSame tables.old tables.new }
{
    let next = tables.next;
    let worker = Serial(next.serial);
    let slot = new_slot(tables.kept.slots, name.copy(tables.alloc)?, budget, worker);
    let key = slot.key;
    tables.add_slot(slot)?;
    tables.add_start(call, worker)?;
    tables.draw(Draws {
        serial: next.serial + 1,
        ..next
    });
    tables.open(new_worker(next, name), Keep::Nothing)?;
    tables.note(Note::Spawn { worker: key })
}

// The slot of a new Worker, behind so many others.
fn new_slot(before: u32, name: Name, budget: u32, worker: Serial) -> Slot
    requires { before < max_slots }
    ensures { result ≡ slot_of before name budget worker }
{
    Slot {
        key: WorkerKey {
            slot: before + 1,
            generation: 1,
        },
        name,
        budget,
        used: 0,
        phase: Phase::Wanted,
        worker,
    }
}

// The Worker that a call makes, with what is drawn next.
fn new_worker(next: Draws, name: Name) -> Object
    requires { IsDrawn next }
    ensures { result ≡ worker_of next name }
{
    let serial = Serial(next.serial);
    Object {
        serial,
        name,
        id: Id::of(next.seed, next.serial),
        kind: Kind::Worker,
        parent: None,
        worker: serial,
        producer: None,
        closed: None,
        paused: false,
        producer_paused: false,
        running: false,
        far: None,
    }
}
