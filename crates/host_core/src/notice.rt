//! A worker tells of itself or of one of its objects.

ghost use Rattle.std.specs.Prelude.{◌≡◌, ◌∷◌, [], false, true, option_copied, option_map, if◌then◌else◌, IfOk, IfSome, IsTrue, OnOk, None, Some, IsSomeAnd};
ghost use Rattle.channel_msgs.specs.View.{notice_view};
ghost use Rattle.ms_base.specs.declared.keys.Kind.TheVariants as kind;
ghost use Rattle.object_tree.specs.Objects.{is_open, is_producer, numbered, open_with_id};
ghost use Rattle.object_tree.specs.declared.object.Mark.TheVariants as marks;
ghost use Rattle.reply_contents.specs.Notices.{told_of};
ghost use Rattle.reply_contents.specs.declared.notice.Told.TheVariants as told;
ghost use Rattle.request_build.specs.Columns.{is_there};
ghost use Rattle.request_build.specs.Known.{above};
ghost use Rattle.transcript.specs.declared.note.Note.TheVariants as note;
ghost use Rattle.host_model.specs.Changes.{noted};
ghost use Rattle.host_model.specs.State.{Slot, up_slot};
ghost use Rattle.host_model.specs.Step.{is_starting, noticed, object_of, packet_told, ran, says_it_runs};
ghost use Rattle.host_tables.specs.Kept.{Moves, ShowsTheSame};
ghost use Rattle.host_core.specs.Tables.{Goes, producer_told, speaker};

use crate::fall::fall;
use channel_msgs::Notice;
use host_model::{Due, hosts_are_sound};
use host_tables::Tables;
use ms_base::{Bytes, Id, Kind, Name, NoMemory, Outcome, Reason, Serial, Tuple, WorkerKey};
use object_tree::{Mark, Object};
use reply_contents::{Told, read_told};
use transcript::Note;

/// A notice has come from a worker that is up, whose Worker this is.
pub(crate) fn hear_notice(
    tables: &mut Tables,
    worker: WorkerKey,
    object: Serial,
    notice: &Notice,
) -> Result<(), NoMemory>
    ensures ok { OnOk result ((x : Slot) → up_slot tables.old.slots.slots worker ≡ Some x → Goes (noticed (speaker x worker object) (told_of (notice_view notice.now))) tables.old tables.new) }
    ensures shown { ShowsTheSame tables.old tables.new }
{
    match read_told(notice) {
        Told::Running => hear_running(tables, worker, object),
        Told::ProducerClosed(id) => hear_close(tables, worker, object, id),
        Told::ProducerPaused(id) => hear_producer(tables, worker, object, id, true),
        Told::ProducerResumed(id) => hear_producer(tables, worker, object, id, false),
        Told::TupleLearnt(id, remote) => hear_tuple(tables, worker, object, id, remote),
        Told::Other => stray(tables, worker),
    }
}

// What was told is of no object, or of no use.
fn stray(tables: &mut Tables, worker: WorkerKey) -> Result<(), NoMemory>
    ensures ok { OnOk result (Moves (noted (note.Stray worker)) tables.old tables.new) }
    ensures shown { ShowsTheSame tables.old tables.new }
{
    tables.note(Note::Stray { worker })
}

// The open object of a worker, a kind and an id.
fn open_of(tables: &Tables, worker: Serial, kind: Kind, id: Id) -> Option<Serial>
    requires { is_producer kind ≡ false }
    ensures { result ≡ option_map (λ o. o.serial) (open_with_id tables.now.tree worker kind id) }
{
    let object = tables.tree.by_id(worker, kind, id)?;
    Some(object.serial)
}

// The Producer of a Consumer has closed.
fn hear_close(
    tables: &mut Tables,
    worker: WorkerKey,
    object: Serial,
    id: Id,
) -> Result<(), NoMemory>
    ensures ok { OnOk result ((x : Slot) → Moves (noticed (speaker x worker object) (told.ProducerClosed id)) tables.old tables.new) }
    ensures shown { ShowsTheSame tables.old tables.new }
{
    match open_of(tables, object, Kind::Consumer, id) {
        Some(serial) => fall(tables, serial, Reason::ProducerClose),
        None => stray(tables, worker),
    }
}

// The Producer of a Consumer was paused or resumed.
fn hear_producer(
    tables: &mut Tables,
    worker: WorkerKey,
    object: Serial,
    id: Id,
    paused: bool,
) -> Result<(), NoMemory>
    ensures ok { OnOk result ((x : Slot) → Moves (producer_told (speaker x worker object) id paused) tables.old tables.new) }
    ensures shown { ShowsTheSame tables.old tables.new }
{
    match open_of(tables, object, Kind::Consumer, id) {
        Some(serial) => tables.turn(serial, Mark::ProducerPaused(paused)),
        None => stray(tables, worker),
    }
}

// A plain transport has learnt where its packets come from.
fn hear_tuple(
    tables: &mut Tables,
    worker: WorkerKey,
    object: Serial,
    id: Id,
    remote: Tuple,
) -> Result<(), NoMemory>
    ensures ok { OnOk result ((x : Slot) → Moves (noticed (speaker x worker object) (told.TupleLearnt id remote)) tables.old tables.new) }
    ensures shown { ShowsTheSame tables.old tables.new }
{
    let Some(transport) = tables.tree.by_id(object, Kind::Plain, id) else {
        return stray(tables, worker);
    };
    let name = transport.name.copy(tables.alloc)?;
    tables.note(Note::Tuple { name, remote })
}

// A worker says that it is running: the first time counts.
fn hear_running(tables: &mut Tables, worker: WorkerKey, object: Serial) -> Result<(), NoMemory>
    ensures ok { OnOk result ((x : Slot) → up_slot tables.old.slots.slots worker ≡ Some x → Goes (says_it_runs (speaker x worker object)) tables.old tables.new) }
    ensures shown { ShowsTheSame tables.old tables.new }
{
    match starting(tables, worker, object)? {
        Some(name) => run(tables, worker, object, name),
        None => stray(tables, worker),
    }
}

// The name of the Workers of a worker that is up, if this one, its latest, is open and isn't running.
fn starting(tables: &Tables, worker: WorkerKey, object: Serial) -> Result<Option<Name>, NoMemory>
    ensures starts { IfOk result (λ found. IfSome found (λ name. is_starting (numbered tables.now.tree object) ≡ true)) }
    ensures name { IfOk result (λ found. (x : Slot) → up_slot tables.now.slots.slots worker ≡ Some x → found ≡ (if is_starting (numbered tables.now.tree object) then Some x.name else None)) }
{
    match tables.slots.up(worker) {
        Some(slot) if is_starting(tables, object) => Ok(Some(slot.name.copy(tables.alloc)?)),
        _ => Ok(None),
    }
}

// Whether an object is open, and isn't running.
fn is_starting(tables: &Tables, serial: Serial) -> bool
    ensures { result ≡ is_starting (numbered tables.now.tree serial) }
{
    match tables.tree.get(serial) {
        Some(object) => object.closed.is_none() && !object.running,
        None => false,
    }
}

// An open Worker of this name is running, and its call settles.
fn run(tables: &mut Tables, worker: WorkerKey, object: Serial, name: Name) -> Result<(), NoMemory>
    requires { IsSomeAnd (numbered tables.old.tree object) (λ o. IsTrue (is_open o)) }
    ensures ok { OnOk result ((x : Slot) → x.name ≡ name → Goes (ran (speaker x worker object)) tables.old tables.new) }
    ensures shown { ShowsTheSame tables.old tables.new }
{
    hosts_are_sound();
    tables.mark_running(object);
    let waiting = tables.take_start(object)?;
    tables.note(Note::Running {
        name,
        generation: worker.generation,
    })?;
    match waiting {
        Some(request) => tables.settle_owner(request.owner, Outcome::Done, &Due::Nothing),
        None => Ok(()),
    }
}

/// A packet has come from a Consumer, which is told of where that is on a direct transport.
pub(crate) fn hear_packet(
    tables: &mut Tables,
    worker: WorkerKey,
    object: Serial,
    id: Id,
    packet: Bytes,
) -> Result<(), NoMemory>
    ensures ok { OnOk result ((x : Slot) → Moves (λ s. packet_told (speaker x worker object) packet (object_of (speaker x worker object) kind.Consumer id s) s) tables.old tables.new) }
    ensures shown { ShowsTheSame tables.old tables.new }
{
    let Some(consumer) = tables.tree.by_id(object, Kind::Consumer, id) else {
        return stray(tables, worker);
    };
    if !is_on_direct(tables, consumer) {
        return stray(tables, worker);
    }
    let name = consumer.name.copy(tables.alloc)?;
    tables.note(Note::Rtp { name, packet })
}

// Whether a Consumer is on a direct transport.
fn is_on_direct(tables: &Tables, consumer: &Object) -> bool
    ensures { result ≡ is_there kind.Direct (above tables.now.tree consumer.now) }
{
    match parent_of(tables, consumer) {
        Some(transport) => transport.kind == Kind::Direct,
        None => false,
    }
}

// The object that another stands on.
fn parent_of<'t>(tables: &'t Tables, object: &Object) -> Option<&'t Object>
    ensures { option_copied result ≡ above tables.now.tree object.now }
{
    tables.tree.get(object.parent?)
}
