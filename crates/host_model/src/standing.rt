//! Laws of what stands after any journal. The functions do nothing; their contracts are the laws.

ghost use Rattle.std.specs.Prelude.{◌≡◌, true, is_some, Err, IfSome};
ghost use Rattle.ms_base.specs.declared.keys.Serial.{Serial};
ghost use Rattle.ms_base.specs.declared.op.Op.{Op};
ghost use Rattle.ms_base.specs.declared.outcome.Outcome.TheVariants as outcome;
ghost use Rattle.object_tree.specs.Objects.{numbered};
ghost use Rattle.request_build.specs.Built.{built};
ghost use Rattle.request_build.specs.Columns.{found, is_barred};
ghost use Rattle.request_build.specs.declared.built.BuildFault.TheVariants as fault;
ghost use Rattle.host_model.specs.Answer.{known};
ghost use Rattle.host_model.specs.Fit.{one_if};
ghost use Rattle.host_model.specs.Held.{KeptOfOpen};
ghost use Rattle.host_model.specs.Run.{Journal, notes_of, state_of};
ghost use Rattle.host_model.specs.Standing.{AreInOpenWorkers, EachOpensOnce, RunningHaveChannels, SlotsEndWithWorkers, StandByKind, WaitUnderOpen, times_opened};

use crate::laws::{built_fits, objects_close_once};
use object_tree::{falls_are_whole, falls_close_once};
use request_build::{
    built_objects_are_new, built_requests_keep_by_kind, built_requests_keep_what_they_draw,
};

/// Each request without a settlement was issued under an object that is in the tree and open.
pub fn requests_wait_under_open_objects()
    ensures { (j : Journal) → WaitUnderOpen (state_of j) }
{
    built_fits();
    falls_are_whole();
    falls_close_once();
}

/// A serial has one `open` note where an object of it is in the tree, with the serial, kind, name and id of that object, and
/// none otherwise.
pub fn objects_open_once()
    ensures notes { (j : Journal) → EachOpensOnce (notes_of j) (state_of j).objects }
    ensures once { (j : Journal) (serial : Serial) → times_opened serial.0 (notes_of j) ≡ one_if (is_some (numbered (state_of j).objects serial)) }
{
    built_fits();
}

/// An open Worker that runs has a channel: its slot is up.
pub fn running_workers_are_up()
    ensures { (j : Journal) → RunningHaveChannels (state_of j) }
{
    built_objects_are_new();
}

/// What is kept is of the open objects, and of each of them: of each open Router, Producer, Consumer and end of a pipe what
/// belongs to its kind, and nothing of any other object.
pub fn open_objects_are_kept()
    ensures { (j : Journal) → KeptOfOpen (state_of j) }
{
    built_fits();
    built_objects_are_new();
    built_requests_keep_what_they_draw();
    built_requests_keep_by_kind();
}

/// A slot is over exactly where its latest Worker is closed.
pub fn slots_end_with_their_workers()
    ensures { (j : Journal) → SlotsEndWithWorkers (state_of j) }
{
    built_fits();
    built_objects_are_new();
    built_requests_keep_what_they_draw();
    built_requests_keep_by_kind();
}

/// The Worker that an open object is in is in the tree, and open.
pub fn open_objects_are_in_open_workers()
    ensures { (j : Journal) → AreInOpenWorkers (state_of j) }
{
    built_fits();
    built_objects_are_new();
    objects_close_once();
}

/// A Router stands on a Worker of the tree, a transport on a Router, a Producer and a Consumer on a transport, and a Worker on
/// nothing. The Producer of a Consumer is in the tree.
pub fn objects_stand_by_kind()
    ensures { (j : Journal) → StandByKind (state_of j).objects }
{}

/// Besides the objects that it names a call finds all that it reads: what they stand on, what is kept of them, the Producer of a
/// Consumer. So it is refused as invalid state only where the host was stopped, or where one of these objects is in no state for it.
pub fn calls_find_what_they_need()
    ensures { (j : Journal) (op : Op) → built (known (state_of j)) op ≡ Err (fault.Refused outcome.InvalidState) → IfSome (found (known (state_of j)) op) (λ call. is_barred (known (state_of j)) call ≡ true) }
{
    built_fits();
    objects_close_once();
    objects_stand_by_kind();
    open_objects_are_kept();
}
