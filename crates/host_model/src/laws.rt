//! Laws of the definitions: of what a host knows and notes after any journal. The functions do nothing; their contracts are
//! the laws.

ghost use Rattle.std.specs.Prelude.{◌≡◌, ◌≤◌, ◌<◌, ◌^◌, ℕ, [], ◌++◌, count_by, drop, length};
ghost use Rattle.ms_base.specs.declared.keys.CallKey.{CallKey};
ghost use Rattle.ms_base.specs.declared.keys.Serial.{Serial};
ghost use Rattle.ms_base.specs.declared.keys.WorkerKey.{WorkerKey};
ghost use Rattle.host_requests.specs.Requests.{is_on, is_start_of};
ghost use Rattle.host_model.specs.Fit.{BuildsFit, HasDrawn, IsFit};
ghost use Rattle.host_model.specs.Laws.{AreOnOpen, AreTextsFrom, EachClosesOnce, EachWaitsOrSettled, ids_to, keys_behind, numbers_from, payloads_to, times_entered, times_settled};
ghost use Rattle.host_model.specs.Run.{Journal, notes_of, state_of};
ghost use Rattle.host_model.specs.Sound.{IsSound};
ghost use Rattle.host_model.specs.State.{State, issued, start, waiting};
ghost use Rattle.host_model.specs.Step.{Micro, step};
ghost use Rattle.host_model.specs.Workers.{HaveWorkers};

use object_tree::{falls_are_whole, falls_close_once};
use request_build::{built_objects_are_new, built_requests_draw_few, built_requests_keep_few};

/// What a host knows after any journal fits together: serials are drawn once, objects and those that are to be made have
/// the ids of their serials, and what is kept is within the limit on encodings. A call draws one serial and sixteen SSRCs
/// at most.
pub fn what_a_host_knows_fits()
    ensures fits { (j : Journal) → j.seed < 2 ^ 60 → IsFit (state_of j) }
    ensures drawn { (j : Journal) → j.seed < 2 ^ 60 → HasDrawn j.seed (state_of j) }
    ensures fits_on { (s : State) (m : Micro) → IsFit s → IsFit (step s m) }
    ensures drawn_on { (seed : ℕ) (s : State) (m : Micro) → IsFit s → HasDrawn seed s → HasDrawn seed (step s m) }
{
    built_fits();
}

/// What the code of a step needs of a host holds at the start, and before and after each micro step. In such a host no more
/// than one request waits for the reply of an id on a channel, or for the start of a Worker.
pub fn hosts_are_sound()
    ensures start { (seed : ℕ) → seed < 2 ^ 60 → IsSound seed (start seed) }
    ensures after { (j : Journal) → j.seed < 2 ^ 60 → IsSound j.seed (state_of j) }
    ensures step { (seed : ℕ) (s : State) (m : Micro) → IsSound seed s → IsSound seed (step s m) }
    ensures alone { (seed : ℕ) (s : State) (worker : WorkerKey) (id : ℕ) → IsSound seed s → count_by (is_on worker id) (waiting s.requests) ≤ 1 }
    ensures one_start { (seed : ℕ) (s : State) (worker : Serial) → IsSound seed s → count_by (is_start_of worker) (waiting s.requests) ≤ 1 }
{
    built_fits();
}

/// Each slot has its latest Worker in the tree, which stands on nothing, and no object has a far end. So no link leads to a
/// Worker.
pub fn slots_have_workers()
    ensures start { (seed : ℕ) → HaveWorkers (start seed) }
    ensures step { (s : State) (m : Micro) → HaveWorkers s → HaveWorkers (step s m) }
{
    built_fits();
    built_objects_are_new();
}

/// A micro step takes back no note.
pub fn notes_stand()
    ensures { (s : State) (m : Micro) → (step s m).notes ≡ s.notes ++ drop (length s.notes) (step s m).notes }
{}

/// The ids that go to a channel are 1, 2, 3 and so on, in order: those of its requests, of each of which one payload was
/// sent, the text of a request with that id.
pub fn ids_are_numbered()
    ensures requests { (j : Journal) (worker : WorkerKey) → ids_to worker (state_of j).requests ≡ numbers_from 1 (length (ids_to worker (state_of j).requests)) }
    ensures sent { (j : Journal) (worker : WorkerKey) → AreTextsFrom 1 (payloads_to worker (notes_of j)) }
    ensures each { (j : Journal) (worker : WorkerKey) → length (payloads_to worker (notes_of j)) ≡ issued (state_of j).requests worker }
{}

/// Each call and each await of a journal is entered, once, under the key of its lane and place, and has settled once, or
/// waits for the settlement of one request, or waits as an await; and for no more than one of these.
pub fn calls_settle_once()
    ensures entered { (j : Journal) → (state_of j).calls ≡ keys_behind [] j.entries }
    ensures once { (j : Journal) (key : CallKey) → times_entered key (state_of j).calls ≤ 1 }
    ensures waits { (j : Journal) → EachWaitsOrSettled (state_of j) }
    ensures settled { (j : Journal) (key : CallKey) → times_settled key (notes_of j) ≤ 1 }
{
    built_fits();
}

/// A serial has one `closed` note where its object is closed, and none otherwise; and what an open object stands on is open.
pub fn objects_close_once()
    ensures once { (j : Journal) → EachClosesOnce (state_of j) }
    ensures on_open { (j : Journal) → AreOnOpen (state_of j).objects }
{
    built_fits();
    falls_are_whole();
    falls_close_once();
}

// What is built draws and keeps little.
pub(crate) fn built_fits()
    ensures { BuildsFit }
{
    built_requests_draw_few();
    built_requests_keep_few();
}
