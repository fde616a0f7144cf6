ghost use Rattle.std.specs.Prelude.{◌≡◌, ◌≤◌, ◌<◌, ◌^◌, ◌*◌, ℕ, List, ◌++◌, Some, length, map, take, drop, flat_map, slice_get};
ghost use Rattle.journal_text.specs.Written.{journal_size};
ghost use Rattle.ms_base.specs.declared.entry.Entry.{Entry};
ghost use Rattle.ms_base.specs.declared.keys.WorkerKey.{WorkerKey};
ghost use Rattle.transcript.specs.Lines.{note_line};
ghost use Rattle.host_laws.specs.Cuts.{in_one, in_two};
ghost use Rattle.host_laws.specs.Drawn.{DrawsWithin};
ghost use Rattle.host_model.specs.Run.{Journal, Moment, after, notes_of, state_of, trace, transcript_of, with_entry};
ghost use Rattle.host_model.specs.Sound.{IsSound};
ghost use Rattle.host_model.specs.State.{start};
ghost use Rattle.host_model.specs.Step.{steps};

use channel_frames::{frames_of_a_cut_stream, new_frames_take_a_byte_each};
use host_model::{calls_settle_once, hosts_are_sound, notes_stand, slots_have_workers};

/// What a host knows is what the micro steps of its journal make of nothing, one after another; its notes are
/// theirs, in order. Before each of them, all holds that the code of a step needs.
pub fn journals_are_their_micro_steps()
    ensures state { (j : Journal) → state_of j ≡ steps (start j.seed) (map (λ t. t.micro) (trace j)) }
    ensures notes { (j : Journal) → notes_of j ≡ flat_map (λ t. t.notes) (trace j) }
    ensures before { (j : Journal) (i : ℕ) (t : Moment) → slice_get (trace j) i ≡ Some t → t.before ≡ steps (start j.seed) (map (λ u. u.micro) (take i (trace j))) }
    ensures sound { (j : Journal) (i : ℕ) (t : Moment) → j.seed < 2 ^ 60 → slice_get (trace j) i ≡ Some t → IsSound j.seed t.before }
{
    notes_stand();
    hosts_are_sound();
}

/// One entry more goes on from what was known, and adds its notes and their lines behind the others.
pub fn journals_go_on()
    ensures state { (j : Journal) (e : Entry) → state_of (with_entry j e) ≡ after (state_of j) e }
    ensures notes { (j : Journal) (e : Entry) → notes_of (with_entry j e) ≡ notes_of j ++ drop (length (notes_of j)) (notes_of (with_entry j e)) }
    ensures lines { (j : Journal) (e : Entry) → transcript_of (with_entry j e) ≡ transcript_of j ++ flat_map note_line (drop (length (notes_of j)) (notes_of (with_entry j e))) }
{
    notes_stand();
}

/// Where the bytes of a channel are cut into chunks has no part in what a host knows and notes.
pub fn cuts_are_not_heard()
    ensures state { (j : Journal) (worker : WorkerKey) (first later : List ℕ) (behind : List Entry) → state_of (in_one j worker first later behind) ≡ state_of (in_two j worker first later behind) }
    ensures lines { (j : Journal) (worker : WorkerKey) (first later : List ℕ) (behind : List Entry) → transcript_of (in_one j worker first later behind) ≡ transcript_of (in_two j worker first later behind) }
{
    frames_of_a_cut_stream();
    slots_have_workers();
}

/// What a journal draws is bounded by the size of its text: each micro step takes a byte of that at least, and each call
/// and await two.
pub fn draws_are_bounded()
    ensures steps { (j : Journal) → length (trace j) ≤ journal_size j.seed j.entries }
    ensures calls { (j : Journal) → 2 * length (state_of j).calls ≤ journal_size j.seed j.entries }
    ensures draws { (j : Journal) → j.seed < 2 ^ 60 → DrawsWithin (journal_size j.seed j.entries) (state_of j) }
{
    new_frames_take_a_byte_each();
    calls_settle_once();
    hosts_are_sound();
}
