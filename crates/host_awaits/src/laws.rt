//! What holds of awaits from call to call.

ghost use Rattle.std.specs.Prelude.{◌≡◌, ◌+◌, ℕ, List, [], ◌∷◌, ◌++◌, map, Bool, false, if◌then◌else◌};
ghost use Rattle.std.specs.List.{AllByRecursion};
ghost use Rattle.std.specs.Str.{bytes_eq};
ghost use Rattle.ms_base.specs.declared.keys.Event.{Event};
ghost use Rattle.transcript.specs.declared.note.Note.{Note};
ghost use Rattle.host_awaits.specs.Awaits.{counts, tells_of, times_noted, waiting_by};
ghost use Rattle.host_awaits.specs.Watching.{HasNoneYet, Watched, just_entered, looked_at, touched_by};
ghost use Rattle.host_awaits.specs.declared.entered.Await.{Await};

/// Those that have been looked at, or of whose names nothing has changed, have no outcome: behind settling, behind a
/// note, behind an await more, and behind a change of how one name stands, where its awaits are touched.
pub fn untouched_awaits_have_no_outcome()
    ensures settled { (times : List ℕ → Event → ℕ) (hopeless : List ℕ → Bool) (awaits : List Await) → AllByRecursion (HasNoneYet times hopeless) (map looked_at (waiting_by times hopeless awaits)) }
    ensures heard { (times after : List ℕ → Event → ℕ) (hopeless : List ℕ → Bool) (note : Note) (waiting : List Watched) → ((name : List ℕ) (event : Event) → after name event ≡ (if counts name event note then times name event + 1 else times name event)) → AllByRecursion (HasNoneYet times hopeless) waiting → AllByRecursion (HasNoneYet after hopeless) (map (touched_by (λ name. tells_of name note)) waiting) }
    ensures entered { (times : List ℕ → Event → ℕ) (hopeless : List ℕ → Bool) (awaited : Await) (waiting : List Watched) → AllByRecursion (HasNoneYet times hopeless) waiting → AllByRecursion (HasNoneYet times hopeless) (waiting ++ just_entered awaited ∷ []) }
    ensures changed { (times : List ℕ → Event → ℕ) (hopeless after : List ℕ → Bool) (name : List ℕ) (waiting : List Watched) → ((other : List ℕ) → bytes_eq name other ≡ false → after other ≡ hopeless other) → AllByRecursion (HasNoneYet times hopeless) waiting → AllByRecursion (HasNoneYet times after) (map (touched_by (bytes_eq name)) waiting) }
{}

/// Touching leaves the awaits as they are, and so does looking at them.
pub fn touching_leaves_the_awaits()
    ensures touched { (is_of : List ℕ → Bool) (waiting : List Watched) → map (λ x. x.awaited) (map (touched_by is_of) waiting) ≡ map (λ x. x.awaited) waiting }
    ensures looked_at { (awaits : List Await) → map (λ x. x.awaited) (map looked_at awaits) ≡ awaits }
{}

/// A note more counts once more for its event and name.
pub fn notes_count_once()
    ensures { (notes : List Note) (note : Note) (name : List ℕ) (event : Event) → times_noted (notes ++ note ∷ []) name event ≡ (if counts name event note then times_noted notes name event + 1 else times_noted notes name event) }
{}
