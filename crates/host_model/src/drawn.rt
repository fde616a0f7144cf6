//! Laws of what is drawn: each serial and each SSRC is given out once in a run. The functions do nothing; their contracts are
//! the laws.

ghost use Rattle.std.specs.Prelude.{◌≡◌, ◌≤◌, ◌+◌, ◌*◌, ℕ, count_by, length};
ghost use Rattle.std.specs.List.{AllByRecursion};
ghost use Rattle.host_model.specs.Drawn.{EachGivenOnce, IsAskedFor, draws_ssrc, is_between};
ghost use Rattle.host_model.specs.Fit.{IsFit, one_if};
ghost use Rattle.host_model.specs.Held.{AreAskedInARow, EachHeldOnce};
ghost use Rattle.host_model.specs.Run.{Journal, state_of, trace};
ghost use Rattle.host_model.specs.State.{State, first_ssrc};
ghost use Rattle.host_model.specs.Step.{Micro, step};

use crate::laws::built_fits;
use request_build::{
    built_objects_are_new, built_requests_keep_by_kind, built_requests_keep_what_they_draw,
};

/// No serial is given twice over a whole journal: those requests that were ever issued to make an object of it, refused and
/// settled ones too, and the Workers of it, are one at most, and none where it was not drawn. Each object that is no Worker
/// is one that a request was to make. What is drawn next never falls.
pub fn serials_are_drawn_once()
    ensures rise { (s : State) (m : Micro) → IsFit s → s.next.serial ≤ (step s m).next.serial }
    ensures once { (j : Journal) → EachGivenOnce (state_of j) }
    ensures asked { (j : Journal) → AllByRecursion (IsAskedFor (state_of j).requests) (state_of j).objects }
{
    built_fits();
    built_objects_are_new();
}

/// Each SSRC from the first one up to the one that is drawn next was drawn in one micro step of the journal, and no other was
/// drawn at all. What is drawn next never falls, and a micro step draws sixteen at most for each request that it issues, so
/// none where it issues none.
pub fn ssrcs_are_drawn_once()
    ensures rise { (s : State) (m : Micro) → IsFit s → s.next.ssrc ≤ (step s m).next.ssrc }
    ensures few { (s : State) (m : Micro) → IsFit s → (step s m).next.ssrc + 16 * length s.requests ≤ s.next.ssrc + 16 * length (step s m).requests }
    ensures once { (j : Journal) (n : ℕ) → count_by (draws_ssrc n) (trace j) ≡ one_if (is_between first_ssrc (state_of j).next.ssrc n) }
{
    built_fits();
}

/// No SSRC is held by two: those of all that is kept, and of all that requests without a settlement are to make, are different,
/// and each was drawn. The SSRCs that were drawn are those of what requests ever were to make, in order of issue, so each of what
/// is kept was drawn by the request for it.
pub fn ssrcs_are_held_once()
    ensures held { (j : Journal) → EachHeldOnce (state_of j) }
    ensures asked { (j : Journal) → AreAskedInARow (state_of j) }
{
    built_requests_keep_what_they_draw();
    built_requests_keep_by_kind();
}
