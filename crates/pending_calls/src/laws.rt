//! Laws of the definitions, which the functions of this crate are stated by.

ghost use Rattle.std.specs.Prelude.{◌≡◌, ◌≢◌, ℕ, List, Some, None, false};
ghost use Rattle.pending_calls.specs.Pending.{none_under, waiting_as, without, is_under};
ghost use Rattle.ms_base.specs.declared.keys.Serial.{Serial};
ghost use Rattle.pending_calls.specs.declared.waiting.Waiting.{Waiting};

/// A request settles at most once: none of its id is pending any more once it has settled, and none that was issued
/// under an object is once that object has fallen.
pub fn requests_settle_once()
    ensures settled { (waiting : List Waiting) (id : ℕ) → waiting_as (without id waiting) id ≡ None }
    ensures fallen { (waiting : List Waiting) (objects : List Serial) (id : ℕ) (w : Waiting) → waiting_as (none_under objects waiting) id ≡ Some w → is_under objects w ≡ false }
{}

/// The settlement of one request leaves each other one.
pub fn requests_are_settled_apart()
    ensures { (waiting : List Waiting) (id other : ℕ) → other ≢ id → waiting_as (without id waiting) other ≡ waiting_as waiting other }
{}
