//! Laws of requests over a whole journal: each settles at most once. The functions do nothing; their contracts are the laws.

ghost use Rattle.std.specs.Prelude.{◌≡◌, ◌≤◌, ◌+◌, ℕ, List, count_by, false};
ghost use Rattle.ms_base.specs.declared.keys.Serial.{Serial};
ghost use Rattle.ms_base.specs.declared.keys.WorkerKey.{WorkerKey};
ghost use Rattle.host_requests.specs.Requests.{is_on, is_start_of};
ghost use Rattle.host_model.specs.Drawn.{is_between};
ghost use Rattle.host_model.specs.Fit.{one_if};
ghost use Rattle.host_model.specs.Laws.{AreNumbered};
ghost use Rattle.host_model.specs.Run.{Journal, state_of};
ghost use Rattle.host_model.specs.Settled.{SettledOrWaits, Stay, times_issued, times_settling, waits};
ghost use Rattle.host_model.specs.Sound.{IsSound};
ghost use Rattle.host_model.specs.State.{State, issued};
ghost use Rattle.host_model.specs.Step.{Micro, step, steps};

use crate::laws::built_fits;

/// A request settles at most once. Each that was issued on a channel has an id of its own, from 1 to the last of that channel, and
/// has settled in one micro step of the journal, or still waits. The call of a Worker is a request too, which waits for the start
/// of that Worker: there is one at most for each, and it has settled in one micro step, or still waits.
pub fn requests_settle_once()
    ensures replies { (j : Journal) (worker : WorkerKey) (id : ℕ) → SettledOrWaits (is_on worker id) j }
    ensures one_reply { (j : Journal) (worker : WorkerKey) (id : ℕ) → times_issued (is_on worker id) (state_of j).requests ≡ one_if (is_between 1 (issued (state_of j).requests worker + 1) id) }
    ensures starts { (j : Journal) (worker : Serial) → SettledOrWaits (is_start_of worker) j }
    ensures one_start { (j : Journal) (worker : Serial) → times_issued (is_start_of worker) (state_of j).requests ≤ 1 }
    ensures once { (j : Journal) (worker : WorkerKey) (id : ℕ) → times_settling (is_on worker id) j ≤ 1 }
    ensures starts_once { (j : Journal) (worker : Serial) → times_settling (is_start_of worker) j ≤ 1 }
{
    built_fits();
}

/// Settled requests stay settled. Nothing is taken out of the requests, and the last id of a channel never falls. A request whose id
/// is at most the last one and that doesn't wait any more, doesn't wait after any further micro steps; nor does one for a start.
pub fn settled_requests_stay_settled()
    ensures stay { (s : State) (m : Micro) → Stay s.requests (step s m).requests }
    ensures last { (s : State) (ms : List Micro) (worker : WorkerKey) → issued s.requests worker ≤ issued (steps s ms).requests worker }
    ensures replies { (s : State) (ms : List Micro) (worker : WorkerKey) (id : ℕ) → AreNumbered s.requests → id ≤ issued s.requests worker → waits (is_on worker id) s ≡ false → waits (is_on worker id) (steps s ms) ≡ false }
    ensures starts { (seed : ℕ) (s : State) (ms : List Micro) (worker : Serial) → IsSound seed s → times_issued (is_start_of worker) s.requests ≡ 1 → waits (is_start_of worker) s ≡ false → waits (is_start_of worker) (steps s ms) ≡ false }
{
    built_fits();
}
