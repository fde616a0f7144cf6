//! Laws of a micro step and its parts: what changes the streams, what a response settles, and what a fall closes.

ghost use Rattle.std.specs.Prelude.{◌≡◌, ℕ, List, length, map, take, filter, not, ◌&&◌};
ghost use Rattle.ms_base.specs.declared.keys.Reason.{Reason};
ghost use Rattle.ms_base.specs.declared.keys.Serial.{Serial};
ghost use Rattle.ms_base.specs.declared.keys.WorkerKey.{WorkerKey};
ghost use Rattle.channel_msgs.specs.View.{AnswerView};
ghost use Rattle.object_tree.specs.Falls.{falls, is_among};
ghost use Rattle.object_tree.specs.Objects.{is_open};
ghost use Rattle.host_requests.specs.Requests.{is_on, is_under};
ghost use Rattle.host_model.specs.Falls.{fallen, with_over};
ghost use Rattle.host_model.specs.State.{State, settled_where, waiting};
ghost use Rattle.host_model.specs.Step.{Micro, replied, step};
ghost use Rattle.host_laws.specs.Streams.{streams_behind};

/// Bytes that come are the one thing that changes the streams.
pub fn streams_stand()
    ensures { (s : State) (m : Micro) → (step s m).streams ≡ streams_behind m s.streams }
{}

/// A response settles the request of its own id on its own channel, where that waits, and no other. Nothing is issued.
pub fn responses_settle_their_own()
    ensures requests { (s : State) (worker : WorkerKey) (id : ℕ) (answer : AnswerView) → (replied worker id answer s).requests ≡ settled_where (is_on worker id) s.requests }
    ensures waiting { (s : State) (worker : WorkerKey) (id : ℕ) (answer : AnswerView) → waiting (replied worker id answer s).requests ≡ filter (λ r. not (is_on worker id r)) (waiting s.requests) }
{}

/// A fall closes what falls with its roots, and leaves open what was open else. Of the requests so far it settles those
/// that were issued under what falls, and a slot is over where its Worker falls.
pub fn falls_close_what_falls()
    ensures closed { (roots : List Serial) (why : Reason) (s : State) → map is_open (fallen roots why s).objects ≡ map (λ o. is_open o && not (is_among (falls s.objects roots) o.serial)) s.objects }
    ensures requests { (roots : List Serial) (why : Reason) (s : State) → take (length s.requests) (fallen roots why s).requests ≡ settled_where (is_under (falls s.objects roots)) s.requests }
    ensures slots { (roots : List Serial) (why : Reason) (s : State) → (fallen roots why s).slots ≡ with_over (falls s.objects roots) why s.slots }
{}
