ghost use Rattle.std.specs.Prelude.{◌≡◌, ℕ, List, ◌∷◌, Some, None, option_map, true, false};
ghost use Rattle.serde_json.specs.Written.{compact_text};
ghost use Rattle.channel_msgs.specs.Json.{request_json};
ghost use Rattle.channel_msgs.specs.Laws.{CanReadMessage, CanReadRequest, HaveTexts, IsBare};
ghost use Rattle.channel_msgs.specs.Packet.{packet_letter};
ghost use Rattle.channel_msgs.specs.Read.{object_of, is_log_letter, message_of, request_of};
ghost use Rattle.channel_msgs.specs.View.{MessageView, RequestView};

/// Each request, reply and notice that a payload reads as is one whose written text reads back. The
/// function does nothing; its contract is the law.
pub fn what_is_read_can_be_written()
    ensures messages { (payload : List ℕ) (m : MessageView) → message_of payload ≡ Some m
        → CanReadMessage m }
    ensures requests { (payload : List ℕ) (r : RequestView) → request_of payload ≡ Some r
        → CanReadRequest r }
{}

/// The compact text of a request without a content reads back: as one with its id, whatever its ids are, and as the
/// request itself where the texts of its ids read back. The function does nothing; its contract is the law.
pub fn written_requests_read_back()
    ensures id { (r : RequestView) → IsBare r → option_map (λ q. q.id) (request_of (compact_text (request_json r))) ≡ Some r.id }
    ensures request { (r : RequestView) → IsBare r → HaveTexts r.ids → request_of (compact_text (request_json r)) ≡ Some r }
{}

/// A payload is of one kind: behind the letter of a packet or of a log line there is no JSON object. The
/// function does nothing; its contract is the law.
pub fn a_payload_is_of_one_kind()
    ensures packet { (rest : List ℕ) → object_of (packet_letter ∷ rest) ≡ None }
    ensures log { (c : ℕ) (rest : List ℕ) → is_log_letter c ≡ true → object_of (c ∷ rest) ≡ None }
    ensures letters { is_log_letter packet_letter ≡ false }
{}
