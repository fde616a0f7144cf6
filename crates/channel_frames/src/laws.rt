//! Laws of the definitions, which the functions of this crate are stated by.

ghost use Rattle.std.specs.Prelude.{◌≡◌, ◌≤◌, ◌+◌, ℕ, List, [], ◌++◌, length, flat_map, true, false};
ghost use Rattle.channel_frames.specs.Calls.{Call, bytes_fed, state_after};
ghost use Rattle.channel_frames.specs.Frames.{frame, frames, rest_of, is_broken, break_place, break_length, begins_with_frame, new_frames};
ghost use Rattle.channel_frames.specs.Reading.{Reading, max_place, unstarted, with_piece, left_of, drained};
ghost use Rattle.channel_frames.specs.Laws.{FramesAreTheMost, FramesSplitTheStream, FramesAreTheOnlySplit, WrittenFramesReadBack, StaysBroken, BreakIsTheLastAnswer, HandsOut, NoneIsTheEnd, BreakIsOfTheStream, CutsDontMatter};

/// The frames of a stream are the greatest number of frames, with payloads within the limit, that follow one another
/// from its start. With the rest behind them they are the one way to split it into frames and a rest that begins
/// with no whole frame.
pub fn frames_are_the_longest_split()
    ensures most { FramesAreTheMost }
    ensures split { FramesSplitTheStream }
    ensures only { FramesAreTheOnlySplit }
{}

/// Where a stream is cut into pieces has no part in what its frames, its rest and its break are: those of the
/// whole are those of the part that came first, and then those of the rest behind them with the part that came later.
pub fn frames_of_a_cut_stream()
    ensures payloads { (first later : List ℕ) → frames (first ++ later) ≡ frames first ++ frames (rest_of first ++ later) }
    ensures rest { (first later : List ℕ) → rest_of (first ++ later) ≡ rest_of (rest_of first ++ later) }
    ensures broken { (first later : List ℕ) → is_broken (first ++ later) ≡ is_broken (rest_of first ++ later) }
    ensures place { (first later : List ℕ) → break_place (first ++ later) ≡ break_place first + break_place (rest_of first ++ later) }
    ensures told { (first later : List ℕ) → break_length (first ++ later) ≡ break_length (rest_of first ++ later) }
    ensures fresh { (first later : List ℕ) → new_frames first later ≡ frames (rest_of first ++ later) }
{}

/// What a stream has beyond what it had takes of the bytes that came a byte for each payload, or more.
pub fn new_frames_take_a_byte_each()
    ensures { (stream bytes : List ℕ) → length (new_frames stream bytes) ≤ length bytes }
{}

/// The rest of a stream begins with no whole frame, and is its own rest. So is each stream without frames.
pub fn frames_of_a_rest()
    ensures begins { (stream : List ℕ) → begins_with_frame (rest_of stream) ≡ false }
    ensures payloads { (stream : List ℕ) → frames (rest_of stream) ≡ [] }
    ensures rest { (stream : List ℕ) → rest_of (rest_of stream) ≡ rest_of stream }
    ensures length { (stream : List ℕ) → length (flat_map frame (frames stream)) + length (rest_of stream) ≡ length stream }
    ensures no_frames { (stream : List ℕ) → frames stream ≡ [] → (begins_with_frame stream ≡ false) × (rest_of stream ≡ stream) }
    ensures no_frame { (stream : List ℕ) → begins_with_frame stream ≡ false → (frames stream ≡ []) × (rest_of stream ≡ stream) }
    ensures empty { (frames [] ≡ []) × (rest_of [] ≡ []) }
{}

/// The frames of payloads within the limit are read as these payloads, whatever stands behind them.
pub fn written_frames_read_back()
    ensures { WrittenFramesReadBack }
{}

/// What comes behind a broken stream changes neither its frames nor its break, and a reader that answers a break
/// answers it from then on.
pub fn broken_streams_stay_broken()
    ensures stream { (stream later : List ℕ) → is_broken stream ≡ true → StaysBroken stream later }
    ensures answer { BreakIsTheLastAnswer }
{}

/// What is left once all payloads were handed out: it depends on the stream alone, it is found by handing out, and
/// the stream goes on from it.
pub fn readings_go_on_from_what_is_left()
    ensures whole { (calls : List Call) → drained (state_after unstarted calls) ≡ drained (with_piece unstarted (bytes_fed calls)) }
    ensures next { (r : Reading) → drained (left_of r) ≡ drained r }
    ensures end { (r : Reading) → r.place ≤ max_place → frames r.unread ≡ [] → drained r ≡ r }
    ensures piece { (r : Reading) (piece : List ℕ) → drained (with_piece (drained r) piece) ≡ drained (with_piece r piece) }
{}

/// For any list of calls of a new reader, pieces fed and payloads asked for in any order: what is handed out are the
/// first frames of all bytes that were fed, all of them where None or a break is answered, and the break is that
/// of all these bytes.
pub fn handed_out_are_the_frames_of_all_bytes()
    ensures first { (calls : List Call) → HandsOut calls }
    ensures none { NoneIsTheEnd }
    ensures too_long { BreakIsOfTheStream }
    ensures cuts { CutsDontMatter }
{}
