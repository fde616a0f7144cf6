ghost use Rattle.keyframes.specs.Laws.{Vp8ReadingIsTheGrammar, Vp9ReadingIsTheGrammar};

/// The test of a VP8 payload that computes is true of exactly the payloads that begin with a descriptor
/// in the grammar, spelled from its fields, and start a key frame.
pub fn vp8_reading_is_the_grammar()
    ensures { Vp8ReadingIsTheGrammar }
{}

/// The same for VP9.
pub fn vp9_reading_is_the_grammar()
    ensures { Vp9ReadingIsTheGrammar }
{}
