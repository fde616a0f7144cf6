//! Laws of the definitions, which the functions of this crate are stated by.

ghost use Rattle.rtp_extension.specs.Laws.{ReadingIsTheGrammar, RewrittenIsAPacket, RewrittenElements, RewrittenIsNoLonger};

/// The elements that are read of an extension's words are those that the grammar of its form spells, up to
/// where the list of elements ends.
pub fn reading_is_the_grammar()
    ensures { ReadingIsTheGrammar }
{}

/// A packet with new ids is a packet.
pub fn rewritten_is_a_packet()
    ensures { RewrittenIsAPacket }
{}

/// Its elements are those that are kept, under their new ids, in order.
pub fn rewritten_elements()
    ensures { RewrittenElements }
{}

/// It is never longer.
pub fn rewritten_is_no_longer()
    ensures { RewrittenIsNoLonger }
{}
