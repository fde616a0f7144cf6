//! What holds of any list of calls.

ghost use Rattle.simple_consumer.specs.Laws.{EmissionsAreOfTheWholeList, EachPassGoesOn, FlagsEmitNothing, OffersBelongToActivity, SpansBeginWithActivity};
ghost use Rattle.simple_consumer.specs.Lower.{LowerLaws};

use rtp_packet::{fields_by_places, grammar};
use seq_manager::{answers_are_the_numbers_of_the_stretches, calls_go_on_from_the_state};

/// For any list of `set_flags` and `pass` calls of a new Consumer, what its `pass` calls write are the packets that the
/// whole list defines: those of its stretches, with the output numbers of all stretches.
pub fn emissions_are_of_the_whole_list()
    ensures { EmissionsAreOfTheWholeList }
{
    lower_laws();
}

/// What one further call writes is what the whole list has beyond that of the calls before: so a `pass` writes nothing
/// exactly where no rule emits its packet.
pub fn each_pass_goes_on()
    ensures pass { EachPassGoesOn }
    ensures flags { FlagsEmitNothing }
{
    lower_laws();
}

/// The spans of a list of calls are those in which the Consumer is active: an offer belongs to one exactly where it is active
/// behind the calls before it, and a further one begins exactly where it becomes active.
pub fn spans_are_of_activity()
    ensures offers { OffersBelongToActivity }
    ensures begins { SpansBeginWithActivity }
{}

// What the crates below promise.
fn lower_laws()
    ensures { LowerLaws }
{
    grammar();
    fields_by_places();
    answers_are_the_numbers_of_the_stretches();
    calls_go_on_from_the_state();
}
