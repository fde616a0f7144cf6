//! What holds of any list of calls.

ghost use Rattle.pipe_consumer.specs.Laws.{EmissionsAreOfTheWholeList, EachStreamEmitsByItself, OthersEmitNothing, EachPassGoesOn, OthersArePassedOver};
ghost use Rattle.pipe_consumer.specs.Lower.{StreamLaws};

/// For any list of `set_flags` and `pass` calls of a new Consumer, what its `pass` calls write, in order, is what the whole list
/// defines: by each `pass` what the simple Consumer of its mapped SSRC emits by it.
pub fn emissions_are_of_the_whole_list()
    ensures { EmissionsAreOfTheWholeList }
{
    stream_laws();
}

/// For any list of `set_flags` and `pass` calls of a new Consumer, what its `pass` calls write for a mapped SSRC is what a
/// simple Consumer of this SSRC, with the encoding at the same place, emits by these calls: its packets are numbered by
/// themselves. For any other SSRC nothing is written.
pub fn each_stream_emits_by_itself()
    ensures streams { EachStreamEmitsByItself }
    ensures others { OthersEmitNothing }
{
    stream_laws();
}

/// What one further `pass` writes is what the simple Consumer of its mapped SSRC emits beyond what it emitted by the calls before,
/// and nothing where the SSRC is none of the Consumer's.
pub fn each_pass_goes_on()
    ensures streams { EachPassGoesOn }
    ensures others { OthersArePassedOver }
{
    stream_laws();
}

// What the crate below promises.
fn stream_laws()
    ensures { StreamLaws }
{
    simple_consumer::emissions_are_of_the_whole_list();
    simple_consumer::each_pass_goes_on();
}
