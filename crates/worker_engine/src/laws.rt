//! What holds of any list of events. The functions do nothing: their contracts are the laws.

ghost use Rattle.worker_engine.specs.Laws.{AfterGoesOn, ConsumersEmitTheirStretches, EmitsAreOfTheCalls, FlagsAreTheObjects, NewConsumersBegin, OutGoesOn, OutIsTheEmissions, StreamsAreOfTheCalls};

/// A run goes on from the state that the events before it left.
pub fn a_run_goes_on()
    ensures outs { OutGoesOn }
    ensures state { AfterGoesOn }
{}

/// What a Consumer emits over events through which it stays is what its streams send by the calls that the events are to
/// it: its flags are set as its transport and its Producer have them, and it is offered what its Producer receives.
/// Behind the events its streams are those behind these calls.
pub fn emits_are_of_the_calls()
    ensures emits { EmitsAreOfTheCalls }
    ensures streams { StreamsAreOfTheCalls }
{}

/// By an event there goes out what is told of it, and then what each Consumer of the Producer that receives a packet
/// emits, in order of making.
pub fn out_is_the_emissions()
    ensures { OutIsTheEmissions }
{}

/// A Consumer is made by a request for it alone, and begins with the request's parameters: its streams have emitted nothing.
pub fn new_consumers_begin()
    ensures { NewConsumersBegin }
{}

/// Behind any events a Consumer's flags are those of its transport and of its Producer: connected where the transport is,
/// and its Producer's pause where the Producer is paused.
pub fn flags_are_the_objects()
    ensures { FlagsAreTheObjects }
{}

/// From the event that made it on, a Consumer emits what is defined over the whole list of its calls: the packets of its
/// stretches, of which one begins wherever it becomes active, rewritten and numbered over all of them.
pub fn consumers_emit_their_stretches()
    ensures { ConsumersEmitTheirStretches }
{
    pipe_consumer::emissions_are_of_the_whole_list();
}
