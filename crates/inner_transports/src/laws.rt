//! What holds of any list of calls.

ghost use Rattle.inner_transports.specs.Laws.{TupleIsTheFirst, TupleStays, TakesItsTupleAlone};

use plain_transport::{a_tuple_stays, the_tuple_is_the_first};

/// The tuple of a pipe's end is the first that it is told.
pub fn a_pipe_takes_the_first_tuple()
    ensures { TupleIsTheFirst }
{
    the_tuple_is_the_first();
}

/// A tuple that is set stays, whatever is called, and from then on packets of this tuple alone are taken.
pub fn a_pipe_stays()
    ensures stays { TupleStays }
    ensures alone { TakesItsTupleAlone }
{
    the_tuple_is_the_first();
    a_tuple_stays();
}
