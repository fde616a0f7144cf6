//! What holds of any list of calls.

ghost use Rattle.plain_transport.specs.Laws.{TupleIsTheFirst, TupleStays, TakesItsTupleAlone};

/// The tuple of a transport is that of the first call that sets one: told without `comedia`, learnt with it.
pub fn the_tuple_is_the_first()
    ensures { TupleIsTheFirst }
{}

/// A tuple that is set stays, whatever is called, and from then on packets of this tuple alone are taken.
pub fn a_tuple_stays()
    ensures stays { TupleStays }
    ensures alone { TakesItsTupleAlone }
{}
