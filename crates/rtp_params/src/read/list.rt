ghost use Rattle.std.specs.Prelude.{◌≡◌, [], map, Result, IfOk};
ghost use Rattle.serde_json.specs.Data.{Data};
ghost use Rattle.serde_json.specs.Find.{get_member};
ghost use Rattle.serde_json.specs.View.{view, members_view};
ghost use Rattle.ms_base.specs.declared.code.Code.{Code};
ghost use Rattle.rtp_params.specs.declared.place.Place.{Place};
ghost use Rattle.rtp_params.specs.Reading.{list_of, read_behind, required, or_default};
ghost use Rattle.rtp_params.specs.Gives.{Gives};
ghost use Rattle.rtp_params.specs.Readable.{Each};

use crate::fault::ParamFault;
use crate::items::Items;
use crate::place::Place;
use crate::read::members::{Members, member};
use ms_base::Code;
use serde_json::Value;
use std::alloc::Global;

/// What an item of a JSON list can be read as, by itself.
pub(crate) trait FromJson: Drop {
    // What it is read as.
    ghost reads: { Place → Data → Result Self Code };

    // What holds of each value that is read, since the members of an object stand in the order of their names.
    ghost holds: { Self → Type 0 };

    fn read(alloc: Global, place: Place, value: &Value) -> Result<Self, ParamFault>
        ensures value { Gives result (reads place (view value.now)) }
        ensures holds { IfOk result holds };
}

// The items, from the first one on.
#[tactic(auto, using(crate::proofs::ReadLemmas::each_push))]
fn read_items<T: FromJson>(
    alloc: Global,
    place: Place,
    values: &[Value],
) -> Result<Items<T>, ParamFault>
    ensures value { Gives result (read_behind (λ _. T.reads place) [] (map view values.now)) }
    ensures each { IfOk result (λ items. Each T.holds items) }
{
    let mut items = Vec::new(alloc);
    for value in values {
        let item = T::read(alloc, place, value)?;
        items.push(item)?;
    }
    Ok(Items::from_vec(items))
}

/// A list.
#[tactic(auto, using(crate::proofs::ReadLemmas::items_list_of))]
pub(crate) fn read_list<T: FromJson>(
    alloc: Global,
    place: Place,
    value: &Value,
) -> Result<Items<T>, ParamFault>
    ensures value { Gives result (list_of (T.reads place) (view value.now)) }
    ensures each { IfOk result (λ items. Each T.holds items) }
{
    match value.as_array() {
        Some(values) => read_items(alloc, place, values.as_slice()),
        None => Err(ParamFault::TypeError { code: Code::Form }),
    }
}

/// A list that has to be there.
pub(crate) fn required_list<T: FromJson>(
    alloc: Global,
    place: Place,
    members: &Members,
    name: &str,
) -> Result<Items<T>, ParamFault>
    ensures value { Gives result (required (list_of (T.reads place)) (get_member name.now (members_view members.now.entries))) }
    ensures each { IfOk result (λ items. Each T.holds items) }
{
    match member(members, name) {
        Some(value) => read_list(alloc, place, value),
        None => Err(ParamFault::TypeError { code: Code::Form }),
    }
}

/// A list, by default the empty one.
pub(crate) fn list_or_empty<T: FromJson>(
    alloc: Global,
    place: Place,
    members: &Members,
    name: &str,
) -> Result<Items<T>, ParamFault>
    ensures value { Gives result (or_default [] (list_of (T.reads place)) (get_member name.now (members_view members.now.entries))) }
    ensures each { IfOk result (λ items. Each T.holds items) }
{
    match member(members, name) {
        Some(value) => read_list(alloc, place, value),
        None => Ok(Items::from_vec(Vec::new(alloc))),
    }
}
