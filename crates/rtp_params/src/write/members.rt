ghost use Rattle.std.specs.Prelude.{◌≡◌, IfOk, OnOk, option_map};
ghost use Rattle.serde_json.specs.Data.{Data};
ghost use Rattle.serde_json.specs.View.{view, members_view};
ghost use Rattle.rtp_params.specs.declared.place.Place.{Place};
ghost use Rattle.rtp_params.specs.Writing.{list_value, put_optional};

use crate::place::Place;
use ms_base::NoMemory;
use serde_json::{Map, Value};
use std::alloc::Global;

/// What an item of a list is written as.
pub(crate) trait ToJson {
    ghost writes: { Place → Self → Data };

    fn write(&self, alloc: Global, place: Place) -> Result<Value, NoMemory>
        ensures { IfOk result (λ v. view v ≡ writes place self.now) };
}

/// A list, item by item.
pub(crate) fn write_list<T: ToJson>(
    alloc: Global,
    place: Place,
    items: &[T],
) -> Result<Value, NoMemory>
    ensures { IfOk result (λ v. view v ≡ list_value (T.writes place) items.now) }
{
    let mut values = Vec::with_capacity(alloc, items.len())?;
    for item in items {
        let value = item.write(alloc, place)?;
        values.push(value)?;
    }
    Ok(Value::Array(values))
}

/// One more member, where it has a value.
pub(crate) fn put_optional(
    alloc: Global,
    name: &str,
    value: Option<Value>,
    members: &mut Map<String, Value>,
) -> Result<(), NoMemory>
    ensures { OnOk result (members_view members.new.entries ≡ put_optional name.now (option_map view value) (members_view members.old.entries)) }
{
    match value {
        Some(value) => Ok(serde_json::put(members, alloc, name, value)?),
        None => Ok(()),
    }
}
