//! Objects as they are stored: by their serials, each in a place of its own, since the nodes of the table are half full.

ghost use Rattle.std.specs.Prelude.{◌≡◌, option_copied};
ghost use Rattle.std.specs.BTreeMap.{is_at};
ghost use Rattle.std.specs.Map.{lookup};
ghost use Rattle.std.specs.Ordering.{nat_cmp};

use crate::object::Object;
use boxed_value::Boxed;
use std::collections::BTreeMap;

pub(crate) type Objects = BTreeMap<u32, Boxed<Object>>;

/// The object of a serial.
pub(crate) fn object_at(objects: &Objects, serial: u32) -> Option<&Object>
    ensures value { option_copied result ≡ lookup (is_at (nat_cmp serial)) objects.now.entries }
{
    let object = objects.get(&serial)?;
    Some(object)
}
