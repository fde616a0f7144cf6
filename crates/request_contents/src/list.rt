ghost use Rattle.std.specs.Prelude.{◌≡◌, IfOk};
ghost use Rattle.serde_json.specs.Data.{Data};
ghost use Rattle.serde_json.specs.View.{view};
ghost use Rattle.rtp_params.specs.Writing.{list_value};

use ms_base::NoMemory;
use serde_json::Value;
use std::alloc::Global;

/// What an item of a list is written as.
pub(crate) trait Item {
    ghost value: { Self → Data };

    fn write(&self, alloc: Global) -> Result<Value, NoMemory>
        ensures { IfOk result (λ v. view v ≡ value self.now) };
}

/// A list, item by item.
pub(crate) fn write_list<T: Item>(alloc: Global, items: &[T]) -> Result<Value, NoMemory>
    ensures { IfOk result (λ v. view v ≡ list_value T.value items.now) }
{
    let mut values = Vec::with_capacity(alloc, items.len())?;
    for item in items {
        let value = item.write(alloc)?;
        values.push(value)?;
    }
    Ok(Value::Array(values))
}
