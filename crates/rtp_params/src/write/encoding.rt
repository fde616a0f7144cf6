ghost use Rattle.std.specs.Prelude.{◌≡◌, IfOk, option_map};
ghost use Rattle.serde_json.specs.View.{view};
ghost use Rattle.rtp_params.specs.Writing.{rtx_value, encoding_value};

use crate::encoding::Encoding;
use crate::place::Place;
use crate::write::members::{ToJson, put_optional};
use ms_base::NoMemory;
use serde_json::{Map, Value, json, put};
use std::alloc::Global;

impl ToJson for Encoding {
    ghost writes = { λ _. encoding_value };

    #[tactic(auto, unfolding(crate::specs::Writing::encoding_value))]
    fn write(&self, alloc: Global, _place: Place) -> Result<Value, NoMemory> {
        let mut members = Map::new(alloc);
        put(&mut members, alloc, "ssrc", Value::from(self.ssrc))?;
        let rtx = write_rtx(alloc, self.rtx)?;
        put_optional(alloc, "rtx", rtx, &mut members)?;
        Ok(Value::Object(members))
    }
}

// The SSRC of the retransmissions, if there are any.
fn write_rtx(alloc: Global, rtx: Option<u32>) -> Result<Option<Value>, NoMemory>
    ensures { IfOk result (λ v. option_map view v ≡ option_map rtx_value rtx) }
{
    match rtx {
        Some(ssrc) => {
            let value = json!(in alloc; {"ssrc": ssrc})?;
            Ok(Some(value))
        }
        None => Ok(None),
    }
}
