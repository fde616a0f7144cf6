ghost use Rattle.std.specs.Prelude.{◌≡◌, ℕ, ◌+◌, ◌==◌, ◌^◌, ◌<◌, OnOk, OnErr, if◌then◌else◌};
ghost use Rattle.host_tables.specs.LookUps.{counted};
ghost use Rattle.host_model.specs.State.{call_key};

use ms_base::{CallKey, NoMemory};
use std::alloc::Global;
use std::collections::BTreeMap;

/// How many calls and awaits each lane has made.
#[derive(Debug, Drop)]
pub struct Calls {
    counts: BTreeMap<u32, u32>,
}

impl Calls {
    pub fn new(alloc: Global) -> Calls
        ensures { (lane : ℕ) → counted result lane ≡ 0 }
    {
        Calls {
            counts: BTreeMap::new(alloc),
        }
    }

    /// The key of a lane's next call.
    pub fn next(&self, lane: u32) -> CallKey
        requires { counted self.now lane + 1 < 2 ^ 32 }
        ensures { result ≡ call_key lane (counted self.now lane) }
    {
        let before = self.counts.get(&lane).copied().unwrap_or(0);
        CallKey {
            lane,
            place: before + 1,
        }
    }

    /// Counts one call more of a lane.
    pub fn add(&mut self, lane: u32) -> Result<(), NoMemory>
        requires { counted self.old lane + 1 < 2 ^ 32 }
        ensures ok { OnOk result ((l : ℕ) → counted self.new l ≡ (if lane == l then counted self.old l + 1 else counted self.old l)) }
        ensures err { OnErr result ((l : ℕ) → counted self.new l ≡ counted self.old l) }
    {
        let before = self.counts.get(&lane).copied().unwrap_or(0);
        self.counts.insert(lane, before + 1)?;
        Ok(())
    }
}
