ghost use Rattle.std.specs.Prelude.{◌≡◌, ◌+◌, ◌-◌, ◌≢◌, ◌&&◌, OnOk, OnErr, nat_lt, if◌then◌else◌};
ghost use Rattle.ms_base.specs.declared.id.Id.{Id};
ghost use Rattle.ms_base.specs.declared.keys.Serial.{Serial};
ghost use Rattle.object_tree.specs.Objects.{same_id, same_serial};
ghost use Rattle.request_build.specs.Counts.{one_if, times_in};

use ms_base::{Id, NoMemory, Serial};
use std::alloc::Global;
use std::collections::HashMap;

/// Ids of Producers in their Routers, each as often as it was added and not yet removed. Contracts see how often each is
/// there.
#[derive(Debug, Drop)]
pub struct RouterIds {
    // under the Router's serial and the bytes of the id; none is 0
    counts: HashMap<(u32, [u8; 16]), u64>,
}

impl RouterIds {
    /// No ids.
    pub fn new(alloc: Global) -> RouterIds
        ensures { (router : Serial) (id : Id) → times_in result router id ≡ 0 }
    {
        RouterIds {
            counts: HashMap::new(alloc),
        }
    }

    /// How often an id is there in a Router.
    pub fn times(&self, router: Serial, id: Id) -> u64
        ensures { result ≡ times_in self.now router id }
    {
        let id = id.0;
        self.counts.get(&(router.0, id)).copied().unwrap_or(0)
    }

    /// Whether an id is there in a Router.
    pub fn has(&self, router: Serial, id: Id) -> bool
        ensures { result ≡ nat_lt 0 (times_in self.now router id) }
    {
        self.times(router, id) > 0
    }

    /// Adds an id in a Router once more. `NoMemory` also comes where it is there 2^64 - 1 times.
    pub fn add(&mut self, router: Serial, id: Id) -> Result<(), NoMemory>
        ensures ok { OnOk result ((other : Serial) (other_id : Id) → times_in self.new other other_id ≡ times_in self.old other other_id + one_if (same_serial router other && same_id id other_id)) }
        ensures err { OnErr result ((other : Serial) (other_id : Id) → times_in self.new other other_id ≡ times_in self.old other other_id) }
    {
        let Some(times) = self.times(router, id).checked_add(1) else {
            return Err(NoMemory);
        };
        let id = id.0;
        self.counts.insert((router.0, id), times)?;
        Ok(())
    }

    /// Removes an id in a Router once, where it is there.
    pub fn remove(&mut self, router: Serial, id: Id)
        ensures { (other : Serial) (other_id : Id) → times_in self.new other other_id ≡ times_in self.old other other_id - one_if (same_serial router other && same_id id other_id) }
    {
        let times = self.times(router, id);
        if times > 1 {
            self.put(router, id, times - 1);
        } else {
            let id = id.0;
            self.counts.remove(&(router.0, id));
        }
    }

    // Says how often an id is there that is there.
    fn put(&mut self, router: Serial, id: Id, times: u64)
        ensures { times_in self.old router id ≢ 0 → (other : Serial) (other_id : Id) → times_in self.new other other_id ≡ (if same_serial router other && same_id id other_id then times else times_in self.old other other_id) }
    {
        let id = id.0;
        if let Some(count) = self.counts.get_mut(&(router.0, id)) {
            *count = times;
        }
    }
}
