ghost use Rattle.std.specs.Prelude.{◌≡◌, ℕ, ◌+◌, ◌-◌, ◌≢◌, List, Some, OnOk, OnErr, nat_lt, bytes_eq, if◌then◌else◌};
ghost use Rattle.request_build.specs.Counts.{one_if, times_named};

use ms_base::{Name, NoMemory};
use std::alloc::Global;
use std::collections::BTreeMap;

/// Names, each as often as it was added and not yet removed. Contracts see how often each is there.
#[derive(Debug, Drop)]
pub struct Names {
    alloc: Global,
    // none is 0
    counts: BTreeMap<String, u64>,
}

impl Names {
    /// No names.
    pub fn new(alloc: Global) -> Names
        ensures { (name : List ℕ) → times_named result name ≡ 0 }
    {
        Names {
            alloc,
            counts: BTreeMap::new(alloc),
        }
    }

    /// How often a name is there.
    pub fn times(&self, name: &Name) -> u64
        ensures { result ≡ times_named self.now name.now }
    {
        self.counts.get(name.as_str()).copied().unwrap_or(0)
    }

    /// Whether a name is there.
    pub fn has(&self, name: &Name) -> bool
        ensures { result ≡ nat_lt 0 (times_named self.now name.now) }
    {
        self.times(name) > 0
    }

    /// Adds a name once more. `NoMemory` also comes where it is there 2^64 - 1 times.
    pub fn add(&mut self, name: &Name) -> Result<(), NoMemory>
        ensures ok { OnOk result ((other : List ℕ) → times_named self.new other ≡ times_named self.old other + one_if (bytes_eq name.now other)) }
        ensures err { OnErr result ((other : List ℕ) → times_named self.new other ≡ times_named self.old other) }
    {
        let Some(times) = self.times(name).checked_add(1) else {
            return Err(NoMemory);
        };
        let name = String::from_str(self.alloc, name.as_str())?;
        self.counts.insert(name, times)?;
        Ok(())
    }

    /// Removes a name once, where it is there.
    pub fn remove(&mut self, name: &Name)
        ensures { (other : List ℕ) → times_named self.new other ≡ times_named self.old other - one_if (bytes_eq name.now other) }
    {
        let times = self.times(name);
        if times > 1 {
            self.put(name, times - 1);
        } else {
            self.counts.remove(name.as_str());
        }
    }

    // Says how often a name is there that is there.
    fn put(&mut self, name: &Name, times: u64)
        ensures { times_named self.old name.now ≢ 0 → (other : List ℕ) → times_named self.new other ≡ (if bytes_eq name.now other then times else times_named self.old other) }
    {
        if let Some(count) = self.counts.get_mut(name.as_str()) {
            *count = times;
        }
    }
}
