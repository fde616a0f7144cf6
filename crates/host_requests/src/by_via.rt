ghost use Rattle.std.specs.Prelude.{◌≡◌, ◌∷◌, ◌++◌, [], Some, OnOk, OnErr};
ghost use Rattle.std.specs.Ordering.{nat_cmp};
ghost use Rattle.std.specs.BTreeMap.{is_at};
ghost use Rattle.std.specs.Map.{lookup, remove_entry};
ghost use Rattle.host_requests.specs.Places.{AreByVia, IsNext, Outlines, first_of, number_at, numbers_at};

use crate::by_object::ByObject;
use crate::request::Via;
use ms_base::{NoMemory, Serial, WorkerKey};
use std::alloc::Global;
use std::collections::HashMap;

/// The numbers of requests, by what they wait for.
#[derive(Debug, Drop)]
pub(crate) struct ByVia {
    /// By the slot and the generation of the worker that is asked, and the id.
    ids: HashMap<(u32, u32, u32), u64>,
    /// Those that wait for the start of the Worker that they stand under.
    starts: ByObject,
}

impl ByVia {
    pub(crate) fn new(alloc: Global) -> ByVia
        ensures { AreByVia result [] }
    {
        ByVia {
            ids: HashMap::new(alloc),
            starts: ByObject::new(alloc),
        }
    }

    /// The number of the request that waits for a response.
    pub(crate) fn on(&self, worker: WorkerKey, id: u32) -> Option<u64>
        ensures { result ≡ number_at self.now worker id }
    {
        self.ids.get(&(worker.slot, worker.generation, id)).copied()
    }

    /// The number of the first request that waits for the start of a Worker.
    pub(crate) fn first_start(&self, worker: Serial) -> Option<u64>
        ensures { result ≡ first_of (numbers_at self.now.starts worker.0) }
    {
        self.starts.first(worker.0)
    }

    /// Adds a request behind all others, which waits for another response than they do.
    pub(crate) fn add(&mut self, number: u64, via: Via, under: Serial) -> Result<(), NoMemory>
        ensures ok { OnOk result ((os : Outlines) → AreByVia self.old os → IsNext number via os → AreByVia self.new (os ++ (number, (via, under)) ∷ [])) }
        ensures err { OnErr result ((os : Outlines) → AreByVia self.old os → AreByVia self.new os) }
    {
        match via {
            Via::Channel { worker, id } => {
                self.ids
                    .insert((worker.slot, worker.generation, id), number)?;
                Ok(())
            }
            Via::Start => self.starts.add(under.0, number),
        }
    }

    /// Takes a request away.
    pub(crate) fn remove(&mut self, number: u64, via: Via, under: Serial)
        ensures { (os : Outlines) → lookup (is_at (nat_cmp number)) os ≡ Some (via, under) → AreByVia self.old os → AreByVia self.new (remove_entry (is_at (nat_cmp number)) os) }
    {
        match via {
            Via::Channel { worker, id } => {
                self.ids.remove(&(worker.slot, worker.generation, id));
            }
            Via::Start => self.starts.remove(under.0, number),
        }
    }
}
