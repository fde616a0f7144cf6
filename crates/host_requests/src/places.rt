ghost use Rattle.std.specs.Prelude.{◌≡◌, ◌∷◌, ◌++◌, [], Some, IfNone, IfSome, OnOk, OnErr};
ghost use Rattle.std.specs.Ordering.{nat_cmp};
ghost use Rattle.std.specs.BTreeMap.{is_at};
ghost use Rattle.std.specs.Map.{lookup, remove_entry};
ghost use Rattle.host_requests.specs.Places.{ArePlaced, IsNext, Outlines};

use crate::by_object::ByObject;
use crate::by_via::ByVia;
use crate::request::Via;
use ms_base::{NoMemory, Serial};
use std::alloc::Global;

/// By what requests are found: tables of their numbers.
#[derive(Debug, Drop)]
pub(crate) struct Places {
    /// By what they wait for.
    pub(crate) by_via: ByVia,
    /// By the object that they were issued under.
    pub(crate) under: ByObject,
}

impl Places {
    pub(crate) fn new(alloc: Global) -> Places
        ensures { ArePlaced result [] }
    {
        Places {
            by_via: ByVia::new(alloc),
            under: ByObject::new(alloc),
        }
    }

    /// Places a request behind all others, which waits for another response than they do.
    pub(crate) fn add(&mut self, number: u64, via: Via, under: Serial) -> Result<(), NoMemory>
        ensures ok { OnOk result ((os : Outlines) → ArePlaced self.old os → IsNext number via os → ArePlaced self.new (os ++ (number, (via, under)) ∷ [])) }
        ensures err { OnErr result ((os : Outlines) → ArePlaced self.old os → IsNext number via os → ArePlaced self.new os) }
    {
        self.by_via.add(number, via, under)?;
        match self.under.add(under.0, number) {
            Ok(()) => Ok(()),
            Err(refused) => {
                self.by_via.remove(number, via, under);
                Err(refused)
            }
        }
    }

    /// Takes a request out of its places.
    pub(crate) fn remove(&mut self, number: u64, via: Via, under: Serial)
        ensures { (os : Outlines) → lookup (is_at (nat_cmp number)) os ≡ Some (via, under) → ArePlaced self.old os → ArePlaced self.new (remove_entry (is_at (nat_cmp number)) os) }
    {
        self.by_via.remove(number, via, under);
        self.under.remove(under.0, number);
    }
}
