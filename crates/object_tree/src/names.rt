ghost use Rattle.std.specs.Prelude.{◌≡◌, ℕ, List, Option, Some, None, OnOk, OnErr, if◌then◌else◌};
ghost use Rattle.object_tree.specs.Tables.{greatest, raised, serial_of};

use ms_base::NoMemory;
use std::alloc::Global;
use std::collections::BTreeMap;

/// The greatest serial of an object of each name.
#[derive(Debug, Drop)]
pub(crate) struct Names {
    serials: BTreeMap<Vec<u8>, u32>,
}

impl Names {
    pub(crate) fn new(alloc: Global) -> Names
        ensures { (name : List ℕ) → serial_of result name ≡ None }
    {
        Names {
            serials: BTreeMap::new(alloc),
        }
    }

    pub(crate) fn get(&self, name: &[u8]) -> Option<u32>
        ensures { result ≡ serial_of self.now name.now }
    {
        self.serials.get(name).copied()
    }

    /// Gives a name this serial, where it is the greatest of the name.
    pub(crate) fn raise(&mut self, name: Vec<u8>, serial: u32) -> Result<(), NoMemory>
        ensures ok { OnOk result ((other : List ℕ) → serial_of self.new other ≡ raised name.items serial other (serial_of self.old other)) }
        ensures err { OnErr result ((other : List ℕ) → serial_of self.new other ≡ serial_of self.old other) }
    {
        let before = self.get(name.as_slice());
        if is_greatest(serial, before) {
            self.serials.insert(name, serial)?;
        }
        Ok(())
    }
}

// Whether a serial is greater than another, if there is one.
fn is_greatest(serial: u32, other: Option<u32>) -> bool
    ensures { greatest serial other ≡ (if result then Some serial else other) }
{
    match other {
        Some(other) => other < serial,
        None => true,
    }
}
