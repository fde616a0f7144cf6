ghost use Rattle.std.specs.Prelude.{◌≡◌, ℕ, Some, None, true, false, OnOk, OnErr, List};
ghost use Rattle.ms_base.specs.Kinds.{kind_number};
ghost use Rattle.ms_base.specs.declared.keys.Kind.{Kind};
ghost use Rattle.object_tree.specs.Tables.{id_key, same_key, serial_at};

use ms_base::{Id, Kind, NoMemory, Serial};
use std::alloc::Global;
use std::collections::HashMap;

/// The serial of the latest object of each worker, kind and id.
#[derive(Debug, Drop)]
pub(crate) struct Ids {
    serials: HashMap<(u32, u8, [u8; 16]), u32>,
}

impl Ids {
    pub(crate) fn new(alloc: Global) -> Ids {
        Ids {
            serials: HashMap::new(alloc),
        }
    }

    pub(crate) fn get(&self, worker: Serial, kind: Kind, id: Id) -> Option<u32>
        ensures { result ≡ serial_at self.now (worker.0, kind_number kind, id.0) }
    {
        let id = id.0;
        self.serials.get(&(worker.0, number(kind), id)).copied()
    }

    /// Puts a serial in place of the one that this worker, kind and id had.
    pub(crate) fn put(
        &mut self,
        worker: Serial,
        kind: Kind,
        id: Id,
        serial: u32,
    ) -> Result<(), NoMemory>
        ensures here { OnOk result (serial_at self.new (worker.0, kind_number kind, id.0) ≡ Some serial) }
        ensures others { (key : ℕ × ℕ × List ℕ) → same_key (worker.0, kind_number kind, id.0) key ≡ false → serial_at self.new key ≡ serial_at self.old key }
        ensures err { OnErr result ((key : ℕ × ℕ × List ℕ) → serial_at self.new key ≡ serial_at self.old key) }
    {
        let id = id.0;
        self.serials.insert((worker.0, number(kind), id), serial)?;
        Ok(())
    }
}

// The number of a kind.
fn number(kind: Kind) -> u8
    ensures { result ≡ kind_number kind }
{
    match kind {
        Kind::Worker => 0,
        Kind::Router => 1,
        Kind::Plain => 2,
        Kind::Pipe => 3,
        Kind::Direct => 4,
        Kind::Producer => 5,
        Kind::Consumer => 6,
    }
}
