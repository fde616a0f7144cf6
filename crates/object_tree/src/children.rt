ghost use Rattle.std.specs.Prelude.{◌≡◌, ℕ, true, OnOk};
ghost use Rattle.object_tree.specs.Tables.{children_of, is_listed};

use ms_base::NoMemory;
use std::alloc::Global;
use std::collections::HashMap;

/// The serials under each parent's.
#[derive(Debug, Drop)]
pub(crate) struct Children {
    alloc: Global,
    serials: HashMap<u32, Vec<u32>>,
}

impl Children {
    pub(crate) fn new(alloc: Global) -> Children {
        Children {
            alloc,
            serials: HashMap::new(alloc),
        }
    }

    /// Those under a parent.
    pub(crate) fn of(&self, parent: u32) -> &[u32]
        ensures { result.now ≡ children_of self.now parent }
    {
        match self.serials.get(&parent) {
            Some(serials) => serials.as_slice(),
            None => &[],
        }
    }

    /// Adds one under a parent.
    pub(crate) fn add(&mut self, parent: u32, child: u32) -> Result<(), NoMemory>
        ensures here { OnOk result (is_listed (children_of self.new parent) child ≡ true) }
        ensures stay { (p serial : ℕ) → is_listed (children_of self.old p) serial ≡ true → is_listed (children_of self.new p) serial ≡ true }
    {
        match self.serials.get_mut(&parent) {
            Some(serials) => serials.push(child)?,
            None => {
                let mut serials = Vec::new(self.alloc);
                serials.push(child)?;
                self.serials.insert(parent, serials)?;
            }
        }
        Ok(())
    }
}
