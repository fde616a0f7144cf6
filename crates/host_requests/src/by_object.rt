ghost use Rattle.std.specs.Prelude.{◌≡◌, ℕ, [], OnOk, OnErr, IfOk, nat_eq, if◌then◌else◌};
ghost use Rattle.std.specs.BTreeSet.{InsertsAll, insert_key};
ghost use Rattle.std.specs.List.{list_any};
ghost use Rattle.std.specs.List.Sorted.{IsStrictlySortedBy};
ghost use Rattle.std.specs.Set.{remove_key};
ghost use Rattle.std.specs.Ordering.{nat_cmp};
ghost use Rattle.std.specs.BTreeMap.{is_at};
ghost use Rattle.host_requests.specs.Places.{first_of, has, numbers_at};

use ms_base::{NoMemory, Serial};
use std::alloc::{AllocError, Global};
use std::collections::{BTreeSet, HashMap};

/// The numbers of requests, by the objects that they were issued under.
#[derive(Debug, Drop)]
pub(crate) struct ByObject {
    alloc: Global,
    numbers: HashMap<u32, BTreeSet<u64>>,
}

impl ByObject {
    pub(crate) fn new(alloc: Global) -> ByObject
        ensures { (o : ℕ) → numbers_at result o ≡ [] }
    {
        ByObject {
            alloc,
            numbers: HashMap::new(alloc),
        }
    }

    /// The first number at an object.
    pub(crate) fn first(&self, object: u32) -> Option<u64>
        ensures { result ≡ first_of (numbers_at self.now object) }
    {
        self.numbers.get(&object)?.first().copied()
    }

    /// Adds a number at an object.
    pub(crate) fn add(&mut self, object: u32, number: u64) -> Result<(), NoMemory>
        ensures ok { OnOk result ((o : ℕ) → numbers_at self.new o ≡ (if nat_eq object o then insert_key nat_cmp (numbers_at self.old o) number else numbers_at self.old o)) }
        ensures err { OnErr result ((o : ℕ) → numbers_at self.new o ≡ numbers_at self.old o) }
    {
        match self.numbers.get_mut(&object) {
            Some(numbers) => {
                numbers.insert(number)?;
            }
            None => {
                let mut numbers = BTreeSet::new(self.alloc);
                numbers.insert(number)?;
                self.numbers.insert(object, numbers)?;
            }
        }
        Ok(())
    }

    /// Takes away a number at an object.
    pub(crate) fn remove(&mut self, object: u32, number: u64)
        ensures { (o : ℕ) → numbers_at self.new o ≡ (if nat_eq object o then remove_key (is_at (nat_cmp number)) (numbers_at self.old o) else numbers_at self.old o) }
    {
        let Some(numbers) = self.numbers.get_mut(&object) else {
            return;
        };
        numbers.remove(&number);
        if numbers.is_empty() {
            self.numbers.remove(&object);
        }
    }

    /// The numbers at these objects.
    pub(crate) fn at_any(&self, objects: &[Serial]) -> Result<BTreeSet<u64>, NoMemory>
        ensures has { IfOk result (λ all. (n : ℕ) → has n all.keys ≡ list_any (λ o. has n (numbers_at self.now o.0)) objects.now) }
        ensures in_order { IfOk result (λ all. IsStrictlySortedBy nat_cmp all.keys) }
    {
        let mut all = BTreeSet::new(self.alloc);
        for object in objects {
            self.add_at(object.0, &mut all)?;
        }
        Ok(all)
    }

    // Adds the numbers at an object to a set.
    fn add_at(&self, object: u32, to: &mut BTreeSet<u64>) -> Result<(), AllocError>
        ensures { OnOk result (InsertsAll nat_cmp to.old (numbers_at self.now object) to.new) }
    {
        let _in_order = to.len();
        match self.numbers.get(&object) {
            Some(numbers) => add_each(numbers, to),
            None => Ok(()),
        }
    }
}

// Adds the numbers of one set to another.
fn add_each(numbers: &BTreeSet<u64>, to: &mut BTreeSet<u64>) -> Result<(), AllocError>
    ensures { OnOk result (InsertsAll nat_cmp to.old numbers.now.keys to.new) }
{
    to.extend(numbers.iter().copied())
}
