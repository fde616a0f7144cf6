ghost use Rattle.std.specs.Prelude.{◌≡◌, ◌+◌, ℕ, List, [], ◌∷◌, ◌++◌, ◌&&◌, OnOk, OnErr, if◌then◌else◌};
ghost use Rattle.std.specs.Str.{bytes_eq};
ghost use Rattle.host_awaits.specs.Awaits.{same_event};
ghost use Rattle.host_awaits.specs.Names.{noted, resting};
ghost use Rattle.ms_base.specs.declared.keys.Event.{Event};

use crate::times::Times;
use ms_base::{Event, Name, NoMemory};
use std::alloc::Global;
use std::collections::BTreeMap;

/// How often events were noted for each name, and which awaits are at rest under it.
#[derive(Debug, Drop)]
pub(crate) struct Names {
    alloc: Global,
    times: BTreeMap<String, Times>,
    /// The numbers of the awaits that wait for a name and needn't be looked at. Few names are waited for, so most stand in
    /// the other table alone.
    resting: BTreeMap<String, Vec<u64>>,
}

impl Names {
    pub(crate) fn new(alloc: Global) -> Names
        ensures noted { (name : List ℕ) (e : Event) → noted result name e ≡ 0 }
        ensures resting { (name : List ℕ) → resting result name ≡ [] }
    {
        Names {
            alloc,
            times: BTreeMap::new(alloc),
            resting: BTreeMap::new(alloc),
        }
    }

    /// How often an event was noted for a name.
    pub(crate) fn noted(&self, name: &Name, event: Event) -> u64
        ensures { result ≡ noted self.now name.now event }
    {
        match self.times.get(name.as_str()) {
            Some(times) => times.get(event),
            None => 0,
        }
    }

    /// Counts an event of a name once more. The numbers of the awaits at rest under it go behind those that are touched.
    pub(crate) fn hear(
        &mut self,
        name: &Name,
        event: Event,
        touched: &mut Vec<u64>,
    ) -> Result<(), NoMemory>
        ensures noted { OnOk result ((of : List ℕ) (e : Event) → noted self.new of e ≡ (if bytes_eq name.now of && same_event event e then noted self.old of e + 1 else noted self.old of e)) }
        ensures resting { OnOk result ((of : List ℕ) → resting self.new of ≡ (if bytes_eq name.now of then [] else resting self.old of)) }
        ensures touched { OnOk result (touched.new.items ≡ touched.old.items ++ resting self.old name.now) }
        ensures err { OnErr result ((of : List ℕ) → resting self.new of ≡ resting self.old of) }
        ensures untouched { OnErr result (touched.new.items ≡ touched.old.items) }
    {
        self.count(name, event)?;
        self.touch(name, touched)
    }

    // Counts an event of a name once more.
    fn count(&mut self, name: &Name, event: Event) -> Result<(), NoMemory>
        ensures noted { OnOk result ((of : List ℕ) (e : Event) → noted self.new of e ≡ (if bytes_eq name.now of && same_event event e then noted self.old of e + 1 else noted self.old of e)) }
        ensures resting { (of : List ℕ) → resting self.new of ≡ resting self.old of }
    {
        match self.times.get_mut(name.as_str()) {
            Some(times) => times.raise(event),
            None => {
                let mut times = Times::new();
                times.raise(event)?;
                let key = String::from_str(self.alloc, name.as_str())?;
                self.times.insert(key, times)?;
                Ok(())
            }
        }
    }

    /// The numbers of the awaits at rest under a name go behind those that are touched.
    pub(crate) fn touch(&mut self, name: &Name, touched: &mut Vec<u64>) -> Result<(), NoMemory>
        ensures noted { (of : List ℕ) (e : Event) → noted self.new of e ≡ noted self.old of e }
        ensures resting { OnOk result ((of : List ℕ) → resting self.new of ≡ (if bytes_eq name.now of then [] else resting self.old of)) }
        ensures touched { OnOk result (touched.new.items ≡ touched.old.items ++ resting self.old name.now) }
        ensures err { OnErr result ((of : List ℕ) → resting self.new of ≡ resting self.old of) }
        ensures untouched { OnErr result (touched.new.items ≡ touched.old.items) }
    {
        match self.resting.get_mut(name.as_str()) {
            Some(numbers) => touched.append(numbers)?,
            None => {}
        }
        Ok(())
    }

    /// An await of a name is at rest from now on.
    pub(crate) fn rest(&mut self, name: &Name, number: u64) -> Result<(), NoMemory>
        ensures noted { (of : List ℕ) (e : Event) → noted self.new of e ≡ noted self.old of e }
        ensures resting { OnOk result ((of : List ℕ) → resting self.new of ≡ (if bytes_eq name.now of then resting self.old of ++ number ∷ [] else resting self.old of)) }
        ensures err { OnErr result ((of : List ℕ) → resting self.new of ≡ resting self.old of) }
    {
        match self.resting.get_mut(name.as_str()) {
            Some(numbers) => numbers.push(number)?,
            None => {
                let mut numbers = Vec::new(self.alloc);
                numbers.push(number)?;
                let key = String::from_str(self.alloc, name.as_str())?;
                self.resting.insert(key, numbers)?;
            }
        }
        Ok(())
    }
}
