ghost use Rattle.std.specs.Prelude.{◌≡◌, ℕ, ◌<◌, ◌≤◌, ◌↔◌, List, [], ◌++◌, Option, Some, IfOk, IsErr, OnErr, IsTrue, length, take, drop, min};
ghost use Rattle.ms_devices.specs.Causes.{HasCause};
ghost use Rattle.ms_devices.specs.Told.{Tells};

use crate::calls::Calls;
use crate::failed::Failed;
use ms_base::NoMemory;
use std::alloc::Global;
use std::marker::Model;

/// Bytes that can be read once, from the front.
pub trait Source {
    /// What it holds still, where it tells that.
    ghost holds: { Self → Option (List ℕ) };

    /// How many faults it has had.
    ghost faults: { Self → ℕ };

    /// Takes bytes from the front into the first places of `into`, and gives how many. For a place
    /// that is not empty, 0 is the end: it holds nothing any more.
    ///
    /// After a `Failed` it holds what it held, and `into` may have any bytes.
    fn read(&mut self, into: &mut [u8]) -> Result<usize, Failed>
        ensures fits { IfOk result (λ n. n ≤ length into.old) }
        ensures given { IfOk result (λ n. Tells (λ before now. before ≡ take n into.new ++ now) (holds self.old) (holds self.new)) }
        ensures end { IfOk result (λ n. n ≡ 0 → 0 < length into.old → Tells (λ before _. before ≡ []) (holds self.old) (holds self.new)) }
        ensures err { OnErr result (Tells (λ before now. now ≡ before) (holds self.old) (holds self.new)) }
        ensures cause { HasCause (faults self.old) (faults self.new) result };
}

/// A source in memory. It tells what it holds, gives as many bytes a read as there are and have room,
/// and fails at calls of chosen numbers.
#[derive(Debug, Drop)]
pub struct MemSource {
    bytes: Vec<u8>,
    // How many of the bytes were given.
    given: usize,
    calls: Calls,
}

impl Model for MemSource {
    ghost use Rattle.std.specs.Prelude.{◌≤◌, drop, vec_len};
    ghost use Rattle.ms_devices.specs.Memory.{SourceState};

    ghost Value = { SourceState };

    ghost view = { λ s. record { held = drop s.given s.bytes.items; calls = s.calls } };

    ghost invariant = { λ s. s.given ≤ vec_len s.bytes };
}

impl MemSource {
    /// A source of a copy of these bytes. `fails` has the numbers of its calls that are to fail, from 1.
    pub fn new(alloc: Global, bytes: &[u8], fails: Vec<u32>) -> Result<MemSource, NoMemory>
        ensures held { IfOk result (λ s. s.held ≡ bytes.now) }
        ensures calls { IfOk result (λ s. s.calls ≡ record { fails = fails.items; made = 0 }) }
    {
        Ok(MemSource {
            bytes: Vec::from_slice(alloc, bytes)?,
            given: 0,
            calls: Calls::new(fails),
        })
    }
}

impl Source for MemSource {
    ghost use Rattle.ms_devices.specs.Memory.{next_fails, after_call, fault_count};

    ghost holds = { λ s. Some s.held };

    ghost faults = { λ s. fault_count s.calls };

    fn read(&mut self, into: &mut [u8]) -> Result<usize, Failed>
        ensures fits { IfOk result (λ n. n ≤ length into.old) }
        ensures given { IfOk result (λ n. self.old.held ≡ take n into.new ++ self.new.held) }
        ensures end { IfOk result (λ n. n ≡ 0 → 0 < length into.old → self.old.held ≡ []) }
        ensures err { OnErr result (self.new.held ≡ self.old.held) }
        ensures cause { HasCause (fault_count self.old.calls) (fault_count self.new.calls) result }

        // In memory each answer is determined.
        ensures fails { IsErr result ↔ IsTrue (next_fails self.old.calls) }
        ensures counted { self.new.calls ≡ after_call self.old.calls }
        ensures all_that_fit { IfOk result (λ n. n ≡ min (length into.old) (length self.old.held)) }
        ensures behind { IfOk result (λ n. drop n into.new ≡ drop n into.old) }
        ensures untouched { OnErr result (into.new ≡ into.old) }
    {
        if self.calls.next_fails() {
            return Err(Failed);
        }
        let rest = &self.bytes[self.given..];
        let count = rest.len().min(into.len());
        into[..count].copy_from_slice(&rest[..count]);
        self.given += count;
        Ok(count)
    }
}
