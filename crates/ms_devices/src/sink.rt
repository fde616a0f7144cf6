ghost use Rattle.std.specs.Prelude.{◌≡◌, ℕ, ◌/◌, ◌↔◌, List, [], ◌++◌, Option, Some, IfOk, IsErr, OnOk, OnErr, IsTrue, length, take, option_copied};
ghost use Rattle.ms_devices.specs.Causes.{HasCause};
ghost use Rattle.ms_devices.specs.Told.{Tells, AddsPrefix};

use crate::calls::Calls;
use crate::failed::Failed;
use ms_base::{Bytes, NoMemory};
use std::alloc::Global;
use std::marker::Model;

/// What takes bytes, each piece behind the one before.
pub trait Sink {
    /// What it got, where it tells that.
    ghost got: { Self → Option (List ℕ) };

    /// How many faults it has had.
    ghost faults: { Self → ℕ };

    /// Adds the piece. With a `Failed` a prefix of it was added.
    fn write(&mut self, piece: &[u8]) -> Result<(), Failed>
        ensures ok { OnOk result (Tells (λ before now. now ≡ before ++ piece.now) (got self.old) (got self.new)) }
        ensures err { OnErr result (Tells (AddsPrefix piece.now) (got self.old) (got self.new)) }
        ensures cause { HasCause (faults self.old) (faults self.new) result };
}

/// A sink in memory. It tells what it got, and fails at calls of chosen numbers, which add the first
/// half of their piece. Where it finds no memory to keep a piece it answers as if it had, and tells
/// nothing from then on.
#[derive(Debug, Drop)]
pub struct MemSink {
    got: Option<Bytes>,
    calls: Calls,
}

impl Model for MemSink {
    ghost use Rattle.ms_devices.specs.Memory.{SinkState};

    ghost Value = { SinkState };

    ghost view = { λ s. record { got = s.got; calls = s.calls } };
}

impl MemSink {
    /// A sink that got nothing yet. `fails` has the numbers of its calls that are to fail, from 1.
    pub fn new(alloc: Global, fails: Vec<u32>) -> Result<MemSink, NoMemory>
        ensures got { IfOk result (λ s. s.got ≡ Some []) }
        ensures calls { IfOk result (λ s. s.calls ≡ record { fails = fails.items; made = 0 }) }
    {
        Ok(MemSink {
            got: Some(Bytes::new(alloc)),
            calls: Calls::new(fails),
        })
    }

    /// What it got, or `None` where it had no memory to keep it.
    pub fn told(&self) -> Option<&[u8]>
        ensures { option_copied result ≡ self.now.got }
    {
        self.got.as_ref().map(|got| got.as_slice())
    }

    // Adds the bytes to what is told, or tells no more.
    fn keep(&mut self, bytes: &[u8])
        ensures got { Tells (λ before now. now ≡ before ++ bytes.now) self.old.got self.new.got }
        ensures calls { self.new.calls ≡ self.old.calls }
    {
        if let Some(got) = &mut self.got
            && got.extend_from_slice(bytes).is_err()
        {
            self.got = None;
        }
    }
}

impl Sink for MemSink {
    ghost use Rattle.ms_devices.specs.Memory.{next_fails, after_call, fault_count};

    ghost got = { λ s. s.got };

    ghost faults = { λ s. fault_count s.calls };

    fn write(&mut self, piece: &[u8]) -> Result<(), Failed>
        ensures ok { OnOk result (Tells (λ before now. now ≡ before ++ piece.now) self.old.got self.new.got) }
        ensures err { OnErr result (Tells (AddsPrefix piece.now) self.old.got self.new.got) }
        ensures cause { HasCause (fault_count self.old.calls) (fault_count self.new.calls) result }

        // In memory each answer is determined.
        ensures fails { IsErr result ↔ IsTrue (next_fails self.old.calls) }
        ensures counted { self.new.calls ≡ after_call self.old.calls }
        ensures half { OnErr result (Tells (λ before now. now ≡ before ++ take (length piece.now / 2) piece.now) self.old.got self.new.got) }
    {
        if self.calls.next_fails() {
            self.keep(&piece[..piece.len() / 2]);
            return Err(Failed);
        }
        self.keep(piece);
        Ok(())
    }
}
