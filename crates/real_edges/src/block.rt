ghost use Rattle.std.specs.Prelude.{◌≡◌, ◌<◌, ◌≤◌, ◌++◌, [], length, take, drop, IfSome, IfNone, IfOk};

use crate::stream::read_once;
use ms_base::NoMemory;
use ms_devices::EVENT_BYTES;
use std::alloc::Global;
use std::io::Read;
use std::marker::Model;

/// Bytes that one read of the channel gave, at most 65,536. It is filled and emptied again and again, and contracts
/// see it as the bytes that weren't handed on yet.
#[derive(Drop)]
pub(crate) struct Block {
    bytes: Vec<u8>,
    // Up to where the bytes were handed on, and up to where they were read.
    given: usize,
    filled: usize,
}

impl Model for Block {
    ghost use Rattle.std.specs.Prelude.{ℕ, ◌-◌, ◌≤◌, List, take, drop, vec_len};

    ghost Value = { List ℕ };

    ghost view = { λ b. take (b.filled - b.given) (drop b.given b.bytes.items) };

    ghost invariant = { λ b. (b.given ≤ b.filled) × (b.filled ≤ vec_len b.bytes) };
}

/// How a read has ended.
#[derive(Clone, Copy, PartialEq, Eq, Debug)]
pub(crate) enum Filled {
    Bytes,
    End,
    Fault,
}

impl Block {
    /// A block with nothing in it.
    pub(crate) fn new(alloc: Global) -> Result<Block, NoMemory>
        ensures { IfOk result (λ block. block ≡ []) }
    {
        let bytes = vec![in alloc; 0u8; EVENT_BYTES]?;
        Ok(Block {
            bytes,
            given: 0,
            filled: 0,
        })
    }

    /// Forgets what it held, and reads once, again after each interruption.
    pub(crate) fn fill<S: Read>(&mut self, stream: &mut S) -> Filled {
        self.given = 0;
        self.filled = 0;
        match read_once(stream, self.bytes.as_mut_slice()) {
            Some(0) => Filled::End,
            Some(count) => {
                self.filled = count;
                Filled::Bytes
            }
            None => Filled::Fault,
        }
    }

    /// Takes bytes from the front into the first places, and gives how many. `None` comes exactly where none are left.
    pub(crate) fn next(&mut self, into: &mut [u8]) -> Option<usize>
        requires { EVENT_BYTES ≤ length into.old }
        ensures front { IfSome result (λ n. self.old ≡ take n into.new ++ self.new) }
        ensures some { IfSome result (λ n. (0 < n) × (n ≤ EVENT_BYTES)) }
        ensures none { IfNone result (self.old ≡ []) }
        ensures len { length into.new ≡ length into.old }
    {
        if self.given == self.filled {
            return None;
        }
        let rest = &self.bytes[self.given..self.filled];
        let len = rest.len().min(EVENT_BYTES);
        into[..len].copy_from_slice(&rest[..len]);
        self.given += len;
        Some(len)
    }
}
