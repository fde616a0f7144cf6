ghost use Rattle.std.specs.Prelude.{◌≡◌, ◌≤◌, length, IfOk};
ghost use Rattle.std.specs.Io.KnownBytes.{ReadConsumes};
ghost use Rattle.ms_devices.specs.Causes.{HasCause};

use crate::stream::read_once;
use ms_devices::{Failed, Source};
use std::io::Read;
use std::marker::Model;

/// A stream of the system as a source. It tells nothing of what it holds.
#[derive(Drop)]
pub struct RealSource<S> {
    stream: S,
    // How many reads have failed. It stands still at its type's end.
    faults: u64,
}

impl<S> Model for RealSource<S> {
    ghost use Rattle.real_edges.specs.Edges.{StreamState};

    ghost Value = { StreamState S };

    ghost view = { λ s. record { stream = s.stream; faults = s.faults } };
}

impl<S: Read> RealSource<S> {
    /// No read has failed yet.
    pub fn new(stream: S) -> RealSource<S>
        ensures { result ≡ record { stream = stream; faults = 0 } }
    {
        RealSource { stream, faults: 0 }
    }
}

impl<S: Read> Source for RealSource<S> {
    ghost use Rattle.std.specs.Prelude.{None};

    ghost holds = { λ _. None };

    ghost faults = { λ source. source.faults };

    fn read(&mut self, into: &mut [u8]) -> Result<usize, Failed>
        ensures fits { IfOk result (λ n. n ≤ length into.old) }
        ensures cause { HasCause self.old.faults self.new.faults result }

        // Where the stream tells its bytes, these were read.
        ensures bytes { ReadConsumes (S.remaining self.old.stream) (S.remaining self.new.stream) result into.new }
    {
        match read_once(&mut self.stream, into) {
            Some(count) => Ok(count),
            None => {
                self.faults = self.faults.saturating_add(1);
                Err(Failed)
            }
        }
    }
}
