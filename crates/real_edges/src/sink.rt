ghost use Rattle.std.specs.Prelude.{◌≡◌, ℕ, take, OnOk, OnErr};
ghost use Rattle.std.specs.Io.KnownBytes.{Appends};
ghost use Rattle.ms_devices.specs.Causes.{HasCause};

use crate::stream::write_whole;
use ms_devices::{Failed, Sink};
use std::io::Write;
use std::marker::Model;

/// A stream of the system as a sink. It tells nothing of what it got.
#[derive(Drop)]
pub struct RealSink<W> {
    stream: W,
    // How many writes have failed. It stands still at its type's end.
    faults: u64,
}

impl<W> Model for RealSink<W> {
    ghost use Rattle.real_edges.specs.Edges.{StreamState};

    ghost Value = { StreamState W };

    ghost view = { λ s. record { stream = s.stream; faults = s.faults } };
}

impl<W: Write> RealSink<W> {
    /// No write has failed yet.
    pub fn new(stream: W) -> RealSink<W>
        ensures { result ≡ record { stream = stream; faults = 0 } }
    {
        RealSink { stream, faults: 0 }
    }
}

impl<W: Write> Sink for RealSink<W> {
    ghost use Rattle.std.specs.Prelude.{None};

    ghost got = { λ _. None };

    ghost faults = { λ sink. sink.faults };

    fn write(&mut self, piece: &[u8]) -> Result<(), Failed>
        ensures cause { HasCause self.old.faults self.new.faults result }

        // Where the stream tells its bytes, it got the piece, or a prefix of it with a fault.
        ensures ok { OnOk result (Appends (W.contents self.old.stream) (W.contents self.new.stream) piece.now) }
        ensures err { OnErr result ((k : ℕ) × Appends (W.contents self.old.stream) (W.contents self.new.stream) (take k piece.now)) }
    {
        match write_whole(&mut self.stream, piece) {
            Ok(()) => Ok(()),
            Err(_) => {
                self.faults = self.faults.saturating_add(1);
                Err(Failed)
            }
        }
    }
}
