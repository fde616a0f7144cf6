ghost use Rattle.std.specs.Prelude.{◌≡◌, ◌≢◌, ◌↔◌, Some, None, Err, IsSome, OnOk, OnErr};
ghost use Rattle.plain_transport.specs.declared.accept.Accept.TheVariants.{Yes, No};
ghost use Rattle.plain_transport.specs.declared.fault.PlainFault.TheVariants.{AlreadyConnected};
ghost use Rattle.inner_transports.specs.Pipe.{piped, takes};

use ms_base::Tuple;
use plain_transport::{Accept, PlainFault, PlainTransport};
use std::marker::Model;

/// One end of a pipe between two Routers. Contracts see it as the tuple of the other end, once it is set.
#[derive(Debug, Drop)]
pub struct PipeTransport {
    // It never learns its tuple.
    end: PlainTransport,
}

impl Model for PipeTransport {
    ghost use Rattle.std.specs.Prelude.{◌≡◌, Option, false};
    ghost use Rattle.ms_base.specs.declared.tuple.Tuple.{Tuple};

    ghost Value = { Option Tuple };

    ghost view = { λ t. t.end.remote };

    ghost invariant = { λ t. t.end.comedia ≡ false };
}

impl PipeTransport {
    /// An end without a tuple.
    pub fn new() -> PipeTransport
        ensures { result ≡ None }
    {
        PipeTransport {
            end: PlainTransport::new(false),
        }
    }

    /// Tells the tuple of the other end. A transport that refuses is as it was.
    ///
    /// # Errors
    ///
    /// `AlreadyConnected` exactly where one is set, and no other.
    pub fn connect(&mut self, to: Tuple) -> Result<(), PlainFault>
        ensures already { (result ≡ Err AlreadyConnected) ↔ IsSome self.old }
        ensures alone { OnErr result (result ≡ Err AlreadyConnected) }
        ensures ok { OnOk result (self.new ≡ Some to) }
        ensures err { OnErr result (self.new ≡ self.old) }
        ensures state { self.new ≡ piped self.old to }
    {
        self.end.connect(to)
    }

    /// Whether a packet from this tuple is taken. Nothing is learnt of it.
    pub fn accepts(&mut self, from: Tuple) -> Accept
        ensures yes { (result ≡ Yes) ↔ (self.old ≡ Some from) }
        ensures no { (result ≡ No) ↔ (self.old ≢ Some from) }
        ensures answer { result ≡ takes self.old from }
        ensures state { self.new ≡ self.old }
    {
        self.end.accepts(from)
    }

    /// The tuple of the other end, once it is set.
    pub fn remote(&self) -> Option<Tuple>
        ensures { result ≡ self.now }
    {
        self.end.remote()
    }
}

impl Default for PipeTransport {
    ghost is_default = { λ t. t ≡ None };

    fn default() -> PipeTransport {
        PipeTransport::new()
    }
}
