ghost use Rattle.std.specs.Prelude.{◌≡◌, ◌↔◌, not, is_some, true, false, Some, None, Err, IsSome, OnOk, OnErr};
ghost use Rattle.plain_transport.specs.Connection.{connect_fault_of, unconnected, connected, accept_of, accepted};

use crate::accept::Accept;
use crate::fault::PlainFault;
use ms_base::Tuple;
use std::marker::Model;

/// A transport between a socket and one other end, its tuple, of which packets are taken and to which they are sent.
/// Contracts see it as what is known of that end.
#[derive(Debug, Drop)]
pub struct PlainTransport {
    comedia: bool,
    remote: Option<Tuple>,
}

impl Model for PlainTransport {
    ghost use Rattle.plain_transport.specs.Connection.{Connection};

    ghost Value = { Connection };

    ghost view = { λ t. record { comedia = t.comedia; remote = t.remote } };
}

impl PlainTransport {
    /// A transport without a tuple. With `comedia` it learns it from the first packet, and without it is told.
    pub fn new(comedia: bool) -> PlainTransport
        ensures { result ≡ unconnected comedia }
    {
        PlainTransport {
            comedia,
            remote: None,
        }
    }

    /// Whether it would take a tuple that it is told.
    pub fn can_connect(&self) -> bool
        ensures { result ≡ not (is_some (connect_fault_of self.now)) }
    {
        !self.comedia && self.remote.is_none()
    }

    /// Tells the tuple. A transport that refuses is as it was.
    ///
    /// # Errors
    ///
    /// `NotWithComedia` exactly where the transport learns its tuple; else `AlreadyConnected` exactly where one is set.
    pub fn connect(&mut self, to: Tuple) -> Result<(), PlainFault>
        ensures with_comedia { (result ≡ Err PlainFault.NotWithComedia) ↔ (self.old.comedia ≡ true) }
        ensures already { (result ≡ Err PlainFault.AlreadyConnected) ↔ ((self.old.comedia ≡ false) × IsSome self.old.remote) }
        ensures ok { OnOk result (self.new ≡ record self.old { remote = Some to }) }
        ensures err { OnErr result (self.new ≡ self.old) }
        ensures state { self.new ≡ connected self.old to }
    {
        if self.comedia {
            return Err(PlainFault::NotWithComedia);
        }
        if self.remote.is_some() {
            return Err(PlainFault::AlreadyConnected);
        }
        self.remote = Some(to);
        Ok(())
    }

    /// Whether a packet from this tuple is taken. It is asked of packets that parse alone: with `comedia` and no tuple
    /// this one is set, which `Learnt` tells.
    pub fn accepts(&mut self, from: Tuple) -> Accept
        ensures yes { (result ≡ Accept.Yes) ↔ (self.old.remote ≡ Some from) }
        ensures learnt { (result ≡ Accept.Learnt) ↔ ((self.old.comedia ≡ true) × (self.old.remote ≡ None)) }
        ensures answer { result ≡ accept_of self.old from }
        ensures state { self.new ≡ accepted self.old from }
    {
        if let Some(remote) = self.remote {
            return if remote == from {
                Accept::Yes
            } else {
                Accept::No
            };
        }
        if !self.comedia {
            return Accept::No;
        }
        self.remote = Some(from);
        Accept::Learnt
    }

    /// The tuple, once it is set.
    pub fn remote(&self) -> Option<Tuple>
        ensures { result ≡ self.now.remote }
    {
        self.remote
    }
}
