//! The kinds of transports.

ghost use Rattle.std.specs.Prelude.{◌≡◌, Some, None, OnOk, OnErr, if◌then◌else◌};
ghost use Rattle.worker_router.specs.State.{is_connected, remote_of};
ghost use Rattle.worker_router.specs.Calls.{accept_by, heard_from, is_learnt, is_of_kind, is_to_be_told, told};
ghost use Rattle.worker_router.specs.Tables.{checked};
ghost use Rattle.worker_router.specs.declared.fault.RouterFault.TheVariants as fault;

use crate::fault::RouterFault;
use inner_transports::{DirectTransport, PipeTransport};
use ms_base::{Kind, Tuple};
use plain_transport::{Accept, PlainTransport};

/// A transport of any kind.
#[derive(Debug, Drop)]
pub enum Transport {
    Plain(PlainTransport),
    Pipe(PipeTransport),
    Direct(DirectTransport),
}

impl Transport {
    /// Whether it would take a tuple that it is told.
    pub(crate) fn can_connect(&self) -> bool
        ensures { result ≡ is_to_be_told self.now }
    {
        match self {
            Transport::Plain(plain) => plain.can_connect(),
            Transport::Pipe(pipe) => pipe.remote().is_none(),
            Transport::Direct(_) => false,
        }
    }

    /// Tells the tuple of its other end. `State` comes exactly where it isn't told one, or not any more; it is then as it
    /// was.
    pub(crate) fn tell(&mut self, to: Tuple) -> Result<(), RouterFault>
        ensures fault { result ≡ checked (if is_to_be_told self.old then None else Some fault.State) }
        ensures ok { OnOk result (self.new ≡ told to self.old) }
        ensures err { OnErr result (self.new ≡ self.old) }
    {
        let told = match self {
            Transport::Plain(plain) => plain.connect(to).is_ok(),
            Transport::Pipe(pipe) => pipe.connect(to).is_ok(),
            Transport::Direct(_) => false,
        };
        if told {
            Ok(())
        } else {
            Err(RouterFault::State)
        }
    }

    /// Whether a packet from this tuple is taken.
    pub(crate) fn accepts(&mut self, from: Tuple) -> Accept
        ensures answer { result ≡ accept_by self.old from }
        ensures state { self.new ≡ (if is_learnt (Some result) then heard_from from self.old else self.old) }
    {
        match self {
            Transport::Plain(plain) => plain.accepts(from),
            Transport::Pipe(pipe) => pipe.accepts(from),
            Transport::Direct(_) => Accept::No,
        }
    }

    /// The tuple of its other end, once it is set.
    pub(crate) fn remote(&self) -> Option<Tuple>
        ensures { result ≡ remote_of self.now }
    {
        match self {
            Transport::Plain(plain) => plain.remote(),
            Transport::Pipe(pipe) => pipe.remote(),
            Transport::Direct(_) => None,
        }
    }

    /// Whether it is connected: a direct one always is.
    pub(crate) fn is_connected(&self) -> bool
        ensures { result ≡ is_connected self.now }
    {
        match self {
            Transport::Plain(plain) => plain.remote().is_some(),
            Transport::Pipe(pipe) => pipe.remote().is_some(),
            Transport::Direct(_) => true,
        }
    }

    /// Whether it is of this kind.
    pub(crate) fn is_of_kind(&self, kind: Kind) -> bool
        ensures { result ≡ is_of_kind kind self.now }
    {
        match self {
            Transport::Plain(_) => kind == Kind::Plain,
            Transport::Pipe(_) => kind == Kind::Pipe,
            Transport::Direct(_) => kind == Kind::Direct,
        }
    }
}
