ghost use Rattle.std.specs.Prelude.{◌≡◌};
ghost use Rattle.worker_calls.specs.Sockets.{transport_to_be};
ghost use Rattle.worker_calls.specs.Requests.{bound_answer};

use crate::change::Change;
use crate::place::Place;
use inner_transports::PipeTransport;
use ms_base::Tuple;
use plain_transport::PlainTransport;
use std::marker::Model;
use worker_requests::{Accepted, Refusal};
use worker_router::Transport;

/// The kinds of transports that have a socket.
#[derive(Clone, Copy, Debug, PartialEq, Eq)]
pub(crate) enum Socketed {
    Plain { comedia: bool },
    Pipe,
}

impl Socketed {
    /// The transport, before any call.
    pub(crate) fn transport(self) -> Transport
        ensures { result ≡ transport_to_be self }
    {
        match self {
            Socketed::Plain { comedia } => Transport::Plain(PlainTransport::new(comedia)),
            Socketed::Pipe => Transport::Pipe(PipeTransport::new()),
        }
    }
}

/// A transport that is made once its link is bound.
#[derive(Debug, Drop)]
pub(crate) struct Waiting {
    pub(crate) link: u32,
    /// The request that asked for it.
    pub(crate) request: u32,
    pub(crate) place: Place,
    pub(crate) transport: Socketed,
    /// The address that it listens on.
    pub(crate) ip: [u8; 4],
}

impl Model for Waiting {
    ghost use Rattle.worker_calls.specs.State.{Waiting as ToBeBound};
    ghost use Rattle.worker_calls.specs.Sockets.{transport_to_be};

    ghost Value = { ToBeBound };

    ghost view = { λ w. record { link = w.link; request = w.request; place = w.place; transport = transport_to_be w.transport; ip = w.ip } };
}

impl Waiting {
    pub(crate) fn request(&self) -> u32
        ensures { result ≡ self.now.request }
    {
        self.request
    }

    pub(crate) fn link(&self) -> u32
        ensures { result ≡ self.now.link }
    {
        self.link
    }

    /// What the reply tells, with the port that its link was bound to, or none.
    pub(crate) fn answer(&self, port: Option<u16>) -> Result<Accepted, Refusal>
        ensures { result ≡ bound_answer self.now port }
    {
        match port {
            Some(port) => Ok(Accepted::Local(Tuple { ip: self.ip, port })),
            None => Err(Refusal::Link),
        }
    }

    /// What is changed once its link is bound.
    pub(crate) fn stand(&self) -> Change
        ensures { result ≡ Change.Stand self.now.link self.now.place self.now.transport }
    {
        Change::Stand {
            link: self.link,
            place: self.place,
            transport: self.transport.transport(),
        }
    }
}
