//! The transports of a Router.

ghost use Rattle.std.specs.Prelude.{◌≡◌, find, Some, None, OnOk, OnErr, if◌then◌else◌, option_map, option_and_then};
ghost use Rattle.worker_router.specs.State.{remote_of, same_id};
ghost use Rattle.worker_router.specs.Calls.{accept_by, change, connect_fault_at, heard_from, is_learnt, told};
ghost use Rattle.worker_router.specs.Tables.{checked};

use crate::by_id::{ById, HasId};
use crate::fault::RouterFault;
use crate::transport::Transport;
use ms_base::{Id, Tuple};
use plain_transport::Accept;
use std::marker::Model;

/// A transport with its id.
#[derive(Debug, Drop)]
pub(crate) struct TransportAt {
    pub(crate) id: Id,
    pub(crate) transport: Transport,
}

impl Model for TransportAt {
    ghost use Rattle.worker_router.specs.State.{TransportAt as At};

    ghost Value = { At };

    ghost view = { λ t. record { id = t.id; transport = t.transport } };
}

impl HasId for TransportAt {
    ghost id_of = { λ t. t.id };

    fn id(&self) -> Id {
        self.id
    }
}

impl TransportAt {
    pub(crate) fn new(id: Id, transport: Transport) -> TransportAt
        ensures { result ≡ record { id = id; transport = transport } }
    {
        TransportAt { id, transport }
    }

    pub(crate) fn transport(&self) -> &Transport
        ensures { result.now ≡ self.now.transport }
    {
        &self.transport
    }

    fn tell(&mut self, to: Tuple) -> Result<(), RouterFault>
        ensures fault { result ≡ checked (connect_fault_at (Some self.old)) }
        ensures ok { OnOk result (self.new ≡ record self.old { transport = told to self.old.transport }) }
        ensures err { OnErr result (self.new ≡ self.old) }
    {
        self.transport.tell(to)
    }

    fn accepts(&mut self, from: Tuple) -> Accept
        ensures answer { result ≡ accept_by self.old.transport from }
        ensures state { self.new ≡ (if is_learnt (Some result) then record self.old { transport = heard_from from self.old.transport } else self.old) }
    {
        self.transport.accepts(from)
    }
}

impl ById<TransportAt> {
    /// Tells a transport the tuple of its other end.
    pub(crate) fn tell(&mut self, id: Id, to: Tuple) -> Result<(), RouterFault>
        ensures fault { result ≡ checked (connect_fault_at (find (λ t. same_id t.id id) self.old)) }
        ensures ok { OnOk result (self.new ≡ change (λ t. same_id t.id id) (λ t. record t { transport = told to t.transport }) self.old) }
        ensures err { OnErr result (self.new ≡ self.old) }
    {
        let Some(transport) = self.items.get_mut(&id.0) else {
            return Err(RouterFault::Missing);
        };
        transport.tell(to)
    }

    /// The tuple of a transport's other end, once it is set. The transport is looked for at a place first: that is then
    /// where it stands.
    pub(crate) fn remote(&self, id: Id, place: &mut usize) -> Option<Tuple>
        ensures { result ≡ option_and_then (λ t. remote_of t.transport) (find (λ t. same_id t.id id) self.now) }
    {
        self.get_near(id, place)?.transport().remote()
    }

    /// Whether a transport takes a packet from this tuple, if it is there.
    pub(crate) fn accepts(&mut self, id: Id, from: Tuple) -> Option<Accept>
        ensures answer { result ≡ option_map (λ t. accept_by t.transport from) (find (λ t. same_id t.id id) self.old) }
        ensures state { self.new ≡ (if is_learnt result then change (λ t. same_id t.id id) (λ t. record t { transport = heard_from from t.transport }) self.old else self.old) }
    {
        let Some(transport) = self.items.get_mut(&id.0) else {
            return None;
        };
        Some(transport.accepts(from))
    }
}
