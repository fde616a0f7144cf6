//! What a request for a transport comes to.

ghost use Rattle.std.specs.Prelude.{◌≡◌, option_map, IfOk};
ghost use Rattle.serde_json.specs.View.{view};
ghost use Rattle.worker_router.specs.Calls.{told_of_transport};
ghost use Rattle.worker_calls.specs.Plans.{Plans, found_at};
ghost use Rattle.worker_calls.specs.Sockets.{transport_to_be};
ghost use Rattle.worker_calls.specs.Requests.{free_for_transport, bind_first, create_plain, create_pipe, create_direct, close_transport, connect};

use crate::acts::{Acts, Event};
use crate::change::{Change, RouterChange};
use crate::fault::Fault;
use crate::place::{Place, Span};
use crate::plan::Plan;
use crate::waiting::{Socketed, Waiting};
use crate::worker::Worker;
use inner_transports::DirectTransport;
use ms_base::{Id, NoMemory};
use serde_json::Value;
use worker_requests::{
    Accepted, Refusal, TransportIds, connect_content, is_direct, pipe_content, plain_content,
};
use worker_router::{Transport, WorkerRouter};

impl Worker {
    pub(crate) fn create_plain(
        &self,
        request: u32,
        content: Option<&Value>,
        ids: TransportIds,
    ) -> Result<Plan, Fault>
        ensures { Plans result self.now request (create_plain self.now request (option_map (λ v. view v.now) content.entry) ids) }
    {
        self.free_for_transport(ids)?;
        let Some(content) = plain_content(content) else {
            return Err(Fault::Refused(Refusal::Data));
        };
        let transport = Socketed::Plain {
            comedia: content.comedia,
        };
        self.bind_first(request, ids, transport, content.ip)
    }

    pub(crate) fn create_pipe(
        &self,
        request: u32,
        content: Option<&Value>,
        ids: TransportIds,
    ) -> Result<Plan, Fault>
        ensures { Plans result self.now request (create_pipe self.now request (option_map (λ v. view v.now) content.entry) ids) }
    {
        self.free_for_transport(ids)?;
        let Some(content) = pipe_content(content) else {
            return Err(Fault::Refused(Refusal::Data));
        };
        self.bind_first(request, ids, Socketed::Pipe, content.ip)
    }

    pub(crate) fn create_direct(
        &self,
        request: u32,
        content: Option<&Value>,
        ids: TransportIds,
    ) -> Result<Plan, Fault>
        ensures { Plans result self.now request (create_direct self.now (option_map (λ v. view v.now) content.entry) ids) }
    {
        self.free_for_transport(ids)?;
        if !is_direct(content) {
            return Err(Fault::Refused(Refusal::Data));
        }
        let change = RouterChange::AddTransport(ids.transport, Transport::Direct(DirectTransport));
        self.accept_alone(
            request,
            Change::InRouter(ids.router, change),
            Accepted::Done,
        )
    }

    pub(crate) fn close_transport(&self, request: u32, ids: TransportIds) -> Result<Plan, Fault>
        ensures { Plans result self.now request (close_transport self.now ids) }
    {
        let router = self.standing_transport(ids)?;
        let told = told_by_transport(router, ids.transport)?;
        let mut acts = Acts::new(self.alloc);
        acts.tell(Event::Closed, told.as_slice())?;
        self.links
            .shut(Span::Transport(Place::new(ids)), &mut acts)?;
        self.accept(request, acts, Change::RemoveTransport(ids), Accepted::Done)
    }

    pub(crate) fn connect(
        &self,
        request: u32,
        content: Option<&Value>,
        ids: TransportIds,
    ) -> Result<Plan, Fault>
        ensures { Plans result self.now request (connect self.now (option_map (λ v. view v.now) content.entry) ids) }
    {
        let router = self.standing_router(ids.router)?;
        let Some(can_connect) = router.can_connect(ids.transport) else {
            return Err(Fault::Refused(Refusal::Missing));
        };
        let Some(to) = connect_content(content) else {
            return Err(Fault::Refused(Refusal::Data));
        };
        if !can_connect {
            return Err(Fault::Refused(Refusal::State));
        }
        let change = RouterChange::Connect(ids.transport, to);
        self.accept_alone(
            request,
            Change::InRouter(ids.router, change),
            Accepted::Remote(to),
        )
    }

    // The Router in which the id of a new transport is free.
    fn free_for_transport(&self, ids: TransportIds) -> Result<&WorkerRouter, Refusal>
        ensures { found_at ids.router result ≡ free_for_transport self.now ids }
    {
        let router = self.standing_router(ids.router)?;
        if router.has_transport(ids.transport) {
            Err(Refusal::Exists)
        } else {
            Ok(router)
        }
    }

    // The link of a transport is bound first, under the next number.
    fn bind_first(
        &self,
        request: u32,
        ids: TransportIds,
        transport: Socketed,
        ip: [u8; 4],
    ) -> Result<Plan, Fault>
        ensures { Plans result self.now request (bind_first self.now request ids (transport_to_be transport) ip) }
    {
        let Some(link) = self.binds.checked_add(1) else {
            return Err(Fault::Refused(Refusal::Link));
        };
        let mut acts = Acts::new(self.alloc);
        acts.bind(link, ip)?;
        let waiting = Waiting {
            link,
            request,
            place: Place::new(ids),
            transport,
            ip,
        };
        Ok(Plan {
            change: Change::Wait(waiting),
            acts,
        })
    }
}

// The Consumers that are told of the close of a transport that stands.
fn told_by_transport(router: &WorkerRouter, id: Id) -> Result<Vec<Id>, NoMemory>
    ensures { IfOk result (λ ids. ids.items ≡ told_of_transport router.now id) }
{
    router.told_by_transport(id).map_err(|_why| NoMemory)
}
