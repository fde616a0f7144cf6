//! What a request comes to: what is changed by it and what goes out, before anything is done.

ghost use Rattle.std.specs.Prelude.{◌≡◌, Some, Err, Ok, IfOk, option_map, [], ◌∷◌};
ghost use Rattle.serde_json.specs.View.{view};
ghost use Rattle.channel_msgs.specs.View.{request_view};
ghost use Rattle.worker_calls.specs.Plans.{IsPlan, Plans, IsPlanBound, IsPossible, found_at, changed};
ghost use Rattle.worker_calls.specs.Requests.{performed, comes_to, standing_router, standing_transport, standing_producer, standing_consumer, create_router, close_router};

use crate::acts::Acts;
use crate::change::Change;
use crate::fault::Fault;
use crate::place::Span;
use crate::worker::Worker;
use channel_msgs::Request;
use ms_base::{Id, Kind, NoMemory};
use serde_json::Value;
use worker_requests::{
    Accepted, Asked, ConsumerIds, ProducerIds, Refusal, TransportIds, read_asked,
};
use worker_router::WorkerRouter;

/// What is changed, and what goes out.
#[derive(Debug, Drop)]
pub(crate) struct Plan {
    pub(crate) change: Change,
    pub(crate) acts: Acts,
}

impl Worker {
    /// What a request comes to.
    pub(crate) fn plan(&self, request: &Request) -> Result<Plan, NoMemory>
        ensures { IfOk result (λ p. IsPlan p self.now request.now.id (comes_to self.now (request_view request.now))) }
    {
        match self.decide(request) {
            Ok(plan) => Ok(plan),
            Err(Fault::Refused(why)) => self.refuse(request.id, why),
            Err(Fault::NoMemory) => Err(NoMemory),
        }
    }

    /// What the end of a wait comes to.
    pub(crate) fn plan_bound(&self, port: Option<u16>) -> Result<Plan, NoMemory>
        ensures { IfOk result (λ p. IsPlanBound p self.now port) }
    {
        let mut acts = Acts::new(self.alloc);
        let Some(waiting) = &self.waiting else {
            return Ok(Plan {
                change: Change::Nothing,
                acts,
            });
        };
        acts.answer(waiting.request(), waiting.answer(port))?;
        let change = match port {
            Some(_) => waiting.stand(),
            None => Change::Forget,
        };
        Ok(Plan { change, acts })
    }

    // The request is refused, and nothing else happens.
    fn refuse(&self, request: u32, why: Refusal) -> Result<Plan, NoMemory>
        ensures { IfOk result (λ p. IsPlan p self.now request (Err why)) }
    {
        let mut acts = Acts::new(self.alloc);
        acts.answer(request, Err(why))?;
        Ok(Plan {
            change: Change::Nothing,
            acts,
        })
    }

    #[tactic(auto, unfolding(crate::specs::Requests::comes_to))]
    fn decide(&self, request: &Request) -> Result<Plan, Fault>
        ensures { Plans result self.now request.now.id (comes_to self.now (request_view request.now)) }
    {
        let asked = read_asked(request)?;
        self.perform(request.id, request.content.as_ref(), asked)
    }

    #[tactic(auto, unfolding(crate::specs::Requests::performed))]
    fn perform(&self, request: u32, content: Option<&Value>, asked: Asked) -> Result<Plan, Fault>
        ensures { Plans result self.now request (performed self.now request (option_map (λ v. view v.now) content.entry) asked) }
    {
        match asked {
            Asked::CreateRouter(id) => self.create_router(request, id),
            Asked::CloseRouter(id) => self.close_router(request, id),
            Asked::CreatePlainTransport(ids) => self.create_plain(request, content, ids),
            Asked::CreatePipeTransport(ids) => self.create_pipe(request, content, ids),
            Asked::CreateDirectTransport(ids) => self.create_direct(request, content, ids),
            Asked::CloseTransport(ids) => self.close_transport(request, ids),
            Asked::Connect(ids) => self.connect(request, content, ids),
            Asked::Produce(ids) => self.produce(request, content, ids),
            Asked::Consume(ids) => self.consume(request, content, ids),
            Asked::CloseProducer(ids) => self.close_producer(request, ids),
            Asked::PauseProducer(ids) => self.pause_producer(request, true, ids),
            Asked::ResumeProducer(ids) => self.pause_producer(request, false, ids),
            Asked::CloseConsumer(ids) => self.close_consumer(request, ids),
            Asked::PauseConsumer(ids) => self.pause_consumer(request, true, ids),
            Asked::ResumeConsumer(ids) => self.pause_consumer(request, false, ids),
        }
    }

    /// The change is made, behind these acts the reply tells of it.
    pub(crate) fn accept(
        &self,
        request: u32,
        mut acts: Acts,
        change: Change,
        told: Accepted,
    ) -> Result<Plan, Fault>
        requires { IsPossible change self.now }
        ensures { Plans result self.now request (Ok (record { worker = changed change self.now; acts = acts; reply = Some told })) }
    {
        acts.answer(request, Ok(told))?;
        Ok(Plan { change, acts })
    }

    /// The change is made, and the reply alone tells of it.
    pub(crate) fn accept_alone(
        &self,
        request: u32,
        change: Change,
        told: Accepted,
    ) -> Result<Plan, Fault>
        requires { IsPossible change self.now }
        ensures { Plans result self.now request (Ok (record { worker = changed change self.now; acts = []; reply = Some told })) }
    {
        self.accept(request, Acts::new(self.alloc), change, told)
    }
}

// What has to stand.
impl Worker {
    pub(crate) fn standing_router(&self, id: Id) -> Result<&WorkerRouter, Refusal>
        ensures { found_at id result ≡ standing_router self.now id }
    {
        match self.router(id) {
            Some(router) => Ok(router),
            None => Err(Refusal::Missing),
        }
    }

    /// The Router with the transport in it.
    pub(crate) fn standing_transport(&self, ids: TransportIds) -> Result<&WorkerRouter, Refusal>
        ensures { found_at ids.router result ≡ standing_transport self.now ids }
    {
        let router = self.standing_router(ids.router)?;
        if router.has_transport(ids.transport) {
            Ok(router)
        } else {
            Err(Refusal::Missing)
        }
    }

    /// The Router with the transport and the Producer in it.
    pub(crate) fn standing_producer(&self, ids: ProducerIds) -> Result<&WorkerRouter, Refusal>
        ensures { found_at ids.router result ≡ standing_producer self.now ids }
    {
        let router = self.standing_transport(TransportIds {
            router: ids.router,
            transport: ids.transport,
        })?;
        if router.has(Kind::Producer, ids.producer) {
            Ok(router)
        } else {
            Err(Refusal::Missing)
        }
    }

    /// The Router with the transport, the Producer and the Consumer in it.
    pub(crate) fn standing_consumer(&self, ids: ConsumerIds) -> Result<&WorkerRouter, Refusal>
        ensures { found_at ids.router result ≡ standing_consumer self.now ids }
    {
        let router = self.standing_producer(ProducerIds {
            router: ids.router,
            transport: ids.transport,
            producer: ids.producer,
        })?;
        if router.has(Kind::Consumer, ids.consumer) {
            Ok(router)
        } else {
            Err(Refusal::Missing)
        }
    }
}

// Routers.
impl Worker {
    fn create_router(&self, request: u32, id: Id) -> Result<Plan, Fault>
        ensures { Plans result self.now request (create_router self.now id) }
    {
        if self.router(id).is_some() {
            return Err(Fault::Refused(Refusal::Exists));
        }
        self.accept_alone(request, Change::AddRouter(id), Accepted::Done)
    }

    fn close_router(&self, request: u32, id: Id) -> Result<Plan, Fault>
        ensures { Plans result self.now request (close_router self.now id) }
    {
        self.standing_router(id)?;
        let mut acts = Acts::new(self.alloc);
        self.links.shut(Span::Router(id), &mut acts)?;
        self.accept(request, acts, Change::RemoveRouter(id), Accepted::Done)
    }
}
