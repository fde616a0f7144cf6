//! What a request for a Producer or a Consumer comes to.

ghost use Rattle.std.specs.Prelude.{◌≡◌, option_map, IfOk, map};
ghost use Rattle.serde_json.specs.View.{view};
ghost use Rattle.worker_router.specs.Calls.{told_of_producer};
ghost use Rattle.worker_calls.specs.Acts.{pause_acts};
ghost use Rattle.worker_calls.specs.Plans.{Plans};
ghost use Rattle.worker_calls.specs.Requests.{produce, close_producer, pause_producer, consume, close_consumer, pause_consumer};

use crate::acts::{Acts, Event};
use crate::change::{Change, NewConsumer, NewProducer, RouterChange};
use crate::fault::Fault;
use crate::plan::Plan;
use crate::worker::Worker;
use ms_base::{Id, Kind, NoMemory};
use serde_json::Value;
use std::alloc::Global;
use worker_requests::{Accepted, ConsumerIds, ProducerIds, Refusal};
use worker_router::WorkerRouter;

// Producers.
impl Worker {
    pub(crate) fn produce(
        &self,
        request: u32,
        content: Option<&Value>,
        ids: ProducerIds,
    ) -> Result<Plan, Fault>
        ensures { Plans result self.now request (produce self.now (option_map (λ v. view v.now) content.entry) ids) }
    {
        let router = self.standing_router(ids.router)?;
        if !router.has_transport(ids.transport) {
            return Err(Fault::Refused(Refusal::Missing));
        }
        if router.has(Kind::Producer, ids.producer) {
            return Err(Fault::Refused(Refusal::Exists));
        }
        let Some(producer) = NewProducer::read(self.alloc, content)? else {
            return Err(Fault::Refused(Refusal::Data));
        };
        if router.clashes(ids.transport, producer.encodings()) {
            return Err(Fault::Refused(Refusal::Ssrc));
        }
        let told = producer.produced();
        let direct = router.has(Kind::Direct, ids.transport);
        self.accept_alone(request, Change::AddProducer(ids, producer, direct), told)
    }

    pub(crate) fn close_producer(&self, request: u32, ids: ProducerIds) -> Result<Plan, Fault>
        ensures { Plans result self.now request (close_producer self.now ids) }
    {
        let router = self.standing_producer(ids)?;
        let told = told_by_producer(router, ids.producer)?;
        let mut acts = Acts::new(self.alloc);
        acts.tell(Event::Closed, told.as_slice())?;
        self.accept(request, acts, Change::RemoveProducer(ids), Accepted::Done)
    }

    pub(crate) fn pause_producer(
        &self,
        request: u32,
        paused: bool,
        ids: ProducerIds,
    ) -> Result<Plan, Fault>
        ensures { Plans result self.now request (pause_producer self.now paused ids) }
    {
        let router = self.standing_producer(ids)?;
        let Some(was_paused) = router.is_paused(ids.producer) else {
            return Err(Fault::Refused(Refusal::Missing));
        };
        let acts = pause_acts(self.alloc, router, was_paused, paused, ids.producer)?;
        let change = RouterChange::PauseProducer(ids.producer, paused);
        self.accept(
            request,
            acts,
            Change::InRouter(ids.router, change),
            Accepted::Done,
        )
    }
}

// Consumers.
impl Worker {
    pub(crate) fn consume(
        &self,
        request: u32,
        content: Option<&Value>,
        ids: ConsumerIds,
    ) -> Result<Plan, Fault>
        ensures { Plans result self.now request (consume self.now (option_map (λ v. view v.now) content.entry) ids) }
    {
        let router = self.standing_producer(ProducerIds {
            router: ids.router,
            transport: ids.transport,
            producer: ids.producer,
        })?;
        let Some(producer_paused) = router.is_paused(ids.producer) else {
            return Err(Fault::Refused(Refusal::Missing));
        };
        if router.has(Kind::Consumer, ids.consumer) {
            return Err(Fault::Refused(Refusal::Exists));
        }
        let Some(consumer) = NewConsumer::read(self.alloc, content)? else {
            return Err(Fault::Refused(Refusal::Data));
        };
        let told = Accepted::Consumed {
            paused: consumer.is_paused(),
            producer_paused,
        };
        let change = RouterChange::AddConsumer(ids, consumer);
        self.accept_alone(request, Change::InRouter(ids.router, change), told)
    }

    pub(crate) fn close_consumer(&self, request: u32, ids: ConsumerIds) -> Result<Plan, Fault>
        ensures { Plans result self.now request (close_consumer self.now ids) }
    {
        self.standing_consumer(ids)?;
        let change = RouterChange::RemoveConsumer(ids.consumer);
        self.accept_alone(
            request,
            Change::InRouter(ids.router, change),
            Accepted::Done,
        )
    }

    pub(crate) fn pause_consumer(
        &self,
        request: u32,
        paused: bool,
        ids: ConsumerIds,
    ) -> Result<Plan, Fault>
        ensures { Plans result self.now request (pause_consumer self.now paused ids) }
    {
        self.standing_consumer(ids)?;
        let change = RouterChange::PauseConsumer(ids.consumer, paused);
        self.accept_alone(
            request,
            Change::InRouter(ids.router, change),
            Accepted::Done,
        )
    }
}

// The Consumers of a Producer are told where a pause or a resume changes its flag.
fn pause_acts(
    alloc: Global,
    router: &WorkerRouter,
    was_paused: bool,
    paused: bool,
    id: Id,
) -> Result<Acts, NoMemory>
    ensures { IfOk result (λ acts. acts ≡ pause_acts paused was_paused (told_of_producer router.now id)) }
{
    let mut acts = Acts::new(alloc);
    if was_paused != paused {
        let told = told_by_producer(router, id)?;
        acts.tell(Event::paused(paused), told.as_slice())?;
    }
    Ok(acts)
}

// The Consumers that are told of what comes over a Producer that stands.
fn told_by_producer(router: &WorkerRouter, id: Id) -> Result<Vec<Id>, NoMemory>
    ensures { IfOk result (λ ids. ids.items ≡ told_of_producer router.now id) }
{
    router.told_by_producer(id).map_err(|_why| NoMemory)
}
