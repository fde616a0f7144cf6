ghost use Rattle.std.specs.Prelude.{◌≡◌};
ghost use Rattle.channel_msgs.specs.View.{request_view};
ghost use Rattle.worker_requests.specs.Methods.{asked_of, needed, router_id, transport_ids, producer_ids, consumer_ids};

use crate::refusal::Refusal;
use channel_msgs::{Ids, Request};
use ms_base::Id;

/// The ids of a transport: its Router's and its own.
#[derive(Clone, Copy, Debug, PartialEq, Eq)]
pub struct TransportIds {
    pub router: Id,
    pub transport: Id,
}

/// The ids of a Producer: those of its Router and its transport, and its own.
#[derive(Clone, Copy, Debug, PartialEq, Eq)]
pub struct ProducerIds {
    pub router: Id,
    pub transport: Id,
    pub producer: Id,
}

/// The ids of a Consumer: those of its Router, its transport and its Producer, and its own.
#[derive(Clone, Copy, Debug, PartialEq, Eq)]
pub struct ConsumerIds {
    pub router: Id,
    pub transport: Id,
    pub producer: Id,
    pub consumer: Id,
}

/// A method, with the ids that `internal` has to name for it.
#[derive(Clone, Copy, Debug, PartialEq, Eq)]
pub enum Asked {
    CreateRouter(Id),
    CloseRouter(Id),
    CreatePlainTransport(TransportIds),
    CreatePipeTransport(TransportIds),
    CreateDirectTransport(TransportIds),
    CloseTransport(TransportIds),
    Connect(TransportIds),
    Produce(ProducerIds),
    Consume(ConsumerIds),
    CloseProducer(ProducerIds),
    PauseProducer(ProducerIds),
    ResumeProducer(ProducerIds),
    CloseConsumer(ConsumerIds),
    PauseConsumer(ConsumerIds),
    ResumeConsumer(ConsumerIds),
}

/// The method of a request, with its ids. `Method` comes exactly where the table has no such method, and else
/// `Internal` exactly where an id that its row names isn't there.
#[tactic(auto, unfolding(crate::specs::Methods::methods))]
pub fn read_asked(request: &Request) -> Result<Asked, Refusal>
    ensures { result ≡ asked_of (request_view request.now) }
{
    let ids = &request.ids;
    match request.method.as_str() {
        "worker.createRouter" => Ok(Asked::CreateRouter(router_id(ids)?)),
        "router.close" => Ok(Asked::CloseRouter(router_id(ids)?)),
        "router.createPlainTransport" => Ok(Asked::CreatePlainTransport(transport_ids(ids)?)),
        "router.createPipeTransport" => Ok(Asked::CreatePipeTransport(transport_ids(ids)?)),
        "router.createDirectTransport" => Ok(Asked::CreateDirectTransport(transport_ids(ids)?)),
        "transport.close" => Ok(Asked::CloseTransport(transport_ids(ids)?)),
        "transport.connect" => Ok(Asked::Connect(transport_ids(ids)?)),
        "transport.produce" => Ok(Asked::Produce(producer_ids(ids)?)),
        "transport.consume" => Ok(Asked::Consume(consumer_ids(ids)?)),
        "producer.close" => Ok(Asked::CloseProducer(producer_ids(ids)?)),
        "producer.pause" => Ok(Asked::PauseProducer(producer_ids(ids)?)),
        "producer.resume" => Ok(Asked::ResumeProducer(producer_ids(ids)?)),
        "consumer.close" => Ok(Asked::CloseConsumer(consumer_ids(ids)?)),
        "consumer.pause" => Ok(Asked::PauseConsumer(consumer_ids(ids)?)),
        "consumer.resume" => Ok(Asked::ResumeConsumer(consumer_ids(ids)?)),
        _ => Err(Refusal::Method),
    }
}

// An id that has to be there.
fn needed(id: Option<Id>) -> Result<Id, Refusal>
    ensures { result ≡ needed id }
{
    id.ok_or(Refusal::Internal)
}

#[tactic(auto, unfolding(crate::specs::Methods::router_id))]
fn router_id(ids: &Ids) -> Result<Id, Refusal>
    ensures { result ≡ router_id ids.now }
{
    needed(ids.router)
}

#[tactic(auto, unfolding(crate::specs::Methods::transport_ids))]
fn transport_ids(ids: &Ids) -> Result<TransportIds, Refusal>
    ensures { result ≡ transport_ids ids.now }
{
    let router = needed(ids.router)?;
    let transport = needed(ids.transport)?;
    Ok(TransportIds { router, transport })
}

#[tactic(auto, unfolding(crate::specs::Methods::producer_ids))]
fn producer_ids(ids: &Ids) -> Result<ProducerIds, Refusal>
    ensures { result ≡ producer_ids ids.now }
{
    let TransportIds { router, transport } = transport_ids(ids)?;
    let producer = needed(ids.producer)?;
    Ok(ProducerIds {
        router,
        transport,
        producer,
    })
}

#[tactic(auto, unfolding(crate::specs::Methods::consumer_ids))]
fn consumer_ids(ids: &Ids) -> Result<ConsumerIds, Refusal>
    ensures { result ≡ consumer_ids ids.now }
{
    let ProducerIds {
        router,
        transport,
        producer,
    } = producer_ids(ids)?;
    let consumer = needed(ids.consumer)?;
    Ok(ConsumerIds {
        router,
        transport,
        producer,
        consumer,
    })
}
