ghost use Rattle.std.specs.Prelude.{◌≡◌};
ghost use Rattle.request_contents.specs.Methods.{ids_of, method_of, of_consumer, of_producer, of_router, of_transport};

use channel_msgs::Ids;
use ms_base::Id;
use worker_requests::{Asked, ConsumerIds, ProducerIds, TransportIds};

/// The name of the method of a request.
pub fn method_of(asked: &Asked) -> &'static str
    ensures { result.now ≡ method_of asked.now }
{
    match asked {
        Asked::CreateRouter(_) => "worker.createRouter",
        Asked::CloseRouter(_) => "router.close",
        Asked::CreatePlainTransport(_) => "router.createPlainTransport",
        Asked::CreatePipeTransport(_) => "router.createPipeTransport",
        Asked::CreateDirectTransport(_) => "router.createDirectTransport",
        Asked::CloseTransport(_) => "transport.close",
        Asked::Connect(_) => "transport.connect",
        Asked::Produce(_) => "transport.produce",
        Asked::Consume(_) => "transport.consume",
        Asked::CloseProducer(_) => "producer.close",
        Asked::PauseProducer(_) => "producer.pause",
        Asked::ResumeProducer(_) => "producer.resume",
        Asked::CloseConsumer(_) => "consumer.close",
        Asked::PauseConsumer(_) => "consumer.pause",
        Asked::ResumeConsumer(_) => "consumer.resume",
    }
}

/// The ids that a request names: those of the object that it is about and of the objects above that.
pub fn ids_of(asked: &Asked) -> Ids
    ensures { result ≡ ids_of asked.now }
{
    match asked {
        Asked::CreateRouter(id) | Asked::CloseRouter(id) => of_router(*id),
        Asked::CreatePlainTransport(ids)
        | Asked::CreatePipeTransport(ids)
        | Asked::CreateDirectTransport(ids)
        | Asked::CloseTransport(ids)
        | Asked::Connect(ids) => of_transport(*ids),
        Asked::Produce(ids)
        | Asked::CloseProducer(ids)
        | Asked::PauseProducer(ids)
        | Asked::ResumeProducer(ids) => of_producer(*ids),
        Asked::Consume(ids)
        | Asked::CloseConsumer(ids)
        | Asked::PauseConsumer(ids)
        | Asked::ResumeConsumer(ids) => of_consumer(*ids),
    }
}

fn of_router(id: Id) -> Ids
    ensures { result ≡ of_router id }
{
    Ids {
        router: Some(id),
        transport: None,
        producer: None,
        consumer: None,
    }
}

fn of_transport(ids: TransportIds) -> Ids
    ensures { result ≡ of_transport ids }
{
    Ids {
        router: Some(ids.router),
        transport: Some(ids.transport),
        producer: None,
        consumer: None,
    }
}

fn of_producer(ids: ProducerIds) -> Ids
    ensures { result ≡ of_producer ids }
{
    Ids {
        router: Some(ids.router),
        transport: Some(ids.transport),
        producer: Some(ids.producer),
        consumer: None,
    }
}

fn of_consumer(ids: ConsumerIds) -> Ids
    ensures { result ≡ of_consumer ids }
{
    Ids {
        router: Some(ids.router),
        transport: Some(ids.transport),
        producer: Some(ids.producer),
        consumer: Some(ids.consumer),
    }
}
