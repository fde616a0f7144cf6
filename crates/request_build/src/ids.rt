//! The ids that requests name.

ghost use Rattle.std.specs.Prelude.{◌≡◌, option_copied};
ghost use Rattle.request_build.specs.Asks.{consumer_ids, producer_ids, transport_ids};
ghost use Rattle.request_build.specs.Known.{above};

use object_tree::{Object, Tree};
use worker_requests::{ConsumerIds, ProducerIds, TransportIds};

/// The object that another stands on.
pub(crate) fn parent<'t>(tree: &'t Tree, object: &Object) -> Option<&'t Object>
    ensures { option_copied result ≡ above tree.now object.now }
{
    tree.get(object.parent?)
}

/// The ids of a transport.
pub(crate) fn transport_ids(router: &Object, transport: &Object) -> TransportIds
    ensures { result ≡ transport_ids router.now transport.now }
{
    TransportIds {
        router: router.id,
        transport: transport.id,
    }
}

/// The ids of a Producer.
pub(crate) fn producer_ids(router: &Object, transport: &Object, producer: &Object) -> ProducerIds
    ensures { result ≡ producer_ids router.now transport.now producer.now }
{
    ProducerIds {
        router: router.id,
        transport: transport.id,
        producer: producer.id,
    }
}

/// The ids of a Consumer.
pub(crate) fn consumer_ids(
    router: &Object,
    transport: &Object,
    producer: &Object,
    consumer: &Object,
) -> ConsumerIds
    ensures { result ≡ consumer_ids router.now transport.now producer.now consumer.now }
{
    ConsumerIds {
        router: router.id,
        transport: transport.id,
        producer: producer.id,
        consumer: consumer.id,
    }
}
