ghost use Rattle.std.specs.Prelude.{◌≡◌};
ghost use Rattle.request_build.specs.Close.{close_asked, consumer_close, producer_close, router_close, transport_close};

use crate::ids::{consumer_ids, parent, producer_ids, transport_ids};
use ms_base::Kind;
use object_tree::{Object, Tree};
use worker_requests::Asked;

/// The request that closes an object in its worker: its method, and the ids that it names. It has no content, makes
/// nothing, and is issued under the object's parent. `None` for a Worker, whose process is stopped instead, and where an
/// object above isn't there. The objects above may be closed.
pub fn build_close(tree: &Tree, object: &Object) -> Option<Asked>
    ensures { result ≡ close_asked tree.now object.now }
{
    match object.kind {
        Kind::Worker => None,
        Kind::Router => router_close(tree, object),
        Kind::Plain | Kind::Pipe | Kind::Direct => transport_close(tree, object),
        Kind::Producer => producer_close(tree, object),
        Kind::Consumer => consumer_close(tree, object),
    }
}

fn router_close(tree: &Tree, router: &Object) -> Option<Asked>
    ensures { result ≡ router_close tree.now router.now }
{
    let _worker = parent(tree, router)?;
    Some(Asked::CloseRouter(router.id))
}

fn transport_close(tree: &Tree, transport: &Object) -> Option<Asked>
    ensures { result ≡ transport_close tree.now transport.now }
{
    let router = parent(tree, transport)?;
    Some(Asked::CloseTransport(transport_ids(router, transport)))
}

fn producer_close(tree: &Tree, producer: &Object) -> Option<Asked>
    ensures { result ≡ producer_close tree.now producer.now }
{
    let transport = parent(tree, producer)?;
    let router = parent(tree, transport)?;
    Some(Asked::CloseProducer(producer_ids(router, transport, producer)))
}

fn consumer_close(tree: &Tree, consumer: &Object) -> Option<Asked>
    ensures { result ≡ consumer_close tree.now consumer.now }
{
    let transport = parent(tree, consumer)?;
    let router = parent(tree, transport)?;
    let producer = tree.get(consumer.producer?)?;
    let ids = consumer_ids(router, transport, producer, consumer);
    Some(Asked::CloseConsumer(ids))
}
