//! What a packet does in one Router of a worker.

ghost use Rattle.std.specs.Prelude.{◌≡◌, ◌≤◌, ◌<◌, ◌+◌, ◌^◌, length, take, slice_get, option_map, IfSome, IfNone};
ghost use Rattle.worker_engine.specs.Forwarding.{behind_one, passed_one, remote_in, targets};
ghost use Rattle.worker_engine.specs.Packets.{max_packet, accept_in, heard_at};

use crate::incoming::Incoming;
use ms_base::{Id, Tuple};
use plain_transport::Accept;
use worker_calls::{Place, Worker};
use worker_router::Passed;

/// Whether a transport takes what comes from a tuple; it may learn the tuple by it. `None` comes exactly where there is
/// no such transport.
pub(crate) fn accept(worker: &mut Worker, at: Place, from: Tuple) -> Option<Accept>
    ensures answer { result ≡ accept_in worker.old at from }
    ensures state { worker.new ≡ heard_at worker.old at from }
{
    worker.routers_differ();
    let router = worker.router_mut(at.router)?;
    router.accepts(at.transport, from).ok()
}

/// Gives the Consumer at a place among those of the Producer the packet, and writes what it passes on, if it does, over
/// the front of `into`. `None` comes exactly where there is no such place.
pub(crate) fn pass_to(
    worker: &mut Worker,
    incoming: &Incoming<'_>,
    place: usize,
    into: &mut [u8],
) -> Option<Passed>
    requires room { max_packet ≤ length into.old }
    ensures to { option_map (λ p. (p.consumer, p.transport)) result ≡ slice_get (targets incoming.now worker.old) place }
    ensures remote { IfSome result (λ p. p.remote ≡ remote_in worker.old (record { router = incoming.now.router; transport = p.transport })) }
    ensures packet { IfSome result (λ p. option_map (λ n. take n into.new) p.length ≡ passed_one incoming.now p.consumer worker.old) }
    ensures state { IfSome result (λ p. worker.new ≡ behind_one incoming.now p.consumer worker.old) }
    ensures none { IfNone result (worker.new ≡ worker.old) }
    ensures limit { IfSome result (λ p. IfSome p.length (λ n. n ≤ max_packet)) }
    ensures more { IfSome result (λ _. place + 1 < 2 ^ 64) }
{
    worker.routers_differ();
    let router = worker.router_mut(incoming.router)?;
    router.pass_to(
        incoming.producer,
        place,
        incoming.mapped,
        incoming.view,
        incoming.packet,
        into,
    )
}

/// Notes a number at the Consumer at a place among those of the Producer.
pub(crate) fn note(worker: &mut Worker, incoming: &Incoming<'_>, place: usize, number: usize)
    ensures { worker.new ≡ worker.old }
{
    worker.routers_differ();
    let Some(router) = worker.router_mut(incoming.router) else {
        return;
    };
    router.note(incoming.producer, place, number);
}
