//! A packet on its way from the Producer that received it to this Producer's Consumers.

ghost use Rattle.std.specs.Prelude.{◌≡◌, ◌≤◌, length, option_map, option_and_then};
ghost use Rattle.rtp_packet.specs.Packet.{IsPacket};
ghost use Rattle.worker_router.specs.Calls.{receives};
ghost use Rattle.worker_router.specs.State.{producer_of};
ghost use Rattle.worker_calls.specs.State.{direct_of};
ghost use Rattle.worker_engine.specs.Packets.{max_packet, if_within, received_at_place, received_by_key};
ghost use Rattle.worker_engine.specs.Forwarding.{Serves};

use ms_base::Id;
use rtp_extension::Mapped;
use rtp_packet::View;
use std::marker::Model;
use worker_calls::{Place, Worker};
use worker_router::WorkerRouter;

/// How many bytes a packet has at most.
const MAX_PACKET: usize = 65_535;

/// A packet that a Producer received, with what the Producer says of it. Contracts see it as the ids of the Router and
/// the Producer, what the packet is mapped to, and its bytes.
#[derive(Debug, Drop)]
pub(crate) struct Incoming<'a> {
    pub(crate) router: Id,
    pub(crate) producer: Id,
    pub(crate) mapped: Mapped,
    /// The packet as it was read.
    pub(crate) view: &'a View<'a>,
    /// The packet, within the limit.
    pub(crate) packet: &'a [u8],
}

impl<'a> Model for Incoming<'a> {
    ghost use Rattle.worker_engine.specs.Forwarding.{Incoming as Received, IsIncoming};

    ghost Value = { Received };

    ghost view = { λ i. record { router = i.router; producer = i.producer; mapped = i.mapped; packet = i.packet.now } };

    ghost invariant = { λ i. IsIncoming i.packet.now i.view.now i.mapped };
}

/// What a Producer of the transport receives of a packet that this takes.
pub(crate) fn received_at<'a>(
    worker: &Worker,
    at: Place,
    view: &'a View<'a>,
    packet: &'a [u8],
) -> Option<Incoming<'a>>
    requires { IsPacket view.now packet.now }
    ensures { Serves worker.now (if_within packet.now (received_at_place worker.now at packet.now view.now)) result }
{
    worker.routers_differ();
    let router = worker.router(at.router)?;
    router.ids_differ();
    let producer = router.producer_of(at.transport, view)?;
    received_by(router, at.router, producer, view, packet)
}

/// What the earliest made direct Producer of the id receives of a packet.
pub(crate) fn received_directly<'a>(
    worker: &Worker,
    id: Id,
    view: &'a View<'a>,
    packet: &'a [u8],
) -> Option<Incoming<'a>>
    requires { IsPacket view.now packet.now }
    ensures { Serves worker.now (if_within packet.now (option_and_then (λ key. received_by_key worker.now packet.now key view.now) (direct_of worker.now id))) result }
{
    worker.routers_differ();
    let (key, producer) = worker.direct_of(id)?;
    let router = worker.router(key)?;
    router.ids_differ();
    received_by(router, key, producer, view, packet)
}

// What a Producer of a Router receives of a packet.
fn received_by<'a>(
    router: &WorkerRouter,
    id: Id,
    producer: Id,
    view: &'a View<'a>,
    packet: &'a [u8],
) -> Option<Incoming<'a>>
    requires { IsPacket view.now packet.now }
    ensures { result ≡ if_within packet.now (option_map (λ m. record { router = id; producer = producer; mapped = m; packet = packet.now }) (option_and_then (receives view.now) (producer_of router.now producer))) }
{
    if packet.len() > MAX_PACKET {
        return None;
    }
    let mapped = router.receive(producer, view)?;
    Some(Incoming {
        router: id,
        producer,
        mapped,
        view,
        packet,
    })
}
