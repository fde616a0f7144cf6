//! Packets of a Router.

ghost use Rattle.std.specs.Prelude.{◌≡◌, ◌<◌, ◌≤◌, ◌+◌, ◌^◌, length, take, drop, is_some, true, option_map, option_and_then, IfSome, IfNone};
ghost use Rattle.rtp_packet.specs.Packet.{IsPacket};
ghost use Rattle.rtp_packet.specs.Fault.{Parses};
ghost use Rattle.worker_router.specs.State.{consumer_of, producer_of};
ghost use Rattle.worker_router.specs.Calls.{behind_pass, consumer_at, passed_for, remote_at, receiver, receives};

use crate::router::WorkerRouter;
use crate::ssrcs::owner;
use ms_base::{Id, Tuple};
use rtp_extension::Mapped;
use rtp_packet::{Packet, View};

/// What a Consumer has done with a packet of its Producer's.
#[derive(Clone, Copy, Debug, PartialEq, Eq)]
pub struct Passed {
    pub consumer: Id,
    pub transport: Id,
    /// The tuple of the transport's other end, once it is set.
    pub remote: Option<Tuple>,
    /// How many bytes the Consumer sends on, if it does.
    pub length: Option<usize>,
    /// What was noted at the Consumer, if anything was: 0 at first.
    pub noted: usize,
}

impl WorkerRouter {
    /// The Producer of a transport that a packet is one of: that whose [`WorkerRouter::receive`] tells what it is mapped to.
    pub fn producer_of(&self, transport: Id, view: &View<'_>) -> Option<Id>
        ensures { result ≡ option_map (λ p. p.id) (receiver self.now transport view.now) }
    {
        let Some(id) = owner(&self.ssrcs, transport, view.ssrc()) else {
            return None;
        };
        if self.receive(id, view).is_none() {
            return None;
        }
        Some(id)
    }

    /// What a Producer says of a packet, if it is there and the packet is one of its own.
    pub fn receive(&self, producer: Id, view: &View<'_>) -> Option<Mapped>
        ensures received { result ≡ option_and_then (receives view.now) (producer_of self.now producer) }
        ensures fits { IfSome result (λ m. m.payload_type < 128) }
    {
        let mut place = self.served;
        let feed = self.producers.get_near(producer, &mut place)?;
        feed.receive(view)
    }

    /// Gives the Consumer at a place among those of a Producer, from 0 in order of making, a packet, and writes what it
    /// sends on over the front of `into`. `mapped` is what the Producer says of the packet, which was read already. `None`
    /// comes exactly where there is no such place. Where nothing is sent on, nothing is written. No memory is taken.
    pub fn pass_to(
        &mut self,
        producer: Id,
        place: usize,
        mapped: Mapped,
        view: &View<'_>,
        packet: &[u8],
        into: &mut [u8],
    ) -> Option<Passed>
        requires read { IsPacket view.now packet.now }
        requires payload_type { mapped.payload_type < 128 }
        requires room { length packet.now ≤ length into.old }
        ensures to { option_map (λ p. (p.consumer, p.transport)) result ≡ consumer_at self.old producer place }
        ensures remote { IfSome result (λ p. p.remote ≡ remote_at self.old p.transport) }
        ensures packet { IfSome result (λ p. option_map (λ n. take n into.new) p.length ≡ passed_for self.old p.consumer mapped packet.now) }
        ensures state { IfSome result (λ p. self.new ≡ behind_pass self.old p.consumer mapped packet.now) }
        ensures none { IfNone result (self.new ≡ self.old) }
        ensures no_longer { IfSome (option_and_then (λ p. p.length) result) (λ n. n ≤ length packet.now) }
        ensures rest { IfSome (option_and_then (λ p. p.length) result) (λ n. drop n into.new ≡ drop n into.old) }
        ensures untouched { IfNone (option_and_then (λ p. p.length) result) (into.new ≡ into.old) }
        // There is a next place.
        ensures more { IfSome result (λ _. place + 1 < 2 ^ 64) }
    {
        let feed = self.producers.get_near(producer, &mut self.served)?;
        let to = feed.consumer_at(place)?;
        let consumer = to.consumer();
        let transport = to.transport();
        let stood = to.stands();
        let mut stands = stood;
        let length = self.consumers.pass(
            consumer,
            &mut stands.consumer,
            mapped,
            feed.ids(),
            view,
            packet,
            into,
        );
        let remote = self.transports.remote(transport, &mut stands.transport);
        self.producers.note_move(producer, place, stood, stands);
        Some(Passed {
            consumer,
            transport,
            remote,
            length,
            noted: stood.noted,
        })
    }

    /// Notes a number at the Consumer at a place among those of a Producer, for whoever passes packets to it: where that
    /// looks for something first, say. Contracts don't see it.
    pub fn note(&mut self, producer: Id, place: usize, number: usize)
        ensures { self.new ≡ self.old }
    {
        self.producers
            .note_number(producer, place, self.served, number);
    }

    /// Writes what a Consumer sends on of a packet over the front of `into`, and gives its length. `mapped` is what its
    /// Producer says of the packet. `None` comes exactly where nothing is sent on; then nothing changes. No memory is taken.
    pub fn pass(
        &mut self,
        consumer: Id,
        mapped: Mapped,
        packet: &[u8],
        into: &mut [u8],
    ) -> Option<usize>
        requires there { is_some (consumer_of self.old consumer) ≡ true }
        requires parses { Parses packet.now }
        requires payload_type { mapped.payload_type < 128 }
        requires room { length packet.now ≤ length into.old }
        ensures packet { option_map (λ n. take n into.new) result ≡ passed_for self.old consumer mapped packet.now }
        ensures state { self.new ≡ behind_pass self.old consumer mapped packet.now }
        ensures no_longer { IfSome result (λ n. n ≤ length packet.now) }
        ensures rest { IfSome result (λ n. drop n into.new ≡ drop n into.old) }
        ensures untouched { IfNone result (into.new ≡ into.old) }
    {
        match Packet::parse(packet) {
            Ok(view) => self.pass_view(consumer, mapped, &view, packet, into),
            Err(_) => unreachable!(),
        }
    }

    // The same of a packet that was read.
    fn pass_view(
        &mut self,
        consumer: Id,
        mapped: Mapped,
        view: &View<'_>,
        packet: &[u8],
        into: &mut [u8],
    ) -> Option<usize>
        requires there { is_some (consumer_of self.old consumer) ≡ true }
        requires read { IsPacket view.now packet.now }
        requires payload_type { mapped.payload_type < 128 }
        requires room { length packet.now ≤ length into.old }
        ensures packet { option_map (λ n. take n into.new) result ≡ passed_for self.old consumer mapped packet.now }
        ensures state { self.new ≡ behind_pass self.old consumer mapped packet.now }
        ensures no_longer { IfSome result (λ n. n ≤ length packet.now) }
        ensures rest { IfSome result (λ n. drop n into.new ≡ drop n into.old) }
        ensures untouched { IfNone result (into.new ≡ into.old) }
    {
        let Some(found) = self.consumers.get(consumer) else {
            unreachable!()
        };
        let Some(feed) = self.producers.get(found.producer()) else {
            unreachable!()
        };
        let mut place = 0;
        let ids = feed.ids();
        self.consumers
            .pass(consumer, &mut place, mapped, ids, view, packet, into)
    }
}
