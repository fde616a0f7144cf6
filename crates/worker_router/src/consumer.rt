//! A Consumer.

ghost use Rattle.std.specs.Prelude.{◌≡◌, ◌<◌, ◌≤◌, length, take, drop, Some, option_map, true, false, if◌then◌else◌, IfSome, IfNone};
ghost use Rattle.rtp_packet.specs.Packet.{IsPacket};
ghost use Rattle.simple_consumer.specs.Sending.{offer};
ghost use Rattle.pipe_consumer.specs.Streams.{passed_by};
ghost use Rattle.worker_router.specs.State.{goes_over};
ghost use Rattle.worker_router.specs.Calls.{after_offer, connect_one, pause_one, pause_source_of, set_flags};
ghost use Rattle.worker_router.specs.Tables.{outlet_of};

use crate::by_id::HasId;
use crate::streams::Streams;
use ms_base::Id;
use rtp_extension::{Flags, IdMap, Mapped};
use rtp_packet::View;
use std::marker::Model;

/// What is sent on of a Producer over a transport.
#[derive(Debug, Drop)]
pub(crate) struct Consumer {
    id: Id,
    transport: Id,
    producer: Id,
    flags: Flags,
    streams: Streams,
}

impl Model for Consumer {
    ghost use Rattle.worker_router.specs.State.{Sink};

    ghost Value = { Sink };

    ghost view = { λ c. record {
      id = c.id;
      transport = c.transport;
      producer = c.producer;
      flags = c.flags;
      streams = c.streams;
    } };
}

impl HasId for Consumer {
    ghost id_of = { λ c. c.id };

    fn id(&self) -> Id {
        self.id
    }
}

impl Consumer {
    pub(crate) fn new(
        id: Id,
        transport: Id,
        producer: Id,
        flags: Flags,
        streams: Streams,
    ) -> Consumer
        ensures { result ≡ record { id = id; transport = transport; producer = producer; flags = flags; streams = streams } }
    {
        Consumer {
            id,
            transport,
            producer,
            flags,
            streams,
        }
    }

    pub(crate) fn transport(&self) -> Id
        ensures { result ≡ self.now.transport }
    {
        self.transport
    }

    pub(crate) fn producer(&self) -> Id
        ensures { result ≡ self.now.producer }
    {
        self.producer
    }

    fn set_flags(&mut self, flags: Flags)
        ensures { self.new ≡ set_flags self.old flags }
    {
        self.flags = flags;
        self.streams.set_flags(flags);
    }

    /// Connects it, if it goes over this transport.
    pub(crate) fn connect_over(&mut self, transport: Id)
        ensures state { self.new ≡ (if goes_over transport self.old then connect_one self.old else self.old) }
        ensures outlet { outlet_of self.new ≡ outlet_of self.old }
    {
        if self.transport == transport {
            self.set_flags(Flags {
                connected: true,
                ..self.flags
            });
        }
    }

    /// Tells it that its Producer is paused or not.
    pub(crate) fn pause_source(&mut self, paused: bool)
        ensures state { self.new ≡ pause_source_of paused self.old }
        ensures outlet { outlet_of self.new ≡ outlet_of self.old }
    {
        self.set_flags(Flags {
            producer_paused: paused,
            ..self.flags
        });
    }

    /// Pauses or resumes it.
    pub(crate) fn pause(&mut self, paused: bool)
        ensures state { self.new ≡ pause_one paused self.old }
        ensures outlet { outlet_of self.new ≡ outlet_of self.old }
    {
        self.set_flags(Flags {
            paused,
            ..self.flags
        });
    }

    /// Writes what is sent on of a packet that was read, as [`Streams::pass`] does.
    pub(crate) fn pass(
        &mut self,
        mapped: Mapped,
        ids: &IdMap,
        view: &View<'_>,
        packet: &[u8],
        into: &mut [u8],
    ) -> Option<usize>
        requires read { IsPacket view.now packet.now }
        requires payload_type { mapped.payload_type < 128 }
        requires room { length packet.now ≤ length into.old }
        ensures packet { option_map (λ n. take n into.new) result ≡ passed_by self.old.streams (offer mapped ids.now packet.now) }
        ensures state { self.new ≡ after_offer (Some (offer mapped ids.now packet.now)) self.old }
        ensures outlet { outlet_of self.new ≡ outlet_of self.old }
        ensures no_longer { IfSome result (λ n. n ≤ length packet.now) }
        ensures rest { IfSome result (λ n. drop n into.new ≡ drop n into.old) }
        ensures untouched { IfNone result (into.new ≡ into.old) }
    {
        self.streams.pass(mapped, ids, view, packet, into)
    }
}
