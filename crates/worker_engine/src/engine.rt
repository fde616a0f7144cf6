//! A worker without its outside.

ghost use Rattle.std.specs.Prelude.{◌≡◌, ◌++◌, ◌≤◌, map, option_map, option_and_then, option_copied, Some, None, IfOk, OnOk, OnErr};
ghost use Rattle.ms_devices.specs.Causes.{HasCause};
ghost use Rattle.rtp_packet.specs.Packet.{IsPacket};
ghost use Rattle.rtp_params.specs.Readable.{Each};
ghost use Rattle.worker_calls.specs.Acts.{outgoing, IsShort};
ghost use Rattle.worker_calls.specs.Requests.{after_bound, out_bound};
ghost use Rattle.worker_calls.specs.State.{idle, direct_of, place_of};
ghost use Rattle.worker_engine.specs.Forwarding.{after_from, out_by, behind_served, out_served};
ghost use Rattle.worker_engine.specs.Outside.{call_of, Made, StopsAtAFault};
ghost use Rattle.worker_engine.specs.Packets.{accept_in, heard_at, is_taken, told_learnt, if_within, received_by_key, after_received, emissions_of, after_parsed, out_parsed};
ghost use Rattle.worker_engine.specs.Run.{after_payload, out_payload};

use crate::act::PacketFrom;
use crate::forward::{BUFFER, forward, tell_learnt};
use crate::incoming::{Incoming, received_at, received_directly};
use crate::lent::accept;
use channel_msgs::{MessageFault, read_request};
use ms_base::{Id, NoMemory, Tuple};
use ms_devices::{Failed, Outbox};
use plain_transport::Accept;
use rtp_packet::{Packet, View};
use std::alloc::Global;
use std::marker::Model;
use worker_calls::{Act, Place, Worker};

/// A worker without its outside. Contracts see it as what stands in it.
#[derive(Debug, Drop)]
pub struct Engine {
    alloc: Global,
    // Where a frame is written.
    buffer: Vec<u8>,
    worker: Worker,
}

impl Model for Engine {
    ghost use Rattle.std.specs.Prelude.{◌≡◌, length};
    ghost use Rattle.worker_calls.specs.State.{Worker as Standing};

    ghost Value = { Standing };

    ghost view = { λ e. e.worker };

    ghost invariant = { λ e. length e.buffer.items ≡ 65576 };
}

impl Engine {
    /// A worker in which nothing stands yet.
    pub fn new(alloc: Global) -> Result<Engine, NoMemory>
        ensures { IfOk result (λ engine. engine ≡ idle) }
    {
        Ok(Engine {
            alloc,
            buffer: vec![in alloc; 0; BUFFER]?,
            worker: Worker::new(alloc),
        })
    }

    /// Hears a payload that is no packet, and adds what is to be done behind the acts that are there. A request is
    /// carried out or refused, and any other payload is dropped.
    pub fn on_payload(&mut self, payload: &[u8], into: &mut Vec<Act>) -> Result<(), NoMemory>
        ensures state { OnOk result (self.new ≡ after_payload self.old None payload.now) }
        ensures acts { OnOk result (map outgoing into.new.items ≡ map outgoing into.old.items ++ out_payload self.old None payload.now) }
        // What is said is short: it fits into a frame.
        ensures short { OnOk result (Each IsShort (out_payload self.old None payload.now)) }
        // Where memory runs out nothing has changed.
        ensures err { OnErr result (self.new ≡ self.old) }
        ensures err_acts { OnErr result (into.new.items ≡ into.old.items) }
    {
        match read_request(self.alloc, payload) {
            Ok(request) => self.worker.on_request(&request, into),
            Err(MessageFault::Unexpected) => Ok(()),
            Err(MessageFault::NoMemory) => Err(NoMemory),
        }
    }

    /// Hears which port the link has got that waits for one, or that it could not be opened, and adds what is to be
    /// done behind the acts that are there. It is to come before the next payload, as [`Worker::on_bound`] says.
    pub fn on_bound(&mut self, port: Option<u16>, into: &mut Vec<Act>) -> Result<(), NoMemory>
        ensures state { OnOk result (self.new ≡ after_bound self.old port) }
        ensures acts { OnOk result (map outgoing into.new.items ≡ map outgoing into.old.items ++ out_bound self.old port) }
        ensures short { OnOk result (Each IsShort (out_bound self.old port)) }
        ensures err { OnErr result (self.new ≡ self.old) }
        ensures err_acts { OnErr result (into.new.items ≡ into.old.items) }
    {
        self.worker.on_bound(port, into)
    }

    /// The link that waits for its port.
    pub fn is_waiting(&self) -> Option<u32>
        ensures { result ≡ option_map (λ b. b.link) self.now.waiting }
    {
        self.worker.is_waiting()
    }

    /// Hears a packet. What doesn't parse is dropped. A transport that is told its other end by it says so, and the
    /// Consumers of the Producer that receives it send on what they pass, each by one call, in order of making. A
    /// datagram that fails is lost, and the others go out all the same. No memory is taken.
    ///
    /// # Errors
    ///
    /// `Failed` comes exactly where a call on the channel failed. It is the last that was made.
    pub fn on_packet<O: Outbox>(
        &mut self,
        from: PacketFrom,
        packet: &[u8],
        outbox: &mut O,
    ) -> Result<(), Failed>
        ensures state { OnOk result (self.new ≡ after_from self.old from packet.now) }
        ensures told { OnOk result (Made (map call_of (out_by self.old from packet.now)) (O.link_faults outbox.old) (O.link_faults outbox.new) (O.calls outbox.old) (O.calls outbox.new)) }
        ensures err { OnErr result (StopsAtAFault (out_by self.old from packet.now) (O.link_faults outbox.old) (O.link_faults outbox.new) (O.calls outbox.old) (O.calls outbox.new)) }
        ensures cause { HasCause (O.channel_faults outbox.old) (O.channel_faults outbox.new) result }
        ensures links { O.link_faults outbox.old ≤ O.link_faults outbox.new }
    {
        let Ok(view) = Packet::parse(packet) else {
            return Ok(());
        };
        match from {
            PacketFrom::Link(link, tuple) => self.on_datagram(link, tuple, &view, packet, outbox),
            PacketFrom::Direct(id) => self.on_direct(id, &view, packet, outbox),
        }
    }

    // Hears a packet for the direct Producer of an id.
    fn on_direct<O: Outbox>(
        &mut self,
        id: Id,
        view: &View<'_>,
        packet: &[u8],
        outbox: &mut O,
    ) -> Result<(), Failed>
        requires { IsPacket view.now packet.now }
        ensures state { OnOk result (self.new ≡ after_received self.old (if_within packet.now (option_and_then (λ key. received_by_key self.old packet.now key view.now) (direct_of self.old id)))) }
        ensures told { OnOk result (Made (map call_of (emissions_of self.old (if_within packet.now (option_and_then (λ key. received_by_key self.old packet.now key view.now) (direct_of self.old id))))) (O.link_faults outbox.old) (O.link_faults outbox.new) (O.calls outbox.old) (O.calls outbox.new)) }
        ensures err { OnErr result (StopsAtAFault (emissions_of self.old (if_within packet.now (option_and_then (λ key. received_by_key self.old packet.now key view.now) (direct_of self.old id)))) (O.link_faults outbox.old) (O.link_faults outbox.new) (O.calls outbox.old) (O.calls outbox.new)) }
        ensures cause { HasCause (O.channel_faults outbox.old) (O.channel_faults outbox.new) result }
        ensures links { O.link_faults outbox.old ≤ O.link_faults outbox.new }
    {
        let incoming = received_directly(&self.worker, id, view, packet);
        self.serve(incoming.as_ref(), outbox)
    }

    // Hears a packet that came for a link.
    fn on_datagram<O: Outbox>(
        &mut self,
        link: u32,
        from: Tuple,
        view: &View<'_>,
        packet: &[u8],
        outbox: &mut O,
    ) -> Result<(), Failed>
        requires { IsPacket view.now packet.now }
        ensures state { OnOk result (self.new ≡ after_parsed self.old (place_of self.old link) from packet.now (Some view.now)) }
        ensures told { OnOk result (Made (map call_of (out_parsed self.old (place_of self.old link) from packet.now (Some view.now))) (O.link_faults outbox.old) (O.link_faults outbox.new) (O.calls outbox.old) (O.calls outbox.new)) }
        ensures err { OnErr result (StopsAtAFault (out_parsed self.old (place_of self.old link) from packet.now (Some view.now)) (O.link_faults outbox.old) (O.link_faults outbox.new) (O.calls outbox.old) (O.calls outbox.new)) }
        ensures cause { HasCause (O.channel_faults outbox.old) (O.channel_faults outbox.new) result }
        ensures links { O.link_faults outbox.old ≤ O.link_faults outbox.new }
    {
        let Some(at) = self.worker.place_of(link) else {
            return Ok(());
        };
        if !self.hear(at, from, outbox)? {
            return Ok(());
        }
        let incoming = received_at(&self.worker, at, view, packet);
        self.serve(incoming.as_ref(), outbox)
    }

    // Whether a transport takes what comes from a tuple. Where it learns the tuple by it, it says so.
    fn hear<O: Outbox>(&mut self, at: Place, from: Tuple, outbox: &mut O) -> Result<bool, Failed>
        ensures taken { IfOk result (λ taken. taken ≡ is_taken (accept_in self.old at from)) }
        ensures state { self.new ≡ heard_at self.old at from }
        ensures told { OnOk result (Made (map call_of (told_learnt (accept_in self.old at from) at from)) (O.link_faults outbox.old) (O.link_faults outbox.new) (O.calls outbox.old) (O.calls outbox.new)) }
        ensures err { OnErr result (StopsAtAFault (told_learnt (accept_in self.old at from) at from) (O.link_faults outbox.old) (O.link_faults outbox.new) (O.calls outbox.old) (O.calls outbox.new)) }
        ensures cause { HasCause (O.channel_faults outbox.old) (O.channel_faults outbox.new) result }
        ensures links { O.link_faults outbox.new ≡ O.link_faults outbox.old }
    {
        match accept(&mut self.worker, at, from) {
            Some(Accept::Yes) => Ok(true),
            Some(Accept::Learnt) => {
                tell_learnt(at.transport, from, &mut self.buffer, outbox)?;
                Ok(true)
            }
            Some(Accept::No) | None => Ok(false),
        }
    }

    // Serves a packet that a Producer received, if one did.
    fn serve<O: Outbox>(
        &mut self,
        incoming: Option<&Incoming<'_>>,
        outbox: &mut O,
    ) -> Result<(), Failed>
        ensures state { OnOk result (self.new ≡ behind_served (option_copied incoming.entry) self.old) }
        ensures told { OnOk result (Made (map call_of (out_served (option_copied incoming.entry) self.old)) (O.link_faults outbox.old) (O.link_faults outbox.new) (O.calls outbox.old) (O.calls outbox.new)) }
        ensures err { OnErr result (StopsAtAFault (out_served (option_copied incoming.entry) self.old) (O.link_faults outbox.old) (O.link_faults outbox.new) (O.calls outbox.old) (O.calls outbox.new)) }
        ensures cause { HasCause (O.channel_faults outbox.old) (O.channel_faults outbox.new) result }
        ensures links { O.link_faults outbox.old ≤ O.link_faults outbox.new }
    {
        match incoming {
            Some(incoming) => forward(&mut self.worker, incoming, &mut self.buffer, outbox),
            None => Ok(()),
        }
    }
}
