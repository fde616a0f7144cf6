ghost use Rattle.std.specs.Prelude.{◌≡◌, ◌≢◌, ◌≤◌, ◌++◌, ◌∷◌, ℕ, List, [], length, map, false, IfOk, IfErr, OnOk, Ok, Err, None, option_to_list};
ghost use Rattle.channel_frames.specs.Frames.{frames, is_broken};
ghost use Rattle.channel_frames.specs.Reading.{unstarted, drained};
ghost use Rattle.channel_msgs.specs.Packet.{packet_in};
ghost use Rattle.ms_devices.specs.Outside.{IsFit, event_of};
ghost use Rattle.ms_devices.specs.Told.{Tells};
ghost use Rattle.worker_calls.specs.Requests.{after_bound, notify, out_bound};
ghost use Rattle.worker_calls.specs.State.{idle};
ghost use Rattle.worker_engine.specs.Forwarding.{after_from, out_by};
ghost use Rattle.worker_engine.specs.Outside.{call_of};
ghost use Rattle.worker_engine.specs.Run.{payload};
ghost use Rattle.worker_requests.specs.declared.notice.WorkerNotice.TheVariants.{Running};
ghost use Rattle.worker_serve.specs.Hearing.{IsBreakAt, IsReadTo, IsTrueOf, IsTrueOfDrained, channel_bytes, events_at};
ghost use Rattle.worker_serve.specs.Sending.{AddsBy, CountsBy, Goes, IsNoBreak, Opens, ServedBy};
ghost use Rattle.worker_serve.specs.Serving.{IsOfLinks};

use crate::carry_out::{Asked, asked_link, carry_out};
use crate::fault::ServeFault;
use crate::say::say_running;
use channel_frames::{FrameFault, FrameReader, readings_go_on_from_what_is_left};
use channel_msgs::packet_of;
use ms_base::{Bytes, NoMemory};
use ms_devices::{EVENT_BYTES, InEvent, Outbox};
use std::alloc::Global;
use worker_engine::{Act, Engine, PacketFrom};

/// A worker that serves: its engine, and what came on its channel.
#[derive(Drop)]
pub(crate) struct Server {
    alloc: Global,
    engine: Engine,
    reader: FrameReader,
    // Room that is used again at each event.
    acts: Vec<Act>,
    frame: Bytes,
}

impl Server {
    /// Before the first event.
    pub(crate) fn new(alloc: Global) -> Result<Server, NoMemory>
        ensures engine { IfOk result (λ server. server.engine ≡ idle) }
        ensures reader { IfOk result (λ server. server.reader ≡ unstarted) }
    {
        Ok(Server {
            alloc,
            engine: Engine::new(alloc)?,
            reader: FrameReader::new(alloc),
            acts: Vec::new(alloc),
            frame: Bytes::new(alloc),
        })
    }

    /// Says that the worker runs.
    pub(crate) fn start<O: Outbox>(&mut self, outbox: &mut O) -> Result<(), ServeFault>
        ensures sent { Tells (AddsBy (Goes result (call_of (notify Running) ∷ []))) (O.calls outbox.old) (O.calls outbox.new) }
        ensures engine { self.new.engine ≡ self.old.engine }
        ensures reader { self.new.reader ≡ self.old.reader }
        ensures counts { CountsBy result (O.channel_faults outbox.old) (O.channel_faults outbox.new) }
        ensures links { O.link_faults outbox.new ≡ O.link_faults outbox.old }
        ensures no_break { IfErr result IsNoBreak }
    {
        say_running(self.alloc, &mut self.frame, outbox)
    }

    /// Serves an event, whose bytes are the first of the place.
    pub(crate) fn on_event<O: Outbox>(
        &mut self,
        event: InEvent,
        place: &[u8],
        outbox: &mut O,
    ) -> Result<(), ServeFault>
        requires fit { IsFit event }
        requires room { EVENT_BYTES ≤ length place.now }
        ensures sent { Tells (AddsBy (ServedBy result self.old.engine (events_at self.old.reader.unread (event_of event place.now)) self.new.engine)) (O.calls outbox.old) (O.calls outbox.new) }
        ensures read { OnOk result ((stream : List ℕ) → IsReadTo self.old.reader stream → IsReadTo self.new.reader (stream ++ channel_bytes (event_of event place.now))) }
        ensures too_long { IfErr result (λ fault. (stream : List ℕ) → IsReadTo self.old.reader stream → IsTrueOf (stream ++ channel_bytes (event_of event place.now)) fault) }
        ensures counts { CountsBy result (O.channel_faults outbox.old) (O.channel_faults outbox.new) }
        ensures links { IsOfLinks (O.link_faults outbox.old) (O.link_faults outbox.new) (O.calls outbox.old) (O.calls outbox.new) }
    {
        match event {
            InEvent::Channel { len } => self.on_bytes(&place[..len], outbox),
            InEvent::Datagram { link, from, len } => {
                self.on_packet(PacketFrom::Link(link, from), &place[..len], outbox)
            }
            InEvent::End => Ok(()),
        }
    }

    // Serves bytes of the channel.
    fn on_bytes<O: Outbox>(&mut self, bytes: &[u8], outbox: &mut O) -> Result<(), ServeFault>
        ensures sent { Tells (AddsBy (ServedBy result self.old.engine (map payload (frames (self.old.reader.unread ++ bytes.now))) self.new.engine)) (O.calls outbox.old) (O.calls outbox.new) }
        ensures read { OnOk result ((stream : List ℕ) → IsReadTo self.old.reader stream → IsReadTo self.new.reader (stream ++ bytes.now)) }
        ensures too_long { IfErr result (λ fault. (stream : List ℕ) → IsReadTo self.old.reader stream → IsTrueOf (stream ++ bytes.now) fault) }
        ensures counts { CountsBy result (O.channel_faults outbox.old) (O.channel_faults outbox.new) }
        ensures links { IsOfLinks (O.link_faults outbox.old) (O.link_faults outbox.new) (O.calls outbox.old) (O.calls outbox.new) }
    {
        // A law: the stream goes on from what a reader leaves of it.
        readings_go_on_from_what_is_left();
        if self.reader.feed(bytes).is_err() {
            return Err(ServeFault::NoMemory);
        }
        self.on_payloads(outbox)
    }

    // Serves the payloads that are whole.
    fn on_payloads<O: Outbox>(&mut self, outbox: &mut O) -> Result<(), ServeFault>
        ensures sent { Tells (AddsBy (ServedBy result self.old.engine (map payload (frames self.old.reader.unread)) self.new.engine)) (O.calls outbox.old) (O.calls outbox.new) }
        ensures drained { drained self.new.reader ≡ drained self.old.reader }
        ensures none_left { OnOk result (frames self.new.reader.unread ≡ []) }
        ensures unbroken { OnOk result (is_broken self.old.reader.unread ≡ false) }
        ensures too_long { IfErr result (IsTrueOfDrained (drained self.old.reader)) }
        ensures counts { CountsBy result (O.channel_faults outbox.old) (O.channel_faults outbox.new) }
        ensures links { IsOfLinks (O.link_faults outbox.old) (O.link_faults outbox.new) (O.calls outbox.old) (O.calls outbox.new) }
    {
        while let Some(payload) = next_payload(&mut self.reader)? {
            self.on_payload(payload.as_slice(), outbox)?;
        }
        Ok(())
    }

    // Serves one payload.
    fn on_payload<O: Outbox>(&mut self, bytes: &[u8], outbox: &mut O) -> Result<(), ServeFault>
        ensures sent { Tells (AddsBy (ServedBy result self.old.engine (payload bytes.now ∷ []) self.new.engine)) (O.calls outbox.old) (O.calls outbox.new) }
        ensures reader { self.new.reader ≡ self.old.reader }
        ensures counts { CountsBy result (O.channel_faults outbox.old) (O.channel_faults outbox.new) }
        ensures links { IsOfLinks (O.link_faults outbox.old) (O.link_faults outbox.new) (O.calls outbox.old) (O.calls outbox.new) }
        ensures no_break { IfErr result IsNoBreak }
    {
        match packet_of(bytes) {
            Some((id, packet)) => self.on_packet(PacketFrom::Direct(id), packet, outbox),
            None => self.on_request(bytes, outbox),
        }
    }

    // Serves a packet.
    fn on_packet<O: Outbox>(
        &mut self,
        from: PacketFrom,
        packet: &[u8],
        outbox: &mut O,
    ) -> Result<(), ServeFault>
        ensures state { OnOk result (self.new.engine ≡ after_from self.old.engine from packet.now) }
        ensures sent { Tells (AddsBy (Goes result (map call_of (out_by self.old.engine from packet.now)))) (O.calls outbox.old) (O.calls outbox.new) }
        ensures reader { self.new.reader ≡ self.old.reader }
        ensures counts { CountsBy result (O.channel_faults outbox.old) (O.channel_faults outbox.new) }
        ensures links { IsOfLinks (O.link_faults outbox.old) (O.link_faults outbox.new) (O.calls outbox.old) (O.calls outbox.new) }
        ensures no_break { IfErr result IsNoBreak }
    {
        match self.engine.on_packet(from, packet, outbox) {
            Ok(()) => Ok(()),
            Err(_) => Err(ServeFault::Write),
        }
    }

    // Serves a payload that is no packet. Where the worker asks for a link, it asks for nothing else.
    fn on_request<O: Outbox>(&mut self, bytes: &[u8], outbox: &mut O) -> Result<(), ServeFault>
        requires { packet_in bytes.now ≡ None }
        ensures sent { Tells (AddsBy (ServedBy result self.old.engine (payload bytes.now ∷ []) self.new.engine)) (O.calls outbox.old) (O.calls outbox.new) }
        ensures reader { self.new.reader ≡ self.old.reader }
        ensures counts { CountsBy result (O.channel_faults outbox.old) (O.channel_faults outbox.new) }
        ensures links { IsOfLinks (O.link_faults outbox.old) (O.link_faults outbox.new) (O.calls outbox.old) (O.calls outbox.new) }
        ensures no_break { IfErr result IsNoBreak }
    {
        self.acts.clear();
        if self.engine.on_payload(bytes, &mut self.acts).is_err() {
            return Err(ServeFault::NoMemory);
        }
        match asked_link(self.acts.as_slice()) {
            Some(asked) => self.open(asked, outbox),
            None => carry_out(self.alloc, self.acts.as_slice(), &mut self.frame, outbox),
        }
    }

    // Opens a link at the address, and tells the worker its port, or that it could not be opened.
    fn open<O: Outbox>(&mut self, asked: Asked, outbox: &mut O) -> Result<(), ServeFault>
        ensures sent { Tells (AddsBy (Opens result self.old.engine asked self.new.engine)) (O.calls outbox.old) (O.calls outbox.new) }
        ensures reader { self.new.reader ≡ self.old.reader }
        ensures counts { CountsBy result (O.channel_faults outbox.old) (O.channel_faults outbox.new) }
        ensures links { IsOfLinks (O.link_faults outbox.old) (O.link_faults outbox.new) (O.calls outbox.old) (O.calls outbox.new) }
        ensures no_break { IfErr result IsNoBreak }
    {
        let ip = asked.ip;
        let port = outbox.bind(asked.link, ip).ok();
        self.on_bound(port, outbox)
    }

    // Tells the worker the port of the link that it waits for.
    fn on_bound<O: Outbox>(&mut self, port: Option<u16>, outbox: &mut O) -> Result<(), ServeFault>
        ensures state { OnOk result (self.new.engine ≡ after_bound self.old.engine port) }
        ensures sent { Tells (AddsBy (Goes result (map call_of (out_bound self.old.engine port)))) (O.calls outbox.old) (O.calls outbox.new) }
        ensures reader { self.new.reader ≡ self.old.reader }
        ensures counts { CountsBy result (O.channel_faults outbox.old) (O.channel_faults outbox.new) }
        ensures links { O.link_faults outbox.new ≡ O.link_faults outbox.old }
        ensures no_break { IfErr result IsNoBreak }
    {
        self.acts.clear();
        if self.engine.on_bound(port, &mut self.acts).is_err() {
            return Err(ServeFault::NoMemory);
        }
        carry_out(self.alloc, self.acts.as_slice(), &mut self.frame, outbox)
    }
}

// The next payload that is whole, if there is one.
fn next_payload(reader: &mut FrameReader) -> Result<Option<Bytes>, ServeFault>
    ensures found { IfOk result (λ found. frames reader.old.unread ≡ option_to_list found ++ frames reader.new.unread) }
    ensures none { result ≡ Ok None → (frames reader.new.unread ≡ []) × (is_broken reader.new.unread ≡ false) }
    ensures drained { drained reader.new ≡ drained reader.old }
    ensures too_long { (place told : ℕ) → result ≡ Err (ServeFault.TooLong place told) → IsBreakAt reader.old place told }
    ensures no_write { result ≢ Err ServeFault.Write }
{
    match reader.next_payload() {
        Ok(found) => Ok(found),
        Err(FrameFault::TooLong { place, length }) => Err(ServeFault::TooLong { place, length }),
        Err(FrameFault::NoMemory) => Err(ServeFault::NoMemory),
        // It is written, not read, that a payload may be too big.
        Err(FrameFault::TooBig) => unreachable!(),
    }
}
