ghost use Rattle.std.specs.Prelude.{◌≡◌, ◌<◌, ◌≤◌, length, take, drop, is_some, option_map, IfOk, IfSome, IfNone};
ghost use Rattle.rtp_packet.specs.Packet.{Fields, IsPacket};
ghost use Rattle.rtp_packet.specs.Fault.{Parses};
ghost use Rattle.seq_manager.specs.Numbering.{output_number};
ghost use Rattle.simple_consumer.specs.Sending.{offer, emitted_fields};
ghost use Rattle.pipe_consumer.specs.Laws.{AreDifferent};
ghost use Rattle.pipe_consumer.specs.Streams.{streams_of, stream_for, takes_one, passed_by, behind_offer, behind_setting};

use crate::streams::{new_streams, place_of};
use ms_base::NoMemory;
use rtp_extension::{Flags, IdMap, Mapped};
use rtp_packet::{Packet, View};
use rtp_params::Params;
use simple_consumer::SimpleConsumer;
use std::alloc::Global;
use std::marker::Model;

/// What is sent on of the packets of several mapped SSRCs. Contracts see it as the list of its streams.
#[derive(Debug, Drop)]
pub struct PipeConsumer {
    // One for each mapped SSRC, in order.
    streams: Vec<SimpleConsumer>,
}

impl Model for PipeConsumer {
    ghost use Rattle.std.specs.Prelude.{List};
    ghost use Rattle.simple_consumer.specs.Sending.{Sending};

    ghost Value = { List Sending };

    ghost view = { λ c. c.streams.items };
}

impl PipeConsumer {
    /// A Consumer of what is mapped to these SSRCs, which has sent nothing yet. The parameters are what its receiver gets: the
    /// encoding at the place of a mapped SSRC has the SSRC under which its packets are sent on.
    pub fn new(
        alloc: Global,
        params: &Params,
        mapped: &[u32],
        flags: Flags,
    ) -> Result<PipeConsumer, NoMemory>
        requires encodings { length params.now.encodings ≡ length mapped.now }
        requires different { AreDifferent mapped.now }
        ensures { IfOk result (λ c. c ≡ streams_of params.now mapped.now flags) }
    {
        let streams = new_streams(alloc, params, mapped, flags)?;
        Ok(PipeConsumer { streams })
    }

    /// Sets what its activity rests on. Where it has become active a further stretch of each mapped SSRC begins.
    pub fn set_flags(&mut self, flags: Flags)
        ensures { self.new ≡ behind_setting flags self.old }
    {
        for stream in self.streams.iter_mut() {
            stream.set_flags(flags);
        }
    }

    /// Writes what is sent on of a packet over the front of `into`, and gives its length: what a simple Consumer of its mapped
    /// SSRC writes, with the next output number of this SSRC. `mapped` and `ids` are what the Producer says of the packet.
    /// `None` comes exactly where nothing is sent on: the mapped SSRC is none of the Consumer's, the Consumer isn't active, its
    /// parameters lack the mapped payload type, or the packet is of video and no key frame of this SSRC has started in this
    /// stretch. Then nothing changes. No memory is taken.
    pub fn pass(
        &mut self,
        mapped: Mapped,
        ids: &IdMap,
        packet: &[u8],
        into: &mut [u8],
    ) -> Option<usize>
        requires parses { Parses packet.now }
        requires payload_type { mapped.payload_type < 128 }
        requires room { length packet.now ≤ length into.old }
        ensures when { is_some result ≡ takes_one self.old mapped }
        ensures packet { option_map (λ n. take n into.new) result ≡ passed_by self.old (offer mapped ids.now packet.now) }
        ensures state { self.new ≡ behind_offer self.old (offer mapped ids.now packet.now) }
        ensures no_longer { IfSome result (λ n. n ≤ length packet.now) }
        // It is a packet: with these fields, and all others as they were.
        ensures fields { (fields : Fields) → IsPacket fields packet.now → IfSome (stream_for self.old mapped.ssrc) (λ s. IfSome result (λ n.
            IsPacket (emitted_fields s.params (offer mapped ids.now packet.now) (output_number s.numbering fields.seq) fields) (take n into.new))) }
        ensures rest { IfSome result (λ n. drop n into.new ≡ drop n into.old) }
        ensures untouched { IfNone result (into.new ≡ into.old) }
    {
        match Packet::parse(packet) {
            Ok(view) => self.pass_view(mapped, ids, &view, packet, into),
            Err(_) => unreachable!(),
        }
    }

    /// The same of a packet that was read already: who has several Consumers reads it once.
    pub fn pass_view(
        &mut self,
        mapped: Mapped,
        ids: &IdMap,
        view: &View<'_>,
        packet: &[u8],
        into: &mut [u8],
    ) -> Option<usize>
        requires read { IsPacket view.now packet.now }
        requires payload_type { mapped.payload_type < 128 }
        requires room { length packet.now ≤ length into.old }
        ensures when { is_some result ≡ takes_one self.old mapped }
        ensures packet { option_map (λ n. take n into.new) result ≡ passed_by self.old (offer mapped ids.now packet.now) }
        ensures state { self.new ≡ behind_offer self.old (offer mapped ids.now packet.now) }
        ensures no_longer { IfSome result (λ n. n ≤ length packet.now) }
        // It is a packet: with these fields, and all others as they were.
        ensures fields { (fields : Fields) → IsPacket fields packet.now → IfSome (stream_for self.old mapped.ssrc) (λ s. IfSome result (λ n.
            IsPacket (emitted_fields s.params (offer mapped ids.now packet.now) (output_number s.numbering fields.seq) fields) (take n into.new))) }
        ensures rest { IfSome result (λ n. drop n into.new ≡ drop n into.old) }
        ensures untouched { IfNone result (into.new ≡ into.old) }
    {
        match place_of(self.streams.as_slice(), mapped.ssrc) {
            Some(place) => self.streams[place].pass_view(mapped, ids, view, packet, into),
            None => None,
        }
    }
}
