//! What is sent on under one Consumer.

ghost use Rattle.std.specs.Prelude.{◌≡◌, ◌<◌, ◌≤◌, length, take, drop, true, false, option_map, IfOk, IfSome, IfNone};
ghost use Rattle.rtp_packet.specs.Packet.{IsPacket};
ghost use Rattle.simple_consumer.specs.Sending.{offer};
ghost use Rattle.pipe_consumer.specs.Laws.{AreDifferent};
ghost use Rattle.pipe_consumer.specs.Streams.{streams_of, passed_by, behind_offer, behind_setting};

use ms_base::NoMemory;
use pipe_consumer::PipeConsumer;
use rtp_extension::{Flags, IdMap, Mapped};
use rtp_packet::View;
use rtp_params::Params;
use simple_consumer::SimpleConsumer;
use std::alloc::Global;
use std::marker::Model;

// One stream, or one for each mapped SSRC.
#[derive(Debug, Drop)]
enum Sink {
    Simple(SimpleConsumer),
    Pipe(PipeConsumer),
}

/// The streams of a Consumer. Contracts see the list of them, which has one of a simple Consumer.
#[derive(Debug, Drop)]
pub(crate) struct Streams {
    sink: Sink,
}

impl Model for Streams {
    ghost use Rattle.std.specs.Prelude.{List};
    ghost use Rattle.simple_consumer.specs.Sending.{Sending};
    ghost use Rattle.worker_router.specs.Tables.{streams_in};

    ghost Value = { List Sending };

    ghost view = { λ s. streams_in s.sink };
}

impl Streams {
    /// Those of these mapped SSRCs, each with the encoding at its place, before the first call.
    pub(crate) fn new(
        alloc: Global,
        params: &Params,
        mapped: &[u32],
        pipe: bool,
        flags: Flags,
    ) -> Result<Streams, NoMemory>
        requires encodings { length params.now.encodings ≡ length mapped.now }
        requires different { AreDifferent mapped.now }
        requires one { pipe ≡ false → length mapped.now ≡ 1 }
        ensures { IfOk result (λ s. s ≡ streams_of params.now mapped.now flags) }
    {
        if pipe {
            let streams = PipeConsumer::new(alloc, params, mapped, flags)?;
            return Ok(Streams {
                sink: Sink::Pipe(streams),
            });
        }
        let stream = SimpleConsumer::new(alloc, params, mapped[0], flags)?;
        Ok(Streams {
            sink: Sink::Simple(stream),
        })
    }

    /// Sets what the activity of each rests on.
    pub(crate) fn set_flags(&mut self, flags: Flags)
        ensures { self.new ≡ behind_setting flags self.old }
    {
        match &mut self.sink {
            Sink::Simple(stream) => stream.set_flags(flags),
            Sink::Pipe(streams) => streams.set_flags(flags),
        }
    }

    /// Writes what is sent on of a packet that was read, as [`PipeConsumer::pass_view`] does.
    pub(crate) fn pass(
        &mut self,
        mapped: Mapped,
        ids: &IdMap,
        view: &View<'_>,
        packet: &[u8],
        into: &mut [u8],
    ) -> Option<usize>
        requires read { IsPacket view.now packet.now }
        requires payload_type { mapped.payload_type < 128 }
        requires room { length packet.now ≤ length into.old }
        ensures packet { option_map (λ n. take n into.new) result ≡ passed_by self.old (offer mapped ids.now packet.now) }
        ensures state { self.new ≡ behind_offer self.old (offer mapped ids.now packet.now) }
        ensures no_longer { IfSome result (λ n. n ≤ length packet.now) }
        ensures rest { IfSome result (λ n. drop n into.new ≡ drop n into.old) }
        ensures untouched { IfNone result (into.new ≡ into.old) }
    {
        match &mut self.sink {
            Sink::Simple(stream) => stream.pass_view(mapped, ids, view, packet, into),
            Sink::Pipe(streams) => streams.pass_view(mapped, ids, view, packet, into),
        }
    }
}
