//! What stands in a Router.

ghost use Rattle.std.specs.Prelude.{◌≡◌, ◌<◌, ◌≤◌, ◌+◌, ◌^◌, IfSome, ℕ, List, Option, length, false, is_some, true, Some, OnOk, OnErr, IfOk, option_map, option_copied};
ghost use Rattle.pipe_consumer.specs.Laws.{AreDifferent as NumbersDiffer};
ghost use Rattle.rtp_params.specs.Readable.{Each};
ghost use Rattle.worker_router.specs.State.{nothing_yet, transport_of, producer_of, consumer_of};
ghost use Rattle.worker_router.specs.Calls.{accept_at, add_consumer_fault, add_producer_fault, add_transport_fault, behind_accept, clashes, connect_fault, connected_to, consumer_at, first_flags_at, has_object, has_transport_of, missing, or_missing, pause_changes, remote_at, sink_of, new_source, with_consumer, with_consumer_paused, with_producer, with_producer_paused, with_transport, is_to_be_told};
ghost use Rattle.worker_router.specs.Tables.{AreDifferent, Faults, checked, checked_with};

use crate::by_id::ById;
use crate::consumer::Consumer;
use crate::fault::RouterFault;
use crate::feed::Feed;
use crate::ssrcs::{Ssrcs, has_ssrc_of, insert_ssrcs};
use crate::streams::Streams;
use crate::transport::Transport;
use crate::transports::TransportAt;
use indexmap::IndexMap;
use ms_base::{Id, Kind, Tuple};
use plain_transport::Accept;
use producer::Producer;
use rtp_extension::Flags;
use rtp_params::{Encoding, Ext, Mapping, Params};
use std::alloc::Global;
use std::marker::Model;

/// A Router in the worker. Contracts see it as the lists of its objects, in order of making.
#[derive(Debug, Drop)]
pub struct WorkerRouter {
    pub(crate) alloc: Global,
    pub(crate) transports: ById<TransportAt>,
    pub(crate) producers: ById<Feed>,
    pub(crate) consumers: ById<Consumer>,
    pub(crate) ssrcs: Ssrcs,
    /// Where the Producer stands that had a packet last, as far as is known.
    pub(crate) served: usize,
}

impl Model for WorkerRouter {
    ghost use Rattle.std.specs.Prelude.{map};
    ghost use Rattle.worker_router.specs.State.{RouterState};
    ghost use Rattle.worker_router.specs.Tables.{AreTables, outlet_of, outline_of, router_of};

    ghost Value = { RouterState };

    ghost view = { λ r. router_of r.transports r.producers r.consumers };

    ghost invariant = { λ r. AreTables (map outline_of r.producers) (map outlet_of r.consumers) r.ssrcs.entries };
}

impl WorkerRouter {
    /// A Router without objects, which keeps this allocator.
    pub fn new(alloc: Global) -> WorkerRouter
        ensures { result ≡ nothing_yet }
    {
        WorkerRouter {
            alloc,
            transports: ById::new(alloc),
            producers: ById::new(alloc),
            consumers: ById::new(alloc),
            ssrcs: IndexMap::new(alloc),
            served: 0,
        }
    }

    /// No two of its Producers, and no two of its Consumers, have the same id.
    pub fn ids_differ(&self)
        ensures producers { AreDifferent (λ p. p.id) self.now.producers }
        ensures consumers { AreDifferent (λ c. c.id) self.now.consumers }
    {
        let _tables = &self.ssrcs;
    }

    /// Whether an object of this kind and id is there: a transport of this kind, a Producer or a Consumer.
    pub fn has(&self, kind: Kind, id: Id) -> bool
        ensures { result ≡ has_object self.now kind id }
    {
        match kind {
            Kind::Producer => self.producers.has(id),
            Kind::Consumer => self.consumers.has(id),
            _ => self.has_transport_of(kind, id),
        }
    }

    fn has_transport_of(&self, kind: Kind, id: Id) -> bool
        ensures { result ≡ has_transport_of self.now kind id }
    {
        match self.transports.get(id) {
            Some(at) => at.transport().is_of_kind(kind),
            None => false,
        }
    }

    /// Whether a transport of any kind has this id.
    pub fn has_transport(&self, id: Id) -> bool
        ensures { result ≡ is_some (transport_of self.now id) }
    {
        self.transports.has(id)
    }

    /// Whether a transport would take a tuple that it is told, if it is there.
    pub fn can_connect(&self, transport: Id) -> Option<bool>
        ensures { result ≡ option_map (λ t. is_to_be_told t.transport) (transport_of self.now transport) }
    {
        Some(self.transports.get(transport)?.transport().can_connect())
    }

    /// Whether the Producer of this id is paused, if it is there.
    pub fn is_paused(&self, producer: Id) -> Option<bool>
        ensures { result ≡ option_map (λ p. p.stream.paused) (producer_of self.now producer) }
    {
        Some(self.producers.get(producer)?.is_paused())
    }

    /// The tuple to which packets of this transport go, once it is set.
    pub fn remote(&self, transport: Id) -> Option<Tuple>
        ensures { result ≡ remote_at self.now transport }
    {
        self.transports.get(transport)?.transport().remote()
    }

    /// The Consumer at a place among those of a Producer in order of making, from 0, with its transport.
    pub fn consumers_of(&self, producer: Id, place: usize) -> Option<(Id, Id)>
        ensures value { result ≡ consumer_at self.now producer place }
        // There is a next place.
        ensures more { IfSome result (λ _. place + 1 < 2 ^ 64) }
    {
        let feed = self.producers.get(producer)?;
        let listed = feed.consumer_at(place)?;
        Some((listed.consumer(), listed.transport()))
    }
}

impl WorkerRouter {
    /// Adds a transport.
    ///
    /// # Errors
    ///
    /// `Exists` exactly where a transport of any kind has the id.
    pub fn add_transport(&mut self, id: Id, transport: Transport) -> Result<(), RouterFault>
        ensures fault { Faults result (add_transport_fault self.old id) }
        ensures ok { OnOk result (self.new ≡ with_transport self.old id transport) }
        ensures err { OnErr result (self.new ≡ self.old) }
    {
        if self.has_transport(id) {
            return Err(RouterFault::Exists);
        }
        self.transports.add(TransportAt::new(id, transport))?;
        Ok(())
    }

    /// Adds a Producer of what these parameters send, over a transport. The mapping says what their payload types and SSRCs
    /// are mapped to, and `exts` are the header extensions that its Consumers may get, with the ids of the Router's table.
    ///
    /// # Errors
    ///
    /// `Missing` exactly where the transport isn't there; else `Exists` exactly where a Producer has the id; else `Ssrc`
    /// exactly where an encoding has the own SSRC of one of a Producer of the transport.
    pub fn add_producer(
        &mut self,
        transport: Id,
        id: Id,
        params: &Params,
        mapping: &Mapping,
        exts: &[Ext],
        paused: bool,
    ) -> Result<(), RouterFault>
        requires { Each (λ pair. pair.1 ≤ 127) mapping.now.codecs }
        ensures fault { Faults result (add_producer_fault self.old transport id params.now.encodings) }
        ensures ok { OnOk result (self.new ≡ with_producer self.old (new_source transport id params.now mapping.now exts.now paused)) }
        ensures err { OnErr result (self.new ≡ self.old) }
    {
        let encodings = params.encodings.as_slice();
        self.check_producer(transport, id, encodings)?;
        let producer = Producer::new(self.alloc, params, mapping, exts, paused)?;
        self.ssrcs.reserve(encodings.len())?;
        let feed = Feed::new(self.alloc, id, transport, producer);
        self.producers.add(feed)?;
        insert_ssrcs(&mut self.ssrcs, transport, id, encodings);
        Ok(())
    }

    /// Adds a Consumer of a Producer, over a transport, and tells whether the Producer is paused. The encoding of the
    /// parameters at the place of a mapped SSRC has the SSRC under which its packets are sent on.
    ///
    /// # Errors
    ///
    /// `Missing` exactly where the transport or the Producer isn't there; else `Exists` exactly where a Consumer has the id.
    pub fn add_consumer(
        &mut self,
        transport: Id,
        id: Id,
        producer: Id,
        params: &Params,
        mapped: &[u32],
        pipe: bool,
        paused: bool,
    ) -> Result<bool, RouterFault>
        requires encodings { length params.now.encodings ≡ length mapped.now }
        requires different { NumbersDiffer mapped.now }
        requires one { pipe ≡ false → length mapped.now ≡ 1 }
        ensures fault { Faults result (add_consumer_fault self.old transport id producer) }
        ensures ok { IfOk result (λ producer_paused. (flags : _) × (first_flags_at self.old transport producer paused ≡ Some flags)
            × (flags.producer_paused ≡ producer_paused)
            × (self.new ≡ with_consumer self.old (sink_of transport id producer params.now mapped.now flags))) }
        ensures err { OnErr result (self.new ≡ self.old) }
    {
        let flags = self.check_consumer(transport, id, producer, paused)?;
        let streams = Streams::new(self.alloc, params, mapped, pipe, flags)?;
        let consumer = Consumer::new(id, transport, producer, flags, streams);
        self.consumers.add(consumer)?;
        if self.producers.attach(producer, id, transport).is_err() {
            self.consumers.remove(id);
            return Err(RouterFault::NoMemory);
        }
        Ok(flags.producer_paused)
    }

    // Why a Producer isn't added.
    fn check_producer(
        &self,
        transport: Id,
        id: Id,
        encodings: &[Encoding],
    ) -> Result<(), RouterFault>
        ensures { result ≡ checked (add_producer_fault self.now transport id encodings.now) }
    {
        if !self.transports.has(transport) {
            return Err(RouterFault::Missing);
        }
        if self.producers.has(id) {
            return Err(RouterFault::Exists);
        }
        if self.clashes(transport, encodings) {
            return Err(RouterFault::Ssrc);
        }
        Ok(())
    }

    /// Whether an encoding has the own SSRC of one of a Producer of the transport.
    pub fn clashes(&self, transport: Id, encodings: &[Encoding]) -> bool
        ensures { result ≡ clashes self.now transport encodings.now }
    {
        has_ssrc_of(&self.ssrcs, transport, encodings)
    }

    // Why a Consumer isn't added, or the flags that it begins with.
    fn check_consumer(
        &self,
        transport: Id,
        id: Id,
        producer: Id,
        paused: bool,
    ) -> Result<Flags, RouterFault>
        ensures fault { result ≡ checked_with (add_consumer_fault self.now transport id producer) (first_flags_at self.now transport producer paused) }
    {
        let Some(at) = self.transports.get(transport) else {
            return Err(RouterFault::Missing);
        };
        let Some(feed) = self.producers.get(producer) else {
            return Err(RouterFault::Missing);
        };
        if self.consumers.has(id) {
            return Err(RouterFault::Exists);
        }
        Ok(Flags {
            connected: at.transport().is_connected(),
            paused,
            producer_paused: feed.is_paused(),
        })
    }
}

impl WorkerRouter {
    /// Tells a transport the tuple of its other end; its Consumers are connected with it.
    ///
    /// # Errors
    ///
    /// `Missing` exactly where the transport isn't there; else `State` exactly where it is a direct one, learns its tuple
    /// from a packet, or is connected.
    pub fn connect(&mut self, transport: Id, to: Tuple) -> Result<(), RouterFault>
        ensures fault { result ≡ checked (connect_fault self.old transport) }
        ensures ok { OnOk result (self.new ≡ connected_to self.old transport to) }
        ensures err { OnErr result (self.new ≡ self.old) }
    {
        self.transports.tell(transport, to)?;
        self.consumers.connect_over(transport);
        Ok(())
    }

    /// Whether a transport takes a packet from this tuple. It is asked of packets that parse alone: a tuple that is learnt
    /// connects the transport and its Consumers.
    ///
    /// # Errors
    ///
    /// `Missing` exactly where the transport isn't there.
    pub fn accepts(&mut self, transport: Id, from: Tuple) -> Result<Accept, RouterFault>
        ensures answer { result ≡ or_missing (accept_at self.old transport from) }
        ensures state { self.new ≡ behind_accept self.old transport from }
    {
        let Some(accept) = self.transports.accepts(transport, from) else {
            return Err(RouterFault::Missing);
        };
        if accept == Accept::Learnt {
            self.consumers.connect_over(transport);
        }
        Ok(accept)
    }

    /// Pauses a Producer, which its Consumers' flags are told, and tells whether it was not paused.
    ///
    /// # Errors
    ///
    /// `Missing` exactly where it isn't there.
    pub fn pause_producer(&mut self, id: Id) -> Result<bool, RouterFault>
        ensures answer { result ≡ or_missing (pause_changes self.old id true) }
        ensures ok { OnOk result (self.new ≡ with_producer_paused self.old id true) }
        ensures err { OnErr result (self.new ≡ self.old) }
    {
        self.set_producer_paused(id, true)
    }

    /// Resumes a Producer, which its Consumers' flags are told, and tells whether it was paused.
    ///
    /// # Errors
    ///
    /// `Missing` exactly where it isn't there.
    pub fn resume_producer(&mut self, id: Id) -> Result<bool, RouterFault>
        ensures answer { result ≡ or_missing (pause_changes self.old id false) }
        ensures ok { OnOk result (self.new ≡ with_producer_paused self.old id false) }
        ensures err { OnErr result (self.new ≡ self.old) }
    {
        self.set_producer_paused(id, false)
    }

    fn set_producer_paused(&mut self, id: Id, paused: bool) -> Result<bool, RouterFault>
        ensures answer { result ≡ or_missing (pause_changes self.old id paused) }
        ensures ok { OnOk result (self.new ≡ with_producer_paused self.old id paused) }
        ensures err { OnErr result (self.new ≡ self.old) }
    {
        let Some(feed) = self.producers.get(id) else {
            return Err(RouterFault::Missing);
        };
        let before = feed.is_paused();
        self.consumers.pause_sources(feed.consumers(), paused);
        self.producers.set_paused(id, paused);
        Ok(before != paused)
    }

    /// Pauses a Consumer.
    ///
    /// # Errors
    ///
    /// `Missing` exactly where it isn't there.
    pub fn pause_consumer(&mut self, id: Id) -> Result<(), RouterFault>
        ensures fault { result ≡ checked (missing (consumer_of self.old id)) }
        ensures state { self.new ≡ with_consumer_paused self.old id true }
    {
        self.set_consumer_paused(id, true)
    }

    /// Resumes a Consumer.
    ///
    /// # Errors
    ///
    /// `Missing` exactly where it isn't there.
    pub fn resume_consumer(&mut self, id: Id) -> Result<(), RouterFault>
        ensures fault { result ≡ checked (missing (consumer_of self.old id)) }
        ensures state { self.new ≡ with_consumer_paused self.old id false }
    {
        self.set_consumer_paused(id, false)
    }

    fn set_consumer_paused(&mut self, id: Id, paused: bool) -> Result<(), RouterFault>
        ensures fault { result ≡ checked (missing (consumer_of self.old id)) }
        ensures state { self.new ≡ with_consumer_paused self.old id paused }
    {
        if self.consumers.pause(id, paused) {
            Ok(())
        } else {
            Err(RouterFault::Missing)
        }
    }
}
