//! The requests for Producers and Consumers.

ghost use Rattle.std.specs.Prelude.{◌≡◌, ◌≤◌, length, IfOk};
ghost use Rattle.request_build.specs.Asks.{consume_asked, consumer_flag, consumer_of, flag_asked, has_id_in, new_consumer, new_producer, offer_of, piped_consume, produce_as, produce_asked, producer_flag, producer_of, simple_consume, ssrcs_drawn, ssrcs_for};
ghost use Rattle.request_build.specs.Built.{built_view};
ghost use Rattle.request_build.specs.Known.{known};
ghost use Rattle.request_build.specs.Rules.{Gives};

use crate::builder::{Builder, refuse_where};
use crate::built::{BuildFault, Built, Keep, Offer};
use crate::ids::{consumer_ids, producer_ids};
use boxed_value::Boxed;
use call_options::{
    ConsumeOptions, ProduceOptions, consume_options, piped_consume_options, produce_options,
    what_is_read_fits,
};
use ms_base::{Code, Id, Kind, Name, NoMemory, Outcome, Serial, Text};
use object_tree::Object;
use ortc_map::{
    consumable, consumer_params, producer_mapping, what_is_received_is_within_the_capabilities,
};
use pipe_params::pipe_consumer_params;
use request_contents::{write_consume, write_produce};
use rtp_params::{Caps, Encoding, Mapping, Params};
use worker_requests::{Asked, ConsumerIds, ProducerIds};

// How many SSRCs an encoding has: its own, and that of its retransmissions.
fn ssrcs_for(encoding: &Encoding) -> u32
    ensures count { result ≡ ssrcs_for encoding.now }
    ensures few { result ≤ 2 }
{
    if encoding.rtx.is_some() { 2 } else { 1 }
}

fn ssrcs_drawn(encodings: &[Encoding]) -> u32
    requires { length encodings.now ≤ 8 }
    ensures count { result ≡ ssrcs_drawn encodings.now }
    ensures few { result ≤ 16 }
{
    let mut count = 0;
    for encoding in encodings {
        count += ssrcs_for(encoding);
    }
    count
}

impl<'k> Builder<'k> {
    /// A Producer on a transport.
    pub(crate) fn produce_asked(
        &self,
        name: &Name,
        transport: &Object,
        options: &Text,
    ) -> Result<Built, BuildFault>
        ensures { Gives built_view result (produce_asked (known self.now) name.now transport.now options.now) }
    {
        what_is_read_fits();
        let given = produce_options(self.alloc, options)?;
        self.produce_as(name, transport, &given)
    }

    /// A Producer on a transport, of options that were read.
    pub(crate) fn produce_as(
        &self,
        name: &Name,
        transport: &Object,
        given: &ProduceOptions,
    ) -> Result<Built, BuildFault>
        requires { length given.now.params.encodings ≤ 8 }
        ensures { Gives built_view result (produce_as (known self.now) name.now transport.now given.now) }
    {
        let router = self.above(transport)?;
        let id = given.id.unwrap_or(self.own_id());
        let taken = Outcome::TypeError {
            code: Code::DuplicateId,
        };
        refuse_where(self.has_id_in(router.serial, id), taken)?;
        let caps = self.caps(router)?;
        let mapping = producer_mapping(self.alloc, &given.params, caps, self.next.ssrc)?;
        let offer = self.offer_of(router.serial, id, given, caps, mapping)?;
        Ok(self.producer_of(name, router, transport, id, given, offer)?)
    }

    // What is kept of a Producer.
    fn offer_of(
        &self,
        router: Serial,
        id: Id,
        given: &ProduceOptions,
        caps: &Caps,
        mapping: Mapping,
    ) -> Result<Offer, NoMemory>
        ensures { IfOk result (λ offer. offer ≡ offer_of router id given.now caps.now mapping) }
    {
        let params = consumable(self.alloc, given.media, &given.params, caps, &mapping)?;
        Ok(Offer {
            router,
            id,
            media: given.media,
            mapping,
            params,
        })
    }

    fn producer_of(
        &self,
        name: &Name,
        router: &Object,
        transport: &Object,
        id: Id,
        given: &ProduceOptions,
        offer: Offer,
    ) -> Result<Built, NoMemory>
        requires { length given.now.params.encodings ≤ 8 }
        ensures { IfOk result (λ b. built_view b ≡ producer_of (known self.now) name.now router.now transport.now id given.now offer) }
    {
        let producer = self.new_producer(name, transport, id, given.paused)?;
        let value = write_produce(
            self.alloc,
            given.media,
            given.paused,
            &offer.mapping,
            &given.params,
        )?;
        let asked = Asked::Produce(producer_ids(router, transport, &producer));
        let ssrcs = given.params.encodings.len() as u32;
        let keeps = Keep::Producer(Boxed::new(self.alloc, offer)?);
        self.makes_new(asked, Some(value), transport, producer, keeps, ssrcs)
    }

    fn new_producer(
        &self,
        name: &Name,
        transport: &Object,
        id: Id,
        paused: bool,
    ) -> Result<Object, NoMemory>
        ensures { IfOk result (λ o. o ≡ new_producer (known self.now) name.now transport.now id paused) }
    {
        let object = self.new_object(Kind::Producer, name, id, transport)?;
        Ok(Object { paused, ..object })
    }

    // Whether an open Producer of a Router has an id, or one that is asked for.
    fn has_id_in(&self, router: Serial, id: Id) -> bool
        ensures { result ≡ has_id_in (known self.now) router id }
    {
        self.kept.producers.has_id(router, id) || self.kept.producer_ids.has(router, id)
    }

    /// A Consumer of a Producer on a transport.
    pub(crate) fn consume_asked(
        &self,
        name: &Name,
        transport: &Object,
        producer: &Object,
        options: &Text,
    ) -> Result<Built, BuildFault>
        ensures { Gives built_view result (consume_asked (known self.now) name.now transport.now producer.now options.now) }
    {
        if transport.kind == Kind::Pipe {
            let paused = piped_consume_options(self.alloc, options)?;
            self.piped_consume(name, transport, producer, paused)
        } else {
            let given = consume_options(self.alloc, options)?;
            self.simple_consume(name, transport, producer, &given)
        }
    }

    /// A Consumer over a pipe.
    pub(crate) fn piped_consume(
        &self,
        name: &Name,
        transport: &Object,
        producer: &Object,
        paused: bool,
    ) -> Result<Built, BuildFault>
        ensures { Gives built_view result (piped_consume (known self.now) name.now transport.now producer.now paused) }
    {
        let router = self.above(transport)?;
        let offer = self.offer(producer.serial)?;
        let enable_rtx = self.retransmits(transport)?;
        let first = self.next.ssrc;
        let params = pipe_consumer_params(self.alloc, &offer.params, enable_rtx, first)?;
        let ends = Ends {
            router,
            transport,
            producer,
        };
        Ok(self.consumer_of(name, ends, offer, params, paused, false)?)
    }

    // A Consumer over another transport.
    fn simple_consume(
        &self,
        name: &Name,
        transport: &Object,
        producer: &Object,
        given: &ConsumeOptions,
    ) -> Result<Built, BuildFault>
        ensures { Gives built_view result (simple_consume (known self.now) name.now transport.now producer.now given.now) }
    {
        let router = self.above(transport)?;
        let offer = self.offer(producer.serial)?;
        let several = Outcome::Unsupported {
            code: Code::Simulcast,
        };
        refuse_where(offer.params.encodings.len() > 1, several)?;
        what_is_received_is_within_the_capabilities();
        let params = consumer_params(self.alloc, &offer.params, &given.caps, self.next.ssrc)?;
        let ends = Ends {
            router,
            transport,
            producer,
        };
        Ok(self.consumer_of(name, ends, offer, params, given.paused, true)?)
    }

    fn consumer_of(
        &self,
        name: &Name,
        ends: Ends<'_>,
        offer: &Offer,
        params: Params,
        paused: bool,
        simple: bool,
    ) -> Result<Built, NoMemory>
        requires { length params.encodings ≤ 8 }
        ensures { IfOk result (λ b. built_view b ≡ consumer_of (known self.now) name.now ends.entry.router.now ends.entry.transport.now ends.entry.producer.now offer.now params paused simple) }
    {
        let consumer = self.new_consumer(name, ends.transport, ends.producer, paused)?;
        let value = write_consume(
            self.alloc,
            offer.media,
            paused,
            offer.params.encodings.as_slice(),
            &params,
            simple,
        )?;
        let asked = Asked::Consume(consumer_ids(
            ends.router,
            ends.transport,
            ends.producer,
            &consumer,
        ));
        let ssrcs = ssrcs_drawn(params.encodings.as_slice());
        let keeps = Keep::Consumer(Boxed::new(self.alloc, params)?);
        self.makes_new(asked, Some(value), ends.transport, consumer, keeps, ssrcs)
    }

    fn new_consumer(
        &self,
        name: &Name,
        transport: &Object,
        producer: &Object,
        paused: bool,
    ) -> Result<Object, NoMemory>
        ensures { IfOk result (λ o. o ≡ new_consumer (known self.now) name.now transport.now producer.now paused) }
    {
        let object = self.new_object(Kind::Consumer, name, self.own_id(), transport)?;
        Ok(Object {
            producer: Some(producer.serial),
            paused,
            ..object
        })
    }

    /// A pause or the end of one, of a Producer or a Consumer.
    pub(crate) fn flag_asked(&self, stream: &Object, paused: bool) -> Result<Built, BuildFault>
        ensures { Gives built_view result (flag_asked (known self.now) stream.now paused) }
    {
        let transport = self.above(stream)?;
        let router = self.above(transport)?;
        if stream.kind == Kind::Producer {
            let ids = producer_ids(router, transport, stream);
            Ok(self.changes(producer_flag(paused, ids), None, stream)?)
        } else {
            let producer = self.source(stream)?;
            let ids = consumer_ids(router, transport, producer, stream);
            Ok(self.changes(consumer_flag(paused, ids), None, stream)?)
        }
    }
}

/// The objects that a Consumer is named with.
#[derive(Clone, Copy)]
struct Ends<'o> {
    router: &'o Object,
    transport: &'o Object,
    producer: &'o Object,
}

fn producer_flag(paused: bool, ids: ProducerIds) -> Asked
    ensures { result ≡ producer_flag paused ids }
{
    if paused {
        Asked::PauseProducer(ids)
    } else {
        Asked::ResumeProducer(ids)
    }
}

fn consumer_flag(paused: bool, ids: ConsumerIds) -> Asked
    ensures { result ≡ consumer_flag paused ids }
{
    if paused {
        Asked::PauseConsumer(ids)
    } else {
        Asked::ResumeConsumer(ids)
    }
}
