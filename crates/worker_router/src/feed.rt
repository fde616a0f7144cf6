//! A Producer with its Consumers.

ghost use Rattle.std.specs.Prelude.{◌≡◌, ◌∷◌, ◌++◌, [], map, filter, find, is_some, slice_get, option_copied, ◌<◌, ◌≤◌, ◌+◌, ◌^◌, OnOk, OnErr, IfOk, IfSome};
ghost use Rattle.producer.specs.Received.{received};
ghost use Rattle.rtp_params.specs.Readable.{Each};
ghost use Rattle.worker_router.specs.State.{same_id};
ghost use Rattle.worker_router.specs.Calls.{receives, set_paused};
ghost use Rattle.worker_router.specs.Tables.{detached, with_present};

use crate::by_id::{ById, HasId};
use crate::consumer::Consumer;
use crate::listed::{Listed, Stands};
use ms_base::{Id, NoMemory};
use producer::Producer;
use rtp_extension::{IdMap, Mapped};
use rtp_packet::View;
use std::alloc::Global;
use std::marker::Model;

/// A Producer with the Consumers that it feeds.
#[derive(Debug, Drop)]
pub(crate) struct Feed {
    id: Id,
    transport: Id,
    producer: Producer,
    /// The Consumers, in order of making.
    consumers: Vec<Listed>,
}

impl Model for Feed {
    ghost use Rattle.worker_router.specs.Tables.{FeedView};

    ghost Value = { FeedView };

    ghost view = { λ f. record {
      source = record { id = f.id; transport = f.transport; stream = f.producer };
      consumers = f.consumers.items;
    } };

    ghost use Rattle.std.specs.Prelude.{◌≤◌};
    ghost use Rattle.rtp_params.specs.Readable.{Each};

    // What a payload type is mapped to is one.
    ghost invariant = { λ f. Each (λ pair. pair.1 ≤ 127) f.producer.mapping.codecs };
}

impl HasId for Feed {
    ghost id_of = { λ f. f.source.id };

    fn id(&self) -> Id {
        self.id
    }
}

impl Feed {
    /// One without Consumers.
    pub(crate) fn new(alloc: Global, id: Id, transport: Id, producer: Producer) -> Feed
        requires { Each (λ pair. pair.1 ≤ 127) producer.mapping.codecs }
        ensures { result ≡ record { source = record { id = id; transport = transport; stream = producer }; consumers = [] } }
    {
        Feed {
            id,
            transport,
            producer,
            consumers: Vec::new(alloc),
        }
    }

    pub(crate) fn transport(&self) -> Id
        ensures { result ≡ self.now.source.transport }
    {
        self.transport
    }

    pub(crate) fn is_paused(&self) -> bool
        ensures { result ≡ self.now.source.stream.paused }
    {
        self.producer.is_paused()
    }

    /// The new ids of its packets' elements.
    pub(crate) fn ids(&self) -> &IdMap
        ensures { result.now ≡ self.now.source.stream.ids }
    {
        self.producer.ids()
    }

    /// What its Producer says of a packet.
    pub(crate) fn receive(&self, view: &View<'_>) -> Option<Mapped>
        ensures received { result ≡ receives view.now self.now.source }
        ensures fits { IfSome result (λ m. m.payload_type < 128) }
    {
        self.producer.receive(view)
    }

    /// The Consumer at a place, with its transport.
    pub(crate) fn consumer_at(&self, place: usize) -> Option<&Listed>
        ensures value { option_copied result ≡ slice_get self.now.consumers place }
        ensures more { IfSome result (λ _. place + 1 < 2 ^ 64) }
    {
        self.consumers.get(place)
    }

    /// Notes where the Consumer at a place and its transport stand.
    pub(crate) fn note(&mut self, place: usize, stands: Stands)
        ensures { self.new ≡ self.old }
    {
        if let Some(consumer) = self.consumers.get_mut(place) {
            consumer.note(stands);
        }
    }

    /// Notes a number at the Consumer at a place.
    pub(crate) fn note_number(&mut self, place: usize, number: usize)
        ensures { self.new ≡ self.old }
    {
        if let Some(consumer) = self.consumers.get_mut(place) {
            consumer.note_number(number);
        }
    }

    /// Its Consumers in order of making, each with its transport.
    pub(crate) fn consumers(&self) -> &[Listed]
        ensures { result.now ≡ self.now.consumers }
    {
        self.consumers.as_slice()
    }

    /// The ids of its Consumers.
    pub(crate) fn consumer_ids(&self, alloc: Global) -> Result<Vec<Id>, NoMemory>
        ensures { IfOk result (λ ids. ids.items ≡ map (λ place. place.0) self.now.consumers) }
    {
        let ids = self
            .consumers
            .iter()
            .map(|listed| listed.consumer())
            .collect(alloc)?;
        Ok(ids)
    }

    /// Pauses or resumes the Producer.
    pub(crate) fn set_paused(&mut self, paused: bool)
        ensures { self.new ≡ record self.old { source = set_paused paused self.old.source } }
    {
        if paused {
            self.producer.pause();
        } else {
            self.producer.resume();
        }
    }

    /// Adds a Consumer behind the others.
    pub(crate) fn attach(&mut self, consumer: Id, transport: Id) -> Result<(), NoMemory>
        ensures ok { OnOk result (self.new ≡ record self.old { consumers = self.old.consumers ++ (consumer, transport) ∷ [] }) }
        ensures err { OnErr result (self.new ≡ self.old) }
    {
        self.consumers.push(Listed::new(consumer, transport))?;
        Ok(())
    }

    /// Takes a Consumer out of its own.
    pub(crate) fn detach(&mut self, consumer: Id)
        ensures { self.new ≡ detached consumer self.old }
    {
        self.consumers
            .retain(|listed| listed.consumer() != consumer);
    }

    /// Keeps those Consumers that are there.
    pub(crate) fn keep_present(&mut self, consumers: &ById<Consumer>)
        ensures { self.new ≡ with_present consumers.now self.old }
    {
        self.consumers
            .retain(|listed| consumers.has(listed.consumer()));
    }
}
