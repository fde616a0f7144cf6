//! Closes, and who is told of them.

ghost use Rattle.std.specs.Prelude.{◌≡◌, map, filter, not, ◌&&◌, OnOk, OnErr, IfOk, List};
ghost use Rattle.ms_base.specs.declared.id.Id.{Id as Name};
ghost use Rattle.worker_router.specs.State.{consumer_of, goes_over, is_of, is_on, producer_of, same_id, transport_of};
ghost use Rattle.worker_router.specs.Calls.{comes_by, missing, told_of_producer, told_of_transport, without_consumer, without_producer, without_transport};
ghost use Rattle.std.specs.List.{IsDistinct};
ghost use Rattle.indexmap.specs.IndexMap.{keys};
ghost use Rattle.worker_router.specs.Tables.{AreDifferent, Faults, checked, id_of, present, same_place, with_present};

use crate::by_id::{ById, HasId};
use crate::consumer::Consumer;
use crate::fault::RouterFault;
use crate::feed::Feed;
use crate::router::WorkerRouter;
use crate::ssrcs::{Ssrcs, keep_owned};
use ms_base::{Id, NoMemory};
use std::alloc::Global;

impl WorkerRouter {
    /// The Consumers that the close of a transport would tell, in the order in which they are told: those of its Producers
    /// that go over other transports. Nothing changes.
    ///
    /// # Errors
    ///
    /// `Missing` exactly where the transport isn't there.
    pub fn told_by_transport(&self, id: Id) -> Result<Vec<Id>, RouterFault>
        ensures fault { Faults result (missing (transport_of self.now id)) }
        ensures told { IfOk result (λ told. told.items ≡ told_of_transport self.now id) }
    {
        if !self.transports.has(id) {
            return Err(RouterFault::Missing);
        }
        let mut told = Vec::new(self.alloc);
        for consumer in self.consumers.items.values() {
            if self.is_told(id, consumer) {
                told.push(consumer.id())?;
            }
        }
        Ok(told)
    }

    /// The Consumers that the close of a Producer would tell, in the order in which they are told. Nothing changes.
    ///
    /// # Errors
    ///
    /// `Missing` exactly where the Producer isn't there.
    pub fn told_by_producer(&self, id: Id) -> Result<Vec<Id>, RouterFault>
        ensures fault { Faults result (missing (producer_of self.now id)) }
        ensures told { IfOk result (λ told. told.items ≡ told_of_producer self.now id) }
    {
        let Some(feed) = self.producers.get(id) else {
            return Err(RouterFault::Missing);
        };
        Ok(feed.consumer_ids(self.alloc)?)
    }

    // Whether the close of a transport tells a Consumer.
    fn is_told(&self, transport: Id, consumer: &Consumer) -> bool
        ensures { result ≡ (comes_by self.now transport consumer.now && not (goes_over transport consumer.now)) }
    {
        self.comes_by(transport, consumer) && consumer.transport() != transport
    }

    // Whether a Consumer's Producer comes in over the transport.
    fn comes_by(&self, transport: Id, consumer: &Consumer) -> bool
        ensures { result ≡ comes_by self.now transport consumer.now }
    {
        match self.producers.get(consumer.producer()) {
            Some(feed) => feed.transport() == transport,
            None => false,
        }
    }
}

impl WorkerRouter {
    /// Closes a transport: its Producers close with it, their Consumers, and the Consumers over it. It takes no memory, and
    /// nothing happens where it isn't there.
    pub fn remove_transport(&mut self, id: Id)
        ensures { self.new ≡ without_transport self.old id }
    {
        self.transports.remove(id);
        self.producers.remove_over(id);
        self.consumers.remove_over(id);
        keep_tables(&mut self.producers, &mut self.consumers, &mut self.ssrcs);
    }

    /// Closes a Producer, and its Consumers with it. It takes no memory, and nothing happens where it isn't there.
    pub fn remove_producer(&mut self, id: Id)
        ensures { self.new ≡ without_producer self.old id }
    {
        self.producers.remove(id);
        self.consumers.remove_of(id);
        keep_owned(&mut self.ssrcs, &self.producers);
    }

    /// Closes a transport as [`WorkerRouter::remove_transport`] does, and gives the Consumers that are told so, as
    /// [`WorkerRouter::told_by_transport`] does.
    ///
    /// # Errors
    ///
    /// `Missing` exactly where the transport isn't there.
    pub fn close_transport(&mut self, id: Id) -> Result<Vec<Id>, RouterFault>
        ensures fault { Faults result (missing (transport_of self.old id)) }
        ensures told { IfOk result (λ told. told.items ≡ told_of_transport self.old id) }
        ensures ok { OnOk result (self.new ≡ without_transport self.old id) }
        ensures err { OnErr result (self.new ≡ self.old) }
    {
        let told = self.told_by_transport(id)?;
        self.remove_transport(id);
        Ok(told)
    }

    /// Closes a Producer as [`WorkerRouter::remove_producer`] does, and gives the Consumers that are told so, as
    /// [`WorkerRouter::told_by_producer`] does.
    ///
    /// # Errors
    ///
    /// `Missing` exactly where the Producer isn't there.
    pub fn close_producer(&mut self, id: Id) -> Result<Vec<Id>, RouterFault>
        ensures fault { Faults result (missing (producer_of self.old id)) }
        ensures told { IfOk result (λ told. told.items ≡ told_of_producer self.old id) }
        ensures ok { OnOk result (self.new ≡ without_producer self.old id) }
        ensures err { OnErr result (self.new ≡ self.old) }
    {
        let told = self.told_by_producer(id)?;
        self.remove_producer(id);
        Ok(told)
    }

    /// Closes a Consumer.
    ///
    /// # Errors
    ///
    /// `Missing` exactly where it isn't there.
    pub fn close_consumer(&mut self, id: Id) -> Result<(), RouterFault>
        ensures fault { result ≡ checked (missing (consumer_of self.old id)) }
        ensures ok { OnOk result (self.new ≡ without_consumer self.old id) }
        ensures err { OnErr result (self.new ≡ self.old) }
    {
        let Some(consumer) = self.consumers.get(id) else {
            return Err(RouterFault::Missing);
        };
        let producer = consumer.producer();
        self.consumers.remove(id);
        self.producers.detach(producer, id);
        Ok(())
    }
}

// Takes out of the tables what goes with the Producers and the Consumers that were taken out.
fn keep_tables(producers: &mut ById<Feed>, consumers: &mut ById<Consumer>, ssrcs: &mut Ssrcs)
    ensures consumers { consumers.new ≡ filter (λ c. present (λ f. f.source.id) producers.old c.producer) consumers.old }
    ensures producers { producers.new ≡ map (with_present consumers.new) producers.old }
    ensures ssrcs { ssrcs.new.entries ≡ filter (λ e. present (λ f. f.source.id) producers.old (id_of e.1)) ssrcs.old.entries }
    ensures consumers_differ { AreDifferent (λ c. c.id) consumers.new }
    ensures places_differ { IsDistinct same_place (keys ssrcs.new) }
{
    keep_owned(ssrcs, producers);
    consumers.keep_fed(producers);
    producers.keep_present(consumers);
}
