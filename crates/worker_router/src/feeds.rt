//! The Producers of a Router.

ghost use Rattle.std.specs.Prelude.{◌≡◌, ◌∷◌, ◌++◌, [], map, OnOk, OnErr};
ghost use Rattle.worker_router.specs.State.{same_id, is_on};
ghost use Rattle.worker_router.specs.Calls.{change, set_paused, without};
ghost use Rattle.worker_router.specs.Tables.{AreDifferent, detached, outline_of, with_present};

use crate::by_id::ById;
use crate::consumer::Consumer;
use crate::feed::Feed;
use crate::listed::Stands;
use ms_base::{Id, NoMemory};

impl ById<Feed> {
    /// Pauses or resumes the Producer of this id, where it is there.
    pub(crate) fn set_paused(&mut self, id: Id, paused: bool)
        ensures state { self.new ≡ change (λ f. same_id f.source.id id) (λ f. record f { source = set_paused paused f.source }) self.old }
        ensures outlines { map outline_of self.new ≡ map outline_of self.old }
    {
        let Some(feed) = self.items.get_mut(&id.0) else {
            return;
        };
        feed.set_paused(paused);
    }

    /// Adds a Consumer to those of the Producer of this id, where that is there.
    pub(crate) fn attach(
        &mut self,
        producer: Id,
        consumer: Id,
        transport: Id,
    ) -> Result<(), NoMemory>
        ensures ok { OnOk result (self.new ≡ change (λ f. same_id f.source.id producer) (λ f. record f { consumers = f.consumers ++ (consumer, transport) ∷ [] }) self.old) }
        ensures err { OnErr result (self.new ≡ self.old) }
    {
        let Some(feed) = self.items.get_mut(&producer.0) else {
            return Ok(());
        };
        feed.attach(consumer, transport)
    }

    /// Takes a Consumer out of those of the Producer of this id, where that is there.
    pub(crate) fn detach(&mut self, producer: Id, consumer: Id)
        ensures { self.new ≡ change (λ f. same_id f.source.id producer) (detached consumer) self.old }
    {
        let Some(feed) = self.items.get_mut(&producer.0) else {
            return;
        };
        feed.detach(consumer);
    }

    /// Notes where the Consumer at a place of the Producer of this id and its transport stand, if not where they stood.
    pub(crate) fn note_move(&mut self, producer: Id, place: usize, stood: Stands, stands: Stands)
        ensures { self.new ≡ self.old }
    {
        if stood == stands {
            return;
        }
        let Some(feed) = self.items.get_mut(&producer.0) else {
            return;
        };
        feed.note(place, stands);
    }

    /// Notes a number at the Consumer at a place of the Producer of this id. That is looked for where one stood first.
    pub(crate) fn note_number(&mut self, producer: Id, place: usize, first: usize, number: usize)
        ensures { self.new ≡ self.old }
    {
        let Some(index) = self.index_of(producer, first) else {
            return;
        };
        let Some(feed) = self.items.get_index_mut(index) else {
            return;
        };
        feed.note_number(place, number);
    }

    /// Takes out those over a transport.
    pub(crate) fn remove_over(&mut self, transport: Id)
        ensures state { self.new ≡ without (λ f. is_on transport f.source) self.old }
        ensures different { AreDifferent (λ f. f.source.id) self.new }
    {
        self.items
            .retain(|_key, feed| feed.transport() != transport);
    }

    /// Keeps of the Consumers of each those that are there.
    pub(crate) fn keep_present(&mut self, consumers: &ById<Consumer>)
        ensures { self.new ≡ map (with_present consumers.now) self.old }
    {
        self.items.retain(|_key, feed| {
            feed.keep_present(consumers);
            true
        });
    }
}
