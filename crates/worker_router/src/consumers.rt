//! The Consumers of a Router.

ghost use Rattle.std.specs.Prelude.{◌≡◌, ◌<◌, ◌≤◌, length, take, drop, not, map, filter, find, is_some, Some, None, option_map, option_and_then, ◌&&◌, IfSome, IfNone};
ghost use Rattle.std.specs.List.{IsDistinct};
ghost use Rattle.std.specs.Str.{bytes_eq};
ghost use Rattle.rtp_packet.specs.Packet.{IsPacket};
ghost use Rattle.simple_consumer.specs.Sending.{offer};
ghost use Rattle.pipe_consumer.specs.Streams.{passed_by};
ghost use Rattle.worker_router.specs.State.{same_id, goes_over, is_of};
ghost use Rattle.worker_router.specs.Calls.{after_offer, change, connect_one, pause_one, pause_source_of, without};
ghost use Rattle.worker_router.specs.Tables.{AreDifferent, ids_in, is_listed, outlet_of, present};

use crate::by_id::ById;
use crate::consumer::Consumer;
use crate::feed::Feed;
use crate::listed::Listed;
use ms_base::Id;
use rtp_extension::{IdMap, Mapped};
use rtp_packet::View;

impl ById<Consumer> {
    /// Pauses or resumes the Consumer of this id, and tells whether it is there.
    pub(crate) fn pause(&mut self, id: Id, paused: bool) -> bool
        ensures there { result ≡ is_some (find (λ c. same_id c.id id) self.old) }
        ensures state { self.new ≡ change (λ c. same_id c.id id) (pause_one paused) self.old }
        ensures outlets { map outlet_of self.new ≡ map outlet_of self.old }
    {
        let Some(consumer) = self.items.get_mut(&id.0) else {
            return false;
        };
        consumer.pause(paused);
        true
    }

    /// Connects those over a transport.
    pub(crate) fn connect_over(&mut self, transport: Id)
        ensures state { self.new ≡ change (goes_over transport) connect_one self.old }
        ensures outlets { map outlet_of self.new ≡ map outlet_of self.old }
    {
        self.items.retain(|_key, consumer| {
            consumer.connect_over(transport);
            true
        });
    }

    /// Tells those of a Producer, which stand in its list, that it is paused or not.
    pub(crate) fn pause_sources(&mut self, own: &[Listed], paused: bool)
        requires { IsDistinct bytes_eq (ids_in own.now) }
        ensures state { self.new ≡ change (is_listed own.now) (pause_source_of paused) self.old }
        ensures outlets { map outlet_of self.new ≡ map outlet_of self.old }
    {
        for listed in own {
            self.pause_source(listed.consumer(), paused);
        }
    }

    fn pause_source(&mut self, id: Id, paused: bool)
        ensures state { self.new ≡ change (λ c. same_id c.id id) (pause_source_of paused) self.old }
        ensures outlets { map outlet_of self.new ≡ map outlet_of self.old }
    {
        let Some(consumer) = self.items.get_mut(&id.0) else {
            return;
        };
        consumer.pause_source(paused);
    }

    /// Takes out those over a transport.
    pub(crate) fn remove_over(&mut self, transport: Id)
        ensures state { self.new ≡ without (goes_over transport) self.old }
        ensures different { AreDifferent (λ c. c.id) self.new }
    {
        self.items
            .retain(|_key, consumer| consumer.transport() != transport);
    }

    /// Takes out those of a Producer.
    pub(crate) fn remove_of(&mut self, producer: Id)
        ensures state { self.new ≡ without (is_of producer) self.old }
        ensures different { AreDifferent (λ c. c.id) self.new }
    {
        self.items
            .retain(|_key, consumer| consumer.producer() != producer);
    }

    /// Keeps those whose Producers are there.
    pub(crate) fn keep_fed(&mut self, producers: &ById<Feed>)
        ensures state { self.new ≡ filter (λ c. present (λ f. f.source.id) producers.now c.producer) self.old }
        ensures different { AreDifferent (λ c. c.id) self.new }
    {
        self.items
            .retain(|_key, consumer| producers.has(consumer.producer()));
    }

    /// Writes what the Consumer of this id sends on of a packet that was read, as [`Consumer::pass`] does, if it is there.
    /// It is looked for at a place first: that is then where it stands.
    pub(crate) fn pass(
        &mut self,
        id: Id,
        place: &mut usize,
        mapped: Mapped,
        ids: &IdMap,
        view: &View<'_>,
        packet: &[u8],
        into: &mut [u8],
    ) -> Option<usize>
        requires read { IsPacket view.now packet.now }
        requires payload_type { mapped.payload_type < 128 }
        requires room { length packet.now ≤ length into.old }
        ensures packet { option_map (λ n. take n into.new) result
            ≡ option_and_then (λ c. passed_by c.streams (offer mapped ids.now packet.now)) (find (λ c. same_id c.id id) self.old) }
        ensures state { self.new ≡ change (λ c. same_id c.id id) (after_offer (Some (offer mapped ids.now packet.now))) self.old }
        ensures outlets { map outlet_of self.new ≡ map outlet_of self.old }
        ensures no_longer { IfSome result (λ n. n ≤ length packet.now) }
        ensures rest { IfSome result (λ n. drop n into.new ≡ drop n into.old) }
        ensures untouched { IfNone result (into.new ≡ into.old) }
    {
        let Some(index) = self.index_of(id, *place) else {
            return None;
        };
        *place = index;
        let Some(consumer) = self.items.get_index_mut(index) else {
            return None;
        };
        consumer.pass(mapped, ids, view, packet, into)
    }
}
