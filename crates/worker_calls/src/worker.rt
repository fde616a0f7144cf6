//! A worker without its channel and its sockets.

ghost use Rattle.std.specs.Prelude.{◌≡◌, ◌++◌, ◌≤◌, map, Some, None, OnOk, OnErr, option_map, option_copied};
ghost use Rattle.channel_msgs.specs.View.{request_view};
ghost use Rattle.rtp_params.specs.Readable.{Each};
ghost use Rattle.std.specs.Borrow.{sem};
ghost use Rattle.std.specs.Option.{option_copied_mut};
ghost use Rattle.worker_calls.specs.Lending.{LendsRouter};
ghost use Rattle.worker_calls.specs.Acts.{outgoing, IsShort};
ghost use Rattle.worker_calls.specs.Plans.{at, IsPossible, changed};
ghost use Rattle.worker_calls.specs.Requests.{after_request, out_request, after_bound, out_bound};
ghost use Rattle.worker_router.specs.Tables.{AreDifferent};
ghost use Rattle.worker_calls.specs.State.{idle, router_of, place_of, link_of, direct_of};

use crate::act::Act;
use crate::directs::Directs;
use crate::links::Links;
use crate::place::Place;
use crate::plan::Plan;
use crate::routers::Routers;
use crate::waiting::Waiting;
use channel_msgs::Request;
use ms_base::{Id, NoMemory};
use std::alloc::Global;
use std::marker::Model;
use worker_router::WorkerRouter;

/// A worker without its channel and its sockets: its Routers, the links of their transports and the Producers of direct
/// ones. Contracts see each list in order of making.
#[derive(Debug, Drop)]
pub struct Worker {
    pub(crate) alloc: Global,
    pub(crate) routers: Routers,
    pub(crate) links: Links,
    /// The number of the link that was bound, or failed to be, last.
    pub(crate) binds: u32,
    pub(crate) waiting: Option<Waiting>,
    pub(crate) directs: Directs,
}

impl Model for Worker {
    ghost use Rattle.worker_calls.specs.State.{Worker as Working};

    ghost Value = { Working };

    ghost view = { λ w. record { routers = w.routers; links = w.links.links; binds = w.binds; waiting = w.waiting; directs = w.directs.keys } };
}

impl Worker {
    /// A worker in which nothing stands yet.
    pub fn new(alloc: Global) -> Worker
        ensures { result ≡ idle }
    {
        Worker {
            alloc,
            routers: Routers::new(alloc),
            links: Links::new(alloc),
            binds: 0,
            waiting: None,
            directs: Directs::new(alloc),
        }
    }

    /// No two of its Routers have the same id.
    pub fn routers_differ(&self)
        ensures { AreDifferent (λ r. r.id) self.now.routers }
    {
        self.routers.differ();
    }

    /// Carries out a request or refuses it, and adds what goes out behind the acts that are there: notices, sockets to
    /// be closed, and the one reply; or a socket to be opened, and then the reply follows with [`Worker::on_bound`].
    pub fn on_request(&mut self, request: &Request, into: &mut Vec<Act>) -> Result<(), NoMemory>
        ensures state { OnOk result (self.new ≡ after_request self.old (request_view request.now)) }
        ensures acts { OnOk result (map outgoing into.new.items ≡ map outgoing into.old.items ++ out_request self.old (request_view request.now)) }
        ensures short { OnOk result (Each IsShort (out_request self.old (request_view request.now))) }

        // Where memory runs out nothing has changed.
        ensures err { OnErr result (self.new ≡ self.old) }
        ensures err_acts { OnErr result (into.new.items ≡ into.old.items) }
    {
        let plan = self.plan(request)?;
        self.carry_out(plan, into)
    }

    /// Hears the port that the link which waits was bound to, or none where that failed: then its transport is made, or
    /// not, and the reply follows. Where no link waits nothing happens.
    ///
    /// A request that came while the link waited may have taken the id of its transport. The Router has one transport of
    /// an id, so this is answered as if memory had run out. It can't occur where the answer to each
    /// [`Act::Bind`] comes before the next request.
    pub fn on_bound(&mut self, port: Option<u16>, into: &mut Vec<Act>) -> Result<(), NoMemory>
        ensures state { OnOk result (self.new ≡ after_bound self.old port) }
        ensures acts { OnOk result (map outgoing into.new.items ≡ map outgoing into.old.items ++ out_bound self.old port) }
        ensures short { OnOk result (Each IsShort (out_bound self.old port)) }
        ensures err { OnErr result (self.new ≡ self.old) }
        ensures err_acts { OnErr result (into.new.items ≡ into.old.items) }
    {
        let plan = self.plan_bound(port)?;
        self.carry_out(plan, into)
    }

    /// The number of the link that waits to be bound.
    pub fn is_waiting(&self) -> Option<u32>
        ensures { result ≡ option_map (λ b. b.link) self.now.waiting }
    {
        let waiting = self.waiting.as_ref()?;
        Some(waiting.link())
    }

    /// The transport whose link has this number.
    pub fn place_of(&self, link: u32) -> Option<Place>
        ensures { result ≡ option_map (λ l. l.place) (place_of self.now link) }
    {
        self.links.place_of(link)
    }

    /// The number of a transport's link.
    pub fn link_of(&self, place: Place) -> Option<u32>
        ensures { result ≡ option_map (λ l. l.link) (link_of self.now place) }
    {
        self.links.link_of(place)
    }

    /// The number of a transport's link, as [`Worker::link_of`] tells it. It is looked for at a place first: that is then
    /// where it stands, until links are made or closed.
    pub fn link_near(&self, place: Place, near: &mut usize) -> Option<u32>
        ensures { result ≡ option_map (λ l. l.link) (link_of self.now place) }
    {
        self.links.link_near(place, near)
    }

    /// The earliest made of the Producers of direct transports with this id: the ids of its Router and of itself.
    pub fn direct_of(&self, id: Id) -> Option<(Id, Id)>
        ensures { result ≡ option_map (λ key. (key.router, key.producer)) (direct_of self.now id) }
    {
        let key = self.directs.earliest(id)?;
        Some((key.router, key.producer))
    }

    /// The Router of this id.
    pub fn router(&self, id: Id) -> Option<&WorkerRouter>
        ensures { option_map (at id) (option_copied result) ≡ router_of self.now id }
    {
        self.routers.get(id)
    }

    /// The Router of this id, to be changed: what is put back stands in its place.
    pub fn router_mut(&mut self, id: Id) -> Option<&mut WorkerRouter>
        ensures* lends { sem 𝓛 (LendsRouter self.entry id result) }
        ensures value { option_map (at id) (option_copied_mut result) ≡ router_of self.old id }
    {
        self.routers.get_mut(id)
    }

    // Does what was planned, all or nothing.
    fn carry_out(&mut self, plan: Plan, into: &mut Vec<Act>) -> Result<(), NoMemory>
        requires { IsPossible plan.change self.old }
        ensures state { OnOk result (self.new ≡ changed plan.change self.old) }
        ensures acts { OnOk result (map outgoing into.new.items ≡ map outgoing into.old.items ++ plan.acts) }
        ensures short { Each IsShort plan.acts }
        ensures err { OnErr result (self.new ≡ self.old) }
        ensures err_acts { OnErr result (into.new.items ≡ into.old.items) }
    {
        let before = into.len();
        plan.acts.give(into)?;
        let done = self.apply(plan.change);
        if done.is_err() {
            into.truncate(before);
        }
        done
    }
}
