//! What is planned is done: all of it, or nothing where memory runs out.

ghost use Rattle.std.specs.Prelude.{◌≡◌, ◌++◌, ◌∷◌, [], OnOk, OnErr};
ghost use Rattle.worker_calls.specs.Plans.{changed, IsPossible};
ghost use Rattle.worker_calls.specs.Requests.{without_router};
ghost use Rattle.worker_calls.specs.declared.change.Change.TheVariants.{Stand, AddProducer, RemoveTransport, RemoveProducer};

use crate::change::{Change, NewProducer, RouterChange};
use crate::place::{Place, Span};
use crate::worker::Worker;
use ms_base::{Id, NoMemory};
use worker_requests::{ProducerIds, TransportIds};
use worker_router::Transport;

impl Worker {
    /// Changes the worker.
    pub(crate) fn apply(&mut self, change: Change) -> Result<(), NoMemory>
        requires { IsPossible change self.old }
        ensures ok { OnOk result (self.new ≡ changed change self.old) }
        ensures err { OnErr result (self.new ≡ self.old) }
    {
        match change {
            Change::Nothing => Ok(()),
            Change::AddRouter(id) => self.routers.add(id),
            Change::RemoveRouter(id) => {
                self.remove_router(id);
                Ok(())
            }
            Change::InRouter(id, change) => self.routers.change(id, change),
            Change::Wait(waiting) => {
                self.binds = waiting.link();
                self.waiting = Some(waiting);
                Ok(())
            }
            Change::Stand {
                link,
                place,
                transport,
            } => self.stand(link, place, transport),
            Change::Forget => {
                self.waiting = None;
                Ok(())
            }
            Change::AddProducer(ids, producer, direct) => self.add_producer(ids, producer, direct),
            Change::RemoveTransport(ids) => self.remove_transport(ids),
            Change::RemoveProducer(ids) => self.remove_producer(ids),
        }
    }

    fn remove_router(&mut self, id: Id)
        ensures { self.new ≡ without_router self.old id }
    {
        self.routers.remove(id);
        self.links.remove(Span::Router(id));
        self.directs.remove_in(id);
    }

    fn stand(&mut self, link: u32, place: Place, transport: Transport) -> Result<(), NoMemory>
        ensures ok { OnOk result (self.new ≡ changed (Stand link place transport) self.old) }
        ensures err { OnErr result (self.new ≡ self.old) }
    {
        let change = RouterChange::AddTransport(place.transport, transport);
        self.links.reserve()?;
        self.routers.change(place.router, change)?;
        self.links.add(link, place);
        self.waiting = None;
        Ok(())
    }

    fn add_producer(
        &mut self,
        ids: ProducerIds,
        producer: NewProducer,
        direct: bool,
    ) -> Result<(), NoMemory>
        ensures ok { OnOk result (self.new ≡ changed (AddProducer ids producer direct) self.old) }
        ensures err { OnErr result (self.new ≡ self.old) }
    {
        let change = RouterChange::AddProducer(ids, producer);
        self.directs.reserve()?;
        self.routers.change(ids.router, change)?;
        if direct {
            self.directs.add(ids.router, ids.producer);
        }
        Ok(())
    }

    fn remove_transport(&mut self, ids: TransportIds) -> Result<(), NoMemory>
        ensures ok { OnOk result (self.new ≡ changed (RemoveTransport ids) self.old) }
        ensures err { OnErr result (self.new ≡ self.old) }
    {
        let change = RouterChange::RemoveTransport(ids.transport);
        self.routers.change(ids.router, change)?;
        self.links.remove(Span::Transport(Place::new(ids)));
        self.directs.keep_standing(&self.routers);
        Ok(())
    }

    fn remove_producer(&mut self, ids: ProducerIds) -> Result<(), NoMemory>
        ensures ok { OnOk result (self.new ≡ changed (RemoveProducer ids) self.old) }
        ensures err { OnErr result (self.new ≡ self.old) }
    {
        let change = RouterChange::RemoveProducer(ids.producer);
        self.routers.change(ids.router, change)?;
        self.directs.keep_standing(&self.routers);
        Ok(())
    }
}
