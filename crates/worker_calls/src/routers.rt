//! The Routers of a worker.

ghost use Rattle.std.specs.Prelude.{◌≡◌, ◌∷◌, ◌++◌, [], find, filter, not, is_some, false, slice_get, OnOk, OnErr, option_map, option_and_then, option_copied};
ghost use Rattle.worker_router.specs.State.{nothing_yet, same_id};
ghost use Rattle.std.specs.Borrow.{sem};
ghost use Rattle.std.specs.Option.{option_copied_mut};
ghost use Rattle.worker_calls.specs.Lending.{LendsOne};
ghost use Rattle.worker_router.specs.Tables.{AreDifferent};
ghost use Rattle.worker_calls.specs.Plans.{at, changed_router, change_in};
ghost use Rattle.worker_calls.specs.Requests.{has_producer};

use crate::change::RouterChange;
use crate::streams::change_router;
use indexmap::IndexMap;
use ms_base::{Id, Kind, NoMemory};
use std::alloc::Global;
use std::marker::Model;
use worker_router::WorkerRouter;

/// Routers of different ids, in order of making, found by their ids.
#[derive(Debug, Drop)]
pub(crate) struct Routers {
    alloc: Global,
    routers: IndexMap<[u8; 16], WorkerRouter>,
    /// Where the Router stands that was lent last, as far as is known.
    lent: usize,
}

impl Model for Routers {
    ghost use Rattle.std.specs.Prelude.{List};
    ghost use Rattle.worker_calls.specs.State.{RouterAt};
    ghost use Rattle.worker_calls.specs.Tables.{routers_at};

    ghost Value = { List RouterAt };

    ghost view = { λ r. routers_at r.routers.entries };
}

impl Routers {
    pub(crate) fn new(alloc: Global) -> Routers
        ensures { result ≡ [] }
    {
        Routers {
            alloc,
            routers: IndexMap::new(alloc),
            lent: 0,
        }
    }

    /// No two have the same id.
    pub(crate) fn differ(&self)
        ensures { AreDifferent (λ r. r.id) self.now }
    {
        let _count = self.routers.len();
    }

    /// The Router of this id.
    pub(crate) fn get(&self, id: Id) -> Option<&WorkerRouter>
        ensures { option_map (at id) (option_copied result) ≡ find (λ r. same_id r.id id) self.now }
    {
        let index = self.index_of(id)?;
        let (_key, router) = self.routers.get_index(index)?;
        Some(router)
    }

    // Where the Router of this id stands, if it is there. It is looked for where the last one was lent first.
    fn index_of(&self, id: Id) -> Option<usize>
        ensures { option_and_then (slice_get self.now) result ≡ find (λ r. same_id r.id id) self.now }
    {
        if let Some((key, _router)) = self.routers.get_index(self.lent) {
            if *key == id.0 {
                return Some(self.lent);
            }
        }
        let (index, _key, _router) = self.routers.get_full(&id.0)?;
        Some(index)
    }

    /// The Router of this id, to be changed.
    pub(crate) fn get_mut(&mut self, id: Id) -> Option<&mut WorkerRouter>
        ensures* lends { sem 𝓛 (LendsOne self.entry id result) }
        ensures value { option_map (at id) (option_copied_mut result) ≡ find (λ r. same_id r.id id) self.old }
    {
        let index = self.index_of(id)?;
        self.lent = index;
        self.routers.get_index_mut(index)
    }

    /// Whether the Producer stands in the Router.
    pub(crate) fn has_producer(&self, router: Id, producer: Id) -> bool
        ensures { result ≡ has_producer self.now router producer }
    {
        match self.get(router) {
            Some(router) => router.has(Kind::Producer, producer),
            None => false,
        }
    }

    /// Adds a Router of another id than theirs.
    pub(crate) fn add(&mut self, id: Id) -> Result<(), NoMemory>
        requires { is_some (find (λ r. same_id r.id id) self.old) ≡ false }
        ensures ok { OnOk result (self.new ≡ self.old ++ record { id = id; router = nothing_yet } ∷ []) }
        ensures err { OnErr result (self.new ≡ self.old) }
    {
        self.routers.insert(id.0, WorkerRouter::new(self.alloc))?;
        Ok(())
    }

    /// Removes the Router of this id.
    pub(crate) fn remove(&mut self, id: Id)
        ensures { self.new ≡ filter (λ r. not (same_id r.id id)) self.old }
    {
        let _removed = self.routers.shift_remove(&id.0);
    }

    /// Changes the Router of this id, where it is there.
    pub(crate) fn change(&mut self, id: Id, change: RouterChange) -> Result<(), NoMemory>
        ensures ok { OnOk result (self.new ≡ change_in id (changed_router change) self.old) }
        ensures err { OnErr result (self.new ≡ self.old) }
    {
        let Some(router) = self.routers.get_mut(&id.0) else {
            return Ok(());
        };
        change_router(self.alloc, router, change)
    }
}
