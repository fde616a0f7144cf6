ghost use Rattle.std.specs.Prelude.{ℕ, true, IfSome, ◌≡◌, ◌∷◌, ◌++◌, [], IfOk, OnOk, OnErr};
ghost use Rattle.std.specs.Ordering.{nat_cmp};
ghost use Rattle.std.specs.BTreeMap.{is_at};
ghost use Rattle.std.specs.List.Sorted.{IsStrictlySortedBy};
ghost use Rattle.std.specs.Map.{keys_of, lookup, remove_entry};
ghost use Rattle.ms_base.specs.declared.keys.WorkerKey.{WorkerKey};
ghost use Rattle.host_requests.specs.Places.{IsNext, first_of, numbers_of, optional};
ghost use Rattle.host_requests.specs.Requests.{is_on, is_start_of, is_under};
ghost use Rattle.host_requests.specs.Kept.{outlines};

use crate::places::Places;
use crate::request::Request;
use boxed_value::Boxed;
use ms_base::{NoMemory, Serial, WorkerKey};
use std::alloc::Global;
use std::collections::{BTreeMap, BTreeSet};
use std::marker::Model;

/// Requests under numbers that rise in order of issue. Contracts see them as a list of numbers and requests.
#[derive(Debug, Drop)]
pub(crate) struct Filed<D> {
    alloc: Global,
    /// Each in a place of its own, since the nodes of the table are half full.
    requests: BTreeMap<u64, Boxed<Request<D>>>,
    places: Places,
}

impl<D> Model for Filed<D> {
    ghost use Rattle.std.specs.Prelude.{ℕ, List};
    ghost use Rattle.host_requests.specs.declared.request.Request.{Request};

    ghost Value = { List (ℕ × Request D) };

    ghost use Rattle.host_requests.specs.Kept.{AreFiled};

    ghost view = { λ f. f.requests.entries };

    ghost invariant = { λ f. AreFiled f.requests.entries f.places };
}

impl<D: Drop> Filed<D> {
    pub(crate) fn new(alloc: Global) -> Filed<D>
        ensures { result ≡ [] }
    {
        Filed {
            alloc,
            requests: BTreeMap::new(alloc),
            places: Places::new(alloc),
        }
    }

    /// Adds a request behind all others, which waits for another response than they do.
    pub(crate) fn add(&mut self, number: u64, request: Request<D>) -> Result<(), NoMemory>
        requires { IsNext number request.via (outlines self.old) }
        ensures ok { OnOk result (self.new ≡ self.old ++ (number, request) ∷ []) }
        ensures err { OnErr result (self.new ≡ self.old) }
    {
        let (via, under) = (request.via, request.under);
        let request = Boxed::new(self.alloc, request)?;
        self.places.add(number, via, under)?;
        match self.requests.insert(number, request) {
            Ok(_) => Ok(()),
            Err(_) => {
                self.places.remove(number, via, under);
                Err(NoMemory)
            }
        }
    }

    /// Takes out the request of a number.
    pub(crate) fn take(&mut self, number: u64) -> Option<Request<D>>
        ensures found { result ≡ lookup (is_at (nat_cmp number)) self.old }
        ensures rest { self.new ≡ remove_entry (is_at (nat_cmp number)) self.old }
        ensures alone { IfSome result (λ r. (worker : WorkerKey) (id : ℕ) → is_on worker id r ≡ true → numbers_of (is_on worker id) self.old ≡ number ∷ []) }
        ensures in_order { IsStrictlySortedBy nat_cmp (keys_of self.old) }
    {
        let request = self.requests.remove(&number)?;
        let request = request.into_inner();
        self.places.remove(number, request.via, request.under);
        Some(request)
    }

    /// The number of the request that waits for a response: there is one at most.
    pub(crate) fn number_on(&self, worker: WorkerKey, id: u32) -> Option<u64>
        ensures only { numbers_of (is_on worker id) self.now ≡ optional result }
        ensures in_order { IsStrictlySortedBy nat_cmp (keys_of self.now) }
    {
        let _in_order = self.requests.len();
        self.places.by_via.on(worker, id)
    }

    /// The number of the first request that waits for the start of a Worker.
    pub(crate) fn first_start(&self, worker: Serial) -> Option<u64>
        ensures first { result ≡ first_of (numbers_of (is_start_of worker) self.now) }
        ensures in_order { IsStrictlySortedBy nat_cmp (keys_of self.now) }
    {
        let _in_order = self.requests.len();
        self.places.by_via.first_start(worker)
    }

    /// The numbers of the requests that were issued under one of these objects.
    pub(crate) fn numbers_under(&self, objects: &[Serial]) -> Result<BTreeSet<u64>, NoMemory>
        ensures all { IfOk result (λ numbers. numbers.keys ≡ numbers_of (is_under objects.now) self.now) }
        ensures in_order { IsStrictlySortedBy nat_cmp (keys_of self.now) }
    {
        let _in_order = self.requests.len();
        self.places.under.at_any(objects)
    }
}
