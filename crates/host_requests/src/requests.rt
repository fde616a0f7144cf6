ghost use Rattle.std.specs.Prelude.{◌≡◌, ◌↔◌, ◌≤◌, ◌<◌, ℕ, ◌+◌, List, [], ◌∷◌, ◌++◌, Bool, not, length, filter, find, IfOk, OnOk, OnErr, Err, Vec, if◌then◌else◌, vec_len, vec_capacity};
ghost use Rattle.std.specs.BTreeMap.{is_at};
ghost use Rattle.std.specs.List.Sorted.{IsStrictlySortedBy};
ghost use Rattle.std.specs.Map.{keys_of, lookup, remove_entry};
ghost use Rattle.std.specs.Ordering.{nat_cmp};
ghost use Rattle.ms_base.specs.declared.keys.WorkerKey.{WorkerKey};
ghost use Rattle.host_notes.specs.Keys.{same_worker};
ghost use Rattle.pending_calls.specs.Pending.{max_id};
ghost use Rattle.pending_calls.specs.declared.pending.IssueFault.TheVariants as fault;
ghost use Rattle.pending_calls.specs.declared.waiting.Owner.TheVariants as owners;
ghost use Rattle.host_requests.specs.Kept.{AreTied, IsTaken, lasts_of};
ghost use Rattle.host_requests.specs.Places.{numbers_of, optional};
ghost use Rattle.host_requests.specs.declared.request.Request.{Request};
ghost use Rattle.host_requests.specs.Requests.{is_on, is_start_of, is_under, last_on, others};
ghost use Rattle.host_requests.specs.declared.request.Via.TheVariants as vias;

use crate::channels::Channels;
use crate::filed::Filed;
use crate::request::{Request, Via};
use ms_base::{CallKey, NoMemory, Serial, WorkerKey};
use pending_calls::{IssueFault, Owner};
use std::alloc::Global;
use std::collections::BTreeSet;
use std::marker::Model;

/// The requests to all workers that have no settlement yet. Contracts see them as a list in order of issue over all
/// channels, beside the ids that were used last. What is kept for each, `D`, is given back with it.
#[derive(Debug, Drop)]
pub struct Requests<D> {
    alloc: Global,
    filed: Filed<D>,
    /// The requests of each channel by their ids.
    channels: Channels,
    /// The number of the next request.
    next: u64,
}

impl<D> Model for Requests<D> {
    ghost use Rattle.host_requests.specs.Requests.{RequestsView};

    ghost Value = { RequestsView D };

    ghost use Rattle.std.specs.Map.{values_of};
    ghost use Rattle.host_requests.specs.Kept.{AreKept, lasts_of};

    ghost view = { λ r. record { waiting = values_of r.filed; lasts = lasts_of r.channels } };

    ghost invariant = { λ r. AreKept r.filed r.channels r.next };
}

impl<D: Drop> Requests<D> {
    /// Nothing waits, and no id was used.
    pub fn new(alloc: Global) -> Requests<D>
        ensures waiting { result.waiting ≡ [] }
        ensures lasts { (worker : WorkerKey) → last_on result worker ≡ 0 }
    {
        Requests {
            alloc,
            filed: Filed::new(alloc),
            channels: Channels::new(alloc),
            next: 0,
        }
    }

    /// The id that was used last on the channel of a worker, 0 before the first.
    pub fn last(&self, worker: WorkerKey) -> u32
        ensures { result ≡ last_on self.now worker }
    {
        self.channels.last(worker)
    }

    /// Issues a request to a worker, with the id behind the last of its channel, under an object. `IdsSpent` comes
    /// exactly where that last id is 4,294,967,295.
    pub fn issue(
        &mut self,
        worker: WorkerKey,
        owner: Owner,
        under: Serial,
        due: D,
    ) -> Result<u32, IssueFault>
        ensures id { IfOk result (λ id. id ≡ last_on self.old worker + 1) }
        ensures waiting { IfOk result (λ id. self.new.waiting ≡ self.old.waiting ++ record { via = vias.Channel worker id; owner = owner; under = under; due = due } ∷ []) }
        ensures lasts { OnOk result ((w : WorkerKey) → last_on self.new w ≡ (if same_worker worker w then last_on self.old w + 1 else last_on self.old w)) }
        ensures spent { (result ≡ Err fault.IdsSpent) ↔ (last_on self.old worker ≡ max_id) }
        ensures err { OnErr result (self.new ≡ self.old) }
    {
        let last = self.channels.last(worker);
        let Some(id) = last.checked_add(1) else {
            return Err(IssueFault::IdsSpent);
        };
        let Some(next) = self.next.checked_add(1) else {
            return Err(IssueFault::NoMemory);
        };
        let via = Via::Channel { worker, id };
        let request = Request {
            via,
            owner,
            under,
            due,
        };
        let Ok(()) = self.filed.add(self.next, request) else {
            return Err(IssueFault::NoMemory);
        };
        match self.channels.issue(worker, owner, under) {
            Ok(id) => {
                self.next = next;
                Ok(id)
            }
            Err(refused) => {
                self.filed.take(self.next);
                Err(refused)
            }
        }
    }

    /// Adds the call that makes a Worker, which waits for the start of that Worker.
    pub fn add_start(&mut self, call: CallKey, under: Serial, due: D) -> Result<(), NoMemory>
        ensures ok { OnOk result (self.new ≡ record self.old { waiting = self.old.waiting ++ record { via = vias.Start; owner = owners.Call call; under = under; due = due } ∷ [] }) }
        ensures err { OnErr result (self.new ≡ self.old) }
    {
        let Some(next) = self.next.checked_add(1) else {
            return Err(NoMemory);
        };
        let request = Request {
            via: Via::Start,
            owner: Owner::Call(call),
            under,
            due,
        };
        self.filed.add(self.next, request)?;
        self.next = next;
        Ok(())
    }

    /// Takes out the request of an id on the channel of a worker. `None` comes exactly where none waits for it. It takes
    /// no memory.
    pub fn settle(&mut self, worker: WorkerKey, id: u32) -> Option<Request<D>>
        ensures found { result ≡ find (is_on worker id) self.old.waiting }
        ensures rest { self.new ≡ record self.old { waiting = others (is_on worker id) self.old.waiting } }
    {
        let number = self.filed.number_on(worker, id)?;
        take(number, &mut self.filed, &mut self.channels)
    }

    /// Takes out what waits for the start of a Worker. `None` comes exactly where nothing does. It takes no memory.
    pub fn settle_start(&mut self, under: Serial) -> Option<Request<D>>
        ensures found { result ≡ find (is_start_of under) self.old.waiting }
        ensures rest { self.new ≡ record self.old { waiting = others (is_start_of under) self.old.waiting } }
    {
        let number = self.filed.first_start(under)?;
        let settled = take(number, &mut self.filed, &mut self.channels);
        drop_starts(under, &mut self.filed, &mut self.channels);
        settled
    }

    /// Takes out the requests that were issued under one of these objects, in order of issue over all channels.
    pub fn close_under(&mut self, fallen: &[Serial]) -> Result<Vec<Request<D>>, NoMemory>
        ensures taken { IfOk result (λ taken. taken.items ≡ filter (is_under fallen.now) self.old.waiting) }
        ensures rest { OnOk result (self.new ≡ record self.old { waiting = others (is_under fallen.now) self.old.waiting }) }
        ensures err { OnErr result (self.new ≡ self.old) }
    {
        let numbers = self.filed.numbers_under(fallen)?;
        let mut taken = Vec::new(self.alloc);
        taken.reserve(numbers.len())?;
        take_each(numbers, &mut self.filed, &mut self.channels, &mut taken);
        Ok(taken)
    }
}

// Takes out the request of a number, also from its channel.
fn take<D: Drop>(number: u64, filed: &mut Filed<D>, channels: &mut Channels) -> Option<Request<D>>
    ensures found { result ≡ lookup (is_at (nat_cmp number)) filed.old }
    ensures rest { filed.new ≡ remove_entry (is_at (nat_cmp number)) filed.old }
    ensures lasts { lasts_of channels.new ≡ lasts_of channels.old }
    ensures tied { AreTied filed.old channels.old → AreTied filed.new channels.new }
{
    let request = filed.take(number)?;
    channels.settle_via(request.via);
    Some(request)
}

// Takes out what waits for the start of a Worker.
fn drop_starts<D: Drop>(worker: Serial, filed: &mut Filed<D>, channels: &mut Channels)
    ensures rest { filed.new ≡ filter (λ e. not (is_start_of worker e.1)) filed.old }
    ensures lasts { lasts_of channels.new ≡ lasts_of channels.old }
    ensures tied { AreTied filed.old channels.old → AreTied filed.new channels.new }
{
    while let Some(number) = filed.first_start(worker) {
        take(number, filed, channels);
    }
}

// Takes out the requests of these numbers, in their order, into a list that has room for them.
fn take_each<D: Drop>(
    mut numbers: BTreeSet<u64>,
    filed: &mut Filed<D>,
    channels: &mut Channels,
    taken: &mut Vec<Request<D>>,
)
    requires room { vec_len taken.old + length numbers.keys ≤ vec_capacity taken.old }
    requires in_order { IsStrictlySortedBy nat_cmp (keys_of filed.old) }
    ensures taken { (p : Request D → Bool) → numbers.keys ≡ numbers_of p filed.old → IsTaken p filed.old filed.new taken.old.items taken.new.items }
    ensures lasts { lasts_of channels.new ≡ lasts_of channels.old }
    ensures tied { AreTied filed.old channels.old → AreTied filed.new channels.new }
{
    while let Some(number) = numbers.pop_first() {
        take_into(number, filed, channels, taken);
    }
}

// Takes out the request of a number, if there is one, into a list that has room for it.
fn take_into<D: Drop>(
    number: u64,
    filed: &mut Filed<D>,
    channels: &mut Channels,
    taken: &mut Vec<Request<D>>,
)
    requires { vec_len taken.old < vec_capacity taken.old }
    ensures taken { taken.new.items ≡ taken.old.items ++ optional (lookup (is_at (nat_cmp number)) filed.old) }
    ensures room { vec_len taken.new ≤ vec_len taken.old + 1 }
    ensures capacity { vec_capacity taken.new ≡ vec_capacity taken.old }
    ensures rest { filed.new ≡ remove_entry (is_at (nat_cmp number)) filed.old }
    ensures lasts { lasts_of channels.new ≡ lasts_of channels.old }
    ensures tied { AreTied filed.old channels.old → AreTied filed.new channels.new }
{
    if let Some(request) = take(number, filed, channels) {
        taken.push_reserved(request);
    }
}
