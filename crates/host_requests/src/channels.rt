ghost use Rattle.std.specs.Prelude.{◌≡◌, ◌↔◌, ℕ, ◌+◌, IfOk, OnOk, OnErr, Err, if◌then◌else◌};
ghost use Rattle.ms_base.specs.declared.keys.WorkerKey.{WorkerKey};
ghost use Rattle.host_notes.specs.Keys.{same_worker};
ghost use Rattle.pending_calls.specs.Pending.{max_id, without};
ghost use Rattle.pending_calls.specs.declared.pending.IssueFault.TheVariants.{IdsSpent};
ghost use Rattle.host_requests.specs.Kept.{lasts_of, no_requests, pending_on, settled_on, with_issued};

use crate::request::Via;
use ms_base::{Serial, WorkerKey};
use pending_calls::{IssueFault, Owner, Pending};
use std::alloc::Global;
use std::collections::HashMap;

/// The requests on each channel.
#[derive(Debug, Drop)]
pub(crate) struct Channels {
    alloc: Global,
    /// By the slot and the generation of the worker, where requests were issued.
    pub(crate) pending: HashMap<(u32, u32), Pending>,
}

impl Channels {
    pub(crate) fn new(alloc: Global) -> Channels
        ensures { (w : WorkerKey) → pending_on result w ≡ no_requests }
    {
        Channels {
            alloc,
            pending: HashMap::new(alloc),
        }
    }

    /// The id that was used last on the channel of a worker, 0 before the first.
    pub(crate) fn last(&self, worker: WorkerKey) -> u32
        ensures { result ≡ (pending_on self.now worker).last }
    {
        match self.pending.get(&(worker.slot, worker.generation)) {
            Some(pending) => pending.last(),
            None => 0,
        }
    }

    /// Issues a request to a worker.
    pub(crate) fn issue(
        &mut self,
        worker: WorkerKey,
        owner: Owner,
        under: Serial,
    ) -> Result<u32, IssueFault>
        ensures id { IfOk result (λ id. id ≡ (pending_on self.old worker).last + 1) }
        ensures ok { OnOk result ((w : WorkerKey) → pending_on self.new w ≡ (if same_worker worker w then with_issued owner under (pending_on self.old w) else pending_on self.old w)) }
        ensures spent { (result ≡ Err IssueFault.IdsSpent) ↔ ((pending_on self.old worker).last ≡ max_id) }
        ensures err { OnErr result (self.new.pending.entries ≡ self.old.pending.entries) }
    {
        let key = (worker.slot, worker.generation);
        match self.pending.get_mut(&key) {
            Some(pending) => pending.issue(owner, under),
            None => {
                let mut pending = Pending::new(self.alloc);
                let id = pending.issue(owner, under)?;
                self.pending.insert(key, pending)?;
                Ok(id)
            }
        }
    }

    // Takes out the request of an id on the channel of a worker.
    fn settle(&mut self, worker: WorkerKey, id: u32)
        ensures pending { (w : WorkerKey) → pending_on self.new w ≡ (if same_worker worker w then record (pending_on self.old w) { waiting = without id (pending_on self.old w).waiting } else pending_on self.old w) }
        ensures lasts { lasts_of self.new ≡ lasts_of self.old }
    {
        if let Some(pending) = self.pending.get_mut(&(worker.slot, worker.generation)) {
            pending.settle(id);
        }
    }

    /// Takes out, where it stands on a channel, the request that comes to its settlement so.
    pub(crate) fn settle_via(&mut self, via: Via)
        ensures pending { (w : WorkerKey) → pending_on self.new w ≡ settled_on w via (pending_on self.old w) }
        ensures lasts { lasts_of self.new ≡ lasts_of self.old }
    {
        match via {
            Via::Channel { worker, id } => self.settle(worker, id),
            Via::Start => {}
        }
    }
}
