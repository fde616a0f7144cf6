ghost use Rattle.std.specs.Prelude.{◌≡◌, ◌↔◌, ℕ, ◌+◌, ◌<◌, ◌≤◌, ◌^◌, List, [], ◌∷◌, ◌++◌, length, IfOk, OnOk, OnErr, Err};
ghost use Rattle.pending_calls.specs.Pending.{AreNumbered, all_under, max_id, none_under, waiting_as, without};
ghost use Rattle.pending_calls.specs.declared.pending.IssueFault.TheVariants.{NoMemory};

use crate::under::requests_under;
use crate::waiting::{Owner, Waiting};
use ms_base::{NoMemory, Serial};
use std::alloc::{AllocFailed, Global};
use std::collections::{BTreeMap, BTreeSet};
use std::marker::Model;
use thiserror::Error;

/// Why no request was issued.
#[derive(Clone, Copy, Debug, PartialEq, Eq, Error)]
pub enum IssueFault {
    #[error("the ids of the channel are spent")]
    IdsSpent,
    #[error("out of memory")]
    NoMemory,
}

impl<T: Drop> From<AllocFailed<T>> for IssueFault {
    ghost from_gives = { λ _ fault. fault ≡ NoMemory };

    fn from(_refused: AllocFailed<T>) -> IssueFault {
        IssueFault::NoMemory
    }
}

/// The requests of one channel that have no settlement yet. Contracts see them as a list in order of issue, beside the
/// id that was used last.
#[derive(Debug, Drop)]
pub struct Pending {
    alloc: Global,
    /// The requests by their ids.
    waiting: BTreeMap<u32, Waiting>,
    /// The serial of each request's object, with the id of the request.
    listed: BTreeSet<(u32, u32)>,
    last: u32,
}

impl Model for Pending {
    ghost use Rattle.pending_calls.specs.Pending.{PendingView};

    ghost Value = { PendingView };

    ghost use Rattle.std.specs.BTreeMap.{values};
    ghost use Rattle.pending_calls.specs.Kept.{AreFound};

    ghost view = { λ p. record { waiting = values p.waiting; last = p.last } };

    ghost invariant = { λ p. AreFound p.waiting p.listed p.last };
}

impl Pending {
    /// A channel that no request was issued on.
    pub fn new(alloc: Global) -> Pending
        ensures { result ≡ record { waiting = []; last = 0 } }
    {
        Pending::after(alloc, 0)
    }

    /// A channel without pending requests, whose ids up to this one were used.
    pub fn after(alloc: Global, last: u32) -> Pending
        ensures { result ≡ record { waiting = []; last = last } }
    {
        Pending {
            alloc,
            waiting: BTreeMap::new(alloc),
            listed: BTreeSet::new(alloc),
            last,
        }
    }

    /// Issues a request with the id behind the last, under an object. `IdsSpent` comes exactly where the last id is
    /// 4,294,967,295.
    pub fn issue(&mut self, owner: Owner, under: Serial) -> Result<u32, IssueFault>
        ensures id { IfOk result (λ id. id ≡ self.old.last + 1) }
        ensures ok { OnOk result (self.new ≡ record { waiting = self.old.waiting ++ record { id = self.old.last + 1; owner = owner; under = under } ∷ []; last = self.old.last + 1 }) }
        ensures spent { (result ≡ Err IssueFault.IdsSpent) ↔ (self.old.last ≡ max_id) }
        ensures err { OnErr result (self.new ≡ self.old) }
    {
        let Some(id) = self.last.checked_add(1) else {
            return Err(IssueFault::IdsSpent);
        };
        let request = Waiting { id, owner, under };
        self.listed.insert((under.0, id))?;
        if self.waiting.insert(id, request).is_err() {
            self.listed.remove(&(under.0, id));
            return Err(IssueFault::NoMemory);
        }
        self.last = id;
        Ok(id)
    }

    /// Takes out the request of an id. `None` comes exactly where no request of this id is pending. It takes no memory.
    pub fn settle(&mut self, id: u32) -> Option<Waiting>
        ensures found { result ≡ waiting_as self.old.waiting id }
        ensures rest { self.new ≡ record self.old { waiting = without id self.old.waiting } }
    {
        let settled = self.waiting.remove(&id)?;
        self.listed.remove(&(settled.under.0, id));
        Some(settled)
    }

    /// Takes out the requests that were issued under one of these objects, in order of issue.
    pub fn close_under(&mut self, fallen: &[Serial]) -> Result<Vec<Waiting>, NoMemory>
        ensures taken { IfOk result (λ taken. taken.items ≡ all_under fallen.now self.old.waiting) }
        ensures rest { OnOk result (self.new ≡ record self.old { waiting = none_under fallen.now self.old.waiting }) }
        ensures err { OnErr result (self.new ≡ self.old) }
    {
        let taken = requests_under(self.alloc, &self.waiting, &self.listed, self.last, fallen)?;
        for request in &taken {
            let _settled = self.settle(request.id);
        }
        Ok(taken)
    }

    /// How many requests are pending.
    pub fn of_worker(&self) -> usize
        ensures { result ≡ length self.now.waiting }
    {
        self.waiting.len()
    }

    /// The id that was used last, 0 before the first.
    pub fn last(&self) -> u32
        ensures value { result ≡ self.now.last }
        ensures numbered { AreNumbered self.now }
    {
        let _kept = self.waiting.len();
        self.last
    }
}
