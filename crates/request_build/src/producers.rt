ghost use Rattle.std.specs.Prelude.{◌≡◌, ℕ, [], OnOk, OnErr, option_copied};
ghost use Rattle.std.specs.BTreeMap.{insert_entry};
ghost use Rattle.std.specs.List.{list_any};
ghost use Rattle.std.specs.Ordering.{nat_cmp};
ghost use Rattle.request_build.specs.Known.{gone, kept_at};
ghost use Rattle.request_build.specs.Offers.{offers};

use crate::built::Offer;
use crate::router_ids::RouterIds;
use boxed_value::Boxed;
use ms_base::{Id, NoMemory, Serial};
use std::alloc::Global;
use std::collections::BTreeMap;
use std::marker::Model;

/// What is kept of open Producers, by their serials; also found by Router and id. Contracts see it as a list of serials and
/// what is kept at each, in ascending order of the serials.
#[derive(Debug, Drop)]
pub struct Producers {
    entries: BTreeMap<u32, Boxed<Offer>>,
    // the ids of the entries
    ids: RouterIds,
}

impl Model for Producers {
    ghost use Rattle.std.specs.Prelude.{ℕ, List};
    ghost use Rattle.request_build.specs.declared.built.Offer.{Offer};
    ghost use Rattle.request_build.specs.Offers.{AreCounted};

    ghost Value = { List (ℕ × Offer) };

    ghost view = { λ p. p.entries.entries };

    ghost invariant = { λ p. AreCounted p.entries.entries p.ids };
}

impl Producers {
    /// One in which nothing is kept.
    pub fn new(alloc: Global) -> Producers
        ensures { result ≡ [] }
    {
        Producers {
            entries: BTreeMap::new(alloc),
            ids: RouterIds::new(alloc),
        }
    }

    /// What is kept at a serial.
    pub fn get(&self, serial: Serial) -> Option<&Offer>
        ensures { option_copied result ≡ kept_at self.now serial }
    {
        let offer = self.entries.get(&serial.0)?;
        Some(offer)
    }

    /// Whether one of them is in a Router and has an id.
    pub fn has_id(&self, router: Serial, id: Id) -> bool
        ensures { result ≡ list_any (offers router id) self.now }
    {
        self.ids.has(router, id)
    }

    /// Keeps what a Producer offers, in place of what was kept at its serial.
    pub fn insert(&mut self, serial: Serial, offer: Boxed<Offer>) -> Result<(), NoMemory>
        ensures ok { OnOk result (self.new ≡ insert_entry nat_cmp self.old serial.0 offer) }
        ensures err { OnErr result (self.new ≡ self.old) }
    {
        let offered: &Offer = &offer;
        let (router, id) = (offered.router, offered.id);
        self.ids.add(router, id)?;
        match self.entries.insert(serial.0, offer) {
            Ok(Some(before)) => {
                let before = before.into_inner();
                self.ids.remove(before.router, before.id);
            }
            Ok(None) => {}
            Err(_refused) => {
                self.ids.remove(router, id);
                return Err(NoMemory);
            }
        }
        Ok(())
    }

    /// Keeps nothing at a serial any more.
    pub fn remove(&mut self, serial: Serial)
        ensures { self.new ≡ gone serial self.old }
    {
        if let Some(offer) = self.entries.remove(&serial.0) {
            let offer = offer.into_inner();
            self.ids.remove(offer.router, offer.id);
        }
    }
}
