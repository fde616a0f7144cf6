ghost use Rattle.std.specs.Prelude.{◌≡◌, [], OnOk, OnErr, option_copied};
ghost use Rattle.std.specs.BTreeMap.{insert_entry};
ghost use Rattle.std.specs.Ordering.{nat_cmp};
ghost use Rattle.ms_base.specs.declared.keys.Serial.{Serial};
ghost use Rattle.request_build.specs.declared.built.Keep.{Keep};
ghost use Rattle.request_build.specs.declared.kept.Kept.{Kept};
ghost use Rattle.request_build.specs.Known.{HasFew, IsKept, KeepsNothing, gone, kept_at, with_kept, without};

use crate::built::Keep;
use crate::names::Names;
use crate::producers::Producers;
use crate::router_ids::RouterIds;
use boxed_value::Boxed;
use ms_base::{NoMemory, Serial};
use rtp_params::{Caps, Params};
use std::alloc::Global;
use std::collections::BTreeMap;
use std::marker::Model;

/// What is kept of some of the open objects, by their serials. Contracts see it as a list of serials and what is kept at
/// each, in ascending order of the serials.
#[derive(Debug, Drop)]
pub struct Table<T> {
    entries: BTreeMap<u32, T>,
}

impl<T> Model for Table<T> {
    ghost use Rattle.std.specs.Prelude.{ℕ, List};
    ghost use Rattle.std.specs.Coded.{coded_list, coded×, coded_ℕ};

    ghost Value = { List (ℕ × T) };

    ghost coded = { coded_list (coded× coded_ℕ T.code) };

    ghost view = { λ t. t.entries.entries };
}

impl<T: Drop> Table<T> {
    /// One in which nothing is kept.
    pub fn new(alloc: Global) -> Table<T>
        ensures { result ≡ [] }
    {
        Table {
            entries: BTreeMap::new(alloc),
        }
    }

    /// What is kept at a serial.
    pub fn get(&self, serial: Serial) -> Option<&T>
        ensures { option_copied result ≡ kept_at self.now serial }
    {
        self.entries.get(&serial.0)
    }

    /// Keeps a value at a serial, in place of what was kept there.
    pub fn insert(&mut self, serial: Serial, value: T) -> Result<(), NoMemory>
        ensures ok { OnOk result (self.new ≡ insert_entry nat_cmp self.old serial.0 value) }
        ensures err { OnErr result (self.new ≡ self.old) }
    {
        self.entries.insert(serial.0, value)?;
        Ok(())
    }

    /// Keeps nothing at a serial any more.
    pub fn remove(&mut self, serial: Serial)
        ensures { self.new ≡ gone serial self.old }
    {
        self.entries.remove(&serial.0);
    }
}

/// What a host keeps beside its tree of objects, for the calls that come.
#[derive(Debug, Drop)]
pub struct Kept {
    /// Of each open Router the codecs that it can receive and send, without header extensions.
    pub routers: Table<Boxed<Caps>>,
    /// Of each open Producer what it offers.
    pub producers: Producers,
    /// Of each open Consumer what it receives.
    pub consumers: Table<Boxed<Params>>,
    /// Of each open end of a pipe whether it retransmits.
    pub pipes: Table<bool>,
    /// The names that pending calls are to make.
    pub names: Names,
    /// The ids of the Producers that are asked for, each in its Router.
    pub producer_ids: RouterIds,
    /// How many slots were made.
    pub slots: u32,
    /// Whether the host was stopped.
    pub stopped: bool,
}

impl Kept {
    /// What a host keeps that has no objects.
    pub fn new(alloc: Global) -> Kept
        ensures { KeepsNothing result }
    {
        Kept {
            routers: Table::new(alloc),
            producers: Producers::new(alloc),
            consumers: Table::new(alloc),
            pipes: Table::new(alloc),
            names: Names::new(alloc),
            producer_ids: RouterIds::new(alloc),
            slots: 0,
            stopped: false,
        }
    }

    /// Keeps what is to be kept of an object that has opened.
    pub fn keep(&mut self, serial: Serial, keeps: Keep) -> Result<(), NoMemory>
        ensures ok { OnOk result (self.new ≡ with_kept serial keeps self.old) }
        ensures err { OnErr result (self.new ≡ self.old) }
    {
        match keeps {
            Keep::Router(caps) => self.routers.insert(serial, caps),
            Keep::Producer(offer) => self.producers.insert(serial, offer),
            Keep::Consumer(params) => self.consumers.insert(serial, params),
            Keep::Pipe(enable_rtx) => self.pipes.insert(serial, enable_rtx),
            Keep::Nothing => Ok(()),
        }
    }

    /// Keeps nothing any more of an object that has closed.
    pub fn forget(&mut self, serial: Serial)
        ensures { self.new ≡ without serial self.old }
    {
        self.routers.remove(serial);
        self.producers.remove(serial);
        self.consumers.remove(serial);
        self.pipes.remove(serial);
    }
}

/// What is kept stays within the limit on encodings. The function does nothing; its contract is the law.
pub fn what_is_kept_has_few_encodings()
    ensures none { (kept : Kept) → kept.producers ≡ [] → kept.consumers ≡ [] → IsKept kept }
    ensures opened { (kept : Kept) (serial : Serial) (keeps : Keep) → IsKept kept → HasFew keeps → IsKept (with_kept serial keeps kept) }
    ensures closed { (kept : Kept) (serial : Serial) → IsKept kept → IsKept (without serial kept) }
{}
