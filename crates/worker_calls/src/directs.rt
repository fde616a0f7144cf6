//! The Producers of direct transports.

ghost use Rattle.std.specs.Prelude.{◌≡◌, ◌≤◌, ◌+◌, ◌∷◌, ◌++◌, [], length, find, filter, not, bytes_eq, true, Some, None, OnOk, if◌then◌else◌};
ghost use Rattle.std.specs.HashMap.{get, spare, hash_map_len};
ghost use Rattle.ms_base.specs.declared.id.Id.{Id};
ghost use Rattle.worker_router.specs.State.{same_id};
ghost use Rattle.worker_calls.specs.Requests.{stands_in};
ghost use Rattle.worker_calls.specs.Tables.{first_of, IsRoomyFor};

use crate::routers::Routers;
use ms_base::{Id, NoMemory};
use std::alloc::Global;
use std::collections::HashMap;
use std::marker::Model;

/// A Producer by the ids of its Router and of itself.
#[derive(Clone, Copy, Debug)]
pub(crate) struct Direct {
    pub(crate) router: Id,
    pub(crate) producer: Id,
}

impl Model for Direct {
    ghost use Rattle.worker_calls.specs.State.{ProducerKey};

    ghost Value = { ProducerKey };

    ghost view = { λ d. record { router = d.router; producer = d.producer } };

    ghost inverse = { λ k. record { router = k.router; producer = k.producer } };
}

/// The Producers of direct transports, in order of making over all Routers. Of each id the earliest is found.
#[derive(Debug, Drop)]
pub(crate) struct Directs {
    keys: Vec<Direct>,
    earliest: HashMap<[u8; 16], Direct>,
}

impl Model for Directs {
    ghost use Rattle.std.specs.Prelude.{◌&&◌};
    ghost use Rattle.worker_calls.specs.Tables.{DirectsView, has_room, has_place, TellsDirects};

    ghost Value = { DirectsView };

    ghost view = { λ d. record { keys = d.keys.items; has_room = has_place d.keys && has_room d.keys d.earliest } };

    ghost invariant = { λ d. TellsDirects d.keys.items d.earliest };
}

impl Directs {
    pub(crate) fn new(alloc: Global) -> Directs
        ensures { result.keys ≡ [] }
    {
        Directs {
            keys: Vec::new(alloc),
            earliest: HashMap::new(alloc),
        }
    }

    /// The earliest made Producer of this id.
    pub(crate) fn earliest(&self, id: Id) -> Option<Direct>
        ensures { result ≡ find (λ key. same_id key.producer id) self.now.keys }
    {
        self.earliest.get(&id.0).copied()
    }

    /// Makes room for one more.
    pub(crate) fn reserve(&mut self) -> Result<(), NoMemory>
        ensures keys { self.new.keys ≡ self.old.keys }
        ensures room { OnOk result (self.new.has_room ≡ true) }
    {
        let wanted = self.keys.len() + 1;
        self.keys.reserve(1)?;
        room_for(&mut self.earliest, wanted)
    }

    /// Adds one behind the others, for which there is room.
    pub(crate) fn add(&mut self, router: Id, producer: Id)
        requires { self.old.has_room ≡ true }
        ensures { self.new.keys ≡ self.old.keys ++ record { router = router; producer = producer } ∷ [] }
    {
        let key = Direct { router, producer };
        note(&mut self.earliest, key);
        self.keys.push_reserved(key);
    }

    /// Removes those of a Router.
    pub(crate) fn remove_in(&mut self, router: Id)
        ensures { self.new.keys ≡ filter (λ key. not (same_id key.router router)) self.old.keys }
    {
        self.keys.retain(|key| key.router.0 != router.0);
        index(&mut self.earliest, self.keys.as_slice());
    }

    /// Keeps those that still stand in their Routers.
    pub(crate) fn keep_standing(&mut self, routers: &Routers)
        ensures { self.new.keys ≡ filter (stands_in routers.now) self.old.keys }
    {
        self.keys
            .retain(|key| routers.has_producer(key.router, key.producer));
        index(&mut self.earliest, self.keys.as_slice());
    }
}

fn room_for(table: &mut HashMap<[u8; 16], Direct>, wanted: usize) -> Result<(), NoMemory>
    ensures table { (id : Id) → get bytes_eq table.new id.0 ≡ get bytes_eq table.old id.0 }
    ensures entries { hash_map_len table.new ≡ hash_map_len table.old }
    ensures stays { hash_map_len table.old + spare table.old ≤ hash_map_len table.new + spare table.new }
    ensures room { OnOk result (wanted ≤ hash_map_len table.new + spare table.new) }
{
    table.reserve(wanted.saturating_sub(table.len()))?;
    Ok(())
}

// Notes a key where none is noted for its id. There is room for it.
fn note(table: &mut HashMap<[u8; 16], Direct>, key: Direct)
    requires { 1 ≤ spare table.old }
    ensures table { (id : Id) → get bytes_eq table.new id.0 ≡ first_of (get bytes_eq table.old id.0) (if same_id key.producer id then Some key else None) }
    ensures entries { hash_map_len table.new ≤ hash_map_len table.old + 1 }
    ensures room { hash_map_len table.old + spare table.old ≤ hash_map_len table.new + spare table.new }
{
    let id = key.producer.0;
    if table.contains_key(&id) {
        return;
    }
    match table.insert(id, key) {
        Ok(_) => {}
        Err(_) => unreachable!(),
    }
}

// Notes the earliest key of each id, and no other. There is room for them.
#[tactic(auto, using(crate::proofs::TableLemmas::first_none, crate::proofs::TableLemmas::first_step))]
fn index(table: &mut HashMap<[u8; 16], Direct>, keys: &[Direct])
    requires { length keys.now ≤ hash_map_len table.old + spare table.old }
    ensures table { (id : Id) → get bytes_eq table.new id.0 ≡ find (λ key. same_id key.producer id) keys.now }
    ensures room { IsRoomyFor (length keys.now) table.new }
{
    table.clear();
    for key in keys {
        note(table, *key);
    }
}
