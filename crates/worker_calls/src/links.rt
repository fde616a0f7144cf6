//! The links of a worker's transports.

ghost use Rattle.std.specs.Prelude.{◌≡◌, ℕ, ◌≤◌, ◌+◌, ◌==◌, ◌∷◌, ◌++◌, [], length, find, filter, map, not, true, nat_eq, is_some, Some, None, OnOk, option_map, option_copied, if◌then◌else◌};
ghost use Rattle.std.specs.HashMap.{get, spare, hash_map_len};
ghost use Rattle.worker_calls.specs.Plans.{covers};
ghost use Rattle.worker_calls.specs.Requests.{shut};
ghost use Rattle.worker_calls.specs.State.{same_place};
ghost use Rattle.worker_calls.specs.Tables.{first_of, same_ids, ids_of, IsRoomyFor};
ghost use Rattle.worker_calls.specs.declared.place.Place.{Place};

use crate::acts::Acts;
use crate::place::{Place, Span};
use indexmap::IndexMap;
use ms_base::NoMemory;
use std::alloc::Global;
use std::collections::HashMap;
use std::marker::Model;

/// The link of a transport.
#[derive(Clone, Copy, Debug)]
pub(crate) struct Link {
    number: u32,
    place: Place,
}

impl Model for Link {
    ghost use Rattle.worker_calls.specs.State.{LinkAt};

    ghost Value = { LinkAt };

    ghost view = { λ l. record { link = l.number; place = l.place } };

    ghost inverse = { λ l. record { number = l.link; place = l.place } };
}

/// Links by their places, found also where they stand in the table.
type Places = IndexMap<([u8; 16], [u8; 16]), Link>;

/// Links in order of making. Of each number, and of each place, the earliest is found.
#[derive(Debug, Drop)]
pub(crate) struct Links {
    links: Vec<Link>,
    by_number: HashMap<u32, Link>,
    by_place: Places,
}

impl Model for Links {
    ghost use Rattle.std.specs.Prelude.{◌&&◌};
    ghost use Rattle.worker_calls.specs.Tables.{LinksView, has_room, has_place, TellsLinks};

    ghost Value = { LinksView };

    ghost view = { λ l. record { links = l.links.items; has_room = has_place l.links && (has_room l.links l.by_number && has_room l.links l.by_place) } };

    ghost invariant = { λ l. TellsLinks l.links.items l.by_number l.by_place };
}

impl Links {
    pub(crate) fn new(alloc: Global) -> Links
        ensures { result.links ≡ [] }
    {
        Links {
            links: Vec::new(alloc),
            by_number: HashMap::new(alloc),
            by_place: IndexMap::new(alloc),
        }
    }

    /// The transport whose link has this number.
    pub(crate) fn place_of(&self, number: u32) -> Option<Place>
        ensures { result ≡ option_map (λ l. l.place) (find (λ l. l.link == number) self.now.links) }
    {
        let link = self.by_number.get(&number)?;
        Some(link.place)
    }

    /// The number of a transport's link.
    pub(crate) fn link_of(&self, place: Place) -> Option<u32>
        ensures { result ≡ option_map (λ l. l.link) (find (λ l. same_place l.place place) self.now.links) }
    {
        let link = self.by_place.get(&ids_of(place))?;
        Some(link.number)
    }

    /// The same, where the link is looked for at a place of the table first: that is then where it stands.
    pub(crate) fn link_near(&self, place: Place, near: &mut usize) -> Option<u32>
        ensures { result ≡ option_map (λ l. l.link) (find (λ l. same_place l.place place) self.now.links) }
    {
        let link = place_near(&self.by_place, ids_of(place), near)?;
        Some(link.number)
    }

    /// Makes room for one more.
    pub(crate) fn reserve(&mut self) -> Result<(), NoMemory>
        ensures links { self.new.links ≡ self.old.links }
        ensures room { OnOk result (self.new.has_room ≡ true) }
    {
        let wanted = self.links.len() + 1;
        self.links.reserve(1)?;
        room_for_numbers(&mut self.by_number, wanted)?;
        room_for_places(&mut self.by_place, wanted)
    }

    /// Adds one behind the others, for which there is room.
    pub(crate) fn add(&mut self, number: u32, place: Place)
        requires { self.old.has_room ≡ true }
        ensures { self.new.links ≡ self.old.links ++ record { link = number; place = place } ∷ [] }
    {
        let link = Link { number, place };
        note_number(&mut self.by_number, link);
        note_place(&mut self.by_place, link);
        self.links.push_reserved(link);
    }

    /// The sockets of these transports are to be closed, in order of making.
    pub(crate) fn shut(&self, span: Span, acts: &mut Acts) -> Result<(), NoMemory>
        ensures { OnOk result (acts.new ≡ acts.old ++ map (λ l. shut l.link) (filter (λ l. covers span l.place) self.now.links)) }
    {
        for link in &self.links {
            if span.covers(link.place) {
                acts.shut(link.number)?;
            }
        }
        Ok(())
    }

    /// Removes those of these transports.
    pub(crate) fn remove(&mut self, span: Span)
        ensures { self.new.links ≡ filter (λ l. not (covers span l.place)) self.old.links }
    {
        match span {
            Span::Transport(place) => self.remove_at(place),
            Span::Router(_) => self.remove_all(span),
        }
    }

    fn remove_all(&mut self, span: Span)
        ensures { self.new.links ≡ filter (λ l. not (covers span l.place)) self.old.links }
    {
        self.links.retain(|link| !span.covers(link.place));
        index_numbers(&mut self.by_number, self.links.as_slice());
        index_places(&mut self.by_place, self.links.as_slice());
    }

    // A transport has one link, and no other has this link's number: then the tables lose that one.
    fn remove_at(&mut self, place: Place)
        ensures { self.new.links ≡ filter (λ l. not (same_place l.place place)) self.old.links }
    {
        let Some(link) = noted_at(&self.by_place, place) else {
            return;
        };
        let before = self.links.len();
        self.links.retain(|link| !link.place.is(place));
        let links = self.links.as_slice();
        if links.len() + 1 == before && !has_number(links, link.number) {
            forget_number(&mut self.by_number, link.number);
            forget_place(&mut self.by_place, place);
        } else {
            index_numbers(&mut self.by_number, links);
            index_places(&mut self.by_place, links);
        }
    }
}

fn has_number(links: &[Link], number: u32) -> bool
    ensures { result ≡ is_some (find (λ l. nat_eq l.link number) links.now) }
{
    for link in links {
        if link.number == number {
            return true;
        }
    }
    false
}

// ---- the table by number

fn room_for_numbers(table: &mut HashMap<u32, Link>, wanted: usize) -> Result<(), NoMemory>
    ensures table { (n : ℕ) → get nat_eq table.new n ≡ get nat_eq table.old n }
    ensures entries { hash_map_len table.new ≡ hash_map_len table.old }
    ensures stays { hash_map_len table.old + spare table.old ≤ hash_map_len table.new + spare table.new }
    ensures room { OnOk result (wanted ≤ hash_map_len table.new + spare table.new) }
{
    table.reserve(wanted.saturating_sub(table.len()))?;
    Ok(())
}

// Notes a link where none is noted for its number. There is room for it.
fn note_number(table: &mut HashMap<u32, Link>, link: Link)
    requires { 1 ≤ spare table.old }
    ensures table { (n : ℕ) → get nat_eq table.new n ≡ first_of (get nat_eq table.old n) (if nat_eq link.link n then Some link else None) }
    ensures entries { hash_map_len table.new ≤ hash_map_len table.old + 1 }
    ensures room { hash_map_len table.old + spare table.old ≤ hash_map_len table.new + spare table.new }
{
    let number = link.number;
    if table.contains_key(&number) {
        return;
    }
    match table.insert(number, link) {
        Ok(_) => {}
        Err(_) => unreachable!(),
    }
}

// Takes out the link that is noted for a number.
fn forget_number(table: &mut HashMap<u32, Link>, number: u32)
    ensures table { (n : ℕ) → get nat_eq table.new n ≡ (if nat_eq number n then None else get nat_eq table.old n) }
    ensures entries { hash_map_len table.new + (if is_some (get nat_eq table.old number) then 1 else 0) ≡ hash_map_len table.old }
    ensures room { spare table.old ≤ spare table.new }
{
    let _forgotten = table.remove(&number);
}

// Notes the earliest link of each number, and no other. There is room for them.
#[tactic(auto, using(crate::proofs::TableLemmas::first_none, crate::proofs::TableLemmas::first_step))]
fn index_numbers(table: &mut HashMap<u32, Link>, links: &[Link])
    requires { length links.now ≤ hash_map_len table.old + spare table.old }
    ensures table { (n : ℕ) → get nat_eq table.new n ≡ find (λ l. nat_eq l.link n) links.now }
    ensures room { IsRoomyFor (length links.now) table.new }
{
    table.clear();
    for link in links {
        note_number(table, *link);
    }
}

// ---- the table by place

// A place as it is looked up.
fn ids_of(place: Place) -> ([u8; 16], [u8; 16])
    ensures { result ≡ ids_of place }
{
    let router = place.router.0;
    let transport = place.transport.0;
    (router, transport)
}

fn room_for_places(table: &mut Places, wanted: usize) -> Result<(), NoMemory>
    ensures table { (p : Place) → get same_ids table.new (ids_of p) ≡ get same_ids table.old (ids_of p) }
    ensures entries { hash_map_len table.new ≡ hash_map_len table.old }
    ensures stays { hash_map_len table.old + spare table.old ≤ hash_map_len table.new + spare table.new }
    ensures room { OnOk result (wanted ≤ hash_map_len table.new + spare table.new) }
{
    table.reserve(wanted.saturating_sub(table.len()))?;
    Ok(())
}

// The link that is noted for a place.
fn noted_at(table: &Places, place: Place) -> Option<Link>
    ensures { result ≡ get same_ids table.now (ids_of place) }
{
    table.get(&ids_of(place)).copied()
}

// The link that is noted for these ids. It is looked for at a place of the table first: that is then where it stands.
fn place_near<'a>(
    table: &'a Places,
    ids: ([u8; 16], [u8; 16]),
    near: &mut usize,
) -> Option<&'a Link>
    ensures { option_copied result ≡ get same_ids table.now ids }
{
    if let Some((key, link)) = table.get_index(*near) {
        if key.0 == ids.0 && key.1 == ids.1 {
            return Some(link);
        }
    }
    let (index, _key, link) = table.get_full(&ids)?;
    *near = index;
    Some(link)
}

// Takes out the link that is noted for a place.
fn forget_place(table: &mut Places, place: Place)
    ensures table { (p : Place) → get same_ids table.new (ids_of p) ≡ (if same_place place p then None else get same_ids table.old (ids_of p)) }
    ensures entries { hash_map_len table.new + (if is_some (get same_ids table.old (ids_of place)) then 1 else 0) ≡ hash_map_len table.old }
    ensures room { spare table.old ≤ spare table.new }
{
    let _forgotten = table.swap_remove(&ids_of(place));
}

// Notes a link where none is noted for its place. There is room for it.
fn note_place(table: &mut Places, link: Link)
    requires { 1 ≤ spare table.old }
    ensures table { (p : Place) → get same_ids table.new (ids_of p) ≡ first_of (get same_ids table.old (ids_of p)) (if same_place link.place p then Some link else None) }
    ensures entries { hash_map_len table.new ≤ hash_map_len table.old + 1 }
    ensures room { hash_map_len table.old + spare table.old ≤ hash_map_len table.new + spare table.new }
{
    let ids = ids_of(link.place);
    if table.contains_key(&ids) {
        return;
    }
    match table.insert(ids, link) {
        Ok(_) => {}
        Err(_) => unreachable!(),
    }
}

// Notes the earliest link of each place, and no other. There is room for them.
#[tactic(auto, using(crate::proofs::TableLemmas::first_none, crate::proofs::TableLemmas::first_step))]
fn index_places(table: &mut Places, links: &[Link])
    requires { length links.now ≤ hash_map_len table.old + spare table.old }
    ensures table { (p : Place) → get same_ids table.new (ids_of p) ≡ find (λ l. same_place l.place p) links.now }
    ensures room { IsRoomyFor (length links.now) table.new }
{
    table.clear();
    for link in links {
        note_place(table, *link);
    }
}
