//! The lock.
ghost use Rattle.std.specs.Prelude.{◌≡◌, ◌+◌, ◌≤◌, ◌++◌, [], ◌∷◌, length, IsOk, IfOk, IfErr, OnErr};

use crate::bells::Bells;
use crate::book::Book;
use crate::guard::Guard;
use crate::pass::Pass;
use crate::plays::{Cut, Glue};
use crate::rule::{Turns, View};
use crate::steps::{count, draw, give, recall, serve, take, wait};
use atomic_table::Table;
use ms_base::NoMemory;
use std::alloc::Global;
use std::fmt;
use std::snapshot::Snapshot;
use std::sync::Wait;
use thiserror::Error;

/// A fair lock round a value. Threads share it by reference, and each has a pass of it.
#[derive(Drop)]
pub struct TurnLock<V: Book> {
    table: Table<Option<V>, View<V::Entry>, Snapshot<V>, Turns, Global>,
    bells: Bells,
    ghost words: { (table.shared.table_id.words ≡ 3) × (table.shared.table_id.slots ≡ 1) },
}

/// Why a lock wasn't closed.
#[derive(Drop, Error)]
pub enum CloseFault<V: Book> {
    /// Out of memory. The lock and the pass come back.
    #[error("out of memory")]
    NoMemory(TurnLock<V>, Pass<V>),
}

/// The name of the fault, without the lock and the pass.
impl<V: Book> fmt::Debug for CloseFault<V> {
    fn fmt<W: fmt::Write>(&self, f: &mut fmt::Formatter<W>) -> fmt::Result {
        match self {
            CloseFault::NoMemory(..) => f.write_str("NoMemory(..)"),
        }
    }
}

impl<V: Book> TurnLock<V> {
    ghost use Rattle.turn_lock.specs.Lists.{StartsWith, MayAddOne, EachOnce, Stand, AllBelow, longer, numbered};
    ghost use Rattle.turn_lock.specs.Guards.{value_in};
    ghost use Rattle.turn_lock.specs.Passes.{parts, start, seen, own, IsOf, IsIdle, HasTurn, GivesBack};

    /// A lock over this value, and its first pass, which has all 1,000,000 parts and owns all entries.
    pub fn new(alloc: Global, value: V) -> Result<(TurnLock<V>, Pass<V>), NoMemory>
    where
        V: Drop,
        ensures pass { IfOk result (λ r. IsOf r.0 r.1 × IsIdle r.1) }
        ensures parts { IfOk result (λ r. parts r.1 ≡ 1000000) }
        ensures start { IfOk result (λ r. start r.1 ≡ V.start value) }
        ensures seen { IfOk result (λ r. seen r.1 ≡ V.journal value) }
        ensures own { IfOk result (λ r. own r.1 ≡ numbered 0 (V.journal value)) }
        ensures whole { IfOk result (λ r. EachOnce (seen r.1) (own r.1)) }
    {
        let entries = value.entries();
        let about = Snapshot::of(&value);
        let bells = Bells::new(alloc)?;
        let mut slots = Vec::new(alloc);
        slots.push(Some(value))?;
        let Ok((table, seat)) = Table::new(alloc, &[0, 0, entries], slots, &about) else {
            return Err(NoMemory);
        };
        Ok((
            TurnLock { table, bells },
            Pass {
                seat,
                count: entries,
            },
        ))
    }

    /// A further pass, which has seen what this one has seen and owns nothing. It gets one of the parts. This takes no
    /// memory.
    pub fn split(&self, pass: &mut Pass<V>) -> Result<Pass<V>, NoMemory>
        requires lock { IsOf self.now pass.old }
        requires idle { IsIdle pass.old }
        requires parts { 2 ≤ parts pass.old }
        ensures granted { IsOk result }
        ensures refused { OnErr result (pass.new ≡ pass.old) }
        ensures lock { IfOk result (λ p. IsOf self.now p × IsOf self.now pass.new) }
        ensures idle { IfOk result (λ p. IsIdle p × IsIdle pass.new) }
        ensures parts { IfOk result (λ p. (parts p ≡ 1) × (parts pass.new + 1 ≡ parts pass.old)) }
        ensures start { IfOk result (λ p. (start p ≡ start pass.old) × (start pass.new ≡ start pass.old)) }
        ensures seen { IfOk result (λ p. (seen p ≡ seen pass.old) × (seen pass.new ≡ seen pass.old)) }
        ensures own { IfOk result (λ p. (own p ≡ []) × (own pass.new ≡ own pass.old)) }
    {
        let seat = self.table.shared.split_seat::<Cut>(&mut pass.seat);
        Ok(Pass {
            seat,
            count: pass.count,
        })
    }

    /// The pass takes in the other one, with its parts, its entries, and what it has seen.
    pub fn join(&self, pass: &mut Pass<V>, other: Pass<V>)
        requires lock { IsOf self.now pass.old × IsOf self.now other }
        requires idle { IsIdle pass.old × IsIdle other }
        ensures lock { IsOf self.now pass.new }
        ensures idle { IsIdle pass.new }
        ensures parts { parts pass.new ≡ parts pass.old + parts other }
        ensures start { start pass.new ≡ start pass.old }
        ensures seen { seen pass.new ≡ longer (seen pass.old) (seen other) }
        ensures begins { StartsWith (seen pass.new) (seen pass.old) × StartsWith (seen pass.new) (seen other) }
        ensures own { own pass.new ≡ own pass.old ++ own other }
        ensures stand { Stand (seen pass.new) (own pass.new) }
    {
        let Pass { seat, count } = other;
        let words = &self.table.shared;
        words.join_seat::<Glue>(&mut pass.seat, seat);
        recall(words, &mut pass.seat);
        pass.count = pass.count.max(count);
    }

    /// Waits for the pass's turn, and takes the value out.
    pub fn enter<R: Wait>(&self, rt: &R, pass: &mut Pass<V>) -> Guard<V>
        requires lock { IsOf self.now pass.old }
        requires idle { IsIdle pass.old }
        ensures lock { IsOf self.now pass.new }
        ensures turn { HasTurn pass.new }
        ensures parts { parts pass.new ≡ parts pass.old }
        ensures start { (start pass.new ≡ start pass.old) × (V.start (value_in result) ≡ start pass.old) }
        ensures seen { seen pass.new ≡ V.journal (value_in result) }
        ensures begins { StartsWith (seen pass.new) (seen pass.old) }
        ensures own { own pass.new ≡ own pass.old }
        ensures stand { Stand (seen pass.old) (own pass.old) × Stand (seen pass.new) (own pass.new) }
    {
        let words = &self.table.shared;
        let ticket = draw(words, &mut pass.seat);
        wait(rt, words, &self.bells, &mut pass.seat, ticket);
        let value = take(words, &mut pass.seat);
        pass.count = value.entries();
        Guard { value }
    }

    /// Puts the value back, and gives the turn to the next ticket.
    pub fn leave(&self, pass: &mut Pass<V>, guard: Guard<V>)
        requires lock { IsOf self.now pass.old }
        requires turn { HasTurn pass.old }
        requires start { V.start (value_in guard) ≡ start pass.old }
        requires entries { MayAddOne (seen pass.old) (V.journal (value_in guard)) }
        ensures lock { IsOf self.now pass.new }
        ensures idle { IsIdle pass.new }
        ensures parts { parts pass.new ≡ parts pass.old }
        ensures start { start pass.new ≡ start pass.old }
        ensures seen { seen pass.new ≡ V.journal (value_in guard) }
        ensures none { V.journal (value_in guard) ≡ seen pass.old → own pass.new ≡ own pass.old }
        ensures one { (e : V.Entry) → V.journal (value_in guard) ≡ seen pass.old ++ e ∷ [] → own pass.new ≡ own pass.old ++ (length (seen pass.old), e) ∷ [] }
        ensures rising { AllBelow (length (seen pass.old)) (own pass.old) }
        ensures stand { Stand (seen pass.new) (own pass.new) }
    {
        let Guard { value } = guard;
        let words = &self.table.shared;
        let entries = value.entries();
        let added = entries - pass.count;
        give(words, &mut pass.seat, value);
        count(words, &mut pass.seat, added);
        pass.count = entries;
        serve(words, &self.bells, &mut pass.seat);
    }

    /// Hands out the value. The pass has all parts, so no other is left. This takes no memory.
    pub fn close(self, pass: Pass<V>) -> Result<V, CloseFault<V>>
        requires lock { IsOf self pass }
        requires idle { IsIdle pass }
        requires parts { parts pass ≡ 1000000 }
        ensures granted { IsOk result }
        ensures refused { IfErr result (GivesBack self pass) }
        ensures start { IfOk result (λ v. V.start v ≡ start pass) }
        ensures seen { IfOk result (λ v. V.journal v ≡ seen pass) }
        ensures own { EachOnce (seen pass) (own pass) }
    {
        let TurnLock { table, bells: _ } = self;
        let Pass { seat, count: _ } = pass;
        let mut closed = table.close_with(seat);
        let value = closed.take(0);
        closed.free();
        let Some(value) = value else { unreachable!() };
        Ok(value)
    }
}
