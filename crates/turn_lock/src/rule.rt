//! What a pass knows, and the rule that every step on the lock's words keeps. No value of these types is made.
use crate::book::Book;
use atomic_table::TableRule;
use std::collections::LinkedList;
use std::snapshot::Snapshot;

/// Where a pass stands in the line. A ticket is counted from the first one, without end.
pub enum Stage {
    /// It has no ticket.
    Idle,
    /// It has this ticket.
    Waits(u64),
    /// It has this ticket, whose turn it is.
    Serves(u64),
}

/// What a pass knows.
pub struct View<E> {
    /// The number that the value started from.
    pub start: u64,
    /// Its parts of the 1,000,000.
    pub parts: u64,
    /// The entries that it has seen, which begin the one journal.
    pub seen: LinkedList<E>,
    /// What the shorter-sighted of two passes had seen, where it was joined of two. `seen` begins with it.
    pub told: LinkedList<E>,
    /// The entries that it made, each with its place in the journal.
    pub own: LinkedList<(u64, E)>,
    /// Where it stands in the line.
    pub stage: Stage,
}

/// The rule of a turn lock.
pub struct Turns;

impl<V: Book> TableRule<Option<V>, View<V::Entry>, Snapshot<V>> for Turns {
    ghost use Rattle.turn_lock.specs.Turns.{Kept, opened};

    ghost holds = { λ k. Kept V.journal V.start (V.start k.value) };

    ghost first = { λ k. opened (V.journal k.value) (V.start k.value) };
}
