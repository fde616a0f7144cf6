//! The steps on a lock's words, each of which keeps the rule.
ghost use Rattle.std.specs.Prelude.{◌≡◌, ℕ, ◌+◌, ◌%◌, ◌^◌, ◌<◌, [], ◌∷◌, length};
ghost use Rattle.turn_lock.specs.declared.rule.Stage.TheVariants.{Idle, Waits, Serves};
ghost use Rattle.turn_lock.specs.Plays.{Taken, at_stage, with_journal};
ghost use Rattle.turn_lock.specs.Lists.{StartsWith, Stand, AllBelow, MayAddOne};

use crate::bells::{Bells, Pause};
use crate::book::Book;
use crate::pass::TurnSeat;
use crate::plays::{Count, Draw, Look, Serve};
use crate::rule::{Turns, View};
use atomic_table::Shared;
use std::snapshot::Snapshot;
use std::sync::Wait;

/// The word of the next ticket.
const TICKET: usize = 0;

/// The word of the ticket that is served.
const SERVING: usize = 1;

/// The word of the number of entries.
const LENGTH: usize = 2;

/// The slot of the value.
const VALUE: usize = 0;

pub(crate) type Words<V> = Shared<Option<V>, View<<V as Book>::Entry>, Snapshot<V>, Turns>;

/// Draws a ticket, and gives its low 64 bits.
pub(crate) fn draw<V: Book>(words: &Words<V>, seat: &mut TurnSeat<V>) -> u64
    requires table { (seat.old.table_id ≡ words.now.table_id) × (words.now.table_id.words ≡ 3) × (words.now.table_id.slots ≡ 1) }
    requires idle { (seat.old.me.0.stage ≡ Idle) × (seat.old.me.1 ≡ []) × (0 < seat.old.me.0.parts) }
    ensures table { (seat.new.table_id ≡ seat.old.table_id) × (seat.new.id ≡ seat.old.id) }
    ensures ticket { (t : ℕ) × (t % 2 ^ 64 ≡ result) × (seat.new.me ≡ (at_stage (Waits t) seat.old.me.0, [])) }
{
    words.fetch_add::<Draw>(seat, TICKET, 1)
}

/// Waits for the turn of the ticket. Between two looks it waits at the bells.
pub(crate) fn wait<V: Book, R: Wait>(
    rt: &R,
    words: &Words<V>,
    bells: &Bells,
    seat: &mut TurnSeat<V>,
    ticket: u64,
)
    requires table { (seat.old.table_id ≡ words.now.table_id) × (words.now.table_id.words ≡ 3) × (words.now.table_id.slots ≡ 1) }
    requires ticket { (t : ℕ) × (t % 2 ^ 64 ≡ ticket) × (seat.old.me.0.stage ≡ Waits t) × (seat.old.me.1 ≡ []) }
    ensures table { (seat.new.table_id ≡ seat.old.table_id) × (seat.new.id ≡ seat.old.id) }
    ensures turn { (t : ℕ) × Taken V.journal V.start t seat.old.me seat.new.me }
{
    let mut pause = Pause::FIRST;
    for _ in rt.forever() {
        let serving = words.load::<Look>(seat, SERVING);
        if serving == ticket {
            return;
        }
        pause = bells.wait(rt, ticket, serving, pause);
    }
    unreachable!()
}

/// Looks without a ticket, and so recalls what was told at a join: what was seen begins with it.
pub(crate) fn recall<V: Book>(words: &Words<V>, seat: &mut TurnSeat<V>)
    requires table { (seat.old.table_id ≡ words.now.table_id) × (words.now.table_id.words ≡ 3) × (words.now.table_id.slots ≡ 1) }
    requires idle { seat.old.me.0.stage ≡ Idle }
    ensures table { (seat.new.table_id ≡ seat.old.table_id) × (seat.new.id ≡ seat.old.id) }
    ensures same { seat.new.me ≡ seat.old.me }
    ensures told { StartsWith seat.old.me.0.seen seat.old.me.0.told × Stand seat.old.me.0.seen seat.old.me.0.own }
{
    words.load::<Look>(seat, SERVING);
}

/// Takes the value out of the slot in hand.
pub(crate) fn take<V: Book>(words: &Words<V>, seat: &mut TurnSeat<V>) -> V
    requires table { seat.old.table_id ≡ words.now.table_id }
    requires hand { (value : V) × (seat.old.me.1 ≡ (0, Some value) ∷ []) }
    ensures table { (seat.new.table_id ≡ seat.old.table_id) × (seat.new.id ≡ seat.old.id) }
    ensures hand { (seat.old.me.1 ≡ (0, Some result) ∷ []) × (seat.new.me ≡ (seat.old.me.0, (0, None) ∷ [])) }
{
    let in_hand = words.exchange(seat, VALUE, None);
    let Some(value) = in_hand else { unreachable!() };
    value
}

/// Puts the value into the slot in hand.
pub(crate) fn give<V: Book>(words: &Words<V>, seat: &mut TurnSeat<V>, value: V)
    requires table { seat.old.table_id ≡ words.now.table_id }
    requires hand { seat.old.me.1 ≡ (0, None) ∷ [] }
    ensures table { (seat.new.table_id ≡ seat.old.table_id) × (seat.new.id ≡ seat.old.id) }
    ensures hand { seat.new.me ≡ (seat.old.me.0, (0, Some value) ∷ []) }
{
    let before = words.exchange(seat, VALUE, Some(value));
    let None = before else { unreachable!() };
}

/// Counts the entry that the value in hand has gained: 1, or 0 where there is none.
pub(crate) fn count<V: Book>(words: &Words<V>, seat: &mut TurnSeat<V>, added: u64)
    requires table { (seat.old.table_id ≡ words.now.table_id) × (words.now.table_id.words ≡ 3) × (words.now.table_id.slots ≡ 1) }
    requires hand { (value : V) × (seat.old.me.1 ≡ (0, Some value) ∷ []) × MayAddOne seat.old.me.0.seen (V.journal value) × (length (V.journal value) ≡ length seat.old.me.0.seen + added) × (length (V.journal value) < 2 ^ 64) }
    requires turn { (t : ℕ) × (seat.old.me.0.stage ≡ Serves t) }
    ensures table { (seat.new.table_id ≡ seat.old.table_id) × (seat.new.id ≡ seat.old.id) }
    ensures counted { (value : V) → seat.old.me.1 ≡ (0, Some value) ∷ [] → seat.new.me ≡ (with_journal (V.journal value) seat.old.me.0, seat.old.me.1) }
    ensures stand { Stand seat.new.me.0.seen seat.new.me.0.own }
    ensures rising { AllBelow (length seat.old.me.0.seen) seat.old.me.0.own }
{
    words.fetch_add::<Count>(seat, LENGTH, added);
}

/// Gives the turn, and the value, to the next ticket, and rings for it.
pub(crate) fn serve<V: Book>(words: &Words<V>, bells: &Bells, seat: &mut TurnSeat<V>)
    requires table { (seat.old.table_id ≡ words.now.table_id) × (words.now.table_id.words ≡ 3) × (words.now.table_id.slots ≡ 1) }
    requires hand { (value : V) × (seat.old.me.1 ≡ (0, Some value) ∷ []) × (V.journal value ≡ seat.old.me.0.seen) × (V.start value ≡ seat.old.me.0.start) }
    requires turn { (t : ℕ) × (seat.old.me.0.stage ≡ Serves t) }
    ensures table { (seat.new.table_id ≡ seat.old.table_id) × (seat.new.id ≡ seat.old.id) }
    ensures served { seat.new.me ≡ (at_stage Idle seat.old.me.0, []) }
{
    let served = words.fetch_add::<Serve>(seat, SERVING, 1);
    bells.ring(served.wrapping_add(1));
}
