//! The right to enter a lock.
ghost use Rattle.std.specs.Prelude.{◌≡◌, ◌<◌, length};

use crate::book::Book;
use crate::rule::View;
use atomic_table::Seat;

/// The seat of a pass at the lock's table.
pub(crate) type TurnSeat<V> = Seat<Option<V>, View<<V as Book>::Entry>>;

/// The right to enter a lock. `TurnLock::join` and `TurnLock::close` spend it. If it is dropped, its parts are lost,
/// and the lock can't be closed any more.
///
/// Contracts see its parts of the 1,000,000, the start of the lock's value, the entries that it has seen, its own
/// entries with their places, the lock that it belongs to, and whether it is idle (`specs/Passes.antt`).
#[derive(Drop)]
pub struct Pass<V: Book> {
    pub(crate) seat: Seat<Option<V>, View<V::Entry>>,
    pub(crate) count: u64,
    ghost some_parts: { 0 < seat.me.0.parts },
    ghost counted: { count ≡ length seat.me.0.seen },
}
