//! What each step on the lock's words tells the pass that takes it.
ghost use Rattle.turn_lock.specs.Plays.{drew, looked, counted, served, without_part, one_part, joined, spent};

use crate::book::Book;
use crate::rule::View;
use atomic_table::{Join, Play, Split};

/// One ticket is drawn.
pub(crate) struct Draw;

impl<V: Book> Play<Option<V>, View<V::Entry>> for Draw {
    ghost then = { drew };
}

/// The number served is looked at. Where it is the pass's ticket, it has its turn, and the value.
pub(crate) struct Look;

impl<V: Book> Play<Option<V>, View<V::Entry>> for Look {
    ghost then = { looked V.journal V.start };
}

/// The entry that the value has gained, if any, is counted.
pub(crate) struct Count;

impl<V: Book> Play<Option<V>, View<V::Entry>> for Count {
    ghost then = { counted V.journal };
}

/// The turn goes to the next ticket, and the value with it.
pub(crate) struct Serve;

impl<V: Book> Play<Option<V>, View<V::Entry>> for Serve {
    ghost then = { served };
}

/// One part is cut off.
pub(crate) struct Cut;

impl<E> Split<View<E>> for Cut {
    ghost left = { without_part };

    ghost right = { one_part };
}

/// Two passes become one.
pub(crate) struct Glue;

impl<E> Join<View<E>> for Glue {
    ghost both = { joined };

    ghost spent = { spent };
}
