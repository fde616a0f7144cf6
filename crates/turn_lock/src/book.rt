//! What the lock knows of the value that it holds.
ghost use Rattle.std.specs.Prelude.{◌≡◌, ℕ, List, length};

/// A value that stands for a list of entries, and for a number that it started from.
pub trait Book {
    /// One entry.
    type Entry;

    /// The entries, the oldest first.
    ghost journal: { Self → List Self.Entry };

    /// The number that the value started from.
    ghost start: { Self → ℕ };

    /// How many entries there are. So the list is always shorter than 2^64.
    fn entries(&self) -> u64
        ensures { result ≡ length (journal self.now) };
}
