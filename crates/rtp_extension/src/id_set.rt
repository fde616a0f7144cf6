//! Ids of elements.

ghost use Rattle.std.specs.Prelude.{◌≡◌, ◌≢◌, ℕ, ◌≤◌, true, false};
ghost use Rattle.rtp_extension.specs.Ids.{has_id};

use std::marker::Model;

/// A set of the 256 ids. Contracts see it as the table of these, which they read by `has_id`.
#[derive(Debug, Drop)]
pub struct IdSet {
    ids: [bool; 256],
}

impl Model for IdSet {
    ghost use Rattle.std.specs.Prelude.{◌≡◌, List, Bool, length};

    ghost Value = { List Bool };

    ghost view = { λ s. s.ids };

    ghost invariant = { λ s. length s.ids ≡ 256 };
}

impl IdSet {
    /// The set of no id.
    pub fn new() -> IdSet
        ensures { (id : ℕ) → has_id result id ≡ false }
    {
        IdSet { ids: [false; 256] }
    }

    /// The set of all ids.
    pub(crate) fn all() -> IdSet
        ensures { (id : ℕ) → id ≤ 255 → has_id result id ≡ true }
    {
        IdSet { ids: [true; 256] }
    }

    /// Adds an id.
    pub fn add(&mut self, id: u8)
        ensures added { has_id self.new id ≡ true }
        ensures others { (other : ℕ) → other ≢ id → has_id self.new other ≡ has_id self.old other }
    {
        self.ids[usize::from(id)] = true;
    }

    /// Whether the set has an id.
    pub fn has(&self, id: u8) -> bool
        ensures { result ≡ has_id self.now id }
    {
        self.ids[usize::from(id)]
    }
}
