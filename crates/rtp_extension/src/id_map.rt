//! New ids for elements.

ghost use Rattle.std.specs.Prelude.{◌≡◌, ◌≢◌, ℕ, ◌≤◌, length, IfSome, Some, None};
ghost use Rattle.rtp_extension.specs.Ids.{new_id};
ghost use Rattle.rtp_extension.specs.Laws.{AreIds};

use std::marker::Model;

/// For each of the 256 ids the new one, if one was set. Contracts see it as the table of these, which they
/// read by `new_id`.
#[derive(Debug, Drop)]
pub struct IdMap {
    ids: [Option<u8>; 256],
}

impl Model for IdMap {
    ghost use Rattle.std.specs.Prelude.{◌≡◌, ℕ, List, Option, length};

    ghost Value = { List (Option ℕ) };

    ghost use Rattle.rtp_extension.specs.Ids.{IsTable};

    ghost view = { λ m. m.ids };

    ghost invariant = { λ m. IsTable m.ids };
}

impl IdMap {
    /// No id has a new one.
    pub fn new() -> IdMap
        ensures { (id : ℕ) → new_id result id ≡ None }
    {
        IdMap { ids: [None; 256] }
    }

    /// Sets the new id of one. The new id is at least 1, since 0 is no element's. One that was set before
    /// is gone.
    pub fn set(&mut self, id: u8, new: u8)
        requires { 1 ≤ new }
        ensures set { new_id self.new id ≡ Some new }
        ensures others { (other : ℕ) → other ≢ id → new_id self.new other ≡ new_id self.old other }
    {
        self.ids[usize::from(id)] = Some(new);
    }

    /// Takes the new id of one away, if one was set.
    pub fn clear(&mut self, id: u8)
        ensures cleared { new_id self.new id ≡ None }
        ensures others { (other : ℕ) → other ≢ id → new_id self.new other ≡ new_id self.old other }
    {
        self.ids[usize::from(id)] = None;
    }

    /// The new id of one: `None` exactly where none was set.
    pub fn get(&self, id: u8) -> Option<u8>
        ensures found { result ≡ new_id self.now id }
        ensures least { IfSome result (λ new. 1 ≤ new) }
    {
        self.ids[usize::from(id)]
    }

    /// A map has a place for each id. The function does nothing; its contract is the law.
    pub fn has_places(&self)
        ensures { length self.now ≡ 256 }
    {
        let _ids = &self.ids;
    }

    /// What holds of each map: a new id is one that an element can have.
    pub(crate) fn are_ids(&self)
        ensures { AreIds (new_id self.now) }
    {
        let _ids = &self.ids;
    }
}
