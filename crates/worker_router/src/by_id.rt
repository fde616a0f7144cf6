//! Objects by their ids.

ghost use Rattle.std.specs.Prelude.{◌≡◌, ◌∷◌, ◌++◌, [], false, find, is_some, slice_get, OnOk, OnErr, option_and_then, option_copied};
ghost use Rattle.worker_router.specs.State.{same_id};
ghost use Rattle.worker_router.specs.Calls.{without};
ghost use Rattle.worker_router.specs.Tables.{AreDifferent};

use indexmap::IndexMap;
use ms_base::{Id, NoMemory};
use std::alloc::Global;
use std::marker::Model;

/// What has an id.
pub(crate) trait HasId {
    ghost use Rattle.ms_base.specs.declared.id.Id.{Id};

    ghost id_of: { Self → Id };

    /// Its id.
    fn id(&self) -> Id
        ensures { result ≡ id_of self.now };
}

/// Objects of different ids, in order of making, found by their ids. Contracts see them as a list.
#[derive(Debug, Drop)]
pub(crate) struct ById<T: HasId> {
    pub(crate) items: IndexMap<[u8; 16], T>,
}

impl<T: HasId> Model for ById<T> {
    ghost use Rattle.std.specs.Prelude.{List};
    ghost use Rattle.std.specs.HashMap.{values};
    ghost use Rattle.worker_router.specs.Tables.{AreUnderIds};

    ghost Value = { List T };

    ghost view = { λ m. values m.items };

    ghost invariant = { λ m. AreUnderIds T.id_of m.items };
}

impl<T: HasId> ById<T> {
    pub(crate) fn new(alloc: Global) -> ById<T>
        ensures { result ≡ [] }
    {
        ById {
            items: IndexMap::new(alloc),
        }
    }

    /// The object of this id.
    pub(crate) fn get(&self, id: Id) -> Option<&T>
        ensures { option_copied result ≡ find (λ x. same_id (T.id_of x) id) self.now }
    {
        self.items.get(&id.0)
    }

    /// Where the object of this id stands, if it is there. It is looked for at a place first.
    pub(crate) fn index_of(&self, id: Id, first: usize) -> Option<usize>
        ensures { option_and_then (slice_get self.now) result ≡ find (λ x. same_id (T.id_of x) id) self.now }
    {
        if let Some((key, _object)) = self.items.get_index(first) {
            if *key == id.0 {
                return Some(first);
            }
        }
        self.items.get_index_of(&id.0)
    }

    /// The object of this id, which is looked for at a place first: that is then where it stands.
    pub(crate) fn get_near(&self, id: Id, place: &mut usize) -> Option<&T>
        ensures { option_copied result ≡ find (λ x. same_id (T.id_of x) id) self.now }
    {
        let index = self.index_of(id, *place)?;
        *place = index;
        let (_key, object) = self.items.get_index(index)?;
        Some(object)
    }

    /// Whether one has this id.
    pub(crate) fn has(&self, id: Id) -> bool
        ensures { result ≡ is_some (find (λ x. same_id (T.id_of x) id) self.now) }
    {
        self.items.contains_key(&id.0)
    }

    /// Adds an object of another id than theirs.
    pub(crate) fn add(&mut self, object: T) -> Result<(), NoMemory>
    where
        T: Drop,
        requires { is_some (find (λ x. same_id (T.id_of x) (T.id_of object)) self.old) ≡ false }
        ensures ok { OnOk result (self.new ≡ self.old ++ object ∷ []) }
        ensures err { OnErr result (self.new ≡ self.old) }
        ensures different { AreDifferent T.id_of self.new }
    {
        self.items.insert(object.id().0, object)?;
        Ok(())
    }

    /// Takes out the object of this id, where it is there.
    pub(crate) fn remove(&mut self, id: Id)
    where
        T: Drop,
        ensures state { self.new ≡ without (λ x. same_id (T.id_of x) id) self.old }
        ensures different { AreDifferent T.id_of self.new }
    {
        let _removed = self.items.shift_remove(&id.0);
    }
}
