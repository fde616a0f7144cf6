ghost use Rattle.std.specs.Prelude.{◌≡◌, false, true, Ok, OnOk};
ghost use Rattle.host_model.specs.Changes.{object_opened};
ghost use Rattle.host_tables.specs.Kept.{IsNew, Moves, ShowsTheSame};

use crate::tables::Tables;
use ms_base::{Kind, NoMemory};
use object_tree::Object;
use request_build::{Draws, Keep};
use transcript::Note;

impl Tables {
    /// An object stands in the tree, and so much is kept of it: one whose serial no other has, and whose id no open one of its
    /// worker and kind has, where that tells it apart. Any other is dropped.
    pub fn open(&mut self, object: Object, keeps: Keep) -> Result<(), NoMemory>
        ensures ok { OnOk result (IsNew self.old.tree object → Moves (object_opened object keeps) self.old self.new) }
        ensures dropped { (IsNew self.old.tree object → ⊥) → (self.new ≡ self.old) × (result ≡ Ok tt) }
        ensures shown { ShowsTheSame self.old self.new }
    {
        if !self.is_new(&object) {
            return Ok(());
        }
        self.open_new(object, keeps)
    }

    // An object that can be added stands in the tree, and so much is kept of it.
    fn open_new(&mut self, object: Object, keeps: Keep) -> Result<(), NoMemory>
        requires { IsNew self.old.tree object }
        ensures ok { OnOk result (Moves (object_opened object keeps) self.old self.new) }
        ensures shown { ShowsTheSame self.old self.new }
    {
        let opened = Note::Open {
            serial: object.serial,
            kind: object.kind,
            name: object.name.copy(self.alloc)?,
            id: object.id,
        };
        self.kept.keep(object.serial, keeps)?;
        self.tree.add(object)?;
        self.note(opened)
    }

    // Whether an object can be added to the tree.
    fn is_new(&self, object: &Object) -> bool
        ensures holds { result ≡ true → IsNew self.now.tree object.now }
        ensures fails { result ≡ false → IsNew self.now.tree object.now → ⊥ }
    {
        if self.tree.get(object.serial).is_some() {
            return false;
        }
        object.kind == Kind::Producer
            || self
                .tree
                .by_id(object.worker, object.kind, object.id)
                .is_none()
    }

    /// From now on this is drawn next.
    pub fn draw(&mut self, next: Draws)
        ensures ok { Moves (λ s. record s { next = next }) self.old self.new }
        ensures shown { ShowsTheSame self.old self.new }
    {
        self.next = next;
    }
}
