ghost use Rattle.std.specs.Prelude.{◌≡◌, [], None, false, OnOk, OnErr, IfOk, IsTrue, IsSomeAnd, option_copied, ◌&&◌};
ghost use Rattle.std.specs.BTreeMap.{is_at};
ghost use Rattle.std.specs.Map.{remove_entry, values_of};
ghost use Rattle.std.specs.Ordering.{nat_cmp};
ghost use Rattle.object_tree.specs.Falls.{falls, with_closed};
ghost use Rattle.object_tree.specs.Objects.{AreInOrder, has_id, is_open, is_producer, named, numbered, open_with_id, with_mark, with_object};
ghost use Rattle.object_tree.specs.Tables.{AreKeyed};

use crate::children::Children;
use crate::close::close_each;
use crate::ends::Ends;
use crate::fall::fallen;
use crate::filing::{file_end, file_id, file_parent, turn_end};
use crate::ids::Ids;
use crate::names::Names;
use crate::object::{Mark, Object};
use crate::stored::{Objects, object_at};
use boxed_value::Boxed;
use ms_base::{Id, Kind, Name, NoMemory, Reason, Serial};
use std::alloc::Global;
use std::collections::BTreeMap;
use std::marker::Model;

/// The objects of a host, open and closed. Contracts see them as a list in ascending order of their serials.
#[derive(Debug, Drop)]
pub struct Tree {
    alloc: Global,
    objects: Objects,
    names: Names,
    ids: Ids,
    children: Children,
    /// The Consumers and the Producers, each at the serial that it names as the other of its pipe.
    ends: Ends,
}

impl Model for Tree {
    ghost use Rattle.std.specs.Prelude.{List};
    ghost use Rattle.std.specs.Map.{values_of};
    ghost use Rattle.object_tree.specs.Tables.{AreIndexed};
    ghost use Rattle.object_tree.specs.declared.object.Object.{Object};

    ghost Value = { List Object };

    ghost view = { λ t. values_of t.objects.entries };

    ghost invariant = { λ t. AreIndexed t.objects.entries t.names t.ids t.children t.ends };
}

impl Tree {
    /// A tree without objects.
    pub fn new(alloc: Global) -> Tree
        ensures { result ≡ [] }
    {
        Tree {
            alloc,
            objects: BTreeMap::new(alloc),
            names: Names::new(alloc),
            ids: Ids::new(alloc),
            children: Children::new(alloc),
            ends: Ends::new(alloc),
        }
    }

    /// The object of a serial, open or closed.
    pub fn get(&self, serial: Serial) -> Option<&Object>
        ensures found { option_copied result ≡ numbered self.now serial }
        ensures in_order { AreInOrder self.now }
    {
        object_at(&self.objects, serial.0)
    }

    /// The object that a name belongs to: that of the greatest serial, open or closed.
    pub fn by_name(&self, name: &Name) -> Option<&Object>
        ensures { option_copied result ≡ named self.now name.now }
    {
        let serial = self.names.get(name.as_slice())?;
        object_at(&self.objects, serial)
    }

    /// The open object of a worker, a kind and an id. Producers aren't told apart by their ids: one at the end of a pipe
    /// has that of the one at its source.
    pub fn by_id(&self, worker: Serial, kind: Kind, id: Id) -> Option<&Object>
        requires { is_producer kind ≡ false }
        ensures { option_copied result ≡ open_with_id self.now worker kind id }
    {
        let serial = self.ids.get(worker, kind, id)?;
        let object = object_at(&self.objects, serial)?;
        if is_open_with(object, worker, kind, id) {
            Some(object)
        } else {
            None
        }
    }

    /// Adds an object, at its place by its serial.
    pub fn add(&mut self, object: Object) -> Result<(), NoMemory>
        requires fresh { numbered self.old object.serial ≡ None }
        requires apart { is_producer object.kind ≡ false → open_with_id self.old object.worker object.kind object.id ≡ None }
        ensures ok { OnOk result (self.new ≡ with_object object self.old) }
        ensures err { OnErr result (self.new ≡ self.old) }
    {
        file_id(&object, &mut self.ids)?;
        file_parent(&object, &mut self.children)?;
        file_end(&object, &mut self.ends)?;
        let name = Vec::from_slice(self.alloc, object.name.as_slice())?;
        let serial = object.serial.0;
        let object = Boxed::new(self.alloc, object)?;
        self.objects.insert(serial, object)?;
        match self.names.raise(name, serial) {
            Ok(()) => Ok(()),
            Err(refused) => {
                take_back(&mut self.objects, serial);
                Err(refused)
            }
        }
    }
}

impl Tree {
    /// Changes the one field of an open object that a mark names. It takes no memory.
    pub fn mark(&mut self, serial: Serial, mark: Mark)
        requires { IsSomeAnd (numbered self.old serial) (λ o. IsTrue (is_open o)) }
        ensures { self.new ≡ with_mark serial mark self.old }
    {
        turn_end(&self.objects, serial, mark, &mut self.ends);
        set_mark(&mut self.objects, serial, mark);
    }

    /// The serials of the open objects that fall with the roots, in ascending order: each that a finite chain of open
    /// objects leads to from an open root. Its links go from an object to its child, from a pipe transport to its far end,
    /// and between the Consumer and the Producer that a pipe links, in either direction.
    pub fn fallen(&self, roots: &[Serial]) -> Result<Vec<Serial>, NoMemory>
        ensures { IfOk result (λ fallen. fallen.items ≡ falls self.now roots.now) }
    {
        fallen(self.alloc, &self.objects, &self.children, &self.ends, roots)
    }

    /// Closes these objects, each once, where they are open. The reason of one whose parent is among them goes by the
    /// parent's kind; another that is a root has the given reason, and the others have `PipeClose`. It takes no memory.
    pub fn close_all(&mut self, fallen: &[Serial], roots: &[Serial], reason: Reason)
        ensures { self.new ≡ with_closed fallen.now roots.now reason self.old }
    {
        close_each(&mut self.objects, fallen, roots, reason);
    }
}

// Changes the one field of the object of a serial that a mark names.
fn set_mark(objects: &mut Objects, serial: Serial, mark: Mark)
    requires keyed { AreKeyed objects.old.entries }
    requires in_order { AreInOrder (values_of objects.old.entries) }
    ensures keyed { AreKeyed objects.new.entries }
    ensures values { values_of objects.new.entries ≡ with_mark serial mark (values_of objects.old.entries) }
{
    if let Some(object) = objects.get_mut(&serial.0) {
        object.set(mark);
    }
}

// Takes the object of a serial out again.
fn take_back(objects: &mut Objects, serial: u32)
    ensures { objects.new.entries ≡ remove_entry (is_at (nat_cmp serial)) objects.old.entries }
{
    objects.remove(&serial);
}

// Whether an object is open, and is that of a worker, a kind and an id.
fn is_open_with(object: &Object, worker: Serial, kind: Kind, id: Id) -> bool
    ensures { result ≡ (is_open object.now && has_id worker kind id object.now) }
{
    object.closed.is_none() && worker == object.worker && kind == object.kind && id == object.id
}
