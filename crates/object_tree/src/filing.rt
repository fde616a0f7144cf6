//! Objects are filed, to be found by their ids, their parents and their far ends.

ghost use Rattle.std.specs.Prelude.{◌≡◌, ◌==◌, ℕ, Some, true, false, OnOk};
ghost use Rattle.std.specs.Map.{values_of};
ghost use Rattle.ms_base.specs.declared.keys.Serial.{Serial};
ghost use Rattle.object_tree.specs.Objects.{is_open, is_producer, marked, numbered};
ghost use Rattle.object_tree.specs.Tables.{AreKeyed, children_of, end_at, has_end, id_key, is_in_way, is_listed, may_be_linked, serial_at};
ghost use Rattle.object_tree.specs.declared.object.Object.{Object};

use crate::children::Children;
use crate::ends::Ends;
use crate::ids::Ids;
use crate::object::{Mark, Object};
use crate::stored::{Objects, object_at};
use ms_base::{Kind, NoMemory, Serial};

/// Lets an object be found by its id, if that tells it apart.
pub(crate) fn file_id(object: &Object, ids: &mut Ids) -> Result<(), NoMemory>
    ensures ok { OnOk result (is_producer object.now.kind ≡ false → serial_at ids.new (id_key object.now) ≡ Some object.now.serial.0) }
    ensures stay { (o : Object) → is_in_way object.now o ≡ false → is_open o ≡ true → serial_at ids.new (id_key o) ≡ serial_at ids.old (id_key o) }
{
    if object.kind == Kind::Producer {
        return Ok(());
    }
    ids.put(object.worker, object.kind, object.id, object.serial.0)
}

/// Lets an object be found by its parent, if it has one.
pub(crate) fn file_parent(object: &Object, children: &mut Children) -> Result<(), NoMemory>
    ensures ok { OnOk result ((parent : Serial) → object.now.parent ≡ Some parent → is_listed (children_of children.new parent.0) object.now.serial.0 ≡ true) }
    ensures stay { (p s : ℕ) → is_listed (children_of children.old p) s ≡ true → is_listed (children_of children.new p) s ≡ true }
{
    match object.parent {
        Some(parent) => children.add(parent.0, object.serial.0),
        None => Ok(()),
    }
}

/// Lets a Consumer or a Producer be found by what it names as the other of its pipe.
pub(crate) fn file_end(object: &Object, ends: &mut Ends) -> Result<(), NoMemory>
    ensures ok { OnOk result (may_be_linked object.now.kind ≡ true → has_end ends.new (end_at object.now) object.now.serial.0 ≡ true) }
    ensures stay { (a s : ℕ) → has_end ends.old a s ≡ true → has_end ends.new a s ≡ true }
{
    if may_be_linked(object.kind) {
        ends.add(end_at(object), object.serial.0)
    } else {
        Ok(())
    }
}

/// Files the object of a serial, if it is a Consumer or a Producer that a mark gives another far end, under that.
pub(crate) fn turn_end(objects: &Objects, serial: Serial, mark: Mark, ends: &mut Ends)
    requires keyed { AreKeyed objects.now.entries }
    requires there { (o : Object) → numbered (values_of objects.now.entries) serial ≡ Some o → may_be_linked o.kind ≡ true → has_end ends.old (end_at o) serial.0 ≡ true }
    ensures here { (o : Object) → numbered (values_of objects.now.entries) serial ≡ Some o → may_be_linked o.kind ≡ true → has_end ends.new (end_at (marked mark o)) serial.0 ≡ true }
    ensures stay { (a s : ℕ) → (serial.0 == s) ≡ false → has_end ends.old a s ≡ true → has_end ends.new a s ≡ true }
{
    let Mark::Far(far) = mark else {
        return;
    };
    let Some(object) = object_at(objects, serial.0) else {
        return;
    };
    if may_be_linked(object.kind) {
        ends.turn(end_at(object), serial.0, far.0);
    }
}

// Whether it is a Consumer or a Producer.
fn may_be_linked(kind: Kind) -> bool
    ensures { result ≡ may_be_linked kind }
{
    matches!(kind, Kind::Consumer | Kind::Producer)
}

// The serial that an object stands at among the far ends.
fn end_at(object: &Object) -> u32
    ensures { result ≡ end_at object.now }
{
    match object.far {
        Some(far) => far.0,
        None => object.serial.0,
    }
}
