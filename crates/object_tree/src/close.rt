//! Objects close.

ghost use Rattle.std.specs.Prelude.{◌≡◌, map, option_map};
ghost use Rattle.std.specs.Map.{values_of};
ghost use Rattle.object_tree.specs.Falls.{fallen_parent, reason_of, reason_under, with_closed};
ghost use Rattle.object_tree.specs.Objects.{AreInOrder, numbered};
ghost use Rattle.object_tree.specs.Tables.{AreKeyed, change_at, close_open};

use crate::among::Among;
use crate::object::Object;
use crate::stored::{Objects, object_at};
use ms_base::{Kind, Reason, Serial};

/// Closes the objects of these serials, each once, where they are open.
pub(crate) fn close_each(
    objects: &mut Objects,
    serials: &[Serial],
    roots: &[Serial],
    reason: Reason,
)
    requires keyed { AreKeyed objects.old.entries }
    requires in_order { AreInOrder (values_of objects.old.entries) }
    ensures keyed { AreKeyed objects.new.entries }
    ensures values { values_of objects.new.entries ≡ with_closed serials.now roots.now reason (values_of objects.old.entries) }
{
    let fallen = Among::new(serials);
    let roots = Among::new(roots);
    for serial in serials {
        close_one(objects, *serial, &fallen, &roots, reason);
    }
}

// Closes the object of a serial, where it is open.
fn close_one(
    objects: &mut Objects,
    serial: Serial,
    fallen: &Among<'_>,
    roots: &Among<'_>,
    reason: Reason,
)
    requires keyed { AreKeyed objects.old.entries }
    requires in_order { AreInOrder (values_of objects.old.entries) }
    ensures keyed { AreKeyed objects.new.entries }
    ensures values { let xs = values_of objects.old.entries in values_of objects.new.entries ≡ map (change_at (close_open (reason_of xs fallen.now roots.now reason)) serial) xs }
{
    let Some(object) = object_at(objects, serial.0) else {
        return;
    };
    if object.closed.is_some() {
        return;
    }
    let why = reason_of(objects, object, fallen, roots, reason);
    if let Some(object) = objects.get_mut(&serial.0) {
        object.closed = Some(why);
    }
}

// Why an object closes that is one of the fallen.
fn reason_of(
    objects: &Objects,
    object: &Object,
    fallen: &Among<'_>,
    roots: &Among<'_>,
    reason: Reason,
) -> Reason
    requires { AreKeyed objects.now.entries }
    ensures { result ≡ reason_of (values_of objects.now.entries) fallen.now roots.now reason object.now }
{
    if let Some(kind) = fallen_parent(objects, fallen, object.parent) {
        return reason_under(kind);
    }
    if roots.has(object.serial) {
        reason
    } else {
        Reason::PipeClose
    }
}

// The kind of a parent that is one of the fallen.
fn fallen_parent(objects: &Objects, fallen: &Among<'_>, parent: Option<Serial>) -> Option<Kind>
    requires { AreKeyed objects.now.entries }
    ensures { result ≡ fallen_parent (values_of objects.now.entries) fallen.now parent }
{
    let Some(parent) = parent else {
        return None;
    };
    if fallen.has(parent) {
        kind_of(objects, parent)
    } else {
        None
    }
}

// The kind of the object of a serial.
fn kind_of(objects: &Objects, serial: Serial) -> Option<Kind>
    requires { AreKeyed objects.now.entries }
    ensures { result ≡ option_map (λ o. o.kind) (numbered (values_of objects.now.entries) serial) }
{
    match object_at(objects, serial.0) {
        Some(object) => Some(object.kind),
        None => None,
    }
}

// Why an object closes that falls with its parent, by the kind of that.
fn reason_under(parent: Kind) -> Reason
    ensures { result ≡ reason_under parent }
{
    match parent {
        Kind::Worker => Reason::WorkerClose,
        Kind::Router => Reason::RouterClose,
        _ => Reason::TransportClose,
    }
}
