ghost use Rattle.std.specs.Prelude.{◌≡◌};
ghost use Rattle.object_tree.specs.Falls.{are_in_and_out, are_linked, has_far_end, is_at, is_child, leads};

use crate::object::Object;
use ms_base::{Kind, Serial};

/// Whether a link leads from one object to another: where the first falls, the second falls with it, if it is open.
pub(crate) fn leads(from: &Object, to: &Object) -> bool
    ensures { result ≡ leads from.now to.now }
{
    is_child(from, to) || has_far_end(from, to) || are_linked(from, to)
}

// Whether the first is the parent of the second.
fn is_child(parent: &Object, child: &Object) -> bool
    ensures { result ≡ is_child parent.now child.now }
{
    is_at(child.parent, parent.serial)
}

// Whether the first is a transport whose far end is the second.
fn has_far_end(from: &Object, to: &Object) -> bool
    ensures { result ≡ has_far_end from.now to.now }
{
    from.kind == Kind::Pipe && is_at(from.far, to.serial)
}

// Whether they are the Consumer and the Producer of a pipe.
fn are_linked(one: &Object, other: &Object) -> bool
    ensures { result ≡ are_linked one.now other.now }
{
    are_in_and_out(one.kind, other.kind)
        && (is_at(one.far, other.serial) || is_at(other.far, one.serial))
}

// Whether one is a Consumer and the other a Producer.
fn are_in_and_out(one: Kind, other: Kind) -> bool
    ensures { result ≡ are_in_and_out one other }
{
    match one {
        Kind::Consumer => other == Kind::Producer,
        Kind::Producer => other == Kind::Consumer,
        _ => false,
    }
}

// Whether a field names the object of this serial.
fn is_at(field: Option<Serial>, serial: Serial) -> bool
    ensures { result ≡ is_at field serial }
{
    match field {
        Some(named) => named == serial,
        None => false,
    }
}
