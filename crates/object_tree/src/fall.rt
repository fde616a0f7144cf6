ghost use Rattle.std.specs.Prelude.{◌≡◌, ◌<◌, ℕ, [], List, Some, true, false, length, map, OnOk, IfOk, ◌&&◌, ◌==◌};
ghost use Rattle.std.specs.BTreeSet as set;
ghost use Rattle.std.specs.List.{list_any};
ghost use Rattle.std.specs.Map.{values_of};
ghost use Rattle.std.specs.Ordering.{nat_cmp};
ghost use Rattle.object_tree.specs.Falls.{falls, falls_with, is_among, is_at, is_open_root, leads};
ghost use Rattle.object_tree.specs.Objects.{AreInOrder, has_serial, is_open};
ghost use Rattle.object_tree.specs.Spread.{AreFound, Grows, Inserts, Reaches, Spreads, at, is_led, leads_from};
ghost use Rattle.object_tree.specs.Tables.{AreKeyed, is_listed, is_listed_end};

use crate::children::Children;
use crate::ends::Ends;
use crate::links::leads;
use crate::object::Object;
use crate::stored::{Objects, object_at};
use ms_base::{NoMemory, Serial};
use std::alloc::Global;
use std::collections::BTreeSet;
use std::mem;

/// The objects that fall, as far as they are known.
#[derive(Debug, Drop)]
pub(crate) struct Fall {
    serials: BTreeSet<u32>,
    /// Those from which the fall has not spread yet.
    latest: Vec<u32>,
}

impl Fall {
    fn new(alloc: Global) -> Fall
        ensures none { result.serials.keys ≡ [] }
        ensures latest { result.latest.items ≡ [] }
    {
        Fall {
            serials: BTreeSet::new(alloc),
            latest: Vec::new(alloc),
        }
    }

    // Adds an object, if it isn't known yet.
    fn insert(&mut self, serial: u32) -> Result<(), NoMemory>
        ensures { OnOk result (Inserts serial self.old self.new) }
    {
        if !self.serials.insert(serial)? {
            return Ok(());
        }
        self.latest.push(serial)?;
        Ok(())
    }
}

// Whether an object is open.
fn is_open(object: &Object) -> bool
    ensures { result ≡ is_open object.now }
{
    object.closed.is_none()
}

// Whether an object is open and a link leads to it from another.
fn is_led_by(from: &Object, object: &Object) -> bool
    ensures { result ≡ (is_open object.now && leads from.now object.now) }
{
    is_open(object) && leads(from, object)
}

// Adds the object of a serial, if it is open.
fn add_root(objects: &Objects, serial: Serial, fall: &mut Fall) -> Result<(), NoMemory>
    requires { AreKeyed objects.now.entries }
    ensures { OnOk result (Grows (at objects.now) (λ y. is_open y && has_serial serial y) fall.old fall.new) }
{
    let Some(object) = object_at(objects, serial.0) else {
        return Ok(());
    };
    if is_open(object) {
        fall.insert(serial.0)
    } else {
        Ok(())
    }
}

// Adds the open objects of these serials.
fn add_roots(objects: &Objects, roots: &[Serial], fall: &mut Fall) -> Result<(), NoMemory>
    requires { AreKeyed objects.now.entries }
    ensures { OnOk result (Grows (at objects.now) (is_open_root roots.now) fall.old fall.new) }
{
    for root in roots {
        add_root(objects, *root, fall)?;
    }
    Ok(())
}

// Adds the object of a serial, if it is open and a link leads to it from another.
fn add_led(objects: &Objects, from: &Object, serial: u32, fall: &mut Fall) -> Result<(), NoMemory>
    requires { AreKeyed objects.now.entries }
    ensures { OnOk result (Grows (at objects.now) (λ y. is_open y && leads from.now y && (y.serial.0 == serial)) fall.old fall.new) }
{
    let Some(object) = object_at(objects, serial) else {
        return Ok(());
    };
    if is_led_by(from, object) {
        fall.insert(serial)
    } else {
        Ok(())
    }
}

// Adds those of these serials that are led to.
fn add_listed(
    objects: &Objects,
    from: &Object,
    serials: &[u32],
    fall: &mut Fall,
) -> Result<(), NoMemory>
    requires { AreKeyed objects.now.entries }
    ensures { OnOk result (Grows (at objects.now) (λ y. is_open y && leads from.now y && is_listed serials.now y.serial.0) fall.old fall.new) }
{
    for serial in serials {
        add_led(objects, from, *serial, fall)?;
    }
    Ok(())
}

// Adds those of these pairs that are led to.
fn add_ends(
    objects: &Objects,
    from: &Object,
    pairs: &[(u32, u32)],
    fall: &mut Fall,
) -> Result<(), NoMemory>
    requires { AreKeyed objects.now.entries }
    ensures { OnOk result (Grows (at objects.now) (λ y. is_open y && leads from.now y && is_listed_end pairs.now y.serial.0) fall.old fall.new) }
{
    for pair in pairs {
        add_led(objects, from, pair.1, fall)?;
    }
    Ok(())
}

// Adds the far end of an object, if it is led to.
fn add_far(objects: &Objects, from: &Object, fall: &mut Fall) -> Result<(), NoMemory>
    requires { AreKeyed objects.now.entries }
    ensures { OnOk result (Grows (at objects.now) (λ y. is_open y && leads from.now y && is_at from.now.far y.serial) fall.old fall.new) }
{
    match from.far {
        Some(far) => add_led(objects, from, far.0, fall),
        None => Ok(()),
    }
}

// Adds all to which a link leads from an object.
fn spread_from(
    objects: &Objects,
    children: &Children,
    ends: &Ends,
    from: &Object,
    fall: &mut Fall,
) -> Result<(), NoMemory>
    requires keyed { AreKeyed objects.now.entries }
    requires found { AreFound (at objects.now) children.now ends.now }
    ensures { OnOk result (Grows (at objects.now) (λ y. is_open y && leads from.now y) fall.old fall.new) }
{
    add_listed(objects, from, children.of(from.serial.0), fall)?;
    add_far(objects, from, fall)?;
    add_ends(objects, from, ends.of(from.serial.0), fall)
}

// Adds all to which a link leads from the object of a serial, if there is one.
fn spread_one(
    objects: &Objects,
    children: &Children,
    ends: &Ends,
    serial: u32,
    fall: &mut Fall,
) -> Result<(), NoMemory>
    requires keyed { AreKeyed objects.now.entries }
    requires found { AreFound (at objects.now) children.now ends.now }
    ensures { OnOk result (Grows (at objects.now) (λ y. is_open y && leads_from (at objects.now serial) y) fall.old fall.new) }
{
    match object_at(objects, serial) {
        Some(object) => spread_from(objects, children, ends, object, fall),
        None => Ok(()),
    }
}

// Adds all to which a link leads from one of these.
fn spread(
    objects: &Objects,
    children: &Children,
    ends: &Ends,
    serials: &[u32],
    fall: &mut Fall,
) -> Result<(), NoMemory>
    requires keyed { AreKeyed objects.now.entries }
    requires found { AreFound (at objects.now) children.now ends.now }
    ensures { OnOk result (Grows (at objects.now) (is_led (at objects.now) serials.now) fall.old fall.new) }
{
    for serial in serials {
        spread_one(objects, children, ends, *serial, fall)?;
    }
    Ok(())
}

// Adds all to which a link leads from those that were new before, and keeps as such those that are new now.
fn spread_round(
    alloc: Global,
    objects: &Objects,
    children: &Children,
    ends: &Ends,
    fall: &mut Fall,
) -> Result<(), NoMemory>
    requires keyed { AreKeyed objects.now.entries }
    requires found { AreFound (at objects.now) children.now ends.now }
    ensures { OnOk result (Spreads (at objects.now) fall.old fall.new) }
{
    let latest = mem::replace(&mut fall.latest, Vec::new(alloc));
    spread(objects, children, ends, latest.as_slice(), fall)
}

// Lets a fall spread from its roots until nothing is new. No chain without a repetition has more links than there are
// objects.
fn reach(
    alloc: Global,
    objects: &Objects,
    children: &Children,
    ends: &Ends,
    roots: &[Serial],
) -> Result<Fall, NoMemory>
    requires keyed { AreKeyed objects.now.entries }
    requires found { AreFound (at objects.now) children.now ends.now }
    requires in_order { AreInOrder (values_of objects.now.entries) }
    ensures { IfOk result (Reaches (at objects.now) (falls_with (values_of objects.now.entries) roots.now)) }
{
    let mut fall = Fall::new(alloc);
    add_roots(objects, roots, &mut fall)?;
    for _round in 0..objects.len() {
        if fall.latest.is_empty() {
            return Ok(fall);
        }
        spread_round(alloc, objects, children, ends, &mut fall)?;
    }
    Ok(fall)
}

// The serials in ascending order.
fn ascending(alloc: Global, serials: &BTreeSet<u32>) -> Result<Vec<Serial>, NoMemory>
    ensures items { IfOk result (λ list. list.items ≡ map (λ n. record { 0 = n }) serials.now.keys) }
    ensures ordered { set.IsOrdered nat_cmp serials.now }
{
    let list = serials.iter().map(|n| Serial(*n)).collect(alloc)?;
    Ok(list)
}

/// The serials of the objects that fall with the roots, in ascending order.
pub(crate) fn fallen(
    alloc: Global,
    objects: &Objects,
    children: &Children,
    ends: &Ends,
    roots: &[Serial],
) -> Result<Vec<Serial>, NoMemory>
    requires keyed { AreKeyed objects.now.entries }
    requires found { AreFound (at objects.now) children.now ends.now }
    requires in_order { AreInOrder (values_of objects.now.entries) }
    ensures { IfOk result (λ fallen. fallen.items ≡ falls (values_of objects.now.entries) roots.now) }
{
    let fall = reach(alloc, objects, children, ends, roots)?;
    ascending(alloc, &fall.serials)
}
