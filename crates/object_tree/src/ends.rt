ghost use Rattle.std.specs.Prelude.{◌≡◌, ℕ, ◌<◌, ◌≤◌, [], length, true, false, OnOk, IsOk, IfSome, IsSome, ◌==◌, slice_index_or, vec_len, vec_capacity};
ghost use Rattle.std.specs.List.{position};
ghost use Rattle.object_tree.specs.Tables.{AreOrdered, IsEndPlace, IsStartPlace, has_end, is_end, is_listed_end};

use ms_base::NoMemory;
use std::alloc::Global;
use std::marker::Model;

/// Serials, each at another or at its own. Contracts see a list of pairs, of which the first says where the second
/// stands.
#[derive(Debug, Drop)]
pub(crate) struct Ends {
    /// In ascending order of the first.
    pairs: Vec<(u32, u32)>,
}

impl Model for Ends {
    ghost use Rattle.std.specs.Prelude.{ℕ, List};
    ghost use Rattle.object_tree.specs.Tables.{AreOrdered};

    ghost Value = { List (ℕ × ℕ) };

    ghost view = { λ e. e.pairs.items };

    ghost invariant = { λ e. AreOrdered e.pairs.items };
}

impl Ends {
    pub(crate) fn new(alloc: Global) -> Ends
        ensures { result ≡ [] }
    {
        Ends {
            pairs: Vec::new(alloc),
        }
    }

    /// A part of the pairs that has all that stand at a serial.
    pub(crate) fn of(&self, at: u32) -> &[(u32, u32)]
        ensures { (serial : ℕ) → has_end self.now at serial ≡ true → is_listed_end result.now serial ≡ true }
    {
        all_at(self.pairs.as_slice(), at)
    }

    /// Adds a serial at another.
    pub(crate) fn add(&mut self, at: u32, serial: u32) -> Result<(), NoMemory>
        ensures here { OnOk result (has_end self.new at serial ≡ true) }
        ensures stay { (a s : ℕ) → has_end self.old a s ≡ true → has_end self.new a s ≡ true }
    {
        insert(&mut self.pairs, at, serial)
    }

    /// Takes a serial from where it stands to another place. It takes no memory.
    pub(crate) fn turn(&mut self, from: u32, serial: u32, to: u32)
        requires { has_end self.old from serial ≡ true }
        ensures here { has_end self.new to serial ≡ true }
        ensures stay { (a s : ℕ) → (serial == s) ≡ false → has_end self.old a s ≡ true → has_end self.new a s ≡ true }
    {
        take_out(&mut self.pairs, from, serial);
        match insert(&mut self.pairs, to, serial) {
            Ok(()) => {}
            Err(_) => unreachable!(),
        }
    }
}

// The place of the first that stands at this serial or a greater one.
fn start_of(pairs: &[(u32, u32)], at: u32) -> usize
    requires { AreOrdered pairs.now }
    ensures within { result ≤ length pairs.now }
    ensures point { IsStartPlace at pairs.now result }
{
    pairs.partition_point(|pair| pair.0 < at)
}

// The place of the first that stands at a greater serial.
fn end_of(pairs: &[(u32, u32)], at: u32) -> usize
    requires { AreOrdered pairs.now }
    ensures within { result ≤ length pairs.now }
    ensures point { IsEndPlace at pairs.now result }
{
    pairs.partition_point(|pair| pair.0 <= at)
}

// All that stand at a serial.
fn all_at(pairs: &[(u32, u32)], at: u32) -> &[(u32, u32)]
    requires { AreOrdered pairs.now }
    ensures { (serial : ℕ) → has_end pairs.now at serial ≡ true → is_listed_end result.now serial ≡ true }
{
    let start = start_of(pairs, at);
    let end = end_of(pairs, at);
    if start <= end {
        &pairs[start..end]
    } else {
        &[]
    }
}

// Adds a pair at its place. It fails only where there is no room.
fn insert(pairs: &mut Vec<(u32, u32)>, at: u32, serial: u32) -> Result<(), NoMemory>
    requires { AreOrdered pairs.old.items }
    ensures ordered { AreOrdered pairs.new.items }
    ensures here { OnOk result (has_end pairs.new.items at serial ≡ true) }
    ensures stay { (a s : ℕ) → has_end pairs.old.items a s ≡ true → has_end pairs.new.items a s ≡ true }
    ensures succeeds { vec_len pairs.old < vec_capacity pairs.old → IsOk result }
{
    let place = end_of(pairs.as_slice(), at);
    pairs.insert(place, (at, serial))?;
    Ok(())
}

// The place of a pair, where it is there.
fn place_of(pairs: &[(u32, u32)], at: u32, serial: u32) -> Option<usize>
    requires { AreOrdered pairs.now }
    ensures found { IfSome result (λ place. (place < length pairs.now) × (slice_index_or pairs.now place (at, serial) ≡ (at, serial))) }
    ensures some { has_end pairs.now at serial ≡ true → IsSome result }
{
    let start = start_of(pairs, at);
    let (_, rest) = pairs.split_at(start);
    let behind = first_of(rest, at, serial)?;
    Some(start + behind)
}

// The place of the first that is this pair.
fn first_of(pairs: &[(u32, u32)], at: u32, serial: u32) -> Option<usize>
    ensures { result ≡ position (is_end at serial) pairs.now }
{
    pairs
        .iter()
        .position(|pair| pair.0 == at && pair.1 == serial)
}

// Takes out a pair that is there, and leaves room for one.
fn take_out(pairs: &mut Vec<(u32, u32)>, at: u32, serial: u32)
    requires ordered { AreOrdered pairs.old.items }
    requires there { has_end pairs.old.items at serial ≡ true }
    ensures ordered { AreOrdered pairs.new.items }
    ensures room { vec_len pairs.new < vec_capacity pairs.new }
    ensures stay { (a s : ℕ) → (serial == s) ≡ false → has_end pairs.old.items a s ≡ true → has_end pairs.new.items a s ≡ true }
{
    if let Some(place) = place_of(pairs.as_slice(), at, serial) {
        pairs.remove(place);
    }
}
