//! The requests under some objects, found by the ids that are listed under each.

ghost use Rattle.std.specs.Prelude.{◌≡◌, ℕ, None, OnOk, IfOk};
ghost use Rattle.std.specs.BTreeMap.{get, values};
ghost use Rattle.std.specs.Ordering.{nat_cmp};
ghost use Rattle.pending_calls.specs.Pending.{all_under, is_under, none_under, same_serial};
ghost use Rattle.pending_calls.specs.Kept.{AreFound, passing_or, without_each};

use crate::waiting::Waiting;
use ms_base::{NoMemory, Serial};
use std::alloc::Global;
use std::collections::{BTreeMap, BTreeSet};

/// The requests that were issued under one of these objects, in order of issue. `listed` has the serial of each
/// request's object with the id of the request, and no id is above `last`. The cost is in proportion to the objects and
/// to what is listed under them, times a logarithm.
pub(crate) fn requests_under(
    alloc: Global,
    waiting: &BTreeMap<u32, Waiting>,
    listed: &BTreeSet<(u32, u32)>,
    last: u32,
    objects: &[Serial],
) -> Result<Vec<Waiting>, NoMemory>
    requires { AreFound waiting.now listed.now last }
    ensures taken { IfOk result (λ taken. taken.items ≡ all_under objects.now (values waiting.now)) }
    ensures rest { IfOk result (λ taken. without_each taken.items (values waiting.now) ≡ none_under objects.now (values waiting.now)) }
{
    let found = find_under(alloc, waiting, listed, last, objects)?;
    let taken = found.values().copied().collect(alloc)?;
    Ok(taken)
}

// The same by their ids.
fn find_under(
    alloc: Global,
    waiting: &BTreeMap<u32, Waiting>,
    listed: &BTreeSet<(u32, u32)>,
    last: u32,
    objects: &[Serial],
) -> Result<BTreeMap<u32, Waiting>, NoMemory>
    requires { AreFound waiting.now listed.now last }
    ensures { IfOk result (λ found. (id : ℕ) → get nat_cmp found id ≡ passing_or (is_under objects.now) (get nat_cmp waiting.now id) None) }
{
    let mut found = BTreeMap::new(alloc);
    for object in objects {
        add_under(waiting, listed, last, *object, &mut found)?;
    }
    Ok(found)
}

// Adds those under one object.
fn add_under(
    waiting: &BTreeMap<u32, Waiting>,
    listed: &BTreeSet<(u32, u32)>,
    last: u32,
    object: Serial,
    found: &mut BTreeMap<u32, Waiting>,
) -> Result<(), NoMemory>
    requires { AreFound waiting.now listed.now last }
    ensures { OnOk result ((id : ℕ) → get nat_cmp found.new id ≡ passing_or (λ w. same_serial object w.under) (get nat_cmp waiting.now id) (get nat_cmp found.old id)) }
{
    for pair in listed.range((object.0, 0)..=(object.0, last)) {
        if let Some(request) = request_under(waiting, pair.1, object) {
            found.insert(pair.1, request)?;
        }
    }
    Ok(())
}

// The request of an id, if it was issued under this object.
fn request_under(waiting: &BTreeMap<u32, Waiting>, id: u32, object: Serial) -> Option<Waiting>
    ensures { result ≡ passing_or (λ w. same_serial object w.under) (get nat_cmp waiting.now id) None }
{
    let request = waiting.get(&id)?;
    (object == request.under).then_some(*request)
}
