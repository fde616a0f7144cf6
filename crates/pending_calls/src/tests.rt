use crate::{IssueFault, Owner, Pending, Waiting};
use ms_base::{CallKey, NoMemory, Serial};
use std::alloc::Global;
use std::test::Fail;

#[test]
fn the_last_id_is_used_once(rt: HostRuntime) {
    let mut pending = Pending::after(rt.alloc(), 4294967294);
    let first = pending.issue(Owner::Close, Serial(1));
    let second = pending.issue(Owner::Close, Serial(1));
    assert_eq!(rt;
        (first, second),
        (Ok(4294967295), Err(IssueFault::IdsSpent))
    );
    assert_eq!(rt; (pending.last(), pending.of_worker()), (4294967295, 1));
}

/// Requests 1 to 4, under the objects 5, 7, 5 and 8.
fn four(alloc: Global) -> Result<Pending, IssueFault> {
    let mut pending = Pending::new(alloc);
    let call = CallKey { lane: 1, place: 2 };
    pending.issue(Owner::Call(call), Serial(5))?;
    pending.issue(Owner::Job { call, part: 1 }, Serial(7))?;
    pending.issue(Owner::Close, Serial(5))?;
    pending.issue(Owner::Follow, Serial(8))?;
    Ok(pending)
}

fn closed(pending: &mut Pending, fallen: &[Serial]) -> Result<Vec<Waiting>, NoMemory> {
    pending.close_under(fallen)
}

#[test]
fn requests_settle_once(rt: HostRuntime) -> Result<(), Fail> {
    let mut pending = four(rt.alloc())?;
    let call = CallKey { lane: 1, place: 2 };
    let second = Waiting {
        id: 2,
        owner: Owner::Job { call, part: 1 },
        under: Serial(7),
    };
    assert_eq!(rt; pending.settle(2), Some(second));
    assert_eq!(rt; (pending.settle(2), pending.settle(9)), (None, None));
    assert_eq!(rt; (pending.last(), pending.of_worker()), (4, 3));
    Ok(())
}

#[test]
fn requests_under_the_fallen_are_taken(rt: HostRuntime) -> Result<(), Fail> {
    let mut pending = four(rt.alloc())?;
    let taken = closed(&mut pending, &[Serial(8), Serial(5), Serial(5)])?;
    let ids = (
        taken.get(0).map(|w| w.id),
        taken.get(1).map(|w| w.id),
        taken.get(2).map(|w| w.id),
        taken.len(),
    );
    assert_eq!(rt; ids, (Some(1), Some(3), Some(4), 3));
    assert_eq!(rt; (pending.settle(3), pending.of_worker()), (None, 1));
    Ok(())
}

#[test]
fn what_has_settled_is_not_taken(rt: HostRuntime) -> Result<(), Fail> {
    let mut pending = four(rt.alloc())?;
    let settled = pending.settle(1).map(|w| w.under);
    let taken = closed(&mut pending, &[Serial(5)])?;
    let ids = (taken.get(0).map(|w| w.id), taken.len());
    assert_eq!(rt; (settled, ids), (Some(Serial(5)), (Some(3), 1)));
    assert_eq!(rt; (pending.last(), pending.of_worker()), (4, 2));
    Ok(())
}
