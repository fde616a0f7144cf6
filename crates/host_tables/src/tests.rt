use crate::{Phase, Shown, Slot, Slots, Tables};
use host_model::Due;
use ms_base::{Bytes, CallKey, Event, Id, Kind, Name, Outcome, Reason, Serial, Verdict, WorkerKey};
use object_tree::{Mark, Object};
use pending_calls::Owner;
use request_build::Keep;
use std::alloc::Global;
use std::test::Fail;

const FIRST: WorkerKey = WorkerKey {
    slot: 1,
    generation: 1,
};

const WORKER: Serial = Serial(1);

const CALL: CallKey = CallKey { lane: 2, place: 1 };

// The Worker `w`.
fn worker(alloc: Global) -> Result<Object, Fail> {
    Ok(Object {
        serial: WORKER,
        name: Name::read(alloc, b"w")?,
        id: Id([0; 16]),
        kind: Kind::Worker,
        parent: None,
        worker: WORKER,
        producer: None,
        closed: None,
        paused: false,
        producer_paused: false,
        running: false,
        far: None,
    })
}

fn open(alloc: Global, tables: &mut Tables) -> Result<(), Fail> {
    tables.open(worker(alloc)?, Keep::Nothing)?;
    Ok(())
}

// Lane 1 waits for `w` to open.
fn awaiting(alloc: Global) -> Result<Tables, Fail> {
    let name = Name::read(alloc, b"w")?;
    let mut tables = Tables::new(alloc, 7);
    tables.add_await(1, &name, Event::Opened, 1)?;
    Ok(tables)
}

// What the await of lane 1 has come to.
fn awaited(tables: &mut Tables) -> Result<Option<Verdict>, Fail> {
    tables.settle_awaits()?;
    Ok(tables.notes.verdict(CallKey { lane: 1, place: 1 }))
}

#[test]
fn an_await_is_done_by_its_note(rt: HostRuntime) -> Result<(), Fail> {
    let mut tables = awaiting(rt.alloc())?;
    assert_eq!(rt; awaited(&mut tables)?, None);
    open(rt.alloc(), &mut tables)?;
    assert_eq!(rt; awaited(&mut tables)?, Some(Verdict::Done));
    Ok(())
}

// The call that was to make `w` is refused.
fn refuse(alloc: Global, tables: &mut Tables) -> Result<(), Fail> {
    let name = Name::read(alloc, b"w")?;
    tables.settle_call(CALL, Outcome::TooBig, Some(&name))?;
    Ok(())
}

#[test]
fn an_await_is_missed_where_its_call_was_refused(rt: HostRuntime) -> Result<(), Fail> {
    let mut tables = awaiting(rt.alloc())?;
    refuse(rt.alloc(), &mut tables)?;
    assert_eq!(rt; awaited(&mut tables)?, Some(Verdict::Missed));
    Ok(())
}

// A request with the id 1 that is to open `w`.
fn asking(alloc: Global) -> Result<Tables, Fail> {
    let due = Due::Opens {
        object: worker(alloc)?,
        keeps: Keep::Nothing,
    };
    let mut tables = Tables::new(alloc, 7);
    tables.issue(FIRST, Owner::Call(CALL), WORKER, due, Bytes::new(alloc))?;
    Ok(tables)
}

// Whether the request of an id was there to be taken.
fn take(tables: &mut Tables, id: u32) -> Result<bool, Fail> {
    Ok(tables.take_request(FIRST, id)?.is_some())
}

#[test]
fn a_request_is_taken_once_by_its_id(rt: HostRuntime) -> Result<(), Fail> {
    let mut tables = asking(rt.alloc())?;
    assert_eq!(rt; take(&mut tables, 2)?, false);
    assert_eq!(rt; take(&mut tables, 1)?, true);
    assert_eq!(rt; take(&mut tables, 1)?, false);
    Ok(())
}

// Whether a call that waits for the start of `w` was there to be taken.
fn start(tables: &mut Tables) -> Result<bool, Fail> {
    tables.add_start(CALL, WORKER)?;
    tables.start(FIRST)?;
    Ok(tables.take_start(WORKER)?.is_some())
}

#[test]
fn a_start_is_taken(rt: HostRuntime) -> Result<(), Fail> {
    let mut tables = Tables::new(rt.alloc(), 7);
    assert_eq!(rt; start(&mut tables)?, true);
    Ok(())
}

// How many notes there are once `w` was paused and has closed.
fn turn_and_close(tables: &mut Tables) -> Result<usize, Fail> {
    tables.turn(WORKER, Mark::Paused(true))?;
    tables.close_objects(&[WORKER], &[WORKER], Reason::Close)?;
    Ok(tables.notes.len())
}

#[test]
fn an_object_opens_pauses_and_closes(rt: HostRuntime) -> Result<(), Fail> {
    let mut tables = Tables::new(rt.alloc(), 7);
    open(rt.alloc(), &mut tables)?;
    assert_eq!(rt; turn_and_close(&mut tables)?, 3);
    Ok(())
}

// One slot, whose first worker is wanted.
fn one_slot(alloc: Global) -> Result<Slots, Fail> {
    let mut slots = Slots::new(alloc);
    slots.add(Slot {
        key: FIRST,
        name: Name::read(alloc, b"w")?,
        budget: 0,
        used: 0,
        phase: Phase::Wanted,
        worker: WORKER,
    })?;
    Ok(slots)
}

#[test]
fn a_slot_is_shown_as_it_was_until_it_is_shown_anew(rt: HostRuntime) -> Result<(), Fail> {
    let mut slots = one_slot(rt.alloc())?;
    slots.show();
    slots.start(FIRST);
    let key = FIRST;
    assert_eq!(rt;
        slots.shown_at(0),
        Some(Shown {
            key,
            phase: Phase::Wanted
        })
    );
    slots.show();
    assert_eq!(rt;
        slots.shown_at(0),
        Some(Shown {
            key,
            phase: Phase::Up
        })
    );
    Ok(())
}
