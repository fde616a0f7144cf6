use crate::{Request, Requests};
use ms_base::{CallKey, Serial, WorkerKey};
use pending_calls::Owner;
use std::alloc::Global;
use std::test::Fail;

const FIRST: WorkerKey = WorkerKey {
    slot: 1,
    generation: 1,
};

const SECOND: WorkerKey = WorkerKey {
    slot: 2,
    generation: 3,
};

/// In order of issue: 1 of the second channel, 1 of the first, a start of Worker 9, 2 of the first, 2 of the second.
fn five(alloc: Global) -> Result<Requests<u8>, Fail> {
    let call = CallKey { lane: 1, place: 1 };
    let mut requests = Requests::new(alloc);
    requests.issue(SECOND, Owner::Call(call), Serial(5), 1)?;
    requests.issue(FIRST, Owner::Close, Serial(5), 2)?;
    requests.add_start(call, Serial(9), 3)?;
    requests.issue(FIRST, Owner::Follow, Serial(7), 4)?;
    requests.issue(SECOND, Owner::Close, Serial(5), 5)?;
    Ok(requests)
}

fn due(taken: Option<Request<u8>>) -> Option<u8> {
    taken.map(|request| request.due)
}

/// Settles these ids of these channels, and tells what was kept for them.
fn settled(requests: &mut Requests<u8>, first: u32, second: u32) -> (Option<u8>, Option<u8>) {
    let first = due(requests.settle(FIRST, first));
    let second = due(requests.settle(SECOND, second));
    (first, second)
}

#[test]
fn a_response_settles_its_own_request(rt: HostRuntime) -> Result<(), Fail> {
    let mut requests = five(rt.alloc())?;
    assert_eq!(rt; settled(&mut requests, 2, 1), (Some(4), Some(1)));
    assert_eq!(rt; settled(&mut requests, 2, 3), (None, None));
    assert_eq!(rt; settled(&mut requests, 1, 2), (Some(2), Some(5)));
    assert_eq!(rt; (requests.last(FIRST), requests.last(SECOND)), (2, 2));
    Ok(())
}

fn started(requests: &mut Requests<u8>, worker: u32) -> Option<u8> {
    due(requests.settle_start(Serial(worker)))
}

#[test]
fn a_start_settles_once(rt: HostRuntime) -> Result<(), Fail> {
    let mut requests = five(rt.alloc())?;
    assert_eq!(rt; started(&mut requests, 5), None);
    assert_eq!(rt; started(&mut requests, 9), Some(3));
    assert_eq!(rt; started(&mut requests, 9), None);
    Ok(())
}

fn closed(alloc: Global, requests: &mut Requests<u8>, fallen: &[Serial]) -> Result<Vec<u8>, Fail> {
    let taken = requests.close_under(fallen)?;
    let dues = taken.iter().map(|request| request.due).collect(alloc)?;
    Ok(dues)
}

#[test]
fn a_fall_takes_all_channels_in_order_of_issue(rt: HostRuntime) -> Result<(), Fail> {
    let mut requests = five(rt.alloc())?;
    let dues = closed(
        rt.alloc(),
        &mut requests,
        &[Serial(9), Serial(5), Serial(5)],
    )?;
    assert_eq!(rt; dues.as_slice(), [1, 2, 3, 5].as_slice());
    assert_eq!(rt; settled(&mut requests, 2, 1), (Some(4), None));
    Ok(())
}
