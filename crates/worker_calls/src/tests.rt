use crate::{Act, Place, Worker};
use channel_msgs::{Ids, Request};
use ms_base::{Id, NoMemory, Text};
use std::alloc::Global;
use std::test::Fail;

fn id(number: u8) -> Id {
    Id([number; 16])
}

// A request of this method for the Router 1 and the transport 2, without a content.
fn request(alloc: Global, method: &str) -> Result<Request, NoMemory> {
    Ok(Request {
        id: 7,
        method: Text::from_str(alloc, method)?,
        ids: Ids {
            router: Some(id(1)),
            transport: Some(id(2)),
            producer: None,
            consumer: None,
        },
        content: None,
    })
}

// How many acts a request comes to.
fn acts_by(alloc: Global, worker: &mut Worker, method: &str) -> Result<usize, Fail> {
    let mut acts: Vec<Act> = Vec::new(alloc);
    worker.on_request(&request(alloc, method)?, &mut acts)?;
    Ok(acts.len())
}

// How many acts a port comes to.
fn acts_by_port(alloc: Global, worker: &mut Worker) -> Result<usize, Fail> {
    let mut acts: Vec<Act> = Vec::new(alloc);
    worker.on_bound(Some(40_000), &mut acts)?;
    Ok(acts.len())
}

#[test]
fn a_request_has_its_reply(rt: HostRuntime) -> Result<(), Fail> {
    let mut worker = Worker::new(rt.alloc());
    assert_eq!(rt; acts_by(rt.alloc(), &mut worker, "worker.createRouter")?, 1);
    assert!(rt; worker.router(id(1)).is_some());
    Ok(())
}

#[test]
fn nothing_is_found_in_an_idle_worker(rt: HostRuntime) -> Result<(), Fail> {
    let mut worker = Worker::new(rt.alloc());
    assert_eq!(rt; acts_by_port(rt.alloc(), &mut worker)?, 0);
    assert_eq!(rt; (worker.is_waiting(), worker.place_of(1)), (None, None));
    let place = Place {
        router: id(1),
        transport: id(2),
    };
    assert_eq!(rt;
        (worker.link_of(place), worker.direct_of(id(3))),
        (None, None)
    );
    Ok(())
}
