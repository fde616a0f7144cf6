use crate::batch::Batch;
use crate::readers::{Handed, LinkSocket, read_link};
use crossbeam_channel::{Receiver, Sender};
use std::alloc::{AllocError, Global};
use std::collections::BTreeMap;
use std::sync::Wait;
use std::thread;
use std::thread::{JoinHandle, Threads};

/// What a keeper is told.
#[derive(Drop)]
pub(crate) enum Order {
    /// Start a thread for a link, and answer whether it was started.
    Open { link: u32, of: LinkSocket },
    /// The thread of this number is about to return.
    Ended { number: u64 },
    /// No more links come.
    Close,
}

/// The channels of a keeper.
#[derive(Drop)]
pub(crate) struct KeeperEnds {
    pub(crate) orders: Receiver<Order>,
    // What the threads of the links tell it by.
    pub(crate) tell: Sender<Order>,
    pub(crate) answers: Sender<bool>,
    pub(crate) free: Receiver<Batch>,
    pub(crate) to: Sender<Handed>,
}

/// The threads by number: `None` while one is being started.
type Readers = BTreeMap<u64, Option<JoinHandle<()>>>;

/// The thread that starts a thread for each link, and joins each that has ended. It waits for none but one that is
/// about to return.
pub(crate) fn keep<R: Threads + Wait + Copy + Send + 'static>(
    rt: &R,
    alloc: Global,
    ends: &KeeperEnds,
) {
    let mut readers: Readers = BTreeMap::new(alloc);
    let mut number = 0u64;
    let mut is_closing = false;
    for _ in rt.forever() {
        if is_closing && readers.is_empty() {
            return;
        }
        match ends.orders.recv(rt) {
            Ok(Order::Open { link, of }) => {
                number = number.wrapping_add(1);
                let is_started = start(rt, ends, number, link, of, &mut readers).is_ok();
                let _ = ends.answers.send(rt, is_started);
            }
            Ok(Order::Ended { number }) => join(rt, number, &mut readers),
            Ok(Order::Close) => is_closing = true,
            Err(_) => return,
        }
    }
}

// Starts the thread of a link.
fn start<R: Threads + Wait + Copy + Send + 'static>(
    rt: &R,
    ends: &KeeperEnds,
    number: u64,
    link: u32,
    of: LinkSocket,
    readers: &mut Readers,
) -> Result<(), AllocError> {
    let rt = *rt;
    let tell = ends.tell.clone()?;
    let free = ends.free.clone()?;
    let to = ends.to.clone()?;
    let _ = readers.insert(number, None)?;
    let started = thread::spawn(&rt, move || {
        read_link(&rt, link, &of, &free, &to);
        drop((of, free, to));
        let _ = tell.send(&rt, Order::Ended { number });
    });
    match started {
        Ok(reader) => {
            if let Some(place) = readers.get_mut(&number) {
                *place = Some(reader);
            }
            Ok(())
        }
        Err(_) => {
            let _ = readers.remove(&number);
            Err(AllocError)
        }
    }
}

fn join<R: Threads>(rt: &R, number: u64, readers: &mut Readers) {
    if let Some(Some(reader)) = readers.remove(&number) {
        reader.join(rt);
    }
}
