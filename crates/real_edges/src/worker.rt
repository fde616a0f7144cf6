ghost use Rattle.std.specs.Prelude.{◌≡◌, IfOk};

use crate::batch::Batch;
use crate::block::Block;
use crate::inbox::RealInbox;
use crate::keeper::{KeeperEnds, keep};
use crate::links::Links;
use crate::outbox::RealOutbox;
use crate::readers::{Handed, read_channel};
use crossbeam_channel::{Receiver, Sender};
use ms_base::NoMemory;
use std::alloc::{AllocError, Global};
use std::io::Read;
use std::sync::Wait;
use std::thread;
use std::thread::{JoinHandle, Threads};

/// How many batches of datagrams go round, for all links together.
const BATCHES: usize = 4;

/// How many blocks of bytes of the channel go round.
const BLOCKS: usize = 2;

/// How many orders may wait for the keeper.
const ORDERS: usize = 16;

/// The outside of a worker, with the threads that read it.
#[derive(Drop)]
pub struct WorkerEdges<R, W> {
    pub inbox: RealInbox<R>,
    pub outbox: RealOutbox<R, W>,
    rt: R,
    reader: JoinHandle<()>,
    keeper: JoinHandle<()>,
}

/// Starts a thread that reads the channel's bytes from `input`, and one that will start a thread for each link that is
/// opened. Frames are written to `output`. Out of memory is answered as well where the system gives no thread.
pub fn open_worker<R, S, W>(
    rt: R,
    alloc: Global,
    input: S,
    output: W,
) -> Result<WorkerEdges<R, W>, NoMemory>
where
    R: Threads + Wait + Copy + Send + 'static,
    S: Read + Send + Drop + 'static,
    W: Drop,
    ensures inbox { IfOk result (λ edges. edges.inbox ≡ 0) }
    ensures outbox { IfOk result (λ edges. edges.outbox ≡ record { channel = output; channel_faults = 0; link_faults = 0 }) }
{
    // Room for all buffers and the end: no reading thread waits until it can hand on.
    let (to, from) = crossbeam_channel::bounded(alloc, BATCHES + BLOCKS + 1)?;
    let (batches, free) = all_batches(&rt, alloc)?;
    let (blocks, free_blocks) = crossbeam_channel::bounded(alloc, BLOCKS)?;
    let inbox = RealInbox::new(rt, all_blocks(alloc)?, from, blocks, batches);
    let (links, ends) = links(rt, alloc, free, to.clone()?)?;
    let Ok(keeper) = thread::spawn(&rt, move || keep(&rt, alloc, &ends)) else {
        return Err(NoMemory);
    };
    let mut stream = input;
    let started = thread::spawn(&rt, move || {
        read_channel(&rt, &mut stream, &free_blocks, &to);
    });
    let outbox = RealOutbox::new(output, links);
    match started {
        Ok(reader) => Ok(WorkerEdges {
            inbox,
            outbox,
            rt,
            reader,
            keeper,
        }),
        Err(_) => {
            outbox.close();
            keeper.join(&rt);
            Err(NoMemory)
        }
    }
}

impl<R: Threads + Wait + Drop, W: Drop> WorkerEdges<R, W> {
    /// Ends the threads and waits for them, but for the one that reads the channel where it may be in a read still,
    /// which nothing ends.
    pub fn close(self) {
        let WorkerEdges {
            inbox,
            outbox,
            rt,
            reader,
            keeper,
        } = self;
        let is_reader_done = inbox.is_reader_done();
        // Then no thread waits for a buffer.
        drop(inbox);
        outbox.close();
        keeper.join(&rt);
        if is_reader_done {
            reader.join(&rt);
        }
    }
}

// All batches, in the channel that they go round by.
fn all_batches<R: Wait>(
    rt: &R,
    alloc: Global,
) -> Result<(Sender<Batch>, Receiver<Batch>), NoMemory> {
    let (batches, free) = crossbeam_channel::bounded(alloc, BATCHES)?;
    for _ in 0..BATCHES {
        let _ = batches.send(rt, Batch::new(alloc)?);
    }
    Ok((batches, free))
}

// All blocks.
fn all_blocks(alloc: Global) -> Result<Vec<Block>, NoMemory> {
    let mut blocks = Vec::new(alloc);
    for _ in 0..BLOCKS {
        blocks.push(Block::new(alloc)?)?;
    }
    Ok(blocks)
}

// What the outbox has of the links, and what their keeper has.
fn links<R: Copy>(
    rt: R,
    alloc: Global,
    free: Receiver<Batch>,
    to: Sender<Handed>,
) -> Result<(Links<R>, KeeperEnds), AllocError> {
    let (tell, orders) = crossbeam_channel::bounded(alloc, ORDERS)?;
    let (answer, answers) = crossbeam_channel::bounded(alloc, 1)?;
    let links = Links::new(rt, alloc, tell.clone()?, answers);
    let ends = KeeperEnds {
        orders,
        tell,
        answers: answer,
        free,
        to,
    };
    Ok((links, ends))
}
