ghost use Rattle.std.specs.Prelude.{◌≡◌, ◌≤◌, length, IfOk, IfSome};
ghost use Rattle.ms_devices.specs.Causes.{HasCause};
ghost use Rattle.ms_devices.specs.Outside.{IsFit};

use crate::batch::Batch;
use crate::block::Block;
use crate::readers::Handed;
use crossbeam_channel::{Receiver, Sender};
use ms_devices::{EVENT_BYTES, Failed, InEvent, Inbox};
use std::marker::Model;
use std::mem;
use std::sync::Wait;

// What was handed on last.
#[derive(Drop)]
enum Now {
    Nothing,
    Channel(Block),
    Datagrams(Batch),
    End,
    Fault,
}

// What the reading threads hand on, and the buffers that go back to them.
#[derive(Drop)]
struct Queue<R> {
    rt: R,
    // The blocks that the thread of the channel waits for before it reads. They go with the first call.
    kept: Vec<Block>,
    from: Receiver<Handed>,
    blocks: Sender<Block>,
    batches: Sender<Batch>,
    now: Now,
}

/// What a worker is given: the bytes of a stream, and the datagrams of its links. It is the one place where a worker
/// waits, and tells nothing of what it gives. The stream isn't read before the first call. Behind its end or a fault
/// the same comes again.
///
/// Contracts see it as its count of faults.
#[derive(Drop)]
pub struct RealInbox<R> {
    queue: Queue<R>,
    // How many calls have failed. It stands still at its type's end.
    faults: u64,
}

impl<R> Model for RealInbox<R> {
    ghost use Rattle.std.specs.Prelude.{ℕ};

    ghost Value = { ℕ };

    ghost view = { λ inbox. inbox.faults };
}

impl<R> RealInbox<R> {
    // Nothing was handed on yet.
    pub(crate) fn new(
        rt: R,
        kept: Vec<Block>,
        from: Receiver<Handed>,
        blocks: Sender<Block>,
        batches: Sender<Batch>,
    ) -> RealInbox<R>
        ensures { result ≡ 0 }
    {
        RealInbox {
            queue: Queue {
                rt,
                kept,
                from,
                blocks,
                batches,
                now: Now::Nothing,
            },
            faults: 0,
        }
    }

    // Whether the thread of the channel reads no more, or hasn't begun to: it ends then where the inbox is gone.
    pub(crate) fn is_reader_done(&self) -> bool {
        !self.queue.kept.is_empty() || matches!(&self.queue.now, Now::End | Now::Fault)
    }
}

impl<R: Wait + Copy> Queue<R> {
    // Lets the thread of the channel read.
    fn begin(&mut self) {
        for _ in 0..self.kept.len() {
            if let Some(block) = self.kept.pop() {
                let _ = self.blocks.send(&self.rt, block);
            }
        }
    }

    // The next event of what was handed on last. `None`: none is left.
    fn rest(&mut self, into: &mut [u8]) -> Option<Result<InEvent, Failed>>
        requires { EVENT_BYTES ≤ length into.old }
        ensures fits { IfSome result (λ answer. IfOk answer IsFit) }
        ensures len { length into.new ≡ length into.old }
    {
        match &mut self.now {
            Now::Nothing => None,
            Now::Channel(block) => {
                let len = block.next(into)?;
                Some(Ok(InEvent::Channel { len }))
            }
            Now::Datagrams(batch) => {
                let datagram = batch.next(into)?;
                Some(Ok(InEvent::Datagram {
                    link: datagram.link,
                    from: datagram.from,
                    len: datagram.len,
                }))
            }
            Now::End => Some(Ok(InEvent::End)),
            Now::Fault => Some(Err(Failed)),
        }
    }

    // Gives the buffer back, and waits for what is handed on next.
    fn turn(&mut self) {
        match mem::replace(&mut self.now, Now::Nothing) {
            Now::Nothing | Now::End | Now::Fault => {}
            Now::Channel(block) => {
                let _ = self.blocks.send(&self.rt, block);
            }
            Now::Datagrams(batch) => {
                let _ = self.batches.send(&self.rt, batch);
            }
        }
        self.now = match self.from.recv(&self.rt) {
            Ok(Handed::Channel(block)) => Now::Channel(block),
            Ok(Handed::Datagrams(batch)) => Now::Datagrams(batch),
            Ok(Handed::End) => Now::End,
            Ok(Handed::Fault) | Err(_) => Now::Fault,
        };
    }

    fn next(&mut self, into: &mut [u8]) -> Result<InEvent, Failed>
        requires { EVENT_BYTES ≤ length into.old }
        ensures { IfOk result IsFit }
    {
        self.begin();
        let rt = self.rt;
        for _ in rt.forever() {
            if let Some(answer) = self.rest(into) {
                return answer;
            }
            self.turn();
        }
        unreachable!()
    }
}

impl<R: Wait + Copy> Inbox for RealInbox<R> {
    ghost use Rattle.std.specs.Prelude.{None};

    ghost given = { λ _. None };

    ghost faults = { λ inbox. inbox };

    fn next(&mut self, into: &mut [u8]) -> Result<InEvent, Failed> {
        let answer = self.queue.next(into);
        if answer.is_err() {
            self.faults = self.faults.saturating_add(1);
        }
        answer
    }
}
