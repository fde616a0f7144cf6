use crate::batch::Batch;
use crate::block::{Block, Filled};
use crate::socket::{end_waits, wait_ready};
use crossbeam_channel::{Receiver, Sender};
use std::alloc::Global;
use std::io::Read;
use std::net::UdpSocket;
use std::sync::atomic::{AtomicBool, Ordering};
use std::sync::{Arc, Wait};

/// What a reading thread hands on.
#[derive(Drop)]
pub(crate) enum Handed {
    Channel(Block),
    Datagrams(Batch),
    End,
    Fault,
}

/// The socket of a link, which its reading thread and the outbox share.
#[derive(Drop)]
pub(crate) struct LinkSocket {
    pub(crate) socket: Arc<UdpSocket, Global>,
    pub(crate) is_shut: Arc<AtomicBool, Global>,
}

impl LinkSocket {
    /// Has the thread of the link end, which lets go of the socket.
    pub(crate) fn shut(self) {
        self.is_shut.store(true, Ordering::SeqCst);
        end_waits(&self.socket);
    }
}

/// The thread of the channel: hands on what it reads, to its end or a fault. It reads where it finds a block.
pub(crate) fn read_channel<R: Wait, S: Read>(
    rt: &R,
    stream: &mut S,
    free: &Receiver<Block>,
    to: &Sender<Handed>,
) {
    for _ in rt.forever() {
        let Ok(mut block) = free.recv(rt) else {
            return;
        };
        let handed = match block.fill(stream) {
            Filled::Bytes => Handed::Channel(block),
            Filled::End => Handed::End,
            Filled::Fault => Handed::Fault,
        };
        let is_last = !matches!(&handed, Handed::Channel(_));
        if to.send(rt, handed).is_err() || is_last {
            return;
        }
    }
}

/// The thread of a link: hands on together what lies ready together, until the link is shut. It has no batch while it
/// waits, so a few serve all links.
pub(crate) fn read_link<R: Wait>(
    rt: &R,
    link: u32,
    of: &LinkSocket,
    free: &Receiver<Batch>,
    to: &Sender<Handed>,
) {
    for _ in rt.forever() {
        wait_ready(&of.socket);
        if of.is_shut.load(Ordering::SeqCst) {
            return;
        }
        let Ok(mut batch) = free.recv(rt) else {
            return;
        };
        batch.fill(link, &of.socket);
        // One with nothing in it goes too: the inbox gives it back.
        if to.send(rt, Handed::Datagrams(batch)).is_err() {
            return;
        }
    }
}
