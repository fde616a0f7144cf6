use crate::keeper::Order;
use crate::readers::LinkSocket;
use crate::socket::{open_socket, send_datagram};
use crossbeam_channel::{Receiver, Sender};
use ms_base::Tuple;
use std::alloc::Global;
use std::collections::BTreeMap;
use std::io;
use std::io::ErrorKind;
use std::net::Net;
use std::sync::atomic::AtomicBool;
use std::sync::{Arc, Wait};

/// The links of a worker that are open.
#[derive(Drop)]
pub(crate) struct Links<R> {
    rt: R,
    alloc: Global,
    open: BTreeMap<u32, LinkSocket>,
    orders: Sender<Order>,
    answers: Receiver<bool>,
}

impl<R> Links<R> {
    /// No link is open yet.
    pub(crate) fn new(
        rt: R,
        alloc: Global,
        orders: Sender<Order>,
        answers: Receiver<bool>,
    ) -> Links<R> {
        Links {
            rt,
            alloc,
            open: BTreeMap::new(alloc),
            orders,
            answers,
        }
    }
}

impl<R: Wait + Net> Links<R> {
    /// Opens a link, and gives its port. One of the same number that was open is shut.
    pub(crate) fn bind(&mut self, link: u32, ip: [u8; 4]) -> io::Result<u16> {
        let socket = open_socket(&self.rt, ip)?;
        let port = socket.local_addr()?.port();
        let ours = LinkSocket {
            socket: Arc::new(self.alloc, socket)?,
            is_shut: Arc::new(self.alloc, AtomicBool::new(false))?,
        };
        let theirs = LinkSocket {
            socket: Arc::try_clone(&ours.socket)?,
            is_shut: Arc::try_clone(&ours.is_shut)?,
        };
        if !self.is_started(link, theirs) {
            return Err(io::Error::from(ErrorKind::OutOfMemory));
        }
        match self.open.insert(link, ours) {
            Ok(None) => Ok(port),
            Ok(Some(before)) => {
                before.shut();
                Ok(port)
            }
            Err(refused) => {
                refused.value.1.shut();
                Err(io::Error::from(ErrorKind::OutOfMemory))
            }
        }
    }

    // Has the keeper start the thread of a link, and says whether it did.
    fn is_started(&self, link: u32, of: LinkSocket) -> bool {
        let order = Order::Open { link, of };
        self.orders.send(&self.rt, order).is_ok() && self.answers.recv(&self.rt) == Ok(true)
    }

    /// Sends a datagram from a link. `false`: it is lost, or the link isn't open.
    pub(crate) fn datagram(&self, link: u32, to: Tuple, packet: &[u8]) -> bool {
        match self.open.get(&link) {
            Some(of) => send_datagram(&of.socket, to, packet),
            None => false,
        }
    }
}

impl<R: Wait> Links<R> {
    /// Shuts a link, if it is open.
    pub(crate) fn shut(&mut self, link: u32) {
        if let Some(of) = self.open.remove(&link) {
            of.shut();
        }
    }
}

impl<R: Wait + Drop> Links<R> {
    /// Shuts all links, and tells the keeper that no more come.
    pub(crate) fn close(self) {
        let Links {
            rt,
            alloc: _,
            open,
            orders,
            answers,
        } = self;
        for (_, of) in open {
            of.shut();
        }
        let _ = orders.send(&rt, Order::Close);
        drop((rt, answers));
    }
}
