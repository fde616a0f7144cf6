ghost use Rattle.std.specs.Prelude.{◌≡◌, ◌-◌, ◌≤◌, [], ◌∷◌, length, take, drop, IfOk, IfSome, IfNone};

use ms_base::{NoMemory, Tuple};
use ms_devices::EVENT_BYTES;
use std::alloc::Global;
use std::io::ErrorKind;
use std::marker::Model;
use std::net::{IpAddr, SocketAddr, UdpSocket};

/// The bytes of a batch: room for a datagram of any length behind 64 of an Ethernet's length.
const ROOM: usize = EVENT_BYTES + 98_304;

/// How many datagrams a batch holds at most.
const PIECES: usize = 64;

/// Where a datagram ends in its batch, and who sent it.
#[derive(Clone, Copy)]
struct Piece {
    end: usize,
    from: Tuple,
}

/// A datagram that was taken out of its batch.
#[derive(Clone, Copy)]
pub(crate) struct Datagram {
    pub(crate) link: u32,
    pub(crate) from: Tuple,
    pub(crate) len: usize,
}

/// Datagrams of one link that lay ready together. It is filled and emptied again and again, and takes no memory
/// behind its making. Contracts see it as the datagrams that weren't handed on yet.
#[derive(Drop)]
pub(crate) struct Batch {
    link: u32,
    bytes: Vec<u8>,
    filled: usize,
    pieces: Vec<Piece>,
    // How many of the pieces were handed on, and where the next begins.
    given: usize,
    place: usize,
}

impl Model for Batch {
    ghost use Rattle.std.specs.Prelude.{◌≤◌, List, drop, vec_len};
    ghost use Rattle.real_edges.specs.Edges.{Came, datagrams};

    ghost Value = { List Came };

    ghost view = { λ b. datagrams b.link b.bytes.items b.place (drop b.given b.pieces.items) };

    ghost invariant = { λ b. b.filled ≤ vec_len b.bytes };
}

impl Batch {
    /// A batch with nothing in it.
    pub(crate) fn new(alloc: Global) -> Result<Batch, NoMemory>
        ensures { IfOk result (λ batch. batch ≡ []) }
    {
        let bytes = vec![in alloc; 0u8; ROOM]?;
        let pieces = Vec::with_capacity(alloc, PIECES)?;
        Ok(Batch {
            link: 0,
            bytes,
            filled: 0,
            pieces,
            given: 0,
            place: 0,
        })
    }

    /// Forgets what it held, and takes what lies ready at a socket whose calls don't wait.
    pub(crate) fn fill(&mut self, link: u32, socket: &UdpSocket) {
        self.link = link;
        self.filled = 0;
        self.pieces.clear();
        self.given = 0;
        self.place = 0;
        for _ in 0..PIECES {
            if self.bytes.len() - self.filled < EVENT_BYTES {
                return;
            }
            match socket.recv_from(&mut self.bytes[self.filled..]) {
                Ok((len, from)) => self.keep(len, from),
                Err(fault) if fault.kind() == ErrorKind::WouldBlock => return,
                // An interruption, or an error that an earlier datagram has met at its receiver.
                Err(_) => {}
            }
        }
    }

    // Keeps a datagram whose bytes lie behind the others.
    fn keep(&mut self, len: usize, from: SocketAddr) {
        let IpAddr::V4(ip) = from.ip() else {
            return;
        };
        if len > self.bytes.len() - self.filled {
            return;
        }
        let piece = Piece {
            end: self.filled + len,
            from: Tuple {
                ip: ip.octets(),
                port: from.port(),
            },
        };
        // The room for it was made with the batch.
        if self.pieces.push(piece).is_ok() {
            self.filled = piece.end;
        }
    }

    /// Takes the next datagram, whose bytes come into the first places. `None`: none is left.
    pub(crate) fn next(&mut self, into: &mut [u8]) -> Option<Datagram>
        requires { EVENT_BYTES ≤ length into.old }
        ensures first { IfSome result (λ d. self.old ≡ record { link = d.link; from = d.from; bytes = take d.len into.new } ∷ self.new) }
        ensures none { IfNone result (self.new ≡ self.old) }
        ensures fits { IfSome result (λ d. d.len ≤ EVENT_BYTES) }
        ensures len { length into.new ≡ length into.old }
    {
        let Some((piece, count)) = first_behind(self.pieces.as_slice(), self.given) else {
            return None;
        };
        let Some(len) = put_between(self.bytes.as_slice(), self.place, piece.end, into) else {
            return None;
        };
        self.given = count;
        self.place = piece.end;
        Some(Datagram {
            link: self.link,
            from: piece.from,
            len,
        })
    }
}

// The first of the pieces behind so many of them, and behind how many the next is.
fn first_behind(pieces: &[Piece], count: usize) -> Option<(Piece, usize)>
    ensures some { IfSome result (λ r. drop count pieces.now ≡ r.0 ∷ drop r.1 pieces.now) }
    ensures none { IfNone result (drop count pieces.now ≡ []) }
{
    if count < pieces.len() {
        Some((pieces[count], count + 1))
    } else {
        None
    }
}

// Puts the bytes between two places into the first ones, cut after 65,536, and gives how many. `None`: there are no
// such places.
fn put_between(bytes: &[u8], place: usize, end: usize, into: &mut [u8]) -> Option<usize>
    requires { EVENT_BYTES ≤ length into.old }
    ensures put { IfSome result (λ n. take n into.new ≡ take EVENT_BYTES (take (end - place) (drop place bytes.now))) }
    ensures fits { IfSome result (λ n. n ≤ EVENT_BYTES) }
    ensures len { length into.new ≡ length into.old }
{
    if place > end || end > bytes.len() {
        return None;
    }
    let part = &bytes[place..end];
    let len = part.len().min(EVENT_BYTES);
    into[..len].copy_from_slice(&part[..len]);
    Some(len)
}
