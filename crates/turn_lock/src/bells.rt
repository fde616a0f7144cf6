//! Where threads sleep until their turn is near.
//!
//! Bells are plain atomics beside the words of the lock, and no part of the rule. No wake is lost: who wants to sleep
//! marks its bell, looks once more whose turn it is, and then sleeps only while its bell's number stands. Who gives the
//! turn on looks at the bells behind that. So one of the two sees what the other did.
ghost use Rattle.std.specs.Prelude.{◌≡◌, length, IfOk};

use std::alloc::{AllocError, Global};
use std::hint;
use std::sync::Wait;
use std::sync::atomic::{AtomicU64, Ordering};

/// How many bells there are. The thread with ticket t sleeps at bell t modulo this.
const BELLS: u64 = 256;

/// The lowest bit of a bell's number: somebody sleeps here, or is about to. The other bits are those of the ticket that
/// was served when the bell rang last, so each ring gives another number.
const MARK: u64 = 1;

/// How near its turn a thread is, in tickets, that looks some times before it sleeps.
const NEAR: u64 = 2;

/// How often it looks then.
const LOOKS: u32 = 256;

/// The bells of a lock.
#[derive(Drop)]
pub(crate) struct Bells {
    bells: Vec<AtomicU64>,
    ghost count: { length bells.items ≡ 256 },
}

/// What a thread does that waits, until it looks again whose turn it is.
#[derive(Clone, Copy)]
pub(crate) enum Pause {
    /// It looks again at once, so many times, if it is near its turn.
    Look(u32),
    /// Its bell is marked, and has this number in its low 32 bits.
    Sleep(u32),
}

impl Pause {
    /// What a thread does first, and again once it was woken.
    pub(crate) const FIRST: Pause = Pause::Look(LOOKS);
}

impl Bells {
    /// As many bells as there are, with no mark.
    pub(crate) fn new(alloc: Global) -> Result<Bells, AllocError> {
        let mut bells = Vec::with_capacity(alloc, BELLS as usize)?;
        for _ in 0..BELLS {
            bells.push(AtomicU64::new(0))?;
        }
        Ok(Bells { bells })
    }

    fn of(&self, ticket: u64) -> &AtomicU64 {
        &self.bells[(ticket % BELLS) as usize]
    }

    /// Waits a while, as the pause says, and tells the next one.
    pub(crate) fn wait<R: Wait>(&self, rt: &R, ticket: u64, serving: u64, pause: Pause) -> Pause {
        match pause {
            Pause::Look(left) if left > 0 && ticket.wrapping_sub(serving) <= NEAR => {
                hint::spin_loop();
                Pause::Look(left - 1)
            }
            Pause::Look(_) => {
                let number = self.of(ticket).fetch_or(MARK, Ordering::SeqCst) | MARK;
                Pause::Sleep((number & 0xffff_ffff) as u32)
            }
            Pause::Sleep(number) => {
                self.of(ticket).park(rt, number);
                Pause::FIRST
            }
        }
    }

    /// Wakes who sleeps at the bell of this ticket, whose turn it is now, and who sleeps at the next one's, so that it is
    /// awake when its turn comes.
    pub(crate) fn ring(&self, serving: u64) {
        self.ring_one(serving, serving);
        self.ring_one(serving.wrapping_add(1), serving);
    }

    fn ring_one(&self, ticket: u64, serving: u64) {
        let bell = self.of(ticket);
        if bell.load(Ordering::SeqCst) & MARK != 0
            && bell.swap(serving.wrapping_mul(2), Ordering::SeqCst) & MARK != 0
        {
            bell.wake_all();
        }
    }
}
