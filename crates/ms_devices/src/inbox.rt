ghost use Rattle.std.specs.Prelude.{◌≡◌, ℕ, ◌≤◌, ◌↔◌, List, Option, Some, IfOk, IsErr, OnErr, OnOk, IsTrue, true, false, ◌≢◌, ◌++◌, ◌<◌, length, take, drop, map};
ghost use Rattle.ms_devices.specs.Outside.{IsFit, event_len, event_of, is_end};
ghost use Rattle.ms_devices.specs.WorkerMemory.{IsFitEvent, events_of, pieces};
ghost use Rattle.ms_devices.specs.Causes.{HasCause};
ghost use Rattle.ms_devices.specs.Told.{Tells, AddsOne};

use crate::calls::Calls;
use crate::events::{EVENT_BYTES, GivenEvent, InEvent, MemEvent};
use crate::failed::Failed;
use ms_base::{Bytes, NoMemory};
use std::alloc::Global;
use std::marker::Model;

/// What a worker is given: the bytes of its channel, and the datagrams of its links.
pub trait Inbox {
    ghost use Rattle.ms_devices.specs.declared.events.GivenEvent.{GivenEvent};
    ghost use Rattle.ms_devices.specs.Outside.{has_ended};

    /// The events that it gave, where it tells that.
    ghost given: { Self → Option (List GivenEvent) };

    /// How many faults it has had.
    ghost faults: { Self → ℕ };

    /// Gives the next event, whose bytes come into the first places of `into`. A datagram comes in one event,
    /// cut after 65,536 bytes; bytes of the channel beyond them come in further events. Behind the end comes
    /// the end again.
    ///
    /// After a `Failed` nothing was given, and `into` may have any bytes.
    fn next(&mut self, into: &mut [u8]) -> Result<InEvent, Failed>
        requires { EVENT_BYTES ≤ length into.old }
        ensures fits { IfOk result IsFit }
        ensures given { IfOk result (λ event. Tells (AddsOne (event_of event into.new)) (given self.old) (given self.new)) }
        ensures ended { IfOk result (λ event. Tells (λ before _. has_ended before ≡ true → event ≡ InEvent.End) (given self.old) (given self.new)) }
        ensures err { OnErr result (Tells (λ before now. now ≡ before) (given self.old) (given self.new)) }
        ensures cause { HasCause (faults self.old) (faults self.new) result };
}

/// An inbox in memory. It gives its events and then its end, and fails at calls of chosen numbers, which give
/// nothing. It tells what it gave; where it finds no memory to keep that it gave its end, it answers as if it
/// had, and tells nothing from then on.
#[derive(Debug, Drop)]
pub struct MemInbox {
    // Those that were given, and those that are left.
    events: Vec<GivenEvent>,
    given_count: usize,
    tells: bool,
    calls: Calls,
}

impl Model for MemInbox {
    ghost use Rattle.ms_devices.specs.WorkerMemory.{InboxState};
    ghost use Rattle.std.specs.Prelude.{take, drop, Some, None, if◌then◌else◌};

    ghost Value = { InboxState };

    ghost view = { λ s. record { left = drop s.given_count s.events.items; given = if s.tells then Some (take s.given_count s.events.items) else None; calls = s.calls } };

    ghost use Rattle.ms_devices.specs.WorkerMemory.{IsInbox};

    ghost invariant = { λ s. IsInbox s.events.items s.given_count };
}

impl MemInbox {
    ghost use Rattle.std.specs.Prelude.{[], option_copied};
    ghost use Rattle.ms_devices.specs.Outside.{has_ended};
    ghost use Rattle.ms_devices.specs.WorkerMemory.{given_of, next_event};

    /// An inbox that gave nothing yet. Bytes of the channel come in events of 65,536 bytes, the last of them
    /// with what is left; where there are none no event comes. `fails` has the numbers of its calls that are
    /// to fail, from 1.
    pub fn new(alloc: Global, events: Vec<MemEvent>, fails: Vec<u32>) -> Result<MemInbox, NoMemory>
        ensures left { IfOk result (λ s. s.left ≡ given_of events.items) }
        ensures given { IfOk result (λ s. s.given ≡ Some []) }
        ensures calls { IfOk result (λ s. s.calls ≡ record { fails = fails.items; made = 0 }) }
    {
        let mut all = Vec::new(alloc);
        for event in events {
            push_event(alloc, &mut all, event)?;
        }
        Ok(MemInbox {
            events: all,
            given_count: 0,
            tells: true,
            calls: Calls::new(fails),
        })
    }

    /// The events that it gave, or `None` where it had no memory to keep them.
    pub fn told(&self) -> Option<&[GivenEvent]>
        ensures { option_copied result ≡ self.now.given }
    {
        if self.tells {
            Some(&self.events[..self.given_count])
        } else {
            None
        }
    }

    // Gives the next event, or the end.
    fn give(&mut self, into: &mut [u8]) -> InEvent
        requires { EVENT_BYTES ≤ length into.old }
        ensures fits { IsFit result }
        ensures gives { event_of result into.new ≡ next_event self.old.left }
        ensures behind { drop (event_len result) into.new ≡ drop (event_len result) into.old }
        ensures given { Tells (AddsOne (next_event self.old.left)) self.old.given self.new.given }
        ensures ended { Tells (λ before _. has_ended before ≡ true → result ≡ InEvent.End) self.old.given self.new.given }
        ensures left { self.new.left ≡ drop 1 self.old.left }
        ensures calls { self.new.calls ≡ self.old.calls }
    {
        if self.given_count == self.events.len() {
            self.give_end();
            return InEvent::End;
        }
        let event = put_event(&self.events[self.given_count], into);
        self.given_count += 1;
        event
    }

    // Gives the end, and tells that, or tells no more.
    fn give_end(&mut self)
        requires { self.old.left ≡ [] }
        ensures given { Tells (AddsOne GivenEvent.End) self.old.given self.new.given }
        ensures left { self.new.left ≡ [] }
        ensures calls { self.new.calls ≡ self.old.calls }
    {
        if self.tells {
            match self.events.push(GivenEvent::End) {
                Ok(()) => self.given_count += 1,
                Err(_) => self.tells = false,
            }
        }
    }
}

impl Inbox for MemInbox {
    ghost use Rattle.ms_devices.specs.Memory.{next_fails, after_call, fault_count};
    ghost use Rattle.ms_devices.specs.Outside.{has_ended};
    ghost use Rattle.ms_devices.specs.WorkerMemory.{next_event};

    ghost given = { λ s. s.given };

    ghost faults = { λ s. fault_count s.calls };

    fn next(&mut self, into: &mut [u8]) -> Result<InEvent, Failed>
        requires { EVENT_BYTES ≤ length into.old }
        ensures fits { IfOk result IsFit }
        ensures given { IfOk result (λ event. Tells (AddsOne (event_of event into.new)) self.old.given self.new.given) }
        ensures ended { IfOk result (λ event. Tells (λ before _. has_ended before ≡ true → event ≡ InEvent.End) self.old.given self.new.given) }
        ensures err { OnErr result (Tells (λ before now. now ≡ before) self.old.given self.new.given) }
        ensures cause { HasCause (fault_count self.old.calls) (fault_count self.new.calls) result }

        // In memory each answer is determined.
        ensures fails { IsErr result ↔ IsTrue (next_fails self.old.calls) }
        ensures counted { self.new.calls ≡ after_call self.old.calls }
        ensures gives { IfOk result (λ event. event_of event into.new ≡ next_event self.old.left) }
        ensures left { OnOk result (self.new.left ≡ drop 1 self.old.left) }
        ensures behind { IfOk result (λ event. drop (event_len event) into.new ≡ drop (event_len event) into.old) }
        ensures kept { OnErr result (self.new.left ≡ self.old.left) }
        ensures untouched { OnErr result (into.new ≡ into.old) }
    {
        if self.calls.next_fails() {
            return Err(Failed);
        }
        Ok(self.give(into))
    }
}

// Adds what is given of an event.
fn push_event(alloc: Global, all: &mut Vec<GivenEvent>, event: MemEvent) -> Result<(), NoMemory>
    ensures { OnOk result (all.new.items ≡ all.old.items ++ events_of event) }
{
    match event {
        MemEvent::Channel(bytes) => push_pieces(alloc, all, bytes.as_slice()),
        MemEvent::Datagram {
            link,
            from,
            mut packet,
        } => {
            packet.truncate(EVENT_BYTES);
            all.push(GivenEvent::Datagram { link, from, packet })?;
            Ok(())
        }
    }
}

// Adds the bytes in pieces, each an event of the channel.
fn push_pieces(alloc: Global, all: &mut Vec<GivenEvent>, bytes: &[u8]) -> Result<(), NoMemory>
    ensures { OnOk result (all.new.items ≡ all.old.items ++ map GivenEvent.Channel (pieces bytes.now)) }
{
    let mut rest = bytes;
    while !rest.is_empty() {
        let (piece, behind) = rest.split_at(rest.len().min(EVENT_BYTES));
        all.push(GivenEvent::Channel(Bytes::from_slice(alloc, piece)?))?;
        rest = behind;
    }
    Ok(())
}

// Puts an event's bytes into the first places.
fn put_event(event: &GivenEvent, into: &mut [u8]) -> InEvent
    requires fits { IsFitEvent event.now }
    requires room { EVENT_BYTES ≤ length into.old }
    ensures fits { IsFit result }
    ensures value { event_of result into.new ≡ event.now }
    ensures behind { drop (event_len result) into.new ≡ drop (event_len result) into.old }
    ensures end { is_end event.now ≡ false → result ≢ InEvent.End }
{
    match event {
        GivenEvent::Channel(bytes) => InEvent::Channel {
            len: put_bytes(bytes.as_slice(), into),
        },
        GivenEvent::Datagram { link, from, packet } => InEvent::Datagram {
            link: *link,
            from: *from,
            len: put_bytes(packet.as_slice(), into),
        },
        GivenEvent::End => InEvent::End,
    }
}

// Puts bytes into the first places, and gives how many.
fn put_bytes(bytes: &[u8], into: &mut [u8]) -> usize
    requires { length bytes.now ≤ length into.old }
    ensures count { result ≡ length bytes.now }
    ensures put { take result into.new ≡ bytes.now }
    ensures behind { drop result into.new ≡ drop result into.old }
{
    into[..bytes.len()].copy_from_slice(bytes);
    bytes.len()
}
