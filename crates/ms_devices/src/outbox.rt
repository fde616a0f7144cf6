ghost use Rattle.std.specs.Prelude.{◌≡◌, ℕ, ◌↔◌, List, [], Option, Some, None, IsErr, IfOk, IfSome, IsTrue, MatchOption, map, option_copied};
ghost use Rattle.std.specs.Result.{is_err, result_ok};
ghost use Rattle.ms_devices.specs.Causes.{HasCause};
ghost use Rattle.ms_devices.specs.Memory.{after_call};
ghost use Rattle.ms_devices.specs.Told.{Tells, AddsOne, list_told};
ghost use Rattle.ms_devices.specs.WorkerMemory.{counted};

use crate::calls::Calls;
use crate::events::OutCall;
use crate::failed::Failed;
use ms_base::{Bytes, NoMemory, Tuple};
use std::alloc::{AllocError, Global};
use std::marker::Model;

/// What a worker sends by: its channel, and its links, each of which is a socket at a port of its own. The
/// caller numbers the links.
pub trait Outbox {
    ghost use Rattle.ms_devices.specs.declared.events.OutCall.{OutCall};

    /// The calls that were made, each with its answer, where it tells that.
    ghost calls: { Self → Option (List OutCall) };

    /// How many faults the channel has had.
    ghost channel_faults: { Self → ℕ };

    /// How many faults the links have had.
    ghost link_faults: { Self → ℕ };

    /// Opens a link at the address, and gives its port.
    fn bind(&mut self, link: u32, ip: [u8; 4]) -> Result<u16, Failed>
        ensures told { Tells (AddsOne (OutCall.Bind link ip (result_ok result))) (calls self.old) (calls self.new) }
        ensures cause { HasCause (link_faults self.old) (link_faults self.new) result }
        ensures other { channel_faults self.new ≡ channel_faults self.old };

    /// Closes a link.
    fn shut(&mut self, link: u32)
        ensures told { Tells (AddsOne (OutCall.Shut link)) (calls self.old) (calls self.new) }
        ensures channel { channel_faults self.new ≡ channel_faults self.old }
        ensures links { link_faults self.new ≡ link_faults self.old };

    /// Writes a frame to the channel.
    fn channel(&mut self, frame: &[u8]) -> Result<(), Failed>
        ensures told { Tells (AddsOne (OutCall.Channel frame.now (is_err result))) (calls self.old) (calls self.new) }
        ensures cause { HasCause (channel_faults self.old) (channel_faults self.new) result }
        ensures other { link_faults self.new ≡ link_faults self.old };

    /// Sends a datagram from the link's port.
    fn datagram(&mut self, link: u32, to: Tuple, packet: &[u8]) -> Result<(), Failed>
        ensures told { Tells (AddsOne (OutCall.Datagram link to packet.now (is_err result))) (calls self.old) (calls self.new) }
        ensures cause { HasCause (link_faults self.old) (link_faults self.new) result }
        ensures other { channel_faults self.new ≡ channel_faults self.old };
}

/// An outbox in memory. It tells the calls that were made on it, answers each `bind` with the next of its
/// ports, and fails at calls of chosen numbers. Where it finds no memory to keep a call it answers as if it
/// had, and tells nothing from then on.
#[derive(Debug, Drop)]
pub struct MemOutbox {
    alloc: Global,
    answers: Vec<Option<u16>>,
    // How many of the answers were given.
    answered: usize,
    told: Option<Vec<OutCall>>,
    calls: Calls,
    channel_faults: u64,
    link_faults: u64,
}

impl Model for MemOutbox {
    ghost use Rattle.ms_devices.specs.WorkerMemory.{OutboxState};
    ghost use Rattle.ms_devices.specs.Told.{list_told};
    ghost use Rattle.std.specs.Prelude.{drop, ◌≤◌, vec_len};

    ghost Value = { OutboxState };

    ghost view = { λ s. record { answers = drop s.answered s.answers.items; told = list_told s.told; calls = s.calls; channel_faults = s.channel_faults; link_faults = s.link_faults } };

    ghost invariant = { λ s. s.answered ≤ vec_len s.answers };
}

impl MemOutbox {
    ghost use Rattle.ms_devices.specs.WorkerMemory.{bind_answer, answers_left};
    ghost use Rattle.ms_devices.specs.declared.events.OutCall.{OutCall};

    /// An outbox that had no call yet. Each `bind` is answered with the next port; one that finds none left
    /// fails. `fails` has the numbers of the calls that are to fail besides, from 1 over `bind`, `channel` and
    /// `datagram` together; a `bind` among them takes no port.
    pub fn new(alloc: Global, ports: Vec<u16>, fails: Vec<u32>) -> Result<MemOutbox, NoMemory>
        ensures answers { IfOk result (λ s. s.answers ≡ map Some ports.items) }
        ensures told { IfOk result (λ s. s.told ≡ Some []) }
        ensures calls { IfOk result (λ s. s.calls ≡ record { fails = fails.items; made = 0 }) }
        ensures channel_faults { IfOk result (λ s. s.channel_faults ≡ 0) }
        ensures link_faults { IfOk result (λ s. s.link_faults ≡ 0) }
    {
        let answers = answers_of(alloc, ports.as_slice())?;
        Ok(MemOutbox::with_answers(alloc, answers, fails))
    }

    /// An outbox as `new` makes it, whose `bind` calls are answered so, in order: with a port, or, at `None`,
    /// by failing.
    pub fn with_answers(alloc: Global, answers: Vec<Option<u16>>, fails: Vec<u32>) -> MemOutbox
        ensures answers { result.answers ≡ answers.items }
        ensures told { result.told ≡ Some [] }
        ensures calls { result.calls ≡ record { fails = fails.items; made = 0 } }
        ensures channel_faults { result.channel_faults ≡ 0 }
        ensures link_faults { result.link_faults ≡ 0 }
    {
        MemOutbox {
            alloc,
            answers,
            answered: 0,
            told: Some(Vec::new(alloc)),
            calls: Calls::new(fails),
            channel_faults: 0,
            link_faults: 0,
        }
    }

    /// The calls that were made on it, or `None` where it had no memory to keep them.
    pub fn told(&self) -> Option<&[OutCall]>
        ensures { option_copied result ≡ self.now.told }
    {
        self.told.as_ref().map(|told| told.as_slice())
    }

    // What the next `bind` is answered.
    fn next_answer(&mut self) -> Option<u16>
        ensures value { result ≡ bind_answer self.old }
        ensures answers { self.new.answers ≡ answers_left self.old }
        ensures calls { self.new.calls ≡ after_call self.old.calls }
        ensures told { self.new.told ≡ self.old.told }
        ensures channel_faults { self.new.channel_faults ≡ self.old.channel_faults }
        ensures link_faults { self.new.link_faults ≡ self.old.link_faults }
    {
        if self.calls.next_fails() || self.answered == self.answers.len() {
            return None;
        }
        let answer = self.answers[self.answered];
        self.answered += 1;
        answer
    }
}

impl Outbox for MemOutbox {
    ghost use Rattle.ms_devices.specs.declared.events.OutCall.{OutCall};
    ghost use Rattle.ms_devices.specs.Memory.{next_fails};
    ghost use Rattle.ms_devices.specs.WorkerMemory.{bind_answer, answers_left};

    ghost calls = { λ s. s.told };

    ghost channel_faults = { λ s. s.channel_faults };

    ghost link_faults = { λ s. s.link_faults };

    fn bind(&mut self, link: u32, ip: [u8; 4]) -> Result<u16, Failed>
        ensures told { Tells (AddsOne (OutCall.Bind link ip (result_ok result))) self.old.told self.new.told }
        ensures cause { HasCause self.old.link_faults self.new.link_faults result }
        ensures other { self.new.channel_faults ≡ self.old.channel_faults }

        // In memory each answer is determined.
        ensures answer { result_ok result ≡ bind_answer self.old }
        ensures answers { self.new.answers ≡ answers_left self.old }
        ensures counted { self.new.calls ≡ after_call self.old.calls }
        ensures faults { self.new.link_faults ≡ counted self.old.link_faults (is_err result) }
    {
        let port = self.next_answer();
        keep(&mut self.told, Some(OutCall::Bind { link, ip, port }));
        answer(&mut self.link_faults, port.is_none())?;
        port.ok_or(Failed)
    }

    fn shut(&mut self, link: u32)
        ensures told { Tells (AddsOne (OutCall.Shut link)) self.old.told self.new.told }
        ensures channel { self.new.channel_faults ≡ self.old.channel_faults }
        ensures links { self.new.link_faults ≡ self.old.link_faults }

        // Nothing else changes.
        ensures answers { self.new.answers ≡ self.old.answers }
        ensures counted { self.new.calls ≡ self.old.calls }
    {
        keep(&mut self.told, Some(OutCall::Shut { link }));
    }

    fn channel(&mut self, frame: &[u8]) -> Result<(), Failed>
        ensures told { Tells (AddsOne (OutCall.Channel frame.now (is_err result))) self.old.told self.new.told }
        ensures cause { HasCause self.old.channel_faults self.new.channel_faults result }
        ensures other { self.new.link_faults ≡ self.old.link_faults }

        // In memory each answer is determined.
        ensures fails { IsErr result ↔ IsTrue (next_fails self.old.calls) }
        ensures answers { self.new.answers ≡ self.old.answers }
        ensures counted { self.new.calls ≡ after_call self.old.calls }
        ensures faults { self.new.channel_faults ≡ counted self.old.channel_faults (is_err result) }
    {
        let failed = self.calls.next_fails();
        let call = match copied(self.alloc, frame) {
            Some(frame) => Some(OutCall::Channel { frame, failed }),
            None => None,
        };
        keep(&mut self.told, call);
        answer(&mut self.channel_faults, failed)
    }

    fn datagram(&mut self, link: u32, to: Tuple, packet: &[u8]) -> Result<(), Failed>
        ensures told { Tells (AddsOne (OutCall.Datagram link to packet.now (is_err result))) self.old.told self.new.told }
        ensures cause { HasCause self.old.link_faults self.new.link_faults result }
        ensures other { self.new.channel_faults ≡ self.old.channel_faults }

        // In memory each answer is determined.
        ensures fails { IsErr result ↔ IsTrue (next_fails self.old.calls) }
        ensures answers { self.new.answers ≡ self.old.answers }
        ensures counted { self.new.calls ≡ after_call self.old.calls }
        ensures faults { self.new.link_faults ≡ counted self.old.link_faults (is_err result) }
    {
        let failed = self.calls.next_fails();
        let call = match copied(self.alloc, packet) {
            Some(packet) => Some(OutCall::Datagram {
                link,
                to,
                packet,
                failed,
            }),
            None => None,
        };
        keep(&mut self.told, call);
        answer(&mut self.link_faults, failed)
    }
}

// Counts a call that failed, and answers so.
fn answer(count: &mut u64, failed: bool) -> Result<(), Failed>
    ensures value { is_err result ≡ failed }
    ensures counted { count.new ≡ counted count.old failed }
    ensures cause { HasCause count.old count.new result }
{
    let before = *count;
    if failed {
        *count = before.saturating_add(1);
        return Err(Failed);
    }
    Ok(())
}

// Each port as an answer.
fn answers_of(alloc: Global, ports: &[u16]) -> Result<Vec<Option<u16>>, AllocError>
    ensures { IfOk result (λ answers. answers.items ≡ map Some ports.now) }
{
    ports.iter().map(|port| Some(*port)).collect(alloc)
}

// Adds a call to what is told. Where there is no memory for it nothing is told any more.
fn keep(told: &mut Option<Vec<OutCall>>, call: Option<OutCall>)
    ensures { MatchOption call (told.new ≡ None) (λ call. Tells (AddsOne call) (list_told told.old) (list_told told.new)) }
{
    let Some(call) = call else {
        *told = None;
        return;
    };
    if let Some(calls) = told
        && calls.push(call).is_err()
    {
        *told = None;
    }
}

// A copy of the bytes, where there is memory for it.
fn copied(alloc: Global, bytes: &[u8]) -> Option<Bytes>
    ensures { IfSome result (λ copy. copy ≡ bytes.now) }
{
    Bytes::from_slice(alloc, bytes).ok()
}
