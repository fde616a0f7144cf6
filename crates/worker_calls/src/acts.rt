//! What goes out by a request, until it is given to the caller.

ghost use Rattle.std.specs.Prelude.{◌≡◌, ◌≤◌, [], ◌∷◌, ◌++◌, length, map, take, OnOk, OnErr};
ghost use Rattle.rtp_params.specs.Readable.{Each};
ghost use Rattle.worker_calls.specs.Acts.{outgoing, IsShort, event_notice, pause_event};
ghost use Rattle.worker_calls.specs.Requests.{bind, shut, say, notify};
ghost use Rattle.worker_requests.specs.Said.{answer_payload, max_said};

use crate::act::Act;
use ms_base::{Bytes, Id, NoMemory};
use std::alloc::Global;
use std::marker::Model;
use worker_requests::{Accepted, Refusal, WorkerNotice, write_answer, write_worker_notice};

/// What Consumers are told of their Producer.
#[derive(Clone, Copy, Debug, PartialEq, Eq)]
pub(crate) enum Event {
    Closed,
    Paused,
    Resumed,
}

impl Event {
    /// A pause, or a resume.
    pub(crate) fn paused(paused: bool) -> Event
        ensures { result ≡ pause_event paused }
    {
        if paused {
            Event::Paused
        } else {
            Event::Resumed
        }
    }

    fn notice(self, consumer: Id) -> WorkerNotice
        ensures { result ≡ event_notice self consumer }
    {
        match self {
            Event::Closed => WorkerNotice::ProducerClosed(consumer),
            Event::Paused => WorkerNotice::ProducerPaused(consumer),
            Event::Resumed => WorkerNotice::ProducerResumed(consumer),
        }
    }
}

/// Acts in their order, of which what is said is short.
#[derive(Debug, Drop)]
pub(crate) struct Acts {
    alloc: Global,
    acts: Vec<Act>,
}

impl Model for Acts {
    ghost use Rattle.std.specs.Prelude.{List, map};
    ghost use Rattle.rtp_params.specs.Readable.{Each};
    ghost use Rattle.worker_calls.specs.Acts.{outgoing, IsShort};
    ghost use Rattle.worker_calls.specs.Requests.{Outgoing};

    ghost Value = { List Outgoing };

    ghost view = { λ a. map outgoing a.acts.items };

    ghost invariant = { λ a. Each IsShort (map outgoing a.acts.items) };
}

impl Acts {
    pub(crate) fn new(alloc: Global) -> Acts
        ensures { result ≡ [] }
    {
        Acts {
            alloc,
            acts: Vec::new(alloc),
        }
    }

    fn say(&mut self, payload: Bytes) -> Result<(), NoMemory>
        requires { length payload ≤ max_said }
        ensures { OnOk result (self.new ≡ self.old ++ say payload ∷ []) }
    {
        self.acts.push(Act::Say(payload))?;
        Ok(())
    }

    /// A socket for a link is to be opened.
    pub(crate) fn bind(&mut self, link: u32, ip: [u8; 4]) -> Result<(), NoMemory>
        ensures { OnOk result (self.new ≡ self.old ++ bind link ip ∷ []) }
    {
        self.acts.push(Act::Bind { link, ip })?;
        Ok(())
    }

    /// The socket of a link is to be closed.
    pub(crate) fn shut(&mut self, link: u32) -> Result<(), NoMemory>
        ensures { OnOk result (self.new ≡ self.old ++ shut link ∷ []) }
    {
        self.acts.push(Act::Shut { link })?;
        Ok(())
    }

    /// The reply to the request of this id.
    pub(crate) fn answer(
        &mut self,
        request: u32,
        answer: Result<Accepted, Refusal>,
    ) -> Result<(), NoMemory>
        ensures { OnOk result (self.new ≡ self.old ++ say (answer_payload request answer) ∷ []) }
    {
        let payload = write_answer(self.alloc, request, answer)?;
        self.say(payload)
    }

    fn notify(&mut self, notice: WorkerNotice) -> Result<(), NoMemory>
        ensures { OnOk result (self.new ≡ self.old ++ notify notice ∷ []) }
    {
        let payload = write_worker_notice(self.alloc, notice)?;
        self.say(payload)
    }

    /// Each of these Consumers is told of its Producer.
    pub(crate) fn tell(&mut self, event: Event, consumers: &[Id]) -> Result<(), NoMemory>
        ensures { OnOk result (self.new ≡ self.old ++ map (λ c. notify (event_notice event c)) consumers.now) }
    {
        for consumer in consumers {
            self.notify(event.notice(*consumer))?;
        }
        Ok(())
    }

    /// Puts them behind the acts that are there.
    pub(crate) fn give(mut self, into: &mut Vec<Act>) -> Result<(), NoMemory>
        ensures ok { OnOk result (map outgoing into.new.items ≡ map outgoing into.old.items ++ self) }
        ensures front { OnOk result (take (length into.old.items) into.new.items ≡ into.old.items) }
        ensures err { OnErr result (into.new.items ≡ into.old.items) }
        ensures short { Each IsShort self }
    {
        into.append(&mut self.acts)?;
        Ok(())
    }
}
