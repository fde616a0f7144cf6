ghost use Rattle.std.specs.Prelude.{◌≡◌, ◌∷◌, [], length, IfOk, IfErr};
ghost use Rattle.channel_frames.specs.Reading.{unstarted};
ghost use Rattle.ms_devices.specs.Told.{Tells};
ghost use Rattle.worker_calls.specs.Requests.{notify};
ghost use Rattle.worker_calls.specs.State.{idle};
ghost use Rattle.worker_engine.specs.Outside.{call_of};
ghost use Rattle.worker_requests.specs.declared.notice.WorkerNotice.TheVariants.{Running};
ghost use Rattle.worker_serve.specs.Hearing.{FrameLaws};
ghost use Rattle.worker_serve.specs.Sending.{AddsBy, CountsBy, Goes, IsNoBreak};
ghost use Rattle.worker_serve.specs.ServeEnds.{IsServe};

use crate::fault::ServeFault;
use crate::server::Server;
use channel_frames::{frames_of_a_cut_stream, frames_of_a_rest};
use ms_base::NoMemory;
use ms_devices::{EVENT_BYTES, InEvent, Inbox, Outbox};
use std::alloc::Global;

/// Why serving has ended: each exactly where it says so, but that memory may run out at any time.
#[derive(Clone, Copy, Debug, PartialEq, Eq)]
pub enum ServeEnd {
    /// The inbox gave its end.
    End,
    /// The inbox failed.
    Read,
    /// The channel of the outbox failed.
    Write,
    /// A length over the limit stands in a frame's place, behind so many bytes of the channel's stream. A place
    /// above 2^64 - 1 is told as 2^64 - 1.
    TooLong { place: u64, length: u32 },
    NoMemory,
}

impl From<ServeFault> for ServeEnd {
    ghost use Rattle.std.specs.Prelude.{◌≡◌};
    ghost use Rattle.worker_serve.specs.ServeEnds.{end_of};

    ghost from_gives = { λ fault end. end ≡ end_of fault };

    fn from(fault: ServeFault) -> ServeEnd {
        match fault {
            ServeFault::Write => ServeEnd::Write,
            ServeFault::TooLong { place, length } => ServeEnd::TooLong { place, length },
            ServeFault::NoMemory => ServeEnd::NoMemory,
        }
    }
}

/// Says that the worker runs, and then serves what the inbox gives, event by event, until it ends or fails, the
/// bytes of its channel are broken, or the channel of the outbox fails. It may wait as long as the inbox does. Behind
/// 2^64 - 1 events it ends as out of memory.
pub fn serve<I: Inbox, O: Outbox>(alloc: Global, inbox: &mut I, outbox: &mut O) -> ServeEnd
    ensures { IsServe result
        (record { given = I.given inbox.old; read_faults = I.faults inbox.old; calls = O.calls outbox.old; channel_faults = O.channel_faults outbox.old; link_faults = O.link_faults outbox.old })
        (record { given = I.given inbox.new; read_faults = I.faults inbox.new; calls = O.calls outbox.new; channel_faults = O.channel_faults outbox.new; link_faults = O.link_faults outbox.new }) }
{
    laws();
    let Ok(mut room) = zeroes(alloc, EVENT_BYTES) else {
        return ServeEnd::NoMemory;
    };
    let place = room.as_mut_slice();
    let mut server = match started(alloc, outbox) {
        Ok(server) => server,
        Err(fault) => return ServeEnd::from(fault),
    };
    for _ in 0..u64::MAX {
        let Ok(event) = inbox.next(place) else {
            return ServeEnd::Read;
        };
        if let Err(fault) = server.on_event(event, place, outbox) {
            return ServeEnd::from(fault);
        }
        if let InEvent::End = event {
            return ServeEnd::End;
        }
    }
    ServeEnd::NoMemory
}

// Frames go on from what is left of a stream. The function does nothing; its contract is the law.
fn laws()
    ensures { FrameLaws }
{
    frames_of_a_cut_stream();
    frames_of_a_rest();
}

// So many zero bytes.
fn zeroes(alloc: Global, count: usize) -> Result<Vec<u8>, NoMemory>
    ensures { IfOk result (λ place. length place.items ≡ count) }
{
    Ok(vec![in alloc; 0u8; count]?)
}

// A worker that has said that it runs.
fn started<O: Outbox>(alloc: Global, outbox: &mut O) -> Result<Server, ServeFault>
    ensures engine { IfOk result (λ server. server.engine ≡ idle) }
    ensures reader { IfOk result (λ server. server.reader ≡ unstarted) }
    ensures sent { Tells (AddsBy (Goes result (call_of (notify Running) ∷ []))) (O.calls outbox.old) (O.calls outbox.new) }
    ensures counts { CountsBy result (O.channel_faults outbox.old) (O.channel_faults outbox.new) }
    ensures links { O.link_faults outbox.new ≡ O.link_faults outbox.old }
    ensures no_break { IfErr result IsNoBreak }
{
    let Ok(mut server) = Server::new(alloc) else {
        return Err(ServeFault::NoMemory);
    };
    server.start(outbox)?;
    Ok(server)
}
