ghost use Rattle.std.specs.Prelude.{◌≡◌};
ghost use Rattle.run_top.specs.Worker.{IsWorker, status_of};

use crate::status::Status;
use ms_devices::{Inbox, Outbox};
use std::alloc::Global;
use worker_serve::{ServeEnd, serve};

/// Serves as a worker: says on the channel that it runs, and then answers what the inbox gives until it ends.
#[tactic(auto, using(crate::proofs::WorkerLemmas::worker_by))]
pub fn worker_top<I: Inbox, O: Outbox>(alloc: Global, inbox: &mut I, outbox: &mut O) -> Status
    ensures { IsWorker result.0
        (record { given = I.given inbox.old; read_faults = I.faults inbox.old; calls = O.calls outbox.old; channel_faults = O.channel_faults outbox.old; link_faults = O.link_faults outbox.old })
        (record { given = I.given inbox.new; read_faults = I.faults inbox.new; calls = O.calls outbox.new; channel_faults = O.channel_faults outbox.new; link_faults = O.link_faults outbox.new }) }
{
    status_of(serve(alloc, inbox, outbox))
}

// The status that tells how serving ended.
fn status_of(end: ServeEnd) -> Status
    ensures { result.0 ≡ status_of end }
{
    match end {
        ServeEnd::End => Status::DONE,
        ServeEnd::Read => Status::READ_FAILED,
        ServeEnd::Write => Status::WRITE_FAILED,
        ServeEnd::TooLong { .. } => Status::BAD_TEXT,
        ServeEnd::NoMemory => Status::OUT_OF_MEMORY,
    }
}
