ghost use Rattle.std.specs.Prelude.{◌≡◌, ◌≤◌, [], ◌∷◌, length, IfErr};
ghost use Rattle.channel_frames.specs.Frames.{max_payload};
ghost use Rattle.ms_devices.specs.Told.{Tells};
ghost use Rattle.worker_calls.specs.Requests.{notify, say};
ghost use Rattle.worker_engine.specs.Outside.{call_of};
ghost use Rattle.worker_serve.specs.Sending.{AddsBy, CountsBy, Goes, IsNoBreak};

use crate::fault::ServeFault;
use channel_frames::{FrameFault, write_frame};
use ms_base::Bytes;
use ms_devices::Outbox;
use std::alloc::Global;
use worker_requests::{WorkerNotice, write_worker_notice};

/// Says one payload on the channel. What the frame held before is let go.
pub(crate) fn say<O: Outbox>(
    alloc: Global,
    payload: &[u8],
    frame: &mut Bytes,
    outbox: &mut O,
) -> Result<(), ServeFault>
    requires { length payload.now ≤ max_payload }
    ensures sent { Tells (AddsBy (Goes result (call_of (say payload.now) ∷ []))) (O.calls outbox.old) (O.calls outbox.new) }
    ensures counts { CountsBy result (O.channel_faults outbox.old) (O.channel_faults outbox.new) }
    ensures links { O.link_faults outbox.new ≡ O.link_faults outbox.old }
    ensures no_break { IfErr result IsNoBreak }
{
    frame.clear();
    match write_frame(alloc, payload, frame) {
        Ok(()) => {}
        Err(FrameFault::NoMemory) => return Err(ServeFault::NoMemory),
        // The payload is within the limit.
        Err(_) => unreachable!(),
    }
    match outbox.channel(frame.as_slice()) {
        Ok(()) => Ok(()),
        Err(_) => Err(ServeFault::Write),
    }
}

/// Says that the worker runs.
pub(crate) fn say_running<O: Outbox>(
    alloc: Global,
    frame: &mut Bytes,
    outbox: &mut O,
) -> Result<(), ServeFault>
    ensures sent { Tells (AddsBy (Goes result (call_of (notify WorkerNotice.Running) ∷ []))) (O.calls outbox.old) (O.calls outbox.new) }
    ensures counts { CountsBy result (O.channel_faults outbox.old) (O.channel_faults outbox.new) }
    ensures links { O.link_faults outbox.new ≡ O.link_faults outbox.old }
    ensures no_break { IfErr result IsNoBreak }
{
    let Ok(payload) = write_worker_notice(alloc, WorkerNotice::Running) else {
        return Err(ServeFault::NoMemory);
    };
    say(alloc, payload.as_slice(), frame, outbox)
}
