//! A packet goes out to the Consumers of the Producer that received it.

ghost use Rattle.std.specs.Prelude.{◌≡◌, ℕ, ◌+◌, ◌++◌, ◌≤◌, ◌<◌, ◌^◌, [], ◌∷◌, map, length, take, drop, slice_get, IfSome, IfNone, OnOk, OnErr, option_map};
ghost use Rattle.ms_devices.specs.Causes.{HasCause};
ghost use Rattle.worker_requests.specs.declared.notice.WorkerNotice.TheVariants.{TupleLearnt};
ghost use Rattle.worker_calls.specs.Requests.{notify};
ghost use Rattle.worker_engine.specs.Outside.{call_of, Made, StopsAtAFault};
ghost use Rattle.worker_engine.specs.Forwarding.{targets, passed_one, behind_one, remote_in, sent_of, listed, behind_each, out_each, end_of};

use crate::framing::{FRAME_HEAD, frame_packet, frame_tuple};
use crate::incoming::Incoming;
use crate::lent::{note, pass_to};
use ms_base::{Id, Tuple};
use ms_devices::{Failed, Outbox};
use worker_calls::{Place, Worker};
use worker_router::Passed;

/// How many bytes the frame of a packet has at most: the length, the letter, the id and the packet.
pub(crate) const BUFFER: usize = 65_576;

/// Gives each Consumer, in order of making, the packet that its Producer received, and sends what it passes on, each
/// by one call, until a call on the channel fails.
pub(crate) fn forward<O: Outbox>(
    worker: &mut Worker,
    incoming: &Incoming<'_>,
    buffer: &mut [u8],
    outbox: &mut O,
) -> Result<(), Failed>
    requires room { length buffer.old ≡ BUFFER }
    ensures state { OnOk result (worker.new ≡ behind_each incoming.now (targets incoming.now worker.old) worker.old) }
    ensures told { OnOk result (Made (map call_of (out_each incoming.now (targets incoming.now worker.old) worker.old)) (O.link_faults outbox.old) (O.link_faults outbox.new) (O.calls outbox.old) (O.calls outbox.new)) }
    ensures err { OnErr result (StopsAtAFault (out_each incoming.now (targets incoming.now worker.old) worker.old) (O.link_faults outbox.old) (O.link_faults outbox.new) (O.calls outbox.old) (O.calls outbox.new)) }
    ensures cause { HasCause (O.channel_faults outbox.old) (O.channel_faults outbox.new) result }
    ensures links { O.link_faults outbox.old ≤ O.link_faults outbox.new }
{
    let mut place = 0;
    while let Some(passed) = pass(worker, incoming, place, buffer) {
        send(worker, incoming, place, passed, buffer, outbox)?;
        place += 1;
    }
    Ok(())
}

/// Says that a transport has learnt its other end.
pub(crate) fn tell_learnt<O: Outbox>(
    transport: Id,
    from: Tuple,
    buffer: &mut [u8],
    outbox: &mut O,
) -> Result<(), Failed>
    requires room { length buffer.old ≡ BUFFER }
    ensures told { OnOk result (Made (map call_of (notify (TupleLearnt transport from) ∷ [])) (O.link_faults outbox.old) (O.link_faults outbox.new) (O.calls outbox.old) (O.calls outbox.new)) }
    ensures err { OnErr result (StopsAtAFault (notify (TupleLearnt transport from) ∷ []) (O.link_faults outbox.old) (O.link_faults outbox.new) (O.calls outbox.old) (O.calls outbox.new)) }
    ensures cause { HasCause (O.channel_faults outbox.old) (O.channel_faults outbox.new) result }
    ensures links { O.link_faults outbox.new ≡ O.link_faults outbox.old }
{
    let framed = frame_tuple(transport, from, buffer);
    outbox.channel(&buffer[..framed])
}

// Gives the Consumer of the Producer at a place the packet, and writes what it passes on, if it does, behind the room for
// what comes before it in a frame.
fn pass(
    worker: &mut Worker,
    incoming: &Incoming<'_>,
    place: usize,
    buffer: &mut [u8],
) -> Option<Passed>
    requires room { length buffer.old ≡ BUFFER }
    ensures to { option_map (λ p. (p.consumer, p.transport)) result ≡ slice_get (targets incoming.now worker.old) place }
    ensures remote { IfSome result (λ p. p.remote ≡ remote_in worker.old (record { router = incoming.now.router; transport = p.transport })) }
    ensures packet { IfSome result (λ p. option_map (λ n. take n (drop FRAME_HEAD buffer.new)) p.length ≡ passed_one incoming.now p.consumer worker.old) }
    ensures state { IfSome result (λ p. worker.new ≡ behind_one incoming.now p.consumer worker.old) }
    ensures none { IfNone result (worker.new ≡ worker.old) }
    ensures limit { IfSome result (λ p. IfSome p.length (λ n. n ≤ 65535)) }
    ensures more { IfSome result (λ _. place + 1 < 2 ^ 64) }
{
    let (_head, room) = buffer.split_at_mut(FRAME_HEAD);
    pass_to(worker, incoming, place, room)
}

// Sends what the Consumer at a place has passed on of the packet, if it did: to the other end of its transport, or as a
// payload for its id.
fn send<O: Outbox>(
    worker: &mut Worker,
    incoming: &Incoming<'_>,
    place: usize,
    passed: Passed,
    buffer: &mut [u8],
    outbox: &mut O,
) -> Result<(), Failed>
    requires room { length buffer.old ≡ BUFFER }
    requires limit { IfSome passed.length (λ n. n ≤ 65535) }
    ensures state { worker.new ≡ worker.old }
    ensures told { OnOk result (Made (map call_of (listed (sent_of worker.old incoming.now.router passed (drop FRAME_HEAD buffer.old)))) (O.link_faults outbox.old) (O.link_faults outbox.new) (O.calls outbox.old) (O.calls outbox.new)) }
    ensures err { OnErr result (StopsAtAFault (listed (sent_of worker.old incoming.now.router passed (drop FRAME_HEAD buffer.old))) (O.link_faults outbox.old) (O.link_faults outbox.new) (O.calls outbox.old) (O.calls outbox.new)) }
    ensures cause { HasCause (O.channel_faults outbox.old) (O.channel_faults outbox.new) result }
    ensures links { O.link_faults outbox.old ≤ O.link_faults outbox.new }
{
    let Some(length) = passed.length else {
        return Ok(());
    };
    let Some((link, to)) = end_of(worker, incoming, place, passed) else {
        let framed = frame_packet(passed.consumer, length, buffer);
        return outbox.channel(&buffer[..framed]);
    };
    let _lost = outbox.datagram(link, to, &buffer[FRAME_HEAD..FRAME_HEAD + length]);
    Ok(())
}

// The link of a Consumer's transport and the tuple of its other end, where both are there. The link is looked for where it
// was noted at the Consumer, and where it stands elsewhere that is noted.
fn end_of(
    worker: &mut Worker,
    incoming: &Incoming<'_>,
    place: usize,
    passed: Passed,
) -> Option<(u32, Tuple)>
    ensures end { result ≡ end_of worker.old (record { router = incoming.now.router; transport = passed.transport }) passed.remote }
    ensures state { worker.new ≡ worker.old }
{
    let to = passed.remote?;
    let at = Place {
        router: incoming.router,
        transport: passed.transport,
    };
    let mut near = passed.noted;
    let link = worker.link_near(at, &mut near)?;
    if near != passed.noted {
        note(worker, incoming, place, near);
    }
    Some((link, to))
}
