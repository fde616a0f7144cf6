ghost use Rattle.std.specs.Prelude.{◌≤◌, length, IfOk};
ghost use Rattle.channel_frames.specs.Frames.{max_payload};
ghost use Rattle.host_notes.specs.Sent.{IsShort, max_packet};

use crate::Notes;
use ms_base::{Bytes, CallKey, Id, Outcome, Verdict, WorkerKey};
use std::alloc::Global;
use std::test::Fail;
use transcript::Note;

const FIRST: WorkerKey = WorkerKey {
    slot: 1,
    generation: 1,
};

const CALL: CallKey = CallKey { lane: 1, place: 2 };

fn sent(alloc: Global, payload: &[u8]) -> Result<Note, Fail>
    requires { length payload.now ≤ max_payload }
    ensures { IfOk result IsShort }
{
    Ok(Note::Sent {
        worker: FIRST,
        payload: Bytes::from_slice(alloc, payload)?,
    })
}

fn sent_packet(alloc: Global, packet: &[u8]) -> Result<Note, Fail>
    requires { length packet.now ≤ max_packet }
    ensures { IfOk result IsShort }
{
    Ok(Note::SentRtp {
        worker: FIRST,
        id: Id::of(7, 10),
        packet: Bytes::from_slice(alloc, packet)?,
    })
}

// One request was sent, a call has settled twice, and another request was sent.
fn four_notes(alloc: Global) -> Result<Notes, Fail> {
    let mut notes = Notes::new(alloc);
    notes.push(sent(alloc, b"ab")?)?;
    for outcome in [Outcome::NoName, Outcome::Done] {
        notes.push(Note::Settled {
            call: CALL,
            outcome,
        })?;
    }
    notes.push(sent(alloc, b"c")?)?;
    Ok(notes)
}

#[test]
fn the_frames_of_a_worker_are_joined(rt: HostRuntime) -> Result<(), Fail> {
    let notes = four_notes(rt.alloc())?;
    assert_eq!(rt; notes.sent(FIRST), b"\x02\0\0\0ab\x01\0\0\0c".as_slice());
    Ok(())
}

// A packet was sent behind a request.
fn two_notes(alloc: Global) -> Result<Notes, Fail> {
    let mut notes = Notes::new(alloc);
    notes.push(sent(alloc, b"ab")?)?;
    notes.push(sent_packet(alloc, b"xyz")?)?;
    Ok(notes)
}

#[test]
fn packets_go_behind_the_ids_of_their_producers(rt: HostRuntime) -> Result<(), Fail> {
    let mut notes = two_notes(rt.alloc())?;
    let both = b"\x02\0\0\0ab\x28\0\0\0R00000000-0000-4007-8000-00000000000axyz";
    assert_eq!(rt; notes.sent(FIRST), both.as_slice());
    notes.truncate(1);
    assert_eq!(rt; notes.sent(FIRST), b"\x02\0\0\0ab".as_slice());
    Ok(())
}

#[test]
fn the_first_verdict_counts(rt: HostRuntime) -> Result<(), Fail> {
    let notes = four_notes(rt.alloc())?;
    assert_eq!(rt; notes.verdict(CALL), Some(Verdict::NoName));
    Ok(())
}

#[test]
fn what_is_cut_off_is_forgotten(rt: HostRuntime) -> Result<(), Fail> {
    let mut notes = four_notes(rt.alloc())?;
    notes.truncate(1);
    assert_eq!(rt; (notes.len(), notes.as_slice().len()), (1, 1));
    assert_eq!(rt; notes.verdict(CALL), None);
    assert_eq!(rt; notes.sent(FIRST), b"\x02\0\0\0ab".as_slice());
    Ok(())
}
