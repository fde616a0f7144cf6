ghost use Rattle.std.specs.Prelude.{◌≡◌, ◌-◌, List, [], ◌∷◌, ◌++◌, length, take, OnOk, OnErr};
ghost use Rattle.channel_msgs.specs.Packet.{packet_head};
ghost use Rattle.host_notes.specs.Indexes.{AreIndexed, IsPlaceOf, place_of, verdict_at};
ghost use Rattle.host_notes.specs.Verdicts.{settled_in, verdict_in};
ghost use Rattle.host_notes.specs.Sent.{IsShort, sent_of};
ghost use Rattle.ms_base.specs.declared.keys.CallKey.{CallKey};
ghost use Rattle.ms_base.specs.declared.keys.WorkerKey.{WorkerKey};

use crate::sent::{LENGTH_SIZE, SentBytes};
use channel_msgs::{PACKET_HEAD, write_packet_head};
use ms_base::{CallKey, Id, NoMemory, Verdict, WorkerKey};
use std::alloc::Global;
use std::collections::BTreeMap;
use std::marker::Model;
use transcript::Note;

/// The notes, in order.
#[derive(Debug, Drop)]
pub struct Notes {
    items: Vec<Note>,
    /// The place of the first note that settles a call, by its lane and its place in the lane.
    places: BTreeMap<(u32, u32), usize>,
    /// The bytes that went to each worker.
    sent: SentBytes,
}

impl Model for Notes {
    ghost use Rattle.std.specs.Prelude.{List};
    ghost use Rattle.transcript.specs.declared.note.Note.{Note};

    ghost Value = { List Note };

    ghost use Rattle.host_notes.specs.Indexes.{AreIndexed};

    ghost view = { λ n. n.items.items };

    ghost invariant = { λ n. AreIndexed n.items.items n.places n.sent };
}

impl Notes {
    pub fn new(alloc: Global) -> Notes
        ensures { result ≡ [] }
    {
        Notes {
            items: Vec::new(alloc),
            places: BTreeMap::new(alloc),
            sent: SentBytes::new(alloc),
        }
    }

    pub fn len(&self) -> usize
        ensures { result ≡ length self.now }
    {
        self.items.len()
    }

    pub fn as_slice(&self) -> &[Note]
        ensures { result.now ≡ self.now }
    {
        self.items.as_slice()
    }

    /// Adds a note behind the others. The payload of a request, and a packet, are within their limits.
    pub fn push(&mut self, note: Note) -> Result<(), NoMemory>
        requires { IsShort note }
        ensures ok { OnOk result (self.new ≡ self.old ++ note ∷ []) }
        ensures err { OnErr result (self.new ≡ self.old) }
    {
        self.items.reserve(1)?;
        index(
            &mut self.places,
            &mut self.sent,
            self.items.as_slice(),
            &note,
        )?;
        self.items.push_reserved(note);
        Ok(())
    }

    /// Keeps the first `len` notes, or all where there are no more.
    pub fn truncate(&mut self, len: usize)
        ensures { self.new ≡ take len self.old }
    {
        while self.items.len() > len {
            self.pop();
        }
    }

    /// What a call has come to, if it has settled: what the first note that settles it says.
    pub fn verdict(&self, key: CallKey) -> Option<Verdict>
        ensures { result ≡ verdict_in self.now key }
    {
        verdict_at(&self.places, self.items.as_slice(), key)
    }

    /// The bytes that went to a worker.
    pub fn sent(&self, worker: WorkerKey) -> &[u8]
        ensures { result.now ≡ sent_of self.now worker }
    {
        self.sent.get(worker)
    }

    // Takes the last note away, if there is one.
    fn pop(&mut self)
        ensures { self.new ≡ take (length self.old - 1) self.old }
    {
        let Some(last) = self.items.pop() else {
            return;
        };
        match last {
            Note::Sent { worker, payload } => {
                self.sent.cut(worker, LENGTH_SIZE + payload.len());
            }
            Note::SentRtp { worker, id, packet } => {
                let head = packet_head(id);
                self.sent
                    .cut(worker, LENGTH_SIZE + head.len() + packet.len());
            }
            _ => {}
        }
    }
}

// Keeps in the indexes of some notes what the note that comes next adds.
fn index(
    places: &mut BTreeMap<(u32, u32), usize>,
    sent: &mut SentBytes,
    notes: &[Note],
    next: &Note,
) -> Result<(), NoMemory>
    requires indexed { AreIndexed notes.now places.old sent.old }
    requires short { IsShort next.now }
    ensures ok { OnOk result (AreIndexed (notes.now ++ next.now ∷ []) places.new sent.new) }
    ensures err { OnErr result (AreIndexed notes.now places.new sent.new) }
{
    match next {
        Note::Sent { worker, payload } => sent.append(*worker, &[], payload.as_slice()),
        Note::SentRtp { worker, id, packet } => {
            sent.append(*worker, &packet_head(*id), packet.as_slice())
        }
        _ => keep_place(places, notes, next),
    }
}

// What stands before a packet for this id in its payload.
fn packet_head(id: Id) -> [u8; PACKET_HEAD]
    ensures { result ≡ packet_head id }
{
    let mut head = [0; PACKET_HEAD];
    write_packet_head(id, &mut head);
    head
}

// Keeps the place of the note that comes next, if it is the first that settles its call.
fn keep_place(
    places: &mut BTreeMap<(u32, u32), usize>,
    notes: &[Note],
    next: &Note,
) -> Result<(), NoMemory>
    requires { (key : CallKey) → IsPlaceOf notes.now key (place_of places.old key) }
    ensures ok { OnOk result ((key : CallKey) → IsPlaceOf (notes.now ++ next.now ∷ []) key (place_of places.new key)) }
    ensures err { OnErr result ((key : CallKey) → IsPlaceOf notes.now key (place_of places.new key)) }
{
    let Note::Settled { call, .. } = next else {
        return Ok(());
    };
    if verdict_at(places, notes, *call).is_none() {
        places.insert((call.lane, call.place), notes.len())?;
    }
    Ok(())
}

// What the note at a call's place says of the call.
fn verdict_at(places: &BTreeMap<(u32, u32), usize>, notes: &[Note], key: CallKey) -> Option<Verdict>
    ensures { result ≡ verdict_at notes.now key (place_of places.now key) }
{
    let place = places.get(&(key.lane, key.place))?;
    let note = notes.get(*place)?;
    settled_in(note, key)
}

// What a note says of a call.
fn settled_in(note: &Note, key: CallKey) -> Option<Verdict>
    ensures { result ≡ settled_in key note.now }
{
    match note {
        Note::Settled { call, outcome } if *call == key => Some(outcome.verdict()),
        _ => None,
    }
}
