ghost use Rattle.std.specs.Prelude.{◌≡◌, ◌≤◌, ◌+◌, ◌-◌, List, [], ◌++◌, length, take, OnOk, OnErr, if◌then◌else◌};
ghost use Rattle.channel_frames.specs.Frames.{frame, max_payload};
ghost use Rattle.host_notes.specs.Indexes.{bytes_to};
ghost use Rattle.host_notes.specs.Keys.{same_worker};
ghost use Rattle.ms_base.specs.Words.{IsFrontOf};
ghost use Rattle.ms_base.specs.declared.keys.WorkerKey.{WorkerKey};

use byteorder::{ByteOrder, LittleEndian};
use ms_base::{Bytes, NoMemory, WorkerKey};
use std::alloc::Global;
use std::collections::HashMap;

/// How many bytes of a frame tell the length of its payload.
pub(crate) const LENGTH_SIZE: usize = 4;

/// The bytes that went to each worker.
#[derive(Debug, Drop)]
pub(crate) struct SentBytes {
    alloc: Global,
    /// By the slot and the generation of the worker.
    items: HashMap<(u32, u32), Bytes>,
}

impl SentBytes {
    pub(crate) fn new(alloc: Global) -> SentBytes
        ensures { (w : WorkerKey) → bytes_to result w ≡ [] }
    {
        SentBytes {
            alloc,
            items: HashMap::new(alloc),
        }
    }

    /// The bytes that went to a worker.
    pub(crate) fn get(&self, worker: WorkerKey) -> &[u8]
        ensures { result.now ≡ bytes_to self.now worker }
    {
        match self.items.get(&(worker.slot, worker.generation)) {
            Some(bytes) => bytes.as_slice(),
            None => &[],
        }
    }

    /// Adds the frame of a payload, which comes in two parts and is within its limit, behind the bytes of a worker.
    pub(crate) fn append(
        &mut self,
        worker: WorkerKey,
        head: &[u8],
        rest: &[u8],
    ) -> Result<(), NoMemory>
        requires { length head.now + length rest.now ≤ max_payload }
        ensures ok { OnOk result ((w : WorkerKey) → bytes_to self.new w ≡ (if same_worker worker w then bytes_to self.old w ++ frame (head.now ++ rest.now) else bytes_to self.old w)) }
        ensures err { OnErr result ((w : WorkerKey) → bytes_to self.new w ≡ bytes_to self.old w) }
    {
        match self.items.get_mut(&(worker.slot, worker.generation)) {
            Some(bytes) => add_frame(head, rest, bytes),
            None => {
                let mut bytes = Bytes::new(self.alloc);
                add_frame(head, rest, &mut bytes)?;
                self.items.insert((worker.slot, worker.generation), bytes)?;
                Ok(())
            }
        }
    }

    /// Takes so many bytes away behind those of a worker.
    pub(crate) fn cut(&mut self, worker: WorkerKey, count: usize)
        ensures { (w : WorkerKey) → bytes_to self.new w ≡ (if same_worker worker w then take (length (bytes_to self.old w) - count) (bytes_to self.old w) else bytes_to self.old w) }
    {
        if let Some(bytes) = self.items.get_mut(&(worker.slot, worker.generation)) {
            let left = bytes.len().saturating_sub(count);
            bytes.truncate(left);
        }
    }
}

// Adds the frame of a payload, which comes in two parts and is within its limit.
fn add_frame(head: &[u8], rest: &[u8], into: &mut Bytes) -> Result<(), NoMemory>
    requires { length head.now + length rest.now ≤ max_payload }
    ensures ok { OnOk result (into.new ≡ into.old ++ frame (head.now ++ rest.now)) }
    ensures err { OnErr result (into.new ≡ into.old) }
{
    let before = into.len();
    let added = add_parts(head, rest, into);
    if added.is_err() {
        into.truncate(before);
    }
    added
}

// Adds the length and the two parts one after another. A failure may leave some of them there.
fn add_parts(head: &[u8], rest: &[u8], into: &mut Bytes) -> Result<(), NoMemory>
    requires { length head.now + length rest.now ≤ max_payload }
    ensures ok { OnOk result (into.new ≡ into.old ++ frame (head.now ++ rest.now)) }
    ensures err { OnErr result (IsFrontOf into.old into.new) }
{
    let mut size = [0; LENGTH_SIZE];
    LittleEndian::write_u32(&mut size, (head.len() + rest.len()) as u32);
    into.extend_from_slice(&size)?;
    into.extend_from_slice(head)?;
    into.extend_from_slice(rest)
}
