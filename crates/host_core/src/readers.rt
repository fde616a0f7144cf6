ghost use Rattle.std.specs.Prelude.{◌≡◌, List, [], ◌∷◌, ◌++◌, Ok, Err, None, OnOk, OnErr, IfOk, IfErr, IfSome, ◌⊎◌, true, false, if◌then◌else◌};
ghost use Rattle.channel_frames.specs.Frames.{frames, rest_of, is_broken};
ghost use Rattle.channel_frames.specs.declared.fault.FrameFault.TheVariants as fault;
ghost use Rattle.host_core.specs.LookUps.{unread_of};
ghost use Rattle.host_notes.specs.Keys.{same_worker};
ghost use Rattle.ms_base.specs.declared.keys.WorkerKey.{WorkerKey};

use channel_frames::{FrameFault, FrameReader};
use ms_base::{Bytes, NoMemory, WorkerKey};
use std::alloc::Global;
use std::collections::HashMap;

/// The readers of the channels on which bytes have come.
#[derive(Debug, Drop)]
pub(crate) struct Readers {
    alloc: Global,
    /// By the slot and the generation of the worker.
    items: HashMap<(u32, u32), FrameReader>,
}

impl Readers {
    pub(crate) fn new(alloc: Global) -> Readers
        ensures { (w : WorkerKey) → unread_of result w ≡ [] }
    {
        Readers {
            alloc,
            items: HashMap::new(alloc),
        }
    }

    /// Adds bytes that have come by the channel of a worker.
    pub(crate) fn feed(&mut self, worker: WorkerKey, bytes: &[u8]) -> Result<(), NoMemory>
        ensures ok { OnOk result ((w : WorkerKey) → unread_of self.new w ≡ (if same_worker worker w then unread_of self.old w ++ bytes.now else unread_of self.old w)) }
        ensures err { OnErr result ((w : WorkerKey) → unread_of self.new w ≡ unread_of self.old w) }
    {
        match self.items.get_mut(&(worker.slot, worker.generation)) {
            Some(reader) => reader.feed(bytes),
            None => {
                let mut reader = FrameReader::new(self.alloc);
                reader.feed(bytes)?;
                self.items.insert((worker.slot, worker.generation), reader)?;
                Ok(())
            }
        }
    }

    /// The next payload of a worker that is whole. None comes where there is no further one.
    pub(crate) fn next_payload(&mut self, worker: WorkerKey) -> Result<Option<Bytes>, FrameFault>
        // The first of the frames is taken out.
        ensures payload { IfOk result (λ found. IfSome found (λ payload. (frames (unread_of self.old worker) ≡ payload ∷ frames (unread_of self.new worker)) × (rest_of (unread_of self.new worker) ≡ rest_of (unread_of self.old worker)))) }
        ensures none { result ≡ Ok None → (frames (unread_of self.old worker) ≡ []) × (unread_of self.new worker ≡ unread_of self.old worker) }
        ensures broken { IfErr result (λ wrong. (wrong ≡ fault.NoMemory) ⊎ (is_broken (unread_of self.old worker) ≡ true)) }
        ensures others { (w : WorkerKey) → same_worker worker w ≡ false → unread_of self.new w ≡ unread_of self.old w }
    {
        match self.items.get_mut(&(worker.slot, worker.generation)) {
            Some(reader) => reader.next_payload(),
            None => Ok(None),
        }
    }

    /// Whether these bytes bring a length over the limit in the place of a frame of a worker's stream.
    pub(crate) fn breaks_with(&self, worker: WorkerKey, bytes: &[u8]) -> bool
        ensures { result ≡ is_broken (unread_of self.now worker ++ bytes.now) }
    {
        match self.items.get(&(worker.slot, worker.generation)) {
            Some(reader) => reader.breaks_with(bytes),
            None => FrameReader::new(self.alloc).breaks_with(bytes),
        }
    }
}
