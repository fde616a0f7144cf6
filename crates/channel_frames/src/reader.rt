ghost use Rattle.std.specs.Prelude.{◌≡◌, ◌≤◌, ◌↔◌, ℕ, List, [], ◌∷◌, ◌++◌, length, drop, true, false, Ok, Err, Some, None, IfOk, IfErr, OnOk, OnErr, MatchResult, option_to_list};
ghost use Rattle.channel_frames.specs.Frames.{frames, rest_of, is_broken, break_length, begins_with_frame};
ghost use Rattle.channel_frames.specs.Reading.{unstarted, with_piece, answer_of, left_of, drained};
ghost use Rattle.channel_frames.specs.declared.fault.FrameFault.TheVariants as fault;

use crate::fault::FrameFault;
use crate::parts::{HEADER, breaks, first_payload, first_too_long, rest_of};
use ms_base::{Bytes, NoMemory};
use std::alloc::Global;
use std::marker::Model;

/// Reads the payloads of a stream that comes in pieces. Contracts see how many bytes of the stream were handed out,
/// by whole frames, and the bytes that came behind these.
///
/// A byte is copied when it is fed and when it is handed out. `feed` also moves the unread bytes over those that were
/// handed out, where these are as many or more: so no more bytes are moved than were handed out, and their room is
/// used again.
#[derive(Debug, Drop)]
pub struct FrameReader {
    alloc: Global,
    // Bytes that were handed out, and behind them the unread ones.
    buffer: Vec<u8>,
    // Where in the buffer the unread bytes begin.
    start: usize,
    place: u64,
}

impl Model for FrameReader {
    ghost use Rattle.std.specs.Prelude.{◌≤◌, length, drop};
    ghost use Rattle.channel_frames.specs.Reading.{Reading};

    ghost Value = { Reading };

    ghost view = { λ r. record { place = r.place; unread = drop r.start r.buffer.items } };

    ghost invariant = { λ r. r.start ≤ length r.buffer.items };
}

impl FrameReader {
    /// A reader of a stream of which nothing came. It takes memory only when bytes are fed.
    pub fn new(alloc: Global) -> FrameReader
        ensures { result ≡ unstarted }
    {
        FrameReader {
            alloc,
            buffer: Vec::new(alloc),
            start: 0,
            place: 0,
        }
    }

    /// Adds a piece to the stream, all or nothing.
    pub fn feed(&mut self, piece: &[u8]) -> Result<(), NoMemory>
        ensures ok { OnOk result (self.new ≡ with_piece self.old piece.now) }
        ensures err { OnErr result (self.new ≡ self.old) }
    {
        self.start = compact(&mut self.buffer, self.start);
        self.buffer.extend_from_slice(piece)?;
        Ok(())
    }

    /// Hands out the next payload, `None` where no whole one came yet.
    ///
    /// # Errors
    ///
    /// `TooLong` where a length over the limit stands in a frame's place, from then on. `NoMemory` only where
    /// there is a payload; the reader is then as it was.
    pub fn next_payload(&mut self) -> Result<Option<Bytes>, FrameFault>
        // The first payload of the unread bytes, unless memory runs out.
        ensures payload { (first : List ℕ) (later : List (List ℕ)) → frames self.old.unread ≡ first ∷ later
            → MatchResult result (λ found. found ≡ Some first) (λ wrong. wrong ≡ fault.NoMemory) }
        // Where they have none, nothing is left to memory.
        ensures otherwise { frames self.old.unread ≡ [] → result ≡ answer_of self.old }
        // None, and which break, exactly where it is due.
        ensures none { (result ≡ Ok None) ↔ ((frames self.old.unread ≡ []) × (is_broken self.old.unread ≡ false)) }
        ensures too_long { (place told : ℕ) → (result ≡ Err (fault.TooLong place told))
            ↔ ((frames self.old.unread ≡ []) × (is_broken self.old.unread ≡ true) × (place ≡ self.old.place) × (told ≡ break_length self.old.unread)) }
        // What is left.
        ensures ok { OnOk result (self.new ≡ left_of self.old) }
        ensures err { OnErr result (self.new ≡ self.old) }
        // The unread bytes are then a stream with one frame less, with the same rest, and with the same break.
        ensures others { IfOk result (λ found. frames self.old.unread ≡ option_to_list found ++ frames self.new.unread) }
        ensures rest { rest_of self.new.unread ≡ rest_of self.old.unread }
        ensures drained { drained self.new ≡ drained self.old }
    {
        let unread = &self.buffer[self.start..];
        let Some(payload) = first_payload(unread) else {
            return without_payload(unread, self.place);
        };
        let payload = Bytes::from_slice(self.alloc, payload)?;
        let size = HEADER + payload.len();
        self.start += size;
        self.place = self.place.saturating_add(size as u64);
        Ok(Some(payload))
    }

    /// Whether the stream is broken with this piece behind it: a length over the limit stands behind its whole
    /// frames, whether they were handed out or not. It takes no memory, and changes nothing.
    pub fn breaks_with(&self, piece: &[u8]) -> bool
        ensures { result ≡ is_broken (self.now.unread ++ piece.now) }
    {
        breaks(rest_of(&self.buffer[self.start..]), piece)
    }
}

// Lets the bytes in front of `start` go where they are half of all or more, and gives the place where the others
// begin then.
fn compact(buffer: &mut Vec<u8>, start: usize) -> usize
    requires { start ≤ length buffer.old.items }
    ensures within { result ≤ length buffer.new.items }
    ensures unread { drop result buffer.new.items ≡ drop start buffer.old.items }
{
    let unread = buffer.len() - start;
    if start < unread {
        return start;
    }
    buffer.copy_within(start.., 0);
    buffer.truncate(unread);
    0
}

// The answer where no whole payload stands at the front of the unread bytes, which begin at this place.
fn without_payload(unread: &[u8], place: u64) -> Result<Option<Bytes>, FrameFault>
    requires { begins_with_frame unread.now ≡ false }
    ensures { result ≡ answer_of (record { place = place; unread = unread.now }) }
{
    match first_too_long(unread) {
        Some(length) => Err(FrameFault::TooLong { place, length }),
        None => Ok(None),
    }
}
