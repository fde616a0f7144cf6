ghost use Rattle.std.specs.Prelude.{◌≡◌, ◌==◌, ◌≤◌, ◌↔◌, ℕ, List, IfOk, IsTrue, MatchOption, map};
ghost use Rattle.std.specs.List.{slice_split};
ghost use Rattle.worker_play.specs.Reading.{IsNumber, IsHex, Gives};

use crate::fault::WordFault;
use hex::FromHexError;
use itoa::Buffer;
use ms_base::Bytes;
use std::alloc::{AllocError, Global};

/// The pieces of a text between separators.
pub fn pieces(alloc: Global, text: &[u8], separator: u8) -> Result<Vec<&[u8]>, AllocError>
    ensures { IfOk result (λ found. map (λ piece. piece.now) found.items ≡ slice_split (λ b. b == separator) text.now) }
{
    text.split(|byte| *byte == separator).collect(alloc)
}

/// Whether a word is the expected one.
pub fn is_word(word: &[u8], expected: &[u8]) -> bool
    ensures { IsTrue result ↔ (word.now ≡ expected.now) }
{
    word == expected
}

/// The number, up to the greatest, that the word has in decimal digits.
pub fn read_number(word: &[u8], greatest: u64) -> Option<u64>
    ensures { MatchOption result ((number : ℕ) → IsNumber greatest word.now number → ⊥) (IsNumber greatest word.now) }
{
    let Ok(digits) = std::str::from_utf8(word) else {
        return None;
    };
    let Ok(number) = digits.parse::<u64>() else {
        return None;
    };
    let mut buffer = Buffer::new();
    if number <= greatest && is_word(word, buffer.format(number).as_bytes()) {
        Some(number)
    } else {
        None
    }
}

/// The bytes that the word has in hexadecimal digits.
pub fn read_hex(alloc: Global, word: &[u8]) -> Result<Bytes, WordFault>
    ensures { Gives (IsHex word.now) result }
{
    match hex::decode(alloc, word) {
        Ok(bytes) => Ok(Bytes::from_vec(bytes)),
        Err(FromHexError::OutOfMemory) => Err(WordFault::NoMemory),
        Err(_) => Err(WordFault::Bad),
    }
}
