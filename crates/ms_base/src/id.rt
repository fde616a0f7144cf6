ghost use Rattle.std.specs.Prelude.{◌≡◌, ◌≢◌, ℕ, ◌^◌, ◌<◌, ◌≤◌, IfOk, Err, Some, false, ◌↔◌, IsUtf8, option_map};
ghost use Rattle.ms_base.specs.Id.{id_bytes, id_text, is_id_text, id_of_text, IsIdSource};

use std::alloc::Global;
use thiserror::Error;
use uuid::Uuid;

/// The id of an object: the sixteen bytes of a UUID (RFC 9562).
#[derive(Clone, Copy, Debug, PartialEq, Eq)]
pub struct Id(pub [u8; 16]);

/// Why bytes were not read as an id.
#[derive(Clone, Copy, Debug, PartialEq, Eq, Error)]
pub enum IdFault {
    #[error("not the hyphenated form of a UUID")]
    BadId,
    #[error("out of memory")]
    NoMemory,
}

impl Id {
    /// The id of version 4 whose 60 free bits before the variant are the seed, and whose 62 after it
    /// are `n` (RFC 9562, section 5.4).
    pub fn of(seed: u64, n: u32) -> Id
        requires seed_fits { seed < 2 ^ 60 }
        requires from_one { 1 ≤ n }
        ensures { result.0 ≡ id_bytes seed n }
    {
        let high = seed / 0x1000 * 0x1_0000 + 0x4000 + seed % 0x1000;
        let low = (1 << 63) + n as u64;
        let mut bytes = [0; 16];
        bytes[..8].copy_from_slice(&high.to_be_bytes());
        bytes[8..].copy_from_slice(&low.to_be_bytes());
        Id(bytes)
    }

    /// The id that the bytes are the hyphenated form of: 36 characters, in either case of letters. `None`
    /// comes exactly where they are not of that form. It takes no memory.
    #[tactic(auto, using(crate::proofs::IdLemmas::parsed_is_id_of_text, crate::proofs::IdLemmas::other_length_is_no_id, crate::proofs::IdLemmas::no_id_of_text, crate::proofs::IdLemmas::id_text_of_some))]
    pub fn parse(bytes: &[u8]) -> Option<Id>
        ensures { option_map (λ id. id.0) result ≡ id_of_text bytes.now }
    {
        // Other lengths may be other forms of a UUID, with braces or without hyphens.
        if bytes.len() != 36 {
            return None;
        }
        match Uuid::try_parse_ascii(bytes) {
            Ok(id) => Some(Id(id.into_bytes())),
            Err(_) => None,
        }
    }

    /// The id that the bytes are the hyphenated form of, as [`Id::parse`] reads it. `BadId` comes exactly
    /// where they are not of that form. The parser takes no memory today, so `NoMemory` never comes.
    #[tactic(auto, using(crate::proofs::IdLemmas::no_id_of_text, crate::proofs::IdLemmas::id_text_of_some))]
    pub fn read(_alloc: Global, bytes: &[u8]) -> Result<Id, IdFault>
        ensures ok { IfOk result (λ id. id_of_text bytes.now ≡ Some id.0) }
        ensures bad { (result ≡ Err IdFault.BadId) ↔ (is_id_text bytes.now ≡ false) }
        ensures memory { result ≢ Err IdFault.NoMemory }
    {
        match Id::parse(bytes) {
            Some(id) => Ok(id),
            None => Err(IdFault::BadId),
        }
    }

    /// The hyphenated form in lower case. It reads back as the id.
    #[tactic(auto, using(crate::proofs::IdLemmas::parsed_is_id_of_text, crate::proofs::IdLemmas::hyphenated_is_id_text, crate::proofs::IdTextLemmas::id_text_is_utf8))]
    pub fn text(&self) -> [u8; 36]
        ensures value { result ≡ id_text self.now.0 }
        ensures reads_back { id_of_text result ≡ Some self.now.0 }
        ensures utf8 { IsUtf8 result }
    {
        let mut buffer = [0; 36];
        let id = Uuid::from_bytes(self.0).hyphenated();
        let mut text = [0; 36];
        text.copy_from_slice(id.encode_lower(&mut buffer).as_bytes());
        text
    }
}

/// No two ids of seeds and numbers are the same: the bytes of an id tell both. The function does
/// nothing; its contract is the law.
#[tactic(auto, using(crate::proofs::IdLemmas::id_tells_seed, crate::proofs::IdLemmas::id_tells_number))]
pub fn ids_differ()
    ensures seed { (s t m n : ℕ) → IsIdSource s m → IsIdSource t n → id_bytes s m ≡ id_bytes t n → s ≡ t }
    ensures number { (s t m n : ℕ) → IsIdSource s m → IsIdSource t n → id_bytes s m ≡ id_bytes t n → m ≡ n }
{}
