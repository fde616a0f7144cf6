ghost use Rattle.std.specs.Prelude.{◌≡◌, ℕ, List, IfOk, Err, IsTrue, true, false, ◌↔◌};
ghost use Rattle.std.specs.List.{list_all};
ghost use Rattle.ms_base.specs.Name.{is_name, is_name_byte};
ghost use Rattle.ms_base.specs.declared.name.NameFault.TheVariants.{NoMemory};

use crate::fault;
use std::alloc::{AllocError, Global};
use std::marker::Model;
use thiserror::Error;

/// The name of an object: 1 to 64 of `a-z`, `0-9` and `_`. Contracts see it as its bytes.
#[derive(Debug, Drop)]
pub struct Name {
    bytes: Vec<u8>,
}

/// Why bytes were not read as a name.
#[derive(Clone, Copy, Debug, PartialEq, Eq, Error)]
pub enum NameFault {
    #[error("not 1 to 64 of a-z, 0-9 and _")]
    BadName,
    #[error("out of memory")]
    NoMemory,
}

impl From<AllocError> for NameFault {
    ghost from_gives = { λ _ fault. fault ≡ NoMemory };

    fn from(_refused: AllocError) -> NameFault {
        NameFault::NoMemory
    }
}

impl Model for Name {
    ghost Value = { List ℕ };

    ghost view = { λ n. n.bytes.items };

    ghost invariant = { λ n. IsTrue (is_name n.bytes.items) };
}

// Whether a byte may stand in a name.
#[tactic(auto, unfolding(crate::specs::Name::is_name_byte))]
fn is_name_byte(byte: u8) -> bool
    ensures { result ≡ is_name_byte byte }
{
    matches!(byte, b'a'..=b'z' | b'0'..=b'9' | b'_')
}

// Whether each byte may stand in a name.
fn are_name_bytes(bytes: &[u8]) -> bool
    ensures { result ≡ list_all is_name_byte bytes.now }
{
    bytes.iter().all(|byte| is_name_byte(*byte))
}

// Whether the bytes are a name.
#[tactic(auto, unfolding(crate::specs::Name::is_name))]
fn is_name(bytes: &[u8]) -> bool
    ensures { result ≡ is_name bytes.now }
{
    1 <= bytes.len() && bytes.len() <= 64 && are_name_bytes(bytes)
}

impl Name {
    /// A copy of the bytes as a name. `BadName` comes exactly where they are not 1 to 64 of `a-z`,
    /// `0-9` and `_`.
    pub fn read(alloc: Global, bytes: &[u8]) -> Result<Name, NameFault>
        ensures ok { IfOk result (λ name. name ≡ bytes.now) }
        ensures bad { (result ≡ Err NameFault.BadName) ↔ (is_name bytes.now ≡ false) }
    {
        if !is_name(bytes) {
            return Err(NameFault::BadName);
        }
        let bytes = Vec::from_slice(alloc, bytes)?;
        Ok(Name { bytes })
    }

    /// A copy of the value.
    pub fn copy(&self, alloc: Global) -> Result<Name, fault::NoMemory>
        ensures { IfOk result (λ name. name ≡ self.now) }
    {
        let bytes = Vec::from_slice(alloc, self.bytes.as_slice())?;
        Ok(Name { bytes })
    }

    /// The name's bytes.
    pub fn as_slice(&self) -> &[u8]
        ensures value { result.now ≡ self.now }
        ensures form { is_name self.now ≡ true }
    {
        self.bytes.as_slice()
    }

    /// The name as a `&str`: it is ASCII.
    #[tactic(auto, using(crate::proofs::NameLemmas::name_is_utf8))]
    pub fn as_str(&self) -> &str
        ensures value { result.now ≡ self.now }
        ensures form { is_name self.now ≡ true }
    {
        match std::str::from_utf8(self.bytes.as_slice()) {
            Ok(text) => text,
            Err(_) => unreachable!(),
        }
    }
}

/// Two are equal where their bytes are.
impl PartialEq for Name {
    ghost use Rattle.std.specs.Cmp.Lexicographic.{nat_list_eq_equiv};
    ghost use Rattle.std.specs.Cmp.{partial_equiv_from_equiv};
    ghost use Rattle.std.specs.Str.{bytes_eq};

    ghost eq = { bytes_eq };

    ghost laws = { partial_equiv_from_equiv nat_list_eq_equiv };

    fn eq(&self, other: &Name) -> bool {
        self.as_slice() == other.as_slice()
    }
}

impl Eq for Name {
    ghost use Rattle.std.specs.Cmp.Lexicographic.{nat_list_eq_equiv};

    ghost laws = { nat_list_eq_equiv };
}
