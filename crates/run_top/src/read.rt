ghost use Rattle.std.specs.Prelude.{◌≡◌, ◌⊎◌, ◌+◌, ◌≤◌, ◌<◌, [], length, IfOk, IfErr, OnOk, IsErrOf};
ghost use Rattle.ms_devices.specs.Causes.{Rose};
ghost use Rattle.ms_devices.specs.Told.{Tells};
ghost use Rattle.journal_text.specs.Written.{max_journal};
ghost use Rattle.run_top.specs.Reading.{Moves};
ghost use Rattle.run_top.specs.Replay.{ReadsFront, ReadsOnePast, StopsPastLimit};

use ms_base::Bytes;
use ms_devices::Source;
use std::alloc::Global;

/// How many bytes the text of a journal may have.
const MAX_JOURNAL: usize = journal_text::MAX_JOURNAL as usize;

/// How many bytes are read at once.
const PIECE: usize = 65_536;

/// Why a text was not read to its end.
#[derive(Clone, Copy, Debug, PartialEq, Eq)]
pub(crate) enum ReadFault {
    /// The source failed.
    Failed,
    /// The text is longer than it may be. No more was read than the first byte past the limit.
    TooLong,
    NoMemory,
}

/// Reads a source to its end, or until the text is longer than it may be.
pub(crate) fn read_text<S: Source>(alloc: Global, source: &mut S) -> Result<Bytes, ReadFault>
    ensures ok { IfOk result (λ text. Tells (λ before now. (before ≡ text) × (now ≡ [])) (S.holds source.old) (S.holds source.new)) }
    ensures limit { IfOk result (λ text. length text ≤ max_journal) }
    ensures one_past { IsErrOf result ReadFault.TooLong → Tells ReadsOnePast (S.holds source.old) (S.holds source.new) }
    ensures failed { IsErrOf result ReadFault.Failed → Rose (S.faults source.old) (S.faults source.new) }
    ensures still { ¬ IsErrOf result ReadFault.Failed → S.faults source.new ≡ S.faults source.old }
    ensures count { S.faults source.old ≤ S.faults source.new }
    ensures front { Tells ReadsFront (S.holds source.old) (S.holds source.new) }
    ensures stops { Tells StopsPastLimit (S.holds source.old) (S.holds source.new) }
{
    let mut text = Bytes::new(alloc);
    let mut place = zeroes(alloc, PIECE)?;
    fill(source, place.as_mut_slice(), &mut text)?;
    Ok(text)
}

/// So many zero bytes.
pub(crate) fn zeroes(alloc: Global, count: usize) -> Result<Vec<u8>, ReadFault>
    ensures count { IfOk result (λ place. length place.items ≡ count) }
    ensures only { IfErr result (λ fault. fault ≡ ReadFault.NoMemory) }
{
    vec![in alloc; 0u8; count].map_err(|_why| ReadFault::NoMemory)
}

// Adds what the source holds to an empty text, piece by piece, until the text is longer than it may be.
#[tactic(auto, using(crate::proofs::ReadLemmas::front_behind))]
fn fill<S: Source>(source: &mut S, place: &mut [u8], text: &mut Bytes) -> Result<(), ReadFault>
    requires place { 0 < length place.old }
    requires empty { text.old ≡ [] }
    ensures ok { OnOk result (Tells (λ before now. (before ≡ text.new) × (now ≡ [])) (S.holds source.old) (S.holds source.new)) }
    ensures limit { OnOk result (length text.new ≤ max_journal) }
    ensures one_past { IsErrOf result ReadFault.TooLong → Tells ReadsOnePast (S.holds source.old) (S.holds source.new) }
    ensures failed { IsErrOf result ReadFault.Failed → Rose (S.faults source.old) (S.faults source.new) }
    ensures still { ¬ IsErrOf result ReadFault.Failed → S.faults source.new ≡ S.faults source.old }
    ensures count { S.faults source.old ≤ S.faults source.new }
    ensures front { Tells ReadsFront (S.holds source.old) (S.holds source.new) }
    ensures stops { Tells StopsPastLimit (S.holds source.old) (S.holds source.new) }
{
    while text.len() <= MAX_JOURNAL {
        let room = place.len().min(MAX_JOURNAL + 1 - text.len());
        if read_piece(source, &mut place[..room], text)? == 0 {
            return Ok(());
        }
    }
    Err(ReadFault::TooLong)
}

// Reads once into the place, and adds what was read to the text.
fn read_piece<S: Source>(
    source: &mut S,
    place: &mut [u8],
    text: &mut Bytes,
) -> Result<usize, ReadFault>
    requires { 0 < length place.old }
    ensures ok { IfOk result (λ n. Tells (Moves text.old text.new) (S.holds source.old) (S.holds source.new)) }
    ensures grown { IfOk result (λ n. length text.new ≡ length text.old + n) }
    ensures room { IfOk result (λ n. n ≤ length place.old) }
    ensures end { IfOk result (λ n. n ≡ 0 → Tells (λ before _. before ≡ []) (S.holds source.old) (S.holds source.new)) }
    ensures failed { IsErrOf result ReadFault.Failed → Rose (S.faults source.old) (S.faults source.new) }
    ensures still { ¬ IsErrOf result ReadFault.Failed → S.faults source.new ≡ S.faults source.old }
    ensures count { S.faults source.old ≤ S.faults source.new }
    ensures front { Tells ReadsFront (S.holds source.old) (S.holds source.new) }
    ensures only { IfErr result (λ fault. (fault ≡ ReadFault.Failed) ⊎ (fault ≡ ReadFault.NoMemory)) }
    ensures stops { Tells (λ before now. length before ≤ length now + length place.old) (S.holds source.old) (S.holds source.new) }
{
    let Ok(count) = source.read(place) else {
        return Err(ReadFault::Failed);
    };
    if text.extend_from_slice(&place[..count]).is_err() {
        return Err(ReadFault::NoMemory);
    }
    Ok(count)
}
