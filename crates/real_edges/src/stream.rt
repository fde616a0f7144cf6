ghost use Rattle.std.specs.Prelude.{◌≡◌, ℕ, ◌≤◌, length, take, Ok, OnOk, IfErr, IfSome, IfNone};
ghost use Rattle.std.specs.Io.KnownBytes.{Appends, Keeps, ReadConsumes};

use std::io::{ErrorKind, Read, Write};

/// Reads once, again after each interruption. `None` is a failure.
#[tactic(auto, using(crate::proofs::KnownLemmas::keeps_same, crate::proofs::KnownLemmas::keeps_then, crate::proofs::KnownLemmas::keeps_consumes))]
pub(crate) fn read_once<S: Read>(stream: &mut S, into: &mut [u8]) -> Option<usize>
    ensures fits { IfSome result (λ n. n ≤ length into.old) }
    ensures len { length into.new ≡ length into.old }
    ensures bytes { IfSome result (λ n. ReadConsumes {E = ℕ} (S.remaining stream.old) (S.remaining stream.new) (Ok n) into.new) }
    ensures failed { IfNone result (Keeps (S.remaining stream.old) (S.remaining stream.new)) }
{
    for _ in 0..u64::MAX {
        match stream.read(into) {
            Ok(count) => return Some(count),
            Err(fault) if fault.kind() == ErrorKind::Interrupted => {}
            Err(_) => return None,
        }
    }
    None
}

/// Writes a piece to its end, and flushes it. A failure comes with the number of bytes that were written.
#[tactic(auto, using(crate::proofs::KnownLemmas::appends_none, crate::proofs::KnownLemmas::appends_then, crate::proofs::KnownLemmas::appends_keeps, crate::proofs::KnownLemmas::appends_all))]
pub(crate) fn write_whole<W: Write>(stream: &mut W, piece: &[u8]) -> Result<(), usize>
    ensures ok { OnOk result (Appends (W.contents stream.old) (W.contents stream.new) piece.now) }
    ensures err { IfErr result (λ written. Appends (W.contents stream.old) (W.contents stream.new) (take written piece.now)) }
{
    let mut written = 0;
    while written < piece.len() {
        match write_once(stream, &piece[written..]) {
            Some(count) if count > 0 => written += count,
            _ => return Err(written),
        }
    }
    match stream.flush() {
        Ok(()) => Ok(()),
        Err(_) => Err(written),
    }
}

// Writes once, again after each interruption. `None` is a failure.
#[tactic(auto, using(crate::proofs::KnownLemmas::keeps_same, crate::proofs::KnownLemmas::keeps_then, crate::proofs::KnownLemmas::keeps_appends))]
fn write_once<W: Write>(stream: &mut W, piece: &[u8]) -> Option<usize>
    ensures fits { IfSome result (λ n. n ≤ length piece.now) }
    ensures bytes { IfSome result (λ n. Appends (W.contents stream.old) (W.contents stream.new) (take n piece.now)) }
    ensures failed { IfNone result (Keeps (W.contents stream.old) (W.contents stream.new)) }
{
    for _ in 0..u64::MAX {
        match stream.write(piece) {
            Ok(count) => return Some(count),
            Err(fault) if fault.kind() == ErrorKind::Interrupted => {}
            Err(_) => return None,
        }
    }
    None
}
