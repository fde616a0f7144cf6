//! The parts of a packet that tell where the next one begins.

ghost use Rattle.std.specs.Prelude.{◌≡◌, ◌+◌, ◌-◌, ◌*◌, ◌/◌, ◌%◌, ◌<◌, ◌≤◌, ◌==◌, false, length, take, drop, IsTrue, IfSome, MatchOption};
ghost use Rattle.rtp_packet.specs.Fault.{csrc_count, behind_header, behind_csrcs, extension_len, is_bad_padding};
ghost use Rattle.rtp_packet.specs.Reading.{extension_at, extension_value, without_padding};

use byteorder::{BigEndian, ByteOrder};

/// The length of the fixed header.
pub(crate) const HEADER_LEN: usize = 12;

const PADDING: u8 = 0x20;

const EXTENSION: u8 = 0x10;

const CSRC_COUNT: u8 = 0x0f;

/// A header extension, and what follows it.
type Split<'a> = (Option<(u16, &'a [u8])>, &'a [u8]);

/// The version that the first byte has.
pub(crate) fn version(first: u8) -> u8
    ensures { result ≡ first / 64 }
{
    first >> 6
}

/// Whether the first byte has the padding bit.
pub(crate) fn has_padding(first: u8) -> bool
    ensures { result ≡ (first / 32 % 2 == 1) }
{
    first & PADDING != 0
}

/// Whether the first byte has the extension bit.
pub(crate) fn has_extension(first: u8) -> bool
    ensures { result ≡ (first / 16 % 2 == 1) }
{
    first & EXTENSION != 0
}

/// The fixed header and the CSRCs, which the bytes have whole.
pub(crate) fn header_of(bytes: &[u8]) -> &[u8]
    requires whole_header { 12 ≤ length bytes.now }
    requires csrcs { 4 * csrc_count bytes.now ≤ length (behind_header bytes.now) }
    ensures { result.now ≡ take (12 + 4 * csrc_count bytes.now) bytes.now }
{
    &bytes[..HEADER_LEN + 4 * usize::from(bytes[0] & CSRC_COUNT)]
}

/// What stands between the fixed header with the CSRCs and this body, which is the end of the bytes.
pub(crate) fn between<'a>(bytes: &'a [u8], body: &[u8]) -> &'a [u8]
    requires whole_header { 12 ≤ length bytes.now }
    requires csrcs { 4 * csrc_count bytes.now ≤ length (behind_header bytes.now) }
    requires body { length body.now ≤ length (behind_csrcs bytes.now) }
    ensures { result.now ≡ take (length (behind_csrcs bytes.now) - length body.now) (behind_csrcs bytes.now) }
{
    let rest = &bytes[header_of(bytes).len()..];
    &rest[..rest.len() - body.len()]
}

/// What follows the fixed header and the CSRCs that the first byte counts. `None` where the bytes end
/// within the CSRCs.
pub(crate) fn skip_csrcs(bytes: &[u8]) -> Option<&[u8]>
    requires { 12 ≤ length bytes.now }
    ensures { MatchOption result (length (behind_header bytes.now) < 4 * csrc_count bytes.now)
        (λ rest. (4 * csrc_count bytes.now ≤ length (behind_header bytes.now)) × (rest.now ≡ behind_csrcs bytes.now)) }
{
    let len = 4 * usize::from(bytes[0] & CSRC_COUNT);
    let rest = &bytes[HEADER_LEN..];
    if rest.len() < len {
        return None;
    }
    Some(&rest[len..])
}

/// Splits the header extension off the front of the bytes, if the packet has one there: the 16 bits that
/// its profile defines, and its words. `None` where the bytes end within it.
pub(crate) fn split_extension(there: bool, bytes: &[u8]) -> Option<Split<'_>>
    ensures fits { MatchOption result (length bytes.now < extension_len there bytes.now)
        (λ _. extension_len there bytes.now ≤ length bytes.now) }
    ensures extension { IfSome result (λ split. extension_value split.0 ≡ extension_at there bytes.now) }
    ensures rest { IfSome result (λ split. split.1.now ≡ drop (extension_len there bytes.now) bytes.now) }
{
    if !there {
        return Some((None, bytes));
    }
    if bytes.len() < 4 {
        return None;
    }
    let profile = BigEndian::read_u16(bytes);
    let len = 4 * usize::from(BigEndian::read_u16(&bytes[2..]));
    let behind = &bytes[4..];
    if behind.len() < len {
        return None;
    }
    let (words, rest) = behind.split_at(len);
    Some((Some((profile, words)), rest))
}

/// Takes the padding off the end of the bytes, if the packet has some there. `None` where the last byte
/// is no count of it.
pub(crate) fn strip_padding(there: bool, bytes: &[u8]) -> Option<&[u8]>
    ensures { MatchOption result (IsTrue (is_bad_padding there bytes.now))
        (λ rest. (is_bad_padding there bytes.now ≡ false) × (rest.now ≡ without_padding there bytes.now)) }
{
    if !there {
        return Some(bytes);
    }
    let len = usize::from(*bytes.last()?);
    if len == 0 || bytes.len() < len {
        return None;
    }
    Some(&bytes[..bytes.len() - len])
}
