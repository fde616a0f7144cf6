//! What stands at the front of some bytes of a stream, and what stands behind their frames.

ghost use Rattle.std.specs.Prelude.{◌≡◌, ◌≤◌, ◌<◌, ◌+◌, ◌++◌, ◌^◌, length, take, drop, MatchOption, true, false};
ghost use Rattle.channel_frames.specs.Frames.{told_length, rest_of, is_broken, begins_too_long, begins_with_frame};

use byteorder::{ByteOrder, LittleEndian};

/// How many bytes a payload may have.
pub const MAX_PAYLOAD: usize = 4_194_304;

/// How many bytes tell the length of a payload.
pub(crate) const HEADER: usize = 4;

/// The bytes of the payload at the front, where a whole frame within the limit stands there.
pub(crate) fn first_payload(bytes: &[u8]) -> Option<&[u8]>
    ensures { MatchOption result
        (begins_with_frame bytes.now ≡ false)
        (λ payload. (begins_with_frame bytes.now ≡ true) × (payload.now ≡ take (told_length bytes.now) (drop 4 bytes.now)) × (length payload.now ≡ told_length bytes.now)) }
{
    if bytes.len() < HEADER {
        return None;
    }
    let length = LittleEndian::read_u32(bytes) as usize;
    if length > MAX_PAYLOAD || bytes.len() - HEADER < length {
        return None;
    }
    Some(&bytes[HEADER..HEADER + length])
}

/// The length over the limit that stands at the front, if there is one.
pub(crate) fn first_too_long(bytes: &[u8]) -> Option<u32>
    ensures { MatchOption result
        (begins_too_long bytes.now ≡ false)
        (λ length. (begins_too_long bytes.now ≡ true) × (length ≡ told_length bytes.now)) }
{
    if bytes.len() < HEADER {
        return None;
    }
    let length = LittleEndian::read_u32(bytes);
    (length as usize > MAX_PAYLOAD).then_some(length)
}

/// What stands behind the frames of a stream.
pub(crate) fn rest_of(stream: &[u8]) -> &[u8]
    ensures { result.now ≡ rest_of stream.now }
{
    let mut rest = stream;
    while let Some(payload) = first_payload(rest) {
        rest = &rest[HEADER + payload.len()..];
    }
    rest
}

/// Whether a stream breaks with these bytes, of which the rest so far begins with no whole frame.
pub(crate) fn breaks(rest: &[u8], bytes: &[u8]) -> bool
    requires { begins_with_frame rest.now ≡ false }
    ensures { result ≡ is_broken (rest.now ++ bytes.now) }
{
    match told_length(rest, bytes) {
        None => false,
        Some(length) if length > MAX_PAYLOAD => true,
        Some(length) if rest.len() + bytes.len() - HEADER < length => false,
        Some(length) => is_broken(&bytes[HEADER + length - rest.len()..]),
    }
}

// Whether a stream is broken.
fn is_broken(stream: &[u8]) -> bool
    ensures { result ≡ is_broken stream.now }
{
    first_too_long(rest_of(stream)).is_some()
}

// The length that the first four bytes of two parts tell, if they have as many.
fn told_length(rest: &[u8], bytes: &[u8]) -> Option<usize>
    ensures { MatchOption result
        (length rest.now + length bytes.now < 4)
        (λ told. (4 ≤ length rest.now + length bytes.now) × (told ≡ told_length (rest.now ++ bytes.now)) × (told < 2 ^ 32)) }
{
    if rest.len() >= HEADER {
        return Some(LittleEndian::read_u32(rest) as usize);
    }
    let lacking = HEADER - rest.len();
    if bytes.len() < lacking {
        return None;
    }
    let mut header = [0; HEADER];
    header[..rest.len()].copy_from_slice(rest);
    header[rest.len()..].copy_from_slice(&bytes[..lacking]);
    Some(LittleEndian::read_u32(&header) as usize)
}
