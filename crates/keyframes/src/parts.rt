//! The parts that the payload descriptors of VP8 and VP9 share. A descriptor is read by one place, which runs over it: it
//! comes to stand past the end where a byte is missing, and never comes back.

ghost use Rattle.std.specs.Prelude.{◌≡◌, ◌+◌, ◌≤◌};
ghost use Rattle.std.specs.Option.{option_and_then};
ghost use Rattle.keyframes.specs.Places.{behind};
ghost use Rattle.keyframes.specs.Reading.{is_set, behind_picture_id, begins_without};

/// In the first byte of a picture id: a second byte follows.
const LONG_PICTURE_ID: u8 = 0x80;

/// Whether the byte has one of these bits.
pub(crate) fn has(byte: u8, flags: u8) -> bool
    ensures { result ≡ is_set byte flags }
{
    byte & flags != 0
}

/// Where the payload goes on behind a picture id, if there is one at this place.
pub(crate) fn skip_picture_id(there: bool, payload: &[u8], at: usize) -> usize
    requires { at ≤ 2 }
    ensures place { behind result payload.now ≡ option_and_then (behind_picture_id there) (behind at payload.now) }
    ensures near { result ≤ at + 2 }
{
    if !there {
        return at;
    }
    match payload.get(at) {
        None => at + 1,
        Some(first) => at + 1 + usize::from(has(*first, LONG_PICTURE_ID)),
    }
}

/// Whether there is a byte at this place, with none of these bits.
pub(crate) fn is_clear(payload: &[u8], at: usize, flags: u8) -> bool
    ensures { result ≡ begins_without flags (behind at payload.now) }
{
    match payload.get(at) {
        None => false,
        Some(byte) => !has(*byte, flags),
    }
}
