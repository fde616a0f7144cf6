ghost use Rattle.std.specs.Prelude.{◌≡◌, ◌↔◌, ◌||◌, IsTrue};
ghost use Rattle.std.specs.Option.{option_and_then};
ghost use Rattle.keyframes.specs.Places.{behind};
ghost use Rattle.keyframes.specs.Reading.{is_set, behind_extension, is_vp8_key_start};
ghost use Rattle.keyframes.specs.Vp8.{Vp8StartsKey};

use crate::parts::{has, is_clear, skip_picture_id};

/// X of the first byte: an extension follows.
const EXTENDED: u8 = 0x80;
/// S of the first byte: a partition begins here.
const START: u8 = 0x10;
/// PID, the partition.
const PARTITION: u8 = 0x07;

/// I, L, T and K of the extension's first byte.
const PICTURE_ID: u8 = 0x80;

const LEVEL_INDEX: u8 = 0x40;

const LAYER: u8 = 0x20;

const KEY_INDEX: u8 = 0x10;

/// The lowest bit of the frame's header: this isn't a key frame.
const NO_KEY_FRAME: u8 = 0x01;

/// Whether a VP8 payload starts a key frame (RFC 7741, sections 4.2 and 4.3): its first partition begins
/// here, and the frame's header says that it is a key frame. A payload that ends before a byte that is
/// needed starts none.
pub fn vp8_starts_key(payload: &[u8]) -> bool
    ensures grammar { IsTrue result ↔ Vp8StartsKey payload.now }
    ensures reading { result ≡ is_vp8_key_start payload.now }
{
    reads_key_start(payload)
}

fn reads_key_start(payload: &[u8]) -> bool
    ensures { result ≡ is_vp8_key_start payload.now }
{
    match payload.first() {
        None => false,
        Some(first) => {
            has(*first, START)
                && !has(*first, PARTITION)
                && is_clear(
                    payload,
                    skip_extension(has(*first, EXTENDED), payload),
                    NO_KEY_FRAME,
                )
        }
    }
}

// Where the payload goes on behind the first byte and the extension, if there is one.
fn skip_extension(there: bool, payload: &[u8]) -> usize
    ensures { behind result payload.now ≡ option_and_then (behind_extension there) (behind 1 payload.now) }
{
    if !there {
        return 1;
    }
    let Some(flags) = payload.get(1) else {
        return 2;
    };
    let at = skip_picture_id(has(*flags, PICTURE_ID), payload, 2);
    let at = at + usize::from(has(*flags, LEVEL_INDEX));
    at + usize::from(has_layer(*flags))
}

// Whether the byte that T and K share is there.
fn has_layer(flags: u8) -> bool
    ensures { result ≡ (is_set flags 0x20 || is_set flags 0x10) }
{
    has(flags, LAYER) || has(flags, KEY_INDEX)
}
