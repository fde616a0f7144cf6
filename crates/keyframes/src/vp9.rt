ghost use Rattle.std.specs.Prelude.{◌≡◌, ◌↔◌, ℕ, List, ◌∷◌, IsTrue};
ghost use Rattle.keyframes.specs.Reading.{is_lowest, is_vp9_key_start};
ghost use Rattle.keyframes.specs.Vp9.{Vp9StartsKey};

use crate::parts::{has, is_clear, skip_picture_id};

/// I, P, L and B of the first byte.
const PICTURE_ID: u8 = 0x80;

const PREDICTED: u8 = 0x40;

const LAYERS: u8 = 0x20;

const START: u8 = 0x08;

/// SID, the spatial layer, of the layer indices.
const SPATIAL_LAYER: u8 = 0x0e;

/// Whether a VP9 payload starts a key frame (fields of RFC 9628, section 4.2): a frame begins here, isn't
/// predicted from other pictures and, where it has layer indices, is of the lowest spatial layer. A
/// payload that ends before a byte that is needed starts none; without layer indices the first byte
/// alone is needed.
pub fn vp9_starts_key(payload: &[u8]) -> bool
    ensures grammar { IsTrue result ↔ Vp9StartsKey payload.now }
    ensures reading { result ≡ is_vp9_key_start payload.now }
{
    reads_key_start(payload)
}

fn reads_key_start(payload: &[u8]) -> bool
    ensures { result ≡ is_vp9_key_start payload.now }
{
    match payload.first() {
        None => false,
        Some(first) => {
            !has(*first, PREDICTED) && has(*first, START) && is_lowest_layer(*first, payload)
        }
    }
}

// Whether the layer indices behind the first byte and the picture id, if there are any, name the lowest spatial layer.
fn is_lowest_layer(first: u8, payload: &[u8]) -> bool
    ensures { (rest : List ℕ) → payload.now ≡ first ∷ rest → result ≡ is_lowest first rest }
{
    !has(first, LAYERS)
        || is_clear(
            payload,
            skip_picture_id(has(first, PICTURE_ID), payload, 1),
            SPATIAL_LAYER,
        )
}
