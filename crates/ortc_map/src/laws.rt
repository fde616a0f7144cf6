//! Laws of the definitions, which the functions of this crate are stated by.

ghost use Rattle.std.specs.Prelude.{◌≡◌, ◌↔◌, ◌<◌, ◌≤◌, ◌++◌, ◌+◌, ◌^◌, ℕ, List, Some, Ok, Err, true, find, filter, length, map};
ghost use Rattle.rtp_params.specs.Names.{is_rtx};
ghost use Rattle.rtp_params.specs.Readable.{Each, IsCaps, IsParams};
ghost use Rattle.rtp_params.specs.declared.codec.Codec.{Codec};
ghost use Rattle.rtp_params.specs.declared.encoding.Encoding.{Encoding};
ghost use Rattle.rtp_params.specs.declared.mapping.Mapping.{Mapping};
ghost use Rattle.rtp_params.specs.declared.params.Caps.{Caps};
ghost use Rattle.rtp_params.specs.declared.params.Params.{Params};
ghost use Rattle.ortc_map.specs.Rules.{no_type_left};
ghost use Rattle.ortc_map.specs.Matching.{matches, strictly_matches};
ghost use Rattle.ortc_map.specs.Supported.{supported_codecs};
ghost use Rattle.ortc_map.specs.RouterCaps.{is_taken, next_type, router_caps};
ghost use Rattle.ortc_map.specs.ProducerMapping.{is_media, producer_mapping};
ghost use Rattle.ortc_map.specs.Laws.{AreTypedOnce, IsFirst};

/// The codec that is taken for another matches it, and none before it does.
pub fn the_first_match_is_taken()
    ensures supported { (given taken : Codec) → (find (matches given) supported_codecs ≡ Some taken) ↔ IsFirst (matches given) supported_codecs taken }
    ensures router { (router : List Codec) (codec taken : Codec) → (find (strictly_matches codec) router ≡ Some taken) ↔ IsFirst (strictly_matches codec) router taken }
{}

/// Each codec of a Router has a payload type, which no other of them has.
pub fn each_payload_type_is_used_once()
    ensures { (given : List Codec) (caps : Caps) → router_caps given ≡ Ok caps → AreTypedOnce caps.codecs }
{}

/// What a Router has of capabilities that can be read can be read: so it is read back from the value that it is written as.
pub fn what_a_router_has_can_be_read()
    ensures { (given caps : Caps) → IsCaps given → router_caps given.codecs ≡ Ok caps → IsCaps caps }
{}

/// A payload type can't be drawn exactly where all of 96 to 127 are taken.
pub fn all_dynamic_types_are_drawn()
    ensures { (codecs : List Codec) → (next_type codecs ≡ Err no_type_left) ↔ ((type : ℕ) → 96 ≤ type → type < 128 → is_taken codecs type ≡ true) }
{}

/// What a codec is mapped to is a payload type of the Router's.
pub fn each_mapped_type_is_of_the_router()
    ensures { (params : Params) (caps : Caps) (first_ssrc : ℕ) (mapping : Mapping) → producer_mapping params caps first_ssrc ≡ Ok mapping → Each (λ pair. is_taken caps.codecs pair.1 ≡ true) mapping.codecs }
{}

/// Each codec is mapped once, those that carry media first, and each encoding.
pub fn each_codec_is_mapped()
    ensures count { (params : Params) (caps : Caps) (first_ssrc : ℕ) (mapping : Mapping) → producer_mapping params caps first_ssrc ≡ Ok mapping → length mapping.codecs ≡ length params.codecs }
    ensures types { (params : Params) (caps : Caps) (first_ssrc : ℕ) (mapping : Mapping) → producer_mapping params caps first_ssrc ≡ Ok mapping → map (λ pair. Some pair.0) mapping.codecs ≡ map (λ codec. codec.payload_type) (filter is_media params.codecs ++ filter is_rtx params.codecs) }
    ensures ssrcs { (params : Params) (caps : Caps) (first_ssrc : ℕ) (mapping : Mapping) → producer_mapping params caps first_ssrc ≡ Ok mapping → map (λ pair. pair.0) mapping.encodings ≡ map (λ encoding. encoding.ssrc) params.encodings }
{}

/// What is mapped of parameters and capabilities that can be read fits: payload types are at most 127, and SSRCs have 32 bits.
pub fn what_is_mapped_fits()
    ensures own { (params : Params) (caps : Caps) (first_ssrc : ℕ) (mapping : Mapping) → IsParams params → producer_mapping params caps first_ssrc ≡ Ok mapping → Each (λ pair. pair.0 ≤ 127) mapping.codecs }
    ensures mapped { (params : Params) (caps : Caps) (first_ssrc : ℕ) (mapping : Mapping) → IsCaps caps → producer_mapping params caps first_ssrc ≡ Ok mapping → Each (λ pair. pair.1 ≤ 127) mapping.codecs }
    ensures ssrcs { (params : Params) (caps : Caps) (first_ssrc : ℕ) (mapping : Mapping) → IsParams params → first_ssrc + length params.encodings ≤ 2 ^ 32 → producer_mapping params caps first_ssrc ≡ Ok mapping → Each (λ pair. (pair.0 ≤ 4294967295) × (pair.1 ≤ 4294967295)) mapping.encodings }
{}
