//! Laws of what is consumed, which hold of the definitions.

ghost use Rattle.std.specs.Prelude.{◌≡◌, ◌≢◌, ◌⊎◌, ℕ, ◌+◌, ◌^◌, ◌≤◌, [], length, true, filter, All, IsOk, Ok, is_ok};
ghost use Rattle.std.specs.List.{list_any};
ghost use Rattle.rtp_params.specs.Readable.{Each, IsCaps, IsParams};
ghost use Rattle.ms_base.specs.declared.keys.Media.{Media};
ghost use Rattle.rtp_params.specs.declared.mapping.Mapping.{Mapping};
ghost use Rattle.rtp_params.specs.declared.params.Caps.{Caps};
ghost use Rattle.rtp_params.specs.declared.params.Params.{Params};
ghost use Rattle.ortc_map.specs.Laws.{AreTypedOnce};
ghost use Rattle.ortc_map.specs.Matching.{strictly_matches};
ghost use Rattle.ortc_map.specs.ProducerMapping.{is_media, producer_mapping};
ghost use Rattle.ortc_map.specs.Consumable.{consumable, offered_codec};
ghost use Rattle.ortc_map.specs.ConsumerParams.{can_consume, consumer_params, is_same_ext};
ghost use Rattle.ortc_map.specs.ConsumerLaws.{DrawsOneOrTwo, LosesTheFirst, are_of_one};

/// Of a mapping that `producer_mapping` gave there is something to offer of each codec that carries media.
pub fn each_mapped_codec_is_offered()
    ensures { (params : Params) (caps : Caps) (first : ℕ) (mapping : Mapping) → producer_mapping params caps first ≡ Ok mapping → Each (λ codec. offered_codec caps.codecs mapping.codecs codec ≢ []) (filter is_media params.codecs) }
{}

/// Where a receiver can consume, its parameters aren't refused. They aren't refused otherwise only where the first codec
/// that is matched is one for retransmissions that doesn't stay: so both say the same where all codecs behind the first are
/// for retransmissions.
pub fn what_can_be_consumed_is_not_refused()
    ensures yes { (consumable : Params) (caps : Caps) (first : ℕ) → can_consume consumable caps ≡ true → IsOk (consumer_params consumable caps first) }
    ensures otherwise { (consumable : Params) (caps : Caps) (first : ℕ) → IsOk (consumer_params consumable caps first) → (can_consume consumable caps ≡ true) ⊎ LosesTheFirst consumable caps }
    ensures of_one { (consumable : Params) (caps : Caps) (first : ℕ) → are_of_one consumable.codecs ≡ true → is_ok (consumer_params consumable caps first) ≡ can_consume consumable caps }
{}

/// What is received is within the capabilities: each codec is strictly matched by one of theirs, each extension is one of
/// theirs by uri and id. One SSRC is drawn, or two.
pub fn what_is_received_is_within_the_capabilities()
    ensures codecs { (consumable : Params) (caps : Caps) (first : ℕ) (params : Params) → consumer_params consumable caps first ≡ Ok params → All (λ codec. list_any (strictly_matches codec) caps.codecs ≡ true) params.codecs }
    ensures exts { (consumable : Params) (caps : Caps) (first : ℕ) (params : Params) → consumer_params consumable caps first ≡ Ok params → All (λ ext. list_any (is_same_ext ext) caps.exts ≡ true) params.exts }
    ensures ssrcs { (consumable : Params) (caps : Caps) (first : ℕ) (params : Params) → consumer_params consumable caps first ≡ Ok params → DrawsOneOrTwo first params.encodings }
{}

/// What is offered of parameters that can be read, by capabilities that can be read and whose payload types differ, can be
/// read: so it is read back from the value that it is written as.
pub fn what_is_offered_can_be_read()
    ensures { (media : Media) (params : Params) (caps : Caps) (first : ℕ) (mapping : Mapping) → IsParams params → IsCaps caps → AreTypedOnce caps.codecs → first + length params.encodings ≤ 2 ^ 32 → producer_mapping params caps first ≡ Ok mapping → IsParams (consumable media params caps mapping) }
{}

/// What is received of parameters that can be read can be read.
pub fn what_is_received_can_be_read()
    ensures { (consumable : Params) (caps : Caps) (first : ℕ) (params : Params) → IsParams consumable → first ≤ 4294967294 → consumer_params consumable caps first ≡ Ok params → IsParams params }
{}
