ghost use Rattle.std.specs.Prelude.{◌≡◌, ◌==◌, ◌&&◌, codes, unwrap_or};
ghost use Rattle.std.specs.Char.{is_ascii_digit};
ghost use Rattle.std.specs.List.{list_all};
ghost use Rattle.std.specs.Str.Parse.{AllDigits, digits_value};
ghost use Rattle.rtp_params.specs.Names.{is_same_name, parameter_named};
ghost use Rattle.rtp_params.specs.declared.codec.Scalar.TheVariants.{Number, Word};
ghost use Rattle.ortc_map.specs.Matching.{counted, is_numeral, is_same_media, is_same_number, is_same_scalar, is_vp9, matches, profile_of, strictly_matches};
ghost use Rattle.ortc_map.specs.Numerals.{without_zeros};

use itoa::Buffer;
use ms_base::Media;
use rtp_params::{Codec, Scalar, is_same_name};

/// Whether two codecs match: media type and name without regard to ASCII case, clock rate and channels.
pub(crate) fn matches(codec: &Codec, other: &Codec) -> bool
    ensures { result ≡ matches codec.now other.now }
{
    has_format(
        codec,
        other.media,
        other.name.as_str(),
        other.clock_rate,
        other.channels,
    )
}

/// Whether a codec has this media type and name, without regard to ASCII case, this clock rate and these channels.
pub(crate) fn has_format(
    codec: &Codec,
    media: Media,
    name: &str,
    clock_rate: u32,
    channels: Option<u8>,
) -> bool
    ensures { result ≡ (is_same_media codec.now.media media && is_same_name codec.now.name name.now && (codec.now.clock_rate == clock_rate) && is_same_number codec.now.channels channels) }
{
    is_same_media(codec.media, media)
        && is_same_name(codec.name.as_str(), name)
        && codec.clock_rate == clock_rate
        && is_same_number(codec.channels, channels)
}

fn is_same_media(media: Media, other: Media) -> bool
    ensures { result ≡ is_same_media media other }
{
    media == other
}

fn is_same_number(number: Option<u8>, other: Option<u8>) -> bool
    ensures { result ≡ is_same_number number other }
{
    number == other
}

/// Whether two codecs match, and have one profile where they are VP9 (RFC 9628, section 6).
pub(crate) fn strictly_matches(codec: &Codec, other: &Codec) -> bool
    ensures { result ≡ strictly_matches codec.now other.now }
{
    matches(codec, other) && (!is_vp9(codec) || has_same_profile(codec, other))
}

fn is_vp9(codec: &Codec) -> bool
    ensures { result ≡ is_vp9 codec.now }
{
    is_same_media(codec.media, Media::Video) && is_same_name(codec.name.as_str(), "VP9")
}

fn has_same_profile(codec: &Codec, other: &Codec) -> bool
    ensures { result ≡ is_same_scalar (profile_of codec.now) (profile_of other.now) }
{
    let default = Scalar::Number(0);
    is_same_scalar(profile_or(codec, &default), profile_or(other, &default))
}

// The profile that a codec names, or this one where it names none.
fn profile_or<'c>(codec: &'c Codec, default: &'c Scalar) -> &'c Scalar
    ensures { result.now ≡ unwrap_or (parameter_named (codes "profile-id") codec.now.parameters) default.now }
{
    match codec.parameter("profile-id") {
        Some(profile) => profile,
        None => default,
    }
}

// Whether two values are one, where a text of digits counts as its number.
fn is_same_scalar(value: &Scalar, other: &Scalar) -> bool
    ensures { result ≡ is_same_scalar (counted value.now) (counted other.now) }
{
    match value {
        Scalar::Number(number) => counts_as(*number, other),
        Scalar::Word(word) => match other {
            Scalar::Number(number) => word_counts_as(*number, word.as_bytes()),
            Scalar::Word(other) => is_same_word(word.as_bytes(), other.as_bytes()),
        },
    }
}

fn counts_as(number: i64, value: &Scalar) -> bool
    ensures { result ≡ is_same_scalar (Number number) (counted value.now) }
{
    match value {
        Scalar::Number(other) => number == *other,
        Scalar::Word(word) => word_counts_as(number, word.as_bytes()),
    }
}

// Whether a text is one of digits, and their number is this one.
fn word_counts_as(number: i64, word: &[u8]) -> bool
    ensures here { result ≡ is_same_scalar (Number number) (counted (Word word.now)) }
    ensures there { result ≡ is_same_scalar (counted (Word word.now)) (Number number) }
{
    number >= 0 && is_numeral_of(number as u64, word)
}

fn is_numeral_of(number: u64, word: &[u8]) -> bool
    ensures { result ≡ (is_numeral word.now && (digits_value 10 word.now == number)) }
{
    if !is_numeral(word) {
        return false;
    }
    let mut buffer = Buffer::new();
    is_same_numeral(word, buffer.format(number).as_bytes())
}

fn is_same_word(word: &[u8], other: &[u8]) -> bool
    ensures { result ≡ is_same_scalar (counted (Word word.now)) (counted (Word other.now)) }
{
    match (is_numeral(word), is_numeral(other)) {
        (true, true) => is_same_numeral(word, other),
        (false, false) => word == other,
        _ => false,
    }
}

// Whether it is a text of digits, one or more.
fn is_numeral(word: &[u8]) -> bool
    ensures { result ≡ is_numeral word.now }
{
    !word.is_empty() && are_digits(word)
}

fn are_digits(word: &[u8]) -> bool
    ensures { result ≡ list_all is_ascii_digit word.now }
{
    word.iter().all(|byte| byte.is_ascii_digit())
}

// Whether two texts of digits have one number, of any length.
fn is_same_numeral(digits: &[u8], other: &[u8]) -> bool
    requires digits { AllDigits 10 digits.now }
    requires other { AllDigits 10 other.now }
    ensures { result ≡ (digits_value 10 digits.now == digits_value 10 other.now) }
{
    without_zeros(digits) == without_zeros(other)
}

// The digits behind the leading zeros.
fn without_zeros(digits: &[u8]) -> &[u8]
    ensures { result.now ≡ without_zeros digits.now }
{
    let mut rest = digits;
    while let [b'0', behind @ ..] = rest {
        rest = behind;
    }
    rest
}
