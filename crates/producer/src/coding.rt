//! How the payloads of a codec are read for key frames.

ghost use Rattle.std.specs.Prelude.{◌≡◌};
ghost use Rattle.producer.specs.Tables.{coding_of};

use keyframes::{vp8_starts_key, vp9_starts_key};
use ms_base::Media;
use rtp_params::{Codec, is_same_name};

/// What is known of a codec's payloads.
#[derive(Clone, Copy, Debug, PartialEq, Eq)]
pub(crate) enum Coding {
    Audio,
    Vp8,
    Vp9,
    /// Video whose key frames aren't told.
    OtherVideo,
}

impl Coding {
    ghost use Rattle.producer.specs.Tables.{is_video_by, starts_key_by};

    /// Whether it is video.
    pub(crate) fn is_video(self) -> bool
        ensures { result ≡ is_video_by self }
    {
        match self {
            Coding::Audio => false,
            Coding::Vp8 | Coding::Vp9 | Coding::OtherVideo => true,
        }
    }

    /// Whether a payload starts a key frame.
    pub(crate) fn starts_key(self, payload: &[u8]) -> bool
        ensures { result ≡ starts_key_by self payload.now }
    {
        match self {
            Coding::Vp8 => vp8_starts_key(payload),
            Coding::Vp9 => vp9_starts_key(payload),
            Coding::Audio | Coding::OtherVideo => false,
        }
    }
}

/// That of a codec.
pub(crate) fn coding_of(codec: &Codec) -> Coding
    ensures { result ≡ coding_of codec.now }
{
    if codec.media == Media::Audio {
        return Coding::Audio;
    }
    if is_same_name(codec.name.as_str(), "VP8") {
        return Coding::Vp8;
    }
    if is_same_name(codec.name.as_str(), "VP9") {
        return Coding::Vp9;
    }
    Coding::OtherVideo
}
