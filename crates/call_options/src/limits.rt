//! How many items the lists of options may have.

ghost use Rattle.std.specs.Prelude.{◌≡◌};
ghost use Rattle.call_options.specs.Limits.{router_fits, params_fit, caps_fit};

use rtp_params::{Caps, Codec, Params};

// Of a Router and of a Producer; a Producer has at least one.
const MOST_CODECS: usize = 32;

// Of a Producer.
const MOST_EXTS: usize = 32;

// Of a Producer, which has at least one.
const MOST_ENCODINGS: usize = 8;

// Of a receiver, and as many extensions.
const MOST_CAPABILITIES: usize = 128;

/// Whether a Router may have so many codecs.
pub(crate) fn router_fits(codecs: &[Codec]) -> bool
    ensures { result ≡ router_fits codecs.now }
{
    codecs.len() <= MOST_CODECS
}

/// Whether the lists of a Producer have as many items as they may have.
pub(crate) fn params_fit(params: &Params) -> bool
    ensures { result ≡ params_fit params.now }
{
    let (codecs, encodings) = (params.codecs.len(), params.encodings.len());
    1 <= codecs
        && codecs <= MOST_CODECS
        && params.exts.len() <= MOST_EXTS
        && 1 <= encodings
        && encodings <= MOST_ENCODINGS
}

/// Whether the lists of a receiver have as many items as they may have.
pub(crate) fn caps_fit(caps: &Caps) -> bool
    ensures { result ≡ caps_fit caps.now }
{
    caps.codecs.len() <= MOST_CAPABILITIES && caps.exts.len() <= MOST_CAPABILITIES
}
