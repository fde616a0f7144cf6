//! The elements of a packet.

ghost use Rattle.std.specs.Prelude.{◌≡◌};
ghost use Rattle.rtp_extension.specs.Reading.{elements_of};

use crate::form::Form;
use crate::reading::Elements;
use rtp_packet::View;

/// The elements of the packet's header extension (RFC 8285), in order. There are none where the packet has
/// no extension, or one of a profile that has no elements.
pub fn elements<'a>(view: &View<'a>) -> Elements<'a>
    ensures { result ≡ elements_of view.now.extension }
{
    let Some((profile, words)) = view.extension() else {
        return Elements::none();
    };
    match Form::of(profile) {
        Some(form) => Elements::of(form, words),
        None => Elements::none(),
    }
}
