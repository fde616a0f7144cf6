//! The two forms of elements.

ghost use Rattle.std.specs.Prelude.{◌≡◌};

const ONE_BYTE_PROFILE: u16 = 0xBEDE;

/// The greatest id of the one-byte form.
pub(crate) const LAST_ONE_BYTE_ID: u8 = 14;

/// The form in which a header extension has its elements, which its profile says (RFC 8285, sections 4.2 and 4.3).
#[derive(Clone, Copy, Debug, PartialEq, Eq)]
pub(crate) enum Form {
    /// An element has one byte in front of its data: ids up to 14, and 1 to 16 bytes.
    OneByte,
    /// An element has two bytes in front of its data: ids up to 255, and up to 255 bytes.
    TwoByte,
}

impl Form {
    ghost use Rattle.rtp_extension.specs.Elements.{form_of};

    /// The form that a profile says, if it says one.
    pub(crate) fn of(profile: u16) -> Option<Form>
        ensures { result ≡ form_of profile }
    {
        match profile {
            ONE_BYTE_PROFILE => Some(Form::OneByte),
            0x1000..=0x100F => Some(Form::TwoByte),
            _ => None,
        }
    }
}
