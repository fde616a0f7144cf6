ghost use Rattle.std.specs.Prelude.{◌≡◌, IfOk};
ghost use Rattle.std.specs.Option.{option_copied};
ghost use Rattle.rtp_params.specs.Names.{parameter_named};

use crate::items::{Copied, Items};
use crate::names::is_same_name;
use ms_base::{Media, NoMemory, Text};
use std::alloc::Global;

/// The parameters of a codec by their names: what follows `a=fmtp` (RFC 8866, section 6.15).
pub type Parameters = Items<(Text, Scalar)>;

/// The feedback that a codec can be given: a type and a parameter each (RFC 4585, section 4.2).
pub type Feedback = Items<(Text, Text)>;

/// The value of a codec's parameter.
#[derive(Debug, Drop)]
pub enum Scalar {
    Number(i64),
    Word(Text),
}

/// A codec as it is offered or received.
#[derive(Debug, Drop)]
pub struct Codec {
    /// What it carries: the type of its media type.
    pub media: Media,
    /// The subtype of its media type, as it was given.
    pub name: Text,
    /// The RTP payload type, 0 to 127. Capabilities may leave it open.
    pub payload_type: Option<u8>,
    /// In Hz.
    pub clock_rate: u32,
    /// How many channels there are, for audio alone.
    pub channels: Option<u8>,
    pub parameters: Parameters,
    pub feedback: Feedback,
}

impl Scalar {
    ghost use Rattle.rtp_params.specs.Names.{as_payload_type};

    /// A copy of the value.
    pub fn copy(&self, alloc: Global) -> Result<Scalar, NoMemory>
        ensures { IfOk result (λ scalar. scalar ≡ self.now) }
    {
        match self {
            Scalar::Number(number) => Ok(Scalar::Number(*number)),
            Scalar::Word(word) => Ok(Scalar::Word(word.copy(alloc)?)),
        }
    }

    /// The number, where it is one that a payload type may be: 0 to 127.
    pub fn as_payload_type(&self) -> Option<u8>
        ensures { result ≡ as_payload_type self.now }
    {
        match self {
            Scalar::Number(number) if 0 <= *number && *number <= 127 => Some(*number as u8),
            _ => None,
        }
    }
}

impl Copied for (Text, Scalar) {
    fn copied(&self, alloc: Global) -> Result<(Text, Scalar), NoMemory> {
        Ok((self.0.copy(alloc)?, self.1.copy(alloc)?))
    }
}

impl Copied for (Text, Text) {
    fn copied(&self, alloc: Global) -> Result<(Text, Text), NoMemory> {
        Ok((self.0.copy(alloc)?, self.1.copy(alloc)?))
    }
}

// The value of the first parameter of a name.
fn parameter_named<'p>(parameters: &'p [(Text, Scalar)], name: &str) -> Option<&'p Scalar>
    ensures { option_copied result ≡ parameter_named name.now parameters.now }
{
    for (key, value) in parameters {
        if key.as_str() == name {
            return Some(value);
        }
    }
    None
}

impl Copied for Codec {
    fn copied(&self, alloc: Global) -> Result<Codec, NoMemory> {
        self.copy(alloc)
    }
}

impl Codec {
    ghost use Rattle.rtp_params.specs.Names.{is_rtx, apt_of};

    /// A copy of the value.
    pub fn copy(&self, alloc: Global) -> Result<Codec, NoMemory>
        ensures { IfOk result (λ codec. codec ≡ self.now) }
    {
        Ok(Codec {
            media: self.media,
            name: self.name.copy(alloc)?,
            payload_type: self.payload_type,
            clock_rate: self.clock_rate,
            channels: self.channels,
            parameters: self.parameters.copy(alloc)?,
            feedback: self.feedback.copy(alloc)?,
        })
    }

    /// Whether it is for retransmissions: its name is `rtx` (RFC 4588, section 8).
    pub fn is_rtx(&self) -> bool
        ensures { result ≡ is_rtx self.now }
    {
        is_same_name(self.name.as_str(), "rtx")
    }

    /// The value of its first parameter of a name.
    pub fn parameter(&self, name: &str) -> Option<&Scalar>
        ensures { option_copied result ≡ parameter_named name.now self.now.parameters }
    {
        parameter_named(self.parameters.as_slice(), name)
    }

    /// The payload type that it is associated with: its first parameter `apt`, if that is a number from
    /// 0 to 127 (RFC 4588, section 8.1).
    pub fn apt(&self) -> Option<u8>
        ensures { result ≡ apt_of self.now }
    {
        self.parameter("apt")?.as_payload_type()
    }
}
