//! Reading a packet where it lies.

ghost use Rattle.std.specs.Prelude.{◌≡◌, ◌<◌, ◌++◌, IfOk, MatchOption};
ghost use Rattle.std.specs.Result.{result_err};
ghost use Rattle.rtp_packet.specs.Packet.{Fields, IsPacket, fixed_header, csrc_list, header_extension, padding_bytes};
ghost use Rattle.rtp_packet.specs.Fault.{fault_of};
ghost use Rattle.rtp_packet.specs.Reading.{fields_of};

use crate::fault::RtpFault;
use crate::header::{
    HEADER_LEN, between, has_extension, has_padding, header_of, skip_csrcs, split_extension,
    strip_padding, version,
};
use byteorder::{BigEndian, ByteOrder};
use std::marker::Model;

const VERSION: u8 = 2;

const MARKER: u8 = 0x80;

const PAYLOAD_TYPE: u8 = 0x7f;

/// The packets of RFC 3550, section 5.1.
pub struct Packet;

/// A packet that was read: it borrows the bytes, and has its fields at hand. Contracts see it as the
/// record of all its fields, the CSRCs and the padding included.
#[derive(Debug, Drop)]
pub struct View<'a> {
    bytes: &'a [u8],
    extension: Option<(u16, &'a [u8])>,
    body: &'a [u8],
    payload: &'a [u8],
}

impl<'a> Model for View<'a> {
    ghost use Rattle.rtp_packet.specs.Packet.{Fields};

    ghost Value = { Fields };

    ghost use Rattle.rtp_packet.specs.Reading.{fields_of};
    ghost use Rattle.rtp_packet.specs.Viewing.{IsView};

    ghost view = { λ v. fields_of v.bytes.now };

    ghost invariant = { λ v. IsView v.bytes.now v.extension v.body.now v.payload.now };
}

impl Packet {
    /// Reads the packet that the bytes are, all of them. The view borrows the bytes.
    ///
    /// # Errors
    ///
    /// The first fault, in the order of `RtpFault`, exactly where the bytes are no packet.
    pub fn parse(bytes: &[u8]) -> Result<View<'_>, RtpFault>
        // What is read is the packet with these fields.
        ensures found { IfOk result (λ fields. IsPacket fields bytes.now) }
        // Each packet is read, with its fields.
        ensures only { (fields : Fields) → IsPacket fields bytes.now → result ≡ Ok fields }
        // Each field is read at its place.
        ensures places { IfOk result (λ fields. fields ≡ fields_of bytes.now) }
        // What is no packet has this fault.
        ensures fault { result_err result ≡ fault_of bytes.now }
    {
        read(bytes)
    }
}

#[tactic(auto, unfolding(crate::specs::Fault::fault_of, crate::specs::Reading::fields_of))]
fn read(bytes: &[u8]) -> Result<View<'_>, RtpFault>
    ensures fields { IfOk result (λ fields. fields ≡ fields_of bytes.now) }
    ensures fault { result_err result ≡ fault_of bytes.now }
{
    if bytes.len() < HEADER_LEN {
        return Err(RtpFault::Short);
    }
    let first = bytes[0];
    if version(first) != VERSION {
        return Err(RtpFault::BadVersion);
    }
    let Some(block) = skip_csrcs(bytes) else {
        return Err(RtpFault::CutCsrc);
    };
    let Some((extension, body)) = split_extension(has_extension(first), block) else {
        return Err(RtpFault::CutExtension);
    };
    let Some(payload) = strip_padding(has_padding(first), body) else {
        return Err(RtpFault::BadPadding);
    };
    Ok(View {
        bytes,
        extension,
        body,
        payload,
    })
}

impl<'a> View<'a> {
    /// The sequence number, modulo 2^16.
    #[tactic(auto, unfolding(crate::specs::Reading::fields_of))]
    pub fn seq(&self) -> u16
        ensures { result ≡ self.now.seq }
    {
        BigEndian::read_u16(&self.bytes[2..])
    }

    /// The synchronization source.
    #[tactic(auto, unfolding(crate::specs::Reading::fields_of))]
    pub fn ssrc(&self) -> u32
        ensures { result ≡ self.now.ssrc }
    {
        BigEndian::read_u32(&self.bytes[8..])
    }

    /// The payload type, below 128.
    #[tactic(auto, unfolding(crate::specs::Reading::fields_of))]
    pub fn payload_type(&self) -> u8
        ensures value { result ≡ self.now.payload_type }
        ensures fits { result < 128 }
    {
        self.bytes[1] & PAYLOAD_TYPE
    }

    /// The marker bit.
    #[tactic(auto, unfolding(crate::specs::Reading::fields_of))]
    pub fn marker(&self) -> bool
        ensures { result ≡ self.now.marker }
    {
        self.bytes[1] & MARKER != 0
    }

    /// The timestamp, in the clock of the payload type, modulo 2^32.
    #[tactic(auto, unfolding(crate::specs::Reading::fields_of))]
    pub fn timestamp(&self) -> u32
        ensures { result ≡ self.now.timestamp }
    {
        BigEndian::read_u32(&self.bytes[4..])
    }

    /// The payload, without the padding.
    pub fn payload(&self) -> &'a [u8]
        ensures { result.now ≡ self.now.payload }
    {
        self.payload
    }

    /// The fixed header and the CSRCs, as they stand in the packet.
    pub fn header(&self) -> &'a [u8]
        ensures { result.now ≡ fixed_header self.now ++ csrc_list self.now.csrcs }
    {
        header_of(self.bytes)
    }

    /// The header extension as it stands in the packet, between `header` and `body`: the profile's 16 bits,
    /// the number of words, and the words. Without an extension there are no bytes, and with one at least
    /// four.
    pub fn extension_bytes(&self) -> &'a [u8]
        ensures { result.now ≡ header_extension self.now.extension }
    {
        between(self.bytes, self.body)
    }

    /// What follows the header extension: the payload and the padding, as they stand in the packet.
    pub fn body(&self) -> &'a [u8]
        ensures { result.now ≡ self.now.payload ++ padding_bytes self.now.padding }
    {
        self.body
    }

    /// The header extension, if there is one: the 16 bits that its profile defines, and its bytes, a
    /// multiple of four.
    pub fn extension(&self) -> Option<(u16, &'a [u8])>
        ensures { MatchOption result (self.now.extension ≡ None)
            (λ extension. self.now.extension ≡ Some (extension.0, extension.1.now)) }
    {
        self.extension
    }
}
