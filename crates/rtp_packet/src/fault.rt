use thiserror::Error;

/// Why bytes are no RTP packet (RFC 3550, section 5.1). Of several faults it is the first in this order.
#[derive(Clone, Copy, Debug, PartialEq, Eq, Error)]
pub enum RtpFault {
    /// There are fewer bytes than the 12 of the fixed header.
    #[error("shorter than the fixed header")]
    Short,
    /// The version, in the top two bits of the first byte, isn't 2.
    #[error("the version is not 2")]
    BadVersion,
    /// The bytes end before the last CSRC that the first byte counts.
    #[error("cut off within the CSRCs")]
    CutCsrc,
    /// The bytes end within the header extension that the first byte announces.
    #[error("cut off within the header extension")]
    CutExtension,
    /// The last byte, which counts the bytes of padding, is 0 or more than what follows the headers, or
    /// nothing follows them.
    #[error("the padding does not fit")]
    BadPadding,
}
