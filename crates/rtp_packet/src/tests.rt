use super::*;
use std::test::Fail;

// The opus packet of a stream that begins just before its sequence numbers wrap.
const OPUS: [u8; 14] = [
    0x80, 0x6f, 0xff, 0xfe, 0x00, 0x00, 0x00, 0x0a, 0x00, 0x00, 0x08, 0xae, 0xaa, 0xbb,
];

// Version 2, with padding, an extension and two CSRCs, and marked; type 96, number 0x1234.
const FULL: [u8; 40] = [
    0xb2, 0xe0, 0x12, 0x34, 0x01, 0x02, 0x03, 0x04, 0xde, 0xad, 0xbe, 0xef, // the fixed header
    0x00, 0x00, 0x00, 0x01, 0x00, 0x00, 0x00, 0x02, // two CSRCs
    0xbe, 0xde, 0x00, 0x02, 0x10, 0xff, 0x00, 0x00, 0x21, 0x01, 0x02, 0x00, // two words of extension
    0x07, 0x08, 0x09, 0x0a, 0x0b, // the payload
    0x00, 0x00, 0x03, // the padding
];

#[test]
fn faults_in_their_order(rt: HostRuntime) {
    let rows: [(&[u8], Option<RtpFault>); 14] = [
        (&[], Some(RtpFault::Short)),
        // Eleven bytes are short whatever they say.
        (&[0x41, 0, 0, 0, 0, 0, 0, 0, 0, 0, 0], Some(RtpFault::Short)),
        (&[0x80, 0, 0, 0, 0, 0, 0, 0, 0, 0, 0], Some(RtpFault::Short)),
        // Version 1, and versions 3 and 0.
        (
            &[0x41, 0, 0, 0, 0, 0, 0, 0, 0, 0, 0, 0],
            Some(RtpFault::BadVersion),
        ),
        (
            &[0xc0, 0, 0, 0, 0, 0, 0, 0, 0, 0, 0, 0],
            Some(RtpFault::BadVersion),
        ),
        (
            &[0x00, 0, 0, 0, 0, 0, 0, 0, 0, 0, 0, 0],
            Some(RtpFault::BadVersion),
        ),
        // Two CSRCs are announced, and one stands there.
        (
            &[0x82, 0, 0, 0, 0, 0, 0, 0, 0, 0, 0, 0, 0, 0, 0, 1],
            Some(RtpFault::CutCsrc),
        ),
        // An extension is announced, and nothing stands there, or less than it says.
        (
            &[0x90, 0, 0, 0, 0, 0, 0, 0, 0, 0, 0, 0],
            Some(RtpFault::CutExtension),
        ),
        (
            &[
                0x90, 0, 0, 0, 0, 0, 0, 0, 0, 0, 0, 0, 0xbe, 0xde, 0, 2, 1, 2, 3, 4,
            ],
            Some(RtpFault::CutExtension),
        ),
        // Padding of 0 bytes, of more than there are, of all that there are, and of none there at all.
        (
            &[0xa0, 0, 0, 0, 0, 0, 0, 0, 0, 0, 0, 0, 0x01, 0x00],
            Some(RtpFault::BadPadding),
        ),
        (
            &[0xa0, 0, 0, 0, 0, 0, 0, 0, 0, 0, 0, 0, 0x01, 0x03],
            Some(RtpFault::BadPadding),
        ),
        (&[0xa0, 0, 0, 0, 0, 0, 0, 0, 0, 0, 0, 0, 0x01, 0x02], None),
        (
            &[0xa0, 0, 0, 0, 0, 0, 0, 0, 0, 0, 0, 0],
            Some(RtpFault::BadPadding),
        ),
        (&[0x80, 0, 0, 0, 0, 0, 0, 0, 0, 0, 0, 0], None),
    ];
    for (bytes, fault) in rows {
        assert_eq!(rt; Packet::parse(bytes).err(), fault, "at {bytes:?}");
    }
}

#[test]
fn padding_may_leave_no_payload(rt: HostRuntime) -> Result<(), Fail> {
    let bytes = [0xa0, 0, 0, 0, 0, 0, 0, 0, 0, 0, 0, 0, 0x01, 0x02];
    let view = Packet::parse(&bytes).ok().ok_or("a packet")?;
    assert_eq!(rt; view.payload().len(), 0);
    assert!(rt; view.extension().is_none());
    assert_eq!(rt; view.extension_bytes().len(), 0);
    Ok(())
}

#[test]
fn each_part_of_a_full_packet(rt: HostRuntime) -> Result<(), Fail> {
    let view = Packet::parse(&FULL).ok().ok_or("a packet")?;
    assert!(rt; view.marker());
    assert_eq!(rt; view.payload_type(), 96);
    assert_eq!(rt; view.seq(), 0x1234);
    assert_eq!(rt; view.timestamp(), 0x0102_0304);
    assert_eq!(rt; view.ssrc(), 0xdead_beef);
    assert_eq!(rt; view.payload(), [7, 8, 9, 10, 11].as_slice());
    assert_eq!(rt; view.header(), FULL.split_at(20).0);
    assert_eq!(rt; view.extension_bytes(), FULL.split_at(20).1.split_at(12).0);
    assert_eq!(rt; view.body(), [7, 8, 9, 10, 11, 0, 0, 3].as_slice());
    let (profile, words) = view.extension().ok_or("an extension")?;
    assert_eq!(rt; profile, 0xbede);
    assert_eq!(rt; words, [0x10, 0xff, 0, 0, 0x21, 1, 2, 0].as_slice());
    Ok(())
}

#[test]
fn a_packet_is_relayed(rt: HostRuntime) {
    let mut packet = OPUS;
    if Packet::parse(&packet).is_ok() {
        set_fields(&mut packet, 1, 100_000_001, 100);
    }
    let relayed = [
        0x80, 0x64, 0x00, 0x01, 0x00, 0x00, 0x00, 0x0a, 0x05, 0xf5, 0xe1, 0x01, 0xaa, 0xbb,
    ];
    assert_eq!(rt; packet.as_slice(), relayed.as_slice());
}

#[test]
fn the_marker_is_kept(rt: HostRuntime) {
    let mut packet = FULL;
    if Packet::parse(&packet).is_ok() {
        set_fields(&mut packet, 0xffff, 1, 127);
    }
    let header: [u8; 12] = [0xb2, 0xff, 0xff, 0xff, 1, 2, 3, 4, 0, 0, 0, 1];
    let (front, rest) = packet.split_at(12);
    assert_eq!(rt; front, header.as_slice());
    assert_eq!(rt; rest, FULL.split_at(12).1);
}
