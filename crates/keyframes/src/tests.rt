use super::*;
use std::alloc::{AllocError, Global};
use std::test::Fail;

#[test]
fn vp8_first_byte_and_header(rt: HostRuntime) {
    assert!(rt; vp8_starts_key(&[0x10, 0x00]));
    assert!(rt; !vp8_starts_key(&[0x10, 0x01]));
    assert!(rt; !vp8_starts_key(&[]));
    assert!(rt; !vp8_starts_key(&[0x10]));
    for first in 0..=255u8 {
        // S is 1, PID is 0 and X says whether the extension's byte is there.
        let plain = first & 0x97 == 0x10;
        let extended = first & 0x97 == 0x90;
        assert_eq!(rt;
            vp8_starts_key(&[first, 0x52]),
            plain,
            "at {first} without extension"
        );
        assert_eq!(rt;
            vp8_starts_key(&[first, 0x0f, 0x52]),
            extended,
            "at {first} with extension"
        );
    }
}

/// A VP8 payload with the flags I, L, T and K in the high four bits, each part's bytes filled so that
/// they end in `low`, and a header.
fn vp8_payload(
    alloc: Global,
    flags: u8,
    long: bool,
    low: u8,
    header: u8,
) -> Result<Vec<u8>, AllocError> {
    let mut payload = Vec::new(alloc);
    payload.push(0x90)?;
    payload.push(flags)?;
    if flags & 0x80 != 0 {
        payload.push(if long { 0x92 | low } else { 0x12 | low })?;
        if long {
            payload.push(0x34 | low)?;
        }
    }
    if flags & 0x40 != 0 {
        payload.push(0x56 | low)?;
    }
    if flags & 0x30 != 0 {
        payload.push(0x68 | low)?;
    }
    payload.push(header)?;
    Ok(payload)
}

#[test]
fn vp8_every_combination_of_parts(rt: HostRuntime) -> Result<(), Fail> {
    for flags in 0..=255u8 {
        for long in [false, true] {
            let key = vp8_payload(rt.alloc(), flags, long, 1, 0x10)?;
            assert!(rt; vp8_starts_key(&key), "at {flags}, {long}");
            for len in 0..key.len() {
                assert!(rt;
                    !vp8_starts_key(&key[..len]),
                    "at {flags}, {long}, cut at {len}"
                );
            }
            let other = vp8_payload(rt.alloc(), flags, long, 0, 0x11)?;
            assert!(rt; !vp8_starts_key(&other), "at {flags}, {long}");
        }
    }
    Ok(())
}

#[test]
fn vp9_first_byte(rt: HostRuntime) {
    assert!(rt; vp9_starts_key(&[0x88]));
    assert!(rt; !vp9_starts_key(&[]));
    for first in 0..=255u8 {
        let starts = first & 0x48 == 0x08;
        let layers = first & 0x20 != 0;
        let picture_id = first & 0x80 != 0;
        assert_eq!(rt;
            vp9_starts_key(&[first]),
            starts && !layers,
            "at {first} alone"
        );
        // The layer indices stand behind the picture id, whose first byte says whether it has two.
        assert_eq!(rt;
            vp9_starts_key(&[first, 0x71]),
            starts && !(layers && picture_id),
            "at {first}, lowest"
        );
        assert_eq!(rt;
            vp9_starts_key(&[first, 0x0f, 0xf1]),
            starts && !(layers && !picture_id),
            "at {first}, short"
        );
        assert_eq!(rt;
            vp9_starts_key(&[first, 0x71, 0x0e]),
            starts && !(layers && picture_id),
            "at {first}, higher"
        );
        assert_eq!(rt;
            vp9_starts_key(&[first, 0x8e, 0x00]),
            starts && !layers,
            "at {first}, cut"
        );
        assert_eq!(rt;
            vp9_starts_key(&[first, 0x8e, 0xff, 0xf1]),
            starts && !(layers && !picture_id),
            "at {first}, long"
        );
        assert_eq!(rt;
            vp9_starts_key(&[first, 0x81, 0x01, 0x02]),
            starts && !(layers && picture_id),
            "at {first}, long, higher"
        );
    }
}

#[test]
fn vp9_each_spatial_layer(rt: HostRuntime) {
    for indices in 0..=255u8 {
        let lowest = indices & 0x0e == 0;
        assert_eq!(rt; vp9_starts_key(&[0x28, indices]), lowest, "at {indices}");
        assert_eq!(rt;
            vp9_starts_key(&[0xa8, 0x7f, indices]),
            lowest,
            "at {indices}, short"
        );
        assert_eq!(rt;
            vp9_starts_key(&[0xa8, 0xff, 0x7f, indices]),
            lowest,
            "at {indices}, long"
        );
    }
}
