use super::*;
use rtp_packet::Packet;
use std::alloc::{AllocError, Global};
use std::test::Fail;

/// The fixed header of a packet with an extension: type 111, number 1, SSRC 2222.
const HEADER: [u8; 12] = [0x90, 0x6F, 0x00, 0x01, 0, 0, 0, 0, 0, 0, 0x08, 0xAE];

/// A buffer with room for each packet of these tests.
const BUFFER: [u8; 64] = [0x55; 64];

/// 3 becomes 10, 1 becomes 15, and 255 becomes 1.
fn ids() -> IdMap {
    let mut map = IdMap::new();
    map.set(3, 10);
    map.set(1, 15);
    map.set(255, 7);
    map.set(255, 1);
    map
}

/// A packet with this extension and a payload of one byte.
fn packet_with(alloc: Global, extension: &[u8]) -> Result<Vec<u8>, AllocError> {
    let mut packet = HEADER.to_vec(alloc)?;
    packet.extend_from_slice(extension)?;
    packet.push(0xAA)?;
    Ok(packet)
}

/// The number of bytes that are written, if these are a packet for which there is room.
fn rewrite(map: &IdMap, packet: &[u8], into: &mut [u8]) -> Option<usize> {
    if into.len() < packet.len() {
        return None;
    }
    match Packet::parse(packet).is_ok() {
        true => Some(rewrite_ids(map, packet, into)),
        false => None,
    }
}

/// Whether `packet` becomes `expected`, with the bytes behind it in the buffer as they were.
fn becomes(packet: &[u8], expected: &[u8]) -> bool {
    let mut into = BUFFER;
    let Some(len) = rewrite(&ids(), packet, &mut into) else {
        return false;
    };
    match into.split_at_checked(len) {
        Some((front, rest)) => front == expected && rest.iter().all(|byte| *byte == 0x55),
        None => false,
    }
}

#[test]
fn each_id_has_its_place(rt: HostRuntime) {
    let map = ids();
    for id in 0..=255u8 {
        let new = match id {
            1 => Some(15),
            3 => Some(10),
            255 => Some(1),
            _ => None,
        };
        assert_eq!(rt; map.get(id), new, "at {id}");
    }
}

#[test]
fn extensions_with_new_ids(rt: HostRuntime) -> Result<(), Fail> {
    let rows: [(&[u8], &[u8]); 14] = [
        (
            &[0xBE, 0xDE, 0, 1, 0x30, 0xFF, 0, 0],
            &[0xBE, 0xDE, 0, 1, 0xA0, 0xFF, 0, 0],
        ),
        // Nothing is kept.
        (&[0xBE, 0xDE, 0, 1, 0x20, 0xFF, 0, 0], &[0xBE, 0xDE, 0, 0]),
        // Padding before and between elements, and one that isn't kept.
        (
            &[
                0xBE, 0xDE, 0, 3, 0, 0x30, 0xFF, 0, 0, 0x31, 1, 2, 0x20, 9, 0, 0,
            ],
            &[0xBE, 0xDE, 0, 2, 0xA0, 0xFF, 0xA1, 1, 2, 0, 0, 0],
        ),
        // Id 15 ends the list, and so does id 0 with a length.
        (
            &[0xBE, 0xDE, 0, 2, 0x30, 0xCC, 0xF0, 0x10, 0x30, 0xBB, 0, 0],
            &[0xBE, 0xDE, 0, 1, 0xA0, 0xCC, 0, 0],
        ),
        (
            &[0xBE, 0xDE, 0, 2, 0x30, 0xCC, 0x01, 0x10, 0x30, 0xBB, 0, 0],
            &[0xBE, 0xDE, 0, 1, 0xA0, 0xCC, 0, 0],
        ),
        // An element passes the end.
        (
            &[0xBE, 0xDE, 0, 1, 0x30, 0xCC, 0x32, 0xBB],
            &[0xBE, 0xDE, 0, 1, 0xA0, 0xCC, 0, 0],
        ),
        // The longest element.
        (
            &[
                0xBE, 0xDE, 0, 5, 0x3F, 0, 1, 2, 3, 4, 5, 6, 7, 8, 9, 10, 11, 12, 13, 14, 15, 0, 0,
                0,
            ],
            &[
                0xBE, 0xDE, 0, 5, 0xAF, 0, 1, 2, 3, 4, 5, 6, 7, 8, 9, 10, 11, 12, 13, 14, 15, 0, 0,
                0,
            ],
        ),
        // There is no id 15 in the one-byte form, and there is in the two-byte form.
        (
            &[0xBE, 0xDE, 0, 1, 0x10, 0xCC, 0x30, 0xBB],
            &[0xBE, 0xDE, 0, 1, 0xA0, 0xBB, 0, 0],
        ),
        (
            &[0x10, 0x0A, 0, 3, 1, 0, 0, 0xFF, 2, 7, 8, 3, 1, 9, 0, 0],
            &[0x10, 0x0A, 0, 3, 15, 0, 1, 2, 7, 8, 10, 1, 9, 0, 0, 0],
        ),
        // An element of the two-byte form passes the end, or its id is the last byte.
        (
            &[0x10, 0x00, 0, 2, 3, 1, 0xCC, 3, 4, 1, 2, 3],
            &[0x10, 0x00, 0, 1, 10, 1, 0xCC, 0],
        ),
        (
            &[0x10, 0x0F, 0, 1, 3, 1, 0xCC, 3],
            &[0x10, 0x0F, 0, 1, 10, 1, 0xCC, 0],
        ),
        // Id 15 doesn't end the list of the two-byte form.
        (
            &[0x10, 0x00, 0, 2, 15, 1, 0xCC, 3, 1, 0xBB, 0, 0],
            &[0x10, 0x00, 0, 1, 10, 1, 0xBB, 0],
        ),
        // Other profiles.
        (
            &[0x12, 0x34, 0, 1, 0xDE, 0xAD, 0xBE, 0xEF],
            &[0x12, 0x34, 0, 1, 0xDE, 0xAD, 0xBE, 0xEF],
        ),
        (
            &[0x10, 0x10, 0, 1, 3, 1, 0xCC, 0],
            &[0x10, 0x10, 0, 1, 3, 1, 0xCC, 0],
        ),
    ];
    for (extension, expected) in rows {
        let packet = packet_with(rt.alloc(), extension)?;
        let expected = packet_with(rt.alloc(), expected)?;
        assert!(rt; becomes(&packet, &expected), "at {extension:?}");
    }
    Ok(())
}

#[test]
fn all_else_of_a_packet_stays(rt: HostRuntime) {
    // Without an extension.
    let plain = [
        0x80, 0xEF, 0x12, 0x34, 1, 2, 3, 4, 0, 0, 0x08, 0xAE, 0x30, 0xFF,
    ];
    assert!(rt; becomes(&plain, &plain));
    // With two CSRCs, the marker and three bytes of padding.
    let full = [
        0xB2, 0xE0, 0x12, 0x34, 1, 2, 3, 4, 0xDE, 0xAD, 0xBE, 0xEF, 0, 0, 0, 1, 0, 0, 0, 2, 0xBE,
        0xDE, 0, 2, 0, 0x30, 0xFF, 0, 0x20, 1, 0, 0, 7, 8, 0, 0, 3,
    ];
    let expected = [
        0xB2, 0xE0, 0x12, 0x34, 1, 2, 3, 4, 0xDE, 0xAD, 0xBE, 0xEF, 0, 0, 0, 1, 0, 0, 0, 2, 0xBE,
        0xDE, 0, 1, 0xA0, 0xFF, 0, 0, 7, 8, 0, 0, 3,
    ];
    assert!(rt; becomes(&full, &expected));
}

#[test]
fn elements_one_by_one(rt: HostRuntime) -> Result<(), Fail> {
    let packet = packet_with(
        rt.alloc(),
        &[0xBE, 0xDE, 0, 2, 0, 0x30, 0xFF, 0, 0xE1, 1, 2, 0],
    )?;
    let view = Packet::parse(&packet).ok().ok_or("a packet")?;
    let mut left = elements(&view);
    assert_eq!(rt; left.next(), Some((3, [0xFF].as_slice())));
    assert_eq!(rt; left.next(), Some((14, [1, 2].as_slice())));
    assert_eq!(rt; left.next(), None);
    Ok(())
}

#[test]
fn a_packet_without_elements(rt: HostRuntime) -> Result<(), Fail> {
    for extension in [[0x12, 0x34, 0, 0], [0x10, 0x0C, 0, 0]] {
        let packet = packet_with(rt.alloc(), &extension)?;
        let view = Packet::parse(&packet).ok().ok_or("a packet")?;
        let mut left = elements(&view);
        assert!(rt; left.next().is_none());
    }
    Ok(())
}

/// The same with the new ids of this set alone.
fn rewrite_in(only: &IdSet, packet: &[u8], into: &mut [u8]) -> Option<usize> {
    if into.len() < packet.len() {
        return None;
    }
    match Packet::parse(packet) {
        Ok(view) => Some(rewrite_view(&ids(), only, &view, into)),
        Err(_) => None,
    }
}

/// The ids 1 and 3 become 15 and 10 by `ids`, of which the set has the second.
#[test]
fn elements_of_a_set_are_kept(rt: HostRuntime) -> Result<(), Fail> {
    let extension = [
        0x10, 0x00, 0, 3, 1, 1, 0xA1, 0, 3, 2, 0xB1, 0xB2, 0, 0, 0, 0,
    ];
    let packet = packet_with(rt.alloc(), &extension)?;
    let mut only = IdSet::new();
    only.add(10);
    only.add(200);
    assert_eq!(rt;
        (only.has(10), only.has(15), only.has(200)),
        (true, false, true)
    );
    let mut into = BUFFER;
    assert_eq!(rt; rewrite_in(&only, packet.as_slice(), &mut into), Some(21));
    assert_eq!(rt;
        &into[12..20],
        [0x10, 0x00, 0, 1, 10, 2, 0xB1, 0xB2].as_slice()
    );
    Ok(())
}

#[test]
fn an_id_is_taken_away(rt: HostRuntime) {
    let mut map = ids();
    map.clear(3);
    map.clear(7);
    assert_eq!(rt;
        (map.get(3), map.get(1), map.get(7)),
        (None, Some(15), None)
    );
}
