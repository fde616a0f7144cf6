ghost use Rattle.std.specs.Prelude.{◌≡◌, length, IfOk};

use crate::SimpleConsumer;
use ms_base::{Media, NoMemory, Text};
use rtp_extension::{Flags, IdMap, Mapped};
use rtp_packet::Packet;
use rtp_params::{Codec, Encoding, Ext, Items, Params};
use std::alloc::Global;
use std::test::Fail;

const ACTIVE: Flags = Flags {
    connected: true,
    paused: false,
    producer_paused: false,
};

const PAUSED: Flags = Flags {
    connected: true,
    paused: true,
    producer_paused: false,
};

const AUDIO: Mapped = Mapped {
    ssrc: 100_000_000,
    payload_type: 100,
    key: false,
    video: false,
};

const VIDEO: Mapped = Mapped {
    ssrc: 100_000_000,
    payload_type: 100,
    key: false,
    video: true,
};

const KEY: Mapped = Mapped {
    ssrc: 100_000_000,
    payload_type: 100,
    key: true,
    video: true,
};

fn codec(alloc: Global) -> Result<Codec, NoMemory> {
    Ok(Codec {
        media: Media::Audio,
        name: Text::from_str(alloc, "opus")?,
        payload_type: Some(100),
        clock_rate: 48_000,
        channels: Some(2),
        parameters: Items::from_vec(Vec::new(alloc)),
        feedback: Items::from_vec(Vec::new(alloc)),
    })
}

fn ext(alloc: Global) -> Result<Ext, NoMemory> {
    Ok(Ext {
        media: None,
        uri: Text::from_str(alloc, "urn:ietf:params:rtp-hdrext:ssrc-audio-level")?,
        id: 10,
        sends: true,
    })
}

fn params(alloc: Global) -> Result<Params, NoMemory>
    ensures { IfOk result (λ p. length p.encodings ≡ 1) }
{
    let encoding = Encoding {
        ssrc: 100_000_001,
        rtx: None,
    };
    Ok(Params {
        codecs: Items::from_vec(Vec::from_array(alloc, [codec(alloc)?])?),
        exts: Items::from_vec(Vec::from_array(alloc, [ext(alloc)?])?),
        encodings: Items::from_vec(Vec::from_array(alloc, [encoding])?),
        cname: Text::from_str(alloc, "")?,
        reduced_size: true,
    })
}

fn consumer(alloc: Global, flags: Flags) -> Result<SimpleConsumer, NoMemory> {
    let params = params(alloc)?;
    SimpleConsumer::new(alloc, &params, 100_000_000, flags)
}

// What is written for a packet, and how long it is.
fn passed(
    consumer: &mut SimpleConsumer,
    mapped: Mapped,
    ids: &IdMap,
    packet: &[u8],
) -> ([u8; 32], Option<usize>) {
    let mut into = [0x55; 32];
    if packet.len() > 32 || mapped.payload_type > 127 {
        return (into, None);
    }
    let length = match Packet::parse(packet).is_ok() {
        true => consumer.pass(mapped, ids, packet, &mut into),
        false => None,
    };
    (into, length)
}

// The number of what is written for a packet of opus with this number.
fn number(consumer: &mut SimpleConsumer, mapped: Mapped, number: u16) -> Option<u16> {
    let [high, low] = number.to_be_bytes();
    let packet = [
        0x80, 0x6f, high, low, 0, 0, 0, 0x0a, 0, 0, 0x08, 0xae, 0xaa, 0xbb,
    ];
    let (into, length) = passed(consumer, mapped, &IdMap::new(), &packet);
    length.map(|_length| u16::from_be_bytes([into[2], into[3]]))
}

#[test]
fn numbers_follow_one_another(rt: HostRuntime) -> Result<(), Fail> {
    let mut one = consumer(rt.alloc(), ACTIVE)?;
    for (own, want) in [(65_534, 1), (65_535, 2), (0, 3), (65_533, 0)] {
        assert_eq!(rt; number(&mut one, AUDIO, own), Some(want));
    }
    one.set_flags(PAUSED);
    assert_eq!(rt; number(&mut one, AUDIO, 1), None);
    one.set_flags(ACTIVE);
    assert_eq!(rt; number(&mut one, AUDIO, 30_000), Some(4));
    Ok(())
}

#[test]
fn video_begins_with_a_key_frame(rt: HostRuntime) -> Result<(), Fail> {
    let mut one = consumer(rt.alloc(), PAUSED)?;
    one.set_flags(ACTIVE);
    for (mapped, own, want) in [(VIDEO, 1, None), (KEY, 2, Some(1)), (VIDEO, 4, Some(3))] {
        assert_eq!(rt; number(&mut one, mapped, own), want);
    }
    one.set_flags(PAUSED);
    one.set_flags(ACTIVE);
    assert_eq!(rt; number(&mut one, VIDEO, 5), None);
    assert_eq!(rt; number(&mut one, KEY, 9), Some(4));
    Ok(())
}

/// Of the elements 1, 2 and 3 the map has new ids for the first two, and the Consumer has the id of the second.
#[test]
fn elements_of_its_own_are_kept(rt: HostRuntime) -> Result<(), Fail> {
    let mut one = consumer(rt.alloc(), ACTIVE)?;
    let mut ids = IdMap::new();
    ids.set(1, 4);
    ids.set(2, 10);
    let packet = [
        0x90, 0xef, 0, 1, 0, 0, 0, 0x0a, 0, 0, 0x08, 0xae, 0xbe, 0xde, 0, 2, 0x10, 0x11, 0x20,
        0x22, 0x30, 0x33, 0, 0, 0xaa,
    ];
    let (into, length) = passed(&mut one, AUDIO, &ids, &packet);
    assert_eq!(rt; length, Some(21));
    assert_eq!(rt;
        &into[..22],
        [
            0x90, 0xe4, 0, 1, 0, 0, 0, 0x0a, 0x05, 0xf5, 0xe1, 0x01, 0xbe, 0xde, 0, 1, 0xa0, 0x22,
            0, 0, 0xaa, 0x55,
        ]
        .as_slice()
    );
    Ok(())
}
