ghost use Rattle.std.specs.Prelude.{◌≡◌, length, IfOk};

use crate::PipeConsumer;
use ms_base::{Media, NoMemory, Text};
use rtp_extension::{Flags, IdMap, Mapped};
use rtp_packet::Packet;
use rtp_params::{Codec, Encoding, Items, Params};
use std::alloc::Global;
use std::test::Fail;

const ACTIVE: Flags = Flags {
    connected: true,
    paused: false,
    producer_paused: false,
};

const PAUSED: Flags = Flags {
    connected: true,
    paused: true,
    producer_paused: false,
};

const ONE: Mapped = Mapped {
    ssrc: 100_000_000,
    payload_type: 100,
    key: false,
    video: false,
};

const OTHER: Mapped = Mapped {
    ssrc: 100_000_001,
    payload_type: 100,
    key: false,
    video: false,
};

fn codec(alloc: Global) -> Result<Codec, NoMemory> {
    Ok(Codec {
        media: Media::Audio,
        name: Text::from_str(alloc, "opus")?,
        payload_type: Some(100),
        clock_rate: 48_000,
        channels: Some(2),
        parameters: Items::from_vec(Vec::new(alloc)),
        feedback: Items::from_vec(Vec::new(alloc)),
    })
}

fn encoding(ssrc: u32) -> Encoding {
    Encoding { ssrc, rtx: None }
}

fn params(alloc: Global) -> Result<Params, NoMemory>
    ensures { IfOk result (λ p. length p.encodings ≡ 2) }
{
    let encodings = [encoding(100_000_002), encoding(100_000_003)];
    Ok(Params {
        codecs: Items::from_vec(Vec::from_array(alloc, [codec(alloc)?])?),
        exts: Items::from_vec(Vec::new(alloc)),
        encodings: Items::from_vec(Vec::from_array(alloc, encodings)?),
        cname: Text::from_str(alloc, "")?,
        reduced_size: true,
    })
}

fn consumer(alloc: Global) -> Result<PipeConsumer, NoMemory> {
    let params = params(alloc)?;
    PipeConsumer::new(alloc, &params, &[100_000_000, 100_000_001], ACTIVE)
}

// What is written for a packet, if it is sent on.
fn passed(consumer: &mut PipeConsumer, mapped: Mapped, packet: &[u8; 13]) -> Option<[u8; 13]> {
    let mut into = [0x55; 13];
    if mapped.payload_type > 127 || Packet::parse(packet).is_err() {
        return None;
    }
    let length = consumer.pass(mapped, &IdMap::new(), packet, &mut into)?;
    if length == 13 { Some(into) } else { None }
}

// The number of what is written for a packet with this number.
fn number(consumer: &mut PipeConsumer, mapped: Mapped, number: u8) -> Option<u8> {
    let packet = [0x80, 0x6f, 0, number, 0, 0, 0, 0x0a, 0, 0, 0x08, 0xae, 0xaa];
    passed(consumer, mapped, &packet).map(|written| written[3])
}

#[test]
fn each_ssrc_begins_with_one(rt: HostRuntime) -> Result<(), Fail> {
    let mut both = consumer(rt.alloc())?;
    let one = [0x80, 0x6f, 0, 5, 0, 0, 0, 0x0a, 0, 0, 0x08, 0xae, 0xaa];
    let other = [0x80, 0x6f, 0, 9, 0, 0, 0, 0x0a, 0, 0, 0x0d, 0x05, 0xbb];
    assert_eq!(rt;
        passed(&mut both, ONE, &one),
        Some([
            0x80, 0x64, 0, 1, 0, 0, 0, 0x0a, 0x05, 0xf5, 0xe1, 0x02, 0xaa
        ])
    );
    assert_eq!(rt;
        passed(&mut both, OTHER, &other),
        Some([
            0x80, 0x64, 0, 1, 0, 0, 0, 0x0a, 0x05, 0xf5, 0xe1, 0x03, 0xbb
        ])
    );
    Ok(())
}

#[test]
fn a_pause_parts_each_of_them(rt: HostRuntime) -> Result<(), Fail> {
    let mut both = consumer(rt.alloc())?;
    assert_eq!(rt; number(&mut both, ONE, 5), Some(1));
    assert_eq!(rt; number(&mut both, ONE, 7), Some(3));
    assert_eq!(rt; number(&mut both, OTHER, 9), Some(1));
    both.set_flags(PAUSED);
    assert_eq!(rt; number(&mut both, ONE, 8), None);
    assert_eq!(rt; number(&mut both, OTHER, 10), None);
    both.set_flags(ACTIVE);
    assert_eq!(rt; number(&mut both, ONE, 50), Some(4));
    assert_eq!(rt; number(&mut both, OTHER, 60), Some(2));
    Ok(())
}
