use crate::Producer;
use ms_base::{Media, NoMemory, Text};
use rtp_extension::Mapped;
use rtp_packet::Packet;
use rtp_params::{Codec, Encoding, Ext, Items, Mapping, Params};
use std::alloc::Global;
use std::test::Fail;

fn codec(alloc: Global, media: Media, name: &str, payload_type: u8) -> Result<Codec, NoMemory> {
    Ok(Codec {
        media,
        name: Text::from_str(alloc, name)?,
        payload_type: Some(payload_type),
        clock_rate: 90_000,
        channels: None,
        parameters: Items::from_vec(Vec::new(alloc)),
        feedback: Items::from_vec(Vec::new(alloc)),
    })
}

fn ext(alloc: Global, uri: &str, id: u8) -> Result<Ext, NoMemory> {
    Ok(Ext {
        media: None,
        uri: Text::from_str(alloc, uri)?,
        id,
        sends: true,
    })
}

// Opus, VP8 and VP9 with 111, 96 and 98; retransmissions with 97, and in front of VP8 with 96.
fn codecs(alloc: Global) -> Result<Items<Codec>, NoMemory> {
    let mut codecs = Vec::new(alloc);
    codecs.push(codec(alloc, Media::Audio, "opus", 111)?)?;
    codecs.push(codec(alloc, Media::Video, "rtx", 96)?)?;
    codecs.push(codec(alloc, Media::Video, "vp8", 96)?)?;
    codecs.push(codec(alloc, Media::Video, "RTX", 97)?)?;
    codecs.push(codec(alloc, Media::Video, "VP9", 98)?)?;
    Ok(Items::from_vec(codecs))
}

fn exts(alloc: Global) -> Result<Items<Ext>, NoMemory> {
    let mut exts = Vec::new(alloc);
    exts.push(ext(alloc, "b", 3)?)?;
    exts.push(ext(alloc, "a", 3)?)?;
    exts.push(ext(alloc, "c", 4)?)?;
    exts.push(ext(alloc, "a", 255)?)?;
    Ok(Items::from_vec(exts))
}

fn params(alloc: Global) -> Result<Params, NoMemory> {
    let encoding = Encoding {
        ssrc: 2222,
        rtx: Some(2223),
    };
    Ok(Params {
        codecs: codecs(alloc)?,
        exts: exts(alloc)?,
        encodings: Items::from_vec(Vec::from_array(alloc, [encoding])?),
        cname: Text::from_str(alloc, "")?,
        reduced_size: true,
    })
}

fn producer(alloc: Global) -> Result<Producer, NoMemory> {
    let types = [(111, 100), (96, 101), (97, 102), (98, 103)];
    let ssrcs = [(2222, 100_000_000), (2224, 100_000_001)];
    let mapping = Mapping {
        codecs: Items::from_vec(Vec::from_array(alloc, types)?),
        encodings: Items::from_vec(Vec::from_array(alloc, ssrcs)?),
    };
    let table = [ext(alloc, "a", 1)?, ext(alloc, "b", 10)?];
    let params = params(alloc)?;
    Producer::new(alloc, &params, &mapping, &table, false)
}

// What is said of a packet with this payload type, the low byte of its SSRC, and this payload.
fn received(producer: &Producer, payload_type: u8, ssrc: u8, payload: [u8; 2]) -> Option<Mapped> {
    let [first, second] = payload;
    let packet = [
        0x80,
        payload_type,
        0,
        1,
        0,
        0,
        0,
        0x0a,
        0,
        0,
        0x08,
        ssrc,
        first,
        second,
    ];
    match Packet::parse(&packet) {
        Ok(view) => producer.receive(&view),
        Err(_) => None,
    }
}

fn mapped(payload_type: u8, key: bool, video: bool) -> Option<Mapped> {
    Some(Mapped {
        ssrc: 100_000_000,
        payload_type,
        key,
        video,
    })
}

#[test]
fn packets_of_media_are_received(rt: HostRuntime) -> Result<(), Fail> {
    let producer = producer(rt.alloc())?;
    let key = [0x10, 0x00];
    let rows = [
        (111, 0xae, key, mapped(100, false, false)),
        (96, 0xae, key, mapped(101, true, true)),
        (96, 0xae, [0x10, 0x01], mapped(101, false, true)),
        (98, 0xae, key, mapped(103, false, true)),
        (98, 0xae, [0x88, 0], mapped(103, true, true)),
        (97, 0xae, key, None),
        (111, 0xaf, key, None),
        (111, 0xb0, key, None),
    ];
    for (payload_type, ssrc, payload, want) in rows {
        assert_eq!(rt; received(&producer, payload_type, ssrc, payload), want);
    }
    Ok(())
}

#[test]
fn ids_are_those_of_the_table(rt: HostRuntime) -> Result<(), Fail> {
    let mut producer = producer(rt.alloc())?;
    for (own, want) in [
        (3, Some(10)),
        (4, None),
        (255, Some(1)),
        (0, None),
        (1, None),
    ] {
        assert_eq!(rt; producer.ids().get(own), want);
    }
    producer.pause();
    assert_eq!(rt; producer.is_paused(), true);
    producer.resume();
    assert_eq!(rt; producer.is_paused(), false);
    Ok(())
}
