use crate::{FrameFault, FrameReader, MAX_PAYLOAD, write_frame};
use ms_base::Bytes;
use std::alloc::Global;
use std::test::Fail;

const fn too_long(place: u64, length: u32) -> Option<FrameFault> {
    Some(FrameFault::TooLong { place, length })
}

/// Writes the frames of all payloads that are there, and gives the break behind them, if there is one.
fn drain(
    alloc: Global,
    reader: &mut FrameReader,
    into: &mut Bytes,
) -> Result<Option<FrameFault>, FrameFault> {
    for _ in 0..100u32 {
        match reader.next_payload() {
            Ok(Some(payload)) => write_frame(alloc, payload.as_slice(), into)?,
            Ok(None) => return Ok(None),
            Err(FrameFault::NoMemory) => return Err(FrameFault::NoMemory),
            Err(fault) => return Ok(Some(fault)),
        }
    }
    Ok(None)
}

/// What is read of two pieces, with payloads asked for between them or not.
fn read_pieces(
    alloc: Global,
    first: &[u8],
    later: &[u8],
    between: bool,
) -> Result<(Bytes, bool, Option<FrameFault>), FrameFault> {
    let mut reader = FrameReader::new(alloc);
    let mut frames = Bytes::new(alloc);
    reader.feed(first)?;
    if between {
        drain(alloc, &mut reader, &mut frames)?;
    }
    let breaks = reader.breaks_with(later);
    reader.feed(later)?;
    let fault = drain(alloc, &mut reader, &mut frames)?;
    Ok((frames, breaks, fault))
}

fn check_cuts(
    rt: &impl std::process::Abort,
    alloc: Global,
    stream: &[u8],
    whole: usize,
    want: Option<FrameFault>,
) -> Result<(), Fail> {
    for cut in 0..=stream.len() {
        for between in [false, true] {
            let (frames, breaks, fault) = read_pieces(
                alloc,
                &stream[..cut],
                &stream[cut..],
                between,
            )?;
            assert_eq!(rt;
                Some(frames.as_slice()),
                stream.get(..whole),
                "cut at {cut}"
            );
            assert_eq!(rt; breaks, want.is_some(), "cut at {cut}");
            assert_eq!(rt; fault, want, "cut at {cut}");
        }
    }
    Ok(())
}

#[test]
fn frames_of_a_stream_that_is_cut_anywhere(rt: HostRuntime) -> Result<(), Fail> {
    // A stream, how many of its bytes are whole frames, and its break.
    let rows: [(&[u8], usize, Option<FrameFault>); 10] = [
        (b"", 0, None),
        (&[0, 0, 0, 0], 4, None),
        (&[2, 0, 0, 0, 1], 0, None),
        (
            &[1, 0, 0, 0, 7, 0, 0, 0, 0, 2, 0, 0, 0, 8, 9, 3, 0, 0],
            15,
            None,
        ),
        (
            b"\x27\0\0\0{\"event\":\"running\",\"targetId\":\"worker\"}",
            43,
            None,
        ),
        // A payload at the limit is waited for, and one over it is none.
        (&[0, 0, 0x40, 0], 0, None),
        (&[1, 0, 0x40, 0], 0, too_long(0, 4_194_305)),
        (&[0, 0, 0, 0, 1, 0, 0x40, 0, 9], 4, too_long(4, 4_194_305)),
        (
            &[1, 0, 0, 0, 7, 0, 0, 0, 1, 0, 0, 0, 0],
            5,
            too_long(5, 16_777_216),
        ),
        (&[255, 255, 255, 255, 1], 0, too_long(0, 4_294_967_295)),
    ];
    for (stream, whole, want) in rows {
        check_cuts(&rt, rt.alloc(), stream, whole, want)?;
    }
    Ok(())
}

/// Writes a payload of so many zeros behind a byte, and reads its frame behind one of one byte: how many bytes
/// the payload that was read has, and how many were written.
fn write_zeros(alloc: Global, length: usize) -> Result<(usize, usize), FrameFault> {
    let zeros = zeros(alloc, length)?;
    let mut stream = Bytes::from_slice(alloc, &[1, 0, 0, 0, 9])?;
    match write_frame(alloc, zeros.as_slice(), &mut stream) {
        Ok(()) => {}
        Err(FrameFault::TooBig) => return Ok((0, stream.len())),
        Err(fault) => return Err(fault),
    }
    let mut reader = FrameReader::new(alloc);
    reader.feed(stream.as_slice())?;
    reader.next_payload()?;
    let read = reader.next_payload()?;
    Ok((read.map_or(0, |payload| payload.len()), stream.len()))
}

fn zeros(alloc: Global, length: usize) -> Result<Bytes, FrameFault> {
    match vec![in alloc; 0; length] {
        Ok(zeros) => Ok(Bytes::from_vec(zeros)),
        Err(_) => Err(FrameFault::NoMemory),
    }
}

#[test]
fn a_payload_at_the_limit_and_one_over_it(rt: HostRuntime) -> Result<(), Fail> {
    let alloc = rt.alloc();
    assert_eq!(rt;
        write_zeros(alloc, MAX_PAYLOAD),
        Ok((MAX_PAYLOAD, MAX_PAYLOAD + 9))
    );
    assert_eq!(rt; write_zeros(alloc, MAX_PAYLOAD + 1), Ok((0, 5)));
    Ok(())
}

#[test]
fn a_break_stays(rt: HostRuntime) -> Result<(), Fail> {
    let mut reader = FrameReader::new(rt.alloc());
    reader.feed(&[1, 0, 0x40, 0])?;
    for _ in 0..3u32 {
        assert_eq!(rt; reader.next_payload().err(), too_long(0, 4_194_305));
        reader.feed(&[0, 0, 0, 0])?;
    }
    Ok(())
}
