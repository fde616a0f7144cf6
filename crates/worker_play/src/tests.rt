use crate::fault::PlayFault;
use crate::script::{Script, read_script};
use crate::write::write_played;
use crate::{play, run};
use ms_base::{Bytes, Tuple};
use ms_devices::{MemEvent, OutCall};
use std::alloc::Global;
use std::io;
use std::io::{ErrorKind, Read, Write};
use std::test::Fail;

const PEER: Tuple = Tuple {
    ip: [10, 0, 255, 1],
    port: 6000,
};

const SCRIPT: &[u8] = b"ports 40000 - 0
channel 00fF
channel 
datagram 4294967295 10.0.255.1 6000 80
";

fn has_script(script: &Script) -> bool {
    let [
        MemEvent::Channel(first),
        MemEvent::Channel(second),
        MemEvent::Datagram { link, from, packet },
    ] = script.events.as_slice()
    else {
        return false;
    };
    script.answers.as_slice() == [Some(40_000), None, Some(0)].as_slice()
        && first.as_slice() == b"\x00\xff".as_slice()
        && second.is_empty()
        && (*link, *from) == (4_294_967_295, PEER)
        && packet.as_slice() == b"\x80".as_slice()
}

#[test]
fn every_line_is_read(rt: HostRuntime) -> Result<(), Fail> {
    let script = read_script(rt.alloc(), SCRIPT)?;
    assert!(rt; has_script(&script));
    Ok(())
}

// The number of the first line that can't be read, and 0 where there is none.
fn bad_line(alloc: Global, text: &[u8]) -> usize {
    match read_script(alloc, text) {
        Ok(_) => 0,
        Err(PlayFault::BadLine { line }) => line,
        Err(_) => 99,
    }
}

const BAD: [(&[u8], usize); 16] = [
    (b"ports", 0),
    (b"ports\nchannel ", 0),
    (b"", 1),
    (b"\n", 1),
    (b"port 1\n", 1),
    (b"ports \n", 1),
    (b"ports 1 65536\n", 1),
    (b"ports 01\n", 1),
    (b"ports\n\n", 2),
    (b"ports\nchannel\n", 2),
    (b"ports\nchannel 00 11\n", 2),
    (b"ports\nchannel 00\nchannel 0g\nchannel 1\n", 3),
    (b"ports\ndatagram 1 127.0.0.1 6000\n", 2),
    (b"ports\ndatagram 1 127.0.0.01 6000 \n", 2),
    (b"ports\ndatagram 4294967296 127.0.0.1 6000 \n", 2),
    (b"ports\r\n", 1),
];

#[test]
fn the_first_bad_line_is_told(rt: HostRuntime) {
    for (text, line) in BAD {
        assert_eq!(rt; bad_line(rt.alloc(), text), line, "{text:?}");
    }
}

fn calls(alloc: Global) -> Result<Vec<OutCall>, Fail> {
    Ok(vec![in alloc;
        OutCall::Channel {
            frame: Bytes::from_slice(alloc, b"\x01\xab")?,
            failed: false
        },
        OutCall::Channel {
            frame: Bytes::new(alloc),
            failed: true
        },
        OutCall::Bind {
            link: 1,
            ip: [127, 0, 0, 1],
            port: Some(40_000)
        },
        OutCall::Bind {
            link: 2,
            ip: [0, 0, 0, 0],
            port: None
        },
        OutCall::Shut { link: 1 },
        OutCall::Datagram {
            link: 2,
            to: PEER,
            packet: Bytes::from_slice(alloc, b"\x80")?,
            failed: false
        },
        OutCall::Datagram {
            link: 2,
            to: PEER,
            packet: Bytes::new(alloc),
            failed: true
        },
    ]?)
}

const LINES: &[u8] = b"channel 01ab
channel  failed
bind 1 127.0.0.1 40000
bind 2 0.0.0.0 failed
shut 1
datagram 2 10.0.255.1 6000 80
datagram 2 10.0.255.1 6000  failed
status 5
";

#[test]
fn each_call_has_its_line(rt: HostRuntime) -> Result<(), Fail> {
    let calls = calls(rt.alloc())?;
    let mut written = Bytes::new(rt.alloc());
    write_played(calls.as_slice(), 5, &mut written)?;
    assert_eq!(rt; written.as_slice(), LINES);
    Ok(())
}

// It gives a byte, and then fails.
#[derive(Drop)]
struct Broken {
    begun: bool,
}

impl Read for Broken {
    fn read(&mut self, buf: &mut [u8]) -> io::Result<usize> {
        if self.begun || buf.is_empty() {
            return Err(io::Error::from(ErrorKind::BrokenPipe));
        }
        self.begun = true;
        Ok(1)
    }
}

impl Write for Broken {
    fn write(&mut self, _buf: &[u8]) -> io::Result<usize> {
        Err(io::Error::from(ErrorKind::BrokenPipe))
    }

    fn flush(&mut self) -> io::Result<()> {
        Ok(())
    }
}

#[test]
fn a_failure_of_the_streams_is_told(rt: HostRuntime) -> Result<(), Fail> {
    let mut output = Broken { begun: false };
    let read = run(rt.alloc(), &mut Broken { begun: false }, &mut output);
    assert!(rt; matches!(&read, Err(PlayFault::Read)));
    let mut input: &[u8] = b"ports\n";
    let written = run(rt.alloc(), &mut input, &mut output);
    assert!(rt; matches!(&written, Err(PlayFault::Write)));
    let played = play(rt.alloc(), b"ports\n")?;
    assert_eq!(rt;
        played.as_slice(),
        b"channel 270000007b226576656e74223a2272756e6e696e67222c227461726765744964223a22776f726b6572227d\nstatus 0\n".as_slice()
    );
    Ok(())
}
