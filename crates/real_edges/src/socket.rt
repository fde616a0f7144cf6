// The calls on sockets. What the system's C library is asked for beside std is here alone: `poll`, `shutdown` and
// `setsockopt`.
ghost use Rattle.std.specs.Prelude.{pos};
ghost use Rattle.libc.specs.Net.{SockOption};

use libc::net as c;
use libc::types::pollfd;
use ms_base::Tuple;
use std::io;
use std::io::ErrorKind;
use std::net::{Ipv4Addr, Net, SocketAddr, UdpSocket};
use std::os::fd::AsRawFd;

/// The bytes that the system is asked to keep for a socket, in each direction.
const KEPT_BYTES: i32 = 4 << 20;

/// A socket at the address whose calls don't wait, at a port that the system chooses.
pub(crate) fn open_socket<R: Net>(rt: &R, ip: [u8; 4]) -> io::Result<UdpSocket> {
    let socket = UdpSocket::bind(rt, address(Tuple { ip, port: 0 }))?;
    socket.set_nonblocking(true)?;
    // Where the system refuses, its own sizes stand.
    ask_room(&socket, c::SO_RCVBUF);
    ask_room(&socket, c::SO_SNDBUF);
    Ok(socket)
}

fn address(tuple: Tuple) -> SocketAddr {
    let [a, b, c, d] = tuple.ip;
    SocketAddr::from((Ipv4Addr::new(a, b, c, d), tuple.port))
}

fn ask_room(socket: &UdpSocket, option: i32)
    requires { SockOption (pos 1) option }
{
    let mut value = [0u8; 16];
    value[..4].copy_from_slice(&KEPT_BYTES.to_ne_bytes());
    unsafe { c::setsockopt(socket.as_raw_fd(), c::SOL_SOCKET, option, &value, 4) };
}

/// Waits until datagrams lie ready, or the waits for the socket were ended. It may come back before.
pub(crate) fn wait_ready(socket: &UdpSocket) {
    let mut asked = [pollfd {
        fd: socket.as_raw_fd(),
        events: c::POLLIN,
        revents: 0,
    }];
    c::poll(&mut asked, -1);
}

/// Ends each wait for the socket, now and from now on. The system does so, though its answer is that the socket has
/// no peer.
pub(crate) fn end_waits(socket: &UdpSocket) {
    c::shutdown(socket.as_raw_fd(), c::SHUT_RD);
}

/// Sends a datagram by one call of the system, again after each interruption. `false`: it is lost.
pub(crate) fn send_datagram(socket: &UdpSocket, to: Tuple, packet: &[u8]) -> bool {
    let to = address(to);
    for _ in 0..u64::MAX {
        match socket.send_to(packet, to) {
            Ok(_) => return true,
            Err(fault) if fault.kind() == ErrorKind::Interrupted => {}
            Err(_) => return false,
        }
    }
    false
}
