//! The notice of a tuple without memory: it goes out with the packet that teaches the tuple.

ghost use Rattle.std.specs.Prelude.{◌≡◌, ℕ, ◌+◌, ◌≤◌, length, take, drop, decimal};
ghost use Rattle.ms_base.specs.Words.{ip_text};
ghost use Rattle.worker_requests.specs.declared.notice.WorkerNotice.TheVariants.{TupleLearnt};
ghost use Rattle.worker_requests.specs.Said.{notice_payload, Puts};

use crate::short::address_is_short;
use itoa::Buffer;
use ms_base::{Id, Tuple};

/// How many bytes the payload of the notice that a transport has learnt its other end has at most.
pub const TUPLE_NOTICE: usize = 134;

/// Writes the payload of the notice that a transport has learnt its other end over the front of the buffer, and gives
/// its length. The bytes behind it stay. It takes no memory.
pub fn write_tuple_notice(transport: Id, tuple: Tuple, into: &mut [u8]) -> usize
    requires { TUPLE_NOTICE ≤ length into.old }
    ensures payload { take result into.new ≡ notice_payload (TupleLearnt transport tuple) }
    ensures behind { drop result into.new ≡ drop result into.old }
    ensures short { result ≤ TUPLE_NOTICE }
{
    address_is_short(&tuple.ip);
    let text = transport.text();
    let before_ip = put(b"{\"data\":{\"tuple\":{\"remoteIp\":\"", 0, into);
    let after_ip = put_ip(tuple.ip, before_ip, into);
    let before_port = put(b"\",\"remotePort\":", after_ip, into);
    let after_port = put_port(tuple.port, before_port, into);
    let before_id = put(b"}},\"event\":\"tuple\",\"targetId\":\"", after_port, into);
    let after_id = put(&text, before_id, into);
    put(b"\"}", after_id, into)
}

// Writes an address at a place, and gives the place behind it.
fn put_ip(ip: [u8; 4], at: usize, into: &mut [u8]) -> usize
    requires { at + 15 ≤ length into.old }
    ensures puts { Puts (ip_text ip) into.old into.new at result }
    ensures few { result ≤ at + 15 }
{
    let [a, b, c, d] = ip;
    let after_a = put_octet(a, at, into);
    let before_b = put(b".", after_a, into);
    let after_b = put_octet(b, before_b, into);
    let before_c = put(b".", after_b, into);
    let after_c = put_octet(c, before_c, into);
    let before_d = put(b".", after_c, into);
    put_octet(d, before_d, into)
}

fn put_octet(octet: u8, at: usize, into: &mut [u8]) -> usize
    requires { at + 3 ≤ length into.old }
    ensures puts { Puts (decimal octet) into.old into.new at result }
    ensures few { result ≤ at + 3 }
{
    let mut buffer = Buffer::new();
    put(buffer.format(octet).as_bytes(), at, into)
}

fn put_port(port: u16, at: usize, into: &mut [u8]) -> usize
    requires { at + 5 ≤ length into.old }
    ensures puts { Puts (decimal port) into.old into.new at result }
    ensures few { result ≤ at + 5 }
{
    let mut buffer = Buffer::new();
    put(buffer.format(port).as_bytes(), at, into)
}

// Writes bytes at a place, and gives the place behind them.
fn put(bytes: &[u8], at: usize, into: &mut [u8]) -> usize
    requires { at + length bytes.now ≤ length into.old }
    ensures puts { Puts bytes.now into.old into.new at result }
    ensures end { result ≡ at + length bytes.now }
{
    let end = at + bytes.len();
    into[at..end].copy_from_slice(bytes);
    end
}
