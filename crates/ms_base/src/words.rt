ghost use Rattle.std.specs.Prelude.{◌≡◌, ◌++◌, ◌∷◌, length, decimal, OnOk, OnErr, ◌≤◌};
ghost use Rattle.hex.specs.Hex.{encode_lower};
ghost use Rattle.ms_base.specs.Words.{space, spaced, worker_words, ip_text, IsFrontOf};

use crate::bytes::Bytes;
use crate::fault::NoMemory;
use crate::keys::WorkerKey;
use itoa::Buffer;

// Where memory runs out a beginning of what was to be appended may stand behind the old bytes: the one who
// appends a whole line cuts it off.

/// Appends a word behind its space.
pub fn push_word(word: &[u8], into: &mut Bytes) -> Result<(), NoMemory>
    ensures ok { OnOk result (into.new ≡ into.old ++ space ∷ word.now) }
    ensures err { OnErr result (IsFrontOf into.old into.new) }
{
    into.push(b' ')?;
    into.extend_from_slice(word)
}

/// Appends a number behind its space.
pub fn push_number(number: u64, into: &mut Bytes) -> Result<(), NoMemory>
    ensures ok { OnOk result (into.new ≡ into.old ++ spaced number) }
    ensures err { OnErr result (IsFrontOf into.old into.new) }
{
    let mut buffer = Buffer::new();
    push_word(buffer.format(number).as_bytes(), into)
}

/// Appends a first word with the slot and the generation of a worker.
pub fn push_worker(word: &[u8], worker: WorkerKey, into: &mut Bytes) -> Result<(), NoMemory>
    ensures ok { OnOk result (into.new ≡ into.old ++ word.now ++ worker_words worker) }
    ensures err { OnErr result (IsFrontOf into.old into.new) }
{
    into.extend_from_slice(word)?;
    push_number(u64::from(worker.slot), into)?;
    push_number(u64::from(worker.generation), into)
}

/// Appends an IPv4 address, its first octet first, as four numbers with dots between them.
pub fn push_ip(ip: [u8; 4], into: &mut Bytes) -> Result<(), NoMemory>
    ensures ok { OnOk result (into.new ≡ into.old ++ ip_text ip) }
    ensures err { OnErr result (IsFrontOf into.old into.new) }
{
    let [a, b, c, d] = ip;
    push_digits(a, into)?;
    into.push(b'.')?;
    push_digits(b, into)?;
    into.push(b'.')?;
    push_digits(c, into)?;
    into.push(b'.')?;
    push_digits(d, into)
}

// Appends a number.
fn push_digits(number: u8, into: &mut Bytes) -> Result<(), NoMemory>
    ensures ok { OnOk result (into.new ≡ into.old ++ decimal number) }
    ensures err { OnErr result (into.new ≡ into.old) }
{
    let mut buffer = Buffer::new();
    into.extend_from_slice(buffer.format(number).as_bytes())
}

const HEX_DIGITS: &[u8; 16] = b"0123456789abcdef";

/// Appends bytes in hexadecimal, two lower-case digits for each, the high four bits first.
pub fn push_hex(bytes: &[u8], into: &mut Bytes) -> Result<(), NoMemory>
    ensures ok { OnOk result (into.new ≡ into.old ++ encode_lower bytes.now) }
    ensures err { OnErr result (IsFrontOf into.old into.new) }
{
    for byte in bytes {
        let (high, low) = (byte / 16, byte % 16);
        into.push(HEX_DIGITS[usize::from(high)])?;
        into.push(HEX_DIGITS[usize::from(low)])?;
    }
    Ok(())
}

/// How many digits a number has.
pub fn digits(number: u64) -> u64
    ensures value { result ≡ length (decimal number) }
    ensures few { result ≤ 20 }
{
    let mut buffer = Buffer::new();
    buffer.format(number).len() as u64
}
