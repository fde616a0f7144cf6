ghost use Rattle.std.specs.Prelude.{◌≡◌, ◌++◌, ◌+◌, ◌≤◌, ◌∷◌, length, min, OnOk, OnErr};
ghost use Rattle.hex.specs.Hex.{encode_lower};
ghost use Rattle.ms_base.specs.Words.{IsFrontOf, space};
ghost use Rattle.script_text.specs.Words.{event_word};
ghost use Rattle.script_text.specs.Calls.{op_words, await_words, line_of, line_rest, max_told};

use crate::verb::word_of;
use ms_base::{Bytes, Event, Name, NoMemory, Op, digits, push_hex, push_number, push_word};

// Where memory runs out a beginning of what was to be appended may stand behind the old bytes.

/// The word of a kind of note.
pub fn event_word(event: Event) -> &'static [u8]
    ensures value { result.now ≡ event_word event }
    ensures few { length result.now ≤ 7 }
{
    match event {
        Event::Running => b"running",
        Event::Opened => b"open",
        Event::Closed => b"closed",
        Event::Paused => b"paused",
        Event::Resumed => b"resumed",
        Event::Tuple => b"tuple",
        Event::Rtp => b"rtp",
    }
}

/// Appends `X EVENT COUNT`.
pub fn push_await(name: &Name, event: Event, count: u32, into: &mut Bytes) -> Result<(), NoMemory>
    ensures ok { OnOk result (into.new ≡ into.old ++ await_words name.now event count) }
    ensures err { OnErr result (IsFrontOf into.old into.new) }
{
    into.extend_from_slice(name.as_slice())?;
    push_word(event_word(event), into)?;
    push_number(u64::from(count), into)
}

/// Appends the words of a call.
#[tactic(auto, unfolding(crate::specs::Calls::op_words))]
pub fn push_op(op: &Op, into: &mut Bytes) -> Result<(), NoMemory>
    ensures ok { OnOk result (into.new ≡ into.old ++ op_words op.now) }
    ensures err { OnErr result (IsFrontOf into.old into.new) }
{
    into.extend_from_slice(word_of(op))?;
    push_args(op, into)
}

// Appends the words of a call behind its first, each behind its space.
fn push_args(op: &Op, into: &mut Bytes) -> Result<(), NoMemory>
    ensures ok { OnOk result (into.new ≡ into.old ++ space ∷ line_rest (line_of op.now)) }
    ensures err { OnErr result (IsFrontOf into.old into.new) }
{
    match op {
        Op::Worker { name, budget } => {
            push_word(name.as_slice(), into)?;
            push_number(u64::from(*budget), into)
        }
        Op::Router {
            name,
            worker: under,
            options,
        }
        | Op::Plain {
            name,
            router: under,
            options,
        }
        | Op::Pipe {
            name,
            router: under,
            options,
        }
        | Op::Produce {
            name,
            transport: under,
            options,
        } => {
            push_names(name, under, into)?;
            push_word(options.as_bytes(), into)
        }
        Op::Direct { name, router } => push_names(name, router, into),
        Op::Connect {
            transport: name,
            options,
        }
        | Op::CanConsume {
            producer: name,
            caps: options,
        } => {
            push_word(name.as_slice(), into)?;
            push_word(options.as_bytes(), into)
        }
        Op::Consume {
            name,
            transport,
            producer,
            options,
        } => {
            push_names(name, transport, into)?;
            push_word(producer.as_slice(), into)?;
            push_word(options.as_bytes(), into)
        }
        Op::Pause { name } | Op::Resume { name } | Op::Close { name } => {
            push_word(name.as_slice(), into)
        }
        Op::Send { producer, packet } => {
            push_word(producer.as_slice(), into)?;
            push_packet(packet.as_slice(), into)
        }
        Op::PipeRouter {
            name,
            producer,
            router,
        } => {
            push_names(name, producer, into)?;
            push_word(router.as_slice(), into)
        }
    }
}

// Appends two names, each behind its space.
fn push_names(first: &Name, second: &Name, into: &mut Bytes) -> Result<(), NoMemory>
    ensures ok { OnOk result (into.new ≡ into.old ++ space ∷ first.now ++ space ∷ second.now) }
    ensures err { OnErr result (IsFrontOf into.old into.new) }
{
    push_word(first.as_slice(), into)?;
    push_word(second.as_slice(), into)
}

// Appends bytes in hexadecimal behind a space.
fn push_packet(packet: &[u8], into: &mut Bytes) -> Result<(), NoMemory>
    ensures ok { OnOk result (into.new ≡ into.old ++ space ∷ encode_lower packet.now) }
    ensures err { OnErr result (IsFrontOf into.old into.new) }
{
    into.push(b' ')?;
    push_hex(packet, into)
}

// The length of a name and of a space.
fn name_size(name: &Name) -> u64
    ensures value { result ≡ length name.now + 1 }
    ensures few { result ≤ 65 }
{
    name.as_slice().len() as u64 + 1
}

/// The length in bytes of `X EVENT COUNT`.
pub fn await_size(name: &Name, event: Event, count: u32) -> u64
    ensures value { result ≡ length (await_words name.now event count) }
    ensures few { result ≤ 93 }
{
    name_size(name) + event_word(event).len() as u64 + 1 + digits(u64::from(count))
}

/// The length in bytes of the words of a call, or 2^64 - 1 where that is greater.
#[tactic(auto, unfolding(crate::specs::Calls::op_words))]
pub fn op_size(op: &Op) -> u64
    ensures { result ≡ min (length (op_words op.now)) max_told }
{
    args_size(op).saturating_add(word_of(op).len() as u64 + 1)
}

// The length of the words behind the first.
fn args_size(op: &Op) -> u64
    ensures { result ≡ min (length (line_rest (line_of op.now))) max_told }
{
    match op {
        Op::Worker { name, budget } => name_size(name) + digits(u64::from(*budget)),
        Op::Router {
            name,
            worker: under,
            options,
        }
        | Op::Plain {
            name,
            router: under,
            options,
        }
        | Op::Pipe {
            name,
            router: under,
            options,
        }
        | Op::Produce {
            name,
            transport: under,
            options,
        } => (options.as_str().len() as u64).saturating_add(name_size(name) + name_size(under)),
        Op::Direct { name, router } => name_size(name) + name_size(router) - 1,
        Op::Connect {
            transport: name,
            options,
        }
        | Op::CanConsume {
            producer: name,
            caps: options,
        } => (options.as_str().len() as u64).saturating_add(name_size(name)),
        Op::Consume {
            name,
            transport,
            producer,
            options,
        } => {
            let names = name_size(name) + name_size(transport) + name_size(producer);
            (options.as_str().len() as u64).saturating_add(names)
        }
        Op::Pause { name } | Op::Resume { name } | Op::Close { name } => { name_size(name) - 1 }
        Op::Send { producer, packet } => {
            let digits = (packet.len() as u64).saturating_mul(2);
            digits.saturating_add(name_size(producer))
        }
        Op::PipeRouter {
            name,
            producer,
            router,
        } => name_size(name) + name_size(producer) + name_size(router) - 1,
    }
}
