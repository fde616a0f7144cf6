ghost use Rattle.std.specs.Prelude.{◌≡◌, ◌++◌, ◌∷◌, OnOk, OnErr};
ghost use Rattle.hex.specs.Hex.{encode_lower};
ghost use Rattle.ms_base.specs.Code.{code_word};
ghost use Rattle.ms_base.specs.declared.outcome.Outcome.TheVariants as refusal;
ghost use Rattle.ms_base.specs.Words.{space, ip_text, IsFrontOf};
ghost use Rattle.serde_json.specs.Data.{string};
ghost use Rattle.serde_json.specs.Written.{compact_text};
ghost use Rattle.transcript.specs.Lines.{note_line, note_words, outcome_words, kind_word, cause_word, reason_word, error_word};
ghost use Rattle.transcript.specs.declared.note.Note.TheVariants as form;

use crate::note::{Cause, Note};
use ms_base::{
    Bytes, CallKey, Code, Id, Kind, Name, NoMemory, Outcome, Reason, Serial, Text, Tuple,
    WorkerError, WorkerKey, push_hex, push_ip, push_number, push_word, push_worker,
};
use serde_json::Value;
use std::alloc::Global;

/// Appends the line of a note, whole or not at all.
pub fn note_line(alloc: Global, note: &Note, into: &mut Bytes) -> Result<(), NoMemory>
    ensures ok { OnOk result (into.new ≡ into.old ++ note_line note.now) }
    ensures err { OnErr result (into.new ≡ into.old) }
{
    let len = into.len();
    let pushed = push_line(alloc, note, into);
    if pushed.is_err() {
        into.truncate(len);
    }
    pushed
}

// What follows appends words. Where memory runs out a beginning of them may stand behind the old bytes.

// Appends the words of a note and a line feed.
fn push_line(alloc: Global, note: &Note, into: &mut Bytes) -> Result<(), NoMemory>
    ensures ok { OnOk result (into.new ≡ into.old ++ note_line note.now) }
    ensures err { OnErr result (IsFrontOf into.old into.new) }
{
    push_words(alloc, note, into)?;
    into.push(b'\n')
}

// Appends the words of a note.
fn push_words(alloc: Global, note: &Note, into: &mut Bytes) -> Result<(), NoMemory>
    ensures ok { OnOk result (into.new ≡ into.old ++ note_words note.now) }
    ensures err { OnErr result (IsFrontOf into.old into.new) }
{
    match note {
        Note::Open {
            serial,
            kind,
            name,
            id,
        } => push_open(*serial, *kind, name, id, into),
        Note::Spawn { worker } => push_worker(b"spawn", *worker, into),
        Note::Up { worker } => push_worker(b"up", *worker, into),
        Note::Running { name, generation } => {
            push_named(b"running", name, into)?;
            push_number(u64::from(*generation), into)
        }
        Note::Gone { worker, cause } => {
            push_worker(b"gone", *worker, into)?;
            push_word(cause_word(*cause), into)
        }
        Note::Closed {
            serial,
            name,
            reason,
        } => push_closed(*serial, name, *reason, into),
        Note::Sent { worker, payload } => {
            push_worker(b"sent", *worker, into)?;
            push_word(payload.as_slice(), into)
        }
        Note::SentRtp { worker, id, packet } => push_sent_rtp(*worker, id, packet, into),
        Note::Settled { call, outcome } => push_settled(alloc, *call, outcome, into),
        Note::Paused { name } => push_named(b"paused", name, into),
        Note::Resumed { name } => push_named(b"resumed", name, into),
        Note::Tuple { name, remote } => push_tuple(name, *remote, into),
        Note::Rtp { name, packet } => {
            push_named(b"rtp", name, into)?;
            push_digits(packet, into)
        }
        Note::Late { worker, id } => {
            push_worker(b"late", *worker, into)?;
            push_number(u64::from(*id), into)
        }
        Note::Stray { worker } => push_worker(b"stray", *worker, into),
        Note::Unexpected { worker } => push_worker(b"unexpected", *worker, into),
        Note::Log {
            worker,
            level,
            text,
        } => push_log(*worker, *level, text, into),
    }
}

// Appends a first word and a name.
fn push_named(word: &[u8], name: &Name, into: &mut Bytes) -> Result<(), NoMemory>
    ensures ok { OnOk result (into.new ≡ into.old ++ word.now ++ space ∷ name.now) }
    ensures err { OnErr result (IsFrontOf into.old into.new) }
{
    into.extend_from_slice(word)?;
    push_word(name.as_slice(), into)
}

// Appends bytes in hexadecimal behind their space, which stands also where there are none.
fn push_digits(bytes: &Bytes, into: &mut Bytes) -> Result<(), NoMemory>
    ensures ok { OnOk result (into.new ≡ into.old ++ space ∷ encode_lower bytes.now) }
    ensures err { OnErr result (IsFrontOf into.old into.new) }
{
    into.push(b' ')?;
    push_hex(bytes.as_slice(), into)
}

// Appends the words of an object that was added.
fn push_open(
    serial: Serial,
    kind: Kind,
    name: &Name,
    id: &Id,
    into: &mut Bytes,
) -> Result<(), NoMemory>
    ensures ok { OnOk result (into.new ≡ into.old ++ note_words (form.Open serial kind name.now id.now)) }
    ensures err { OnErr result (IsFrontOf into.old into.new) }
{
    into.extend_from_slice(b"open")?;
    push_number(u64::from(serial.0), into)?;
    push_word(kind_word(kind), into)?;
    push_word(name.as_slice(), into)?;
    push_word(&id.text(), into)
}

// Appends the words of an object that has closed.
fn push_closed(
    serial: Serial,
    name: &Name,
    reason: Reason,
    into: &mut Bytes,
) -> Result<(), NoMemory>
    ensures ok { OnOk result (into.new ≡ into.old ++ note_words (form.Closed serial name.now reason)) }
    ensures err { OnErr result (IsFrontOf into.old into.new) }
{
    into.extend_from_slice(b"closed")?;
    push_number(u64::from(serial.0), into)?;
    push_word(name.as_slice(), into)?;
    push_word(reason_word(reason), into)
}

// Appends the words of a packet that went to a worker.
fn push_sent_rtp(
    worker: WorkerKey,
    id: &Id,
    packet: &Bytes,
    into: &mut Bytes,
) -> Result<(), NoMemory>
    ensures ok { OnOk result (into.new ≡ into.old ++ note_words (form.SentRtp worker id.now packet.now)) }
    ensures err { OnErr result (IsFrontOf into.old into.new) }
{
    push_worker(b"sent", worker, into)?;
    push_word(b"rtp", into)?;
    push_word(&id.text(), into)?;
    push_digits(packet, into)
}

// Appends the words of a call that has settled.
fn push_settled(
    alloc: Global,
    call: CallKey,
    outcome: &Outcome,
    into: &mut Bytes,
) -> Result<(), NoMemory>
    ensures ok { OnOk result (into.new ≡ into.old ++ note_words (form.Settled call outcome.now)) }
    ensures err { OnErr result (IsFrontOf into.old into.new) }
{
    into.extend_from_slice(b"settled")?;
    push_number(u64::from(call.lane), into)?;
    push_number(u64::from(call.place), into)?;
    into.push(b' ')?;
    push_outcome(alloc, outcome, into)
}

// Appends the words of a transport that has learnt its other end.
fn push_tuple(name: &Name, remote: Tuple, into: &mut Bytes) -> Result<(), NoMemory>
    ensures ok { OnOk result (into.new ≡ into.old ++ note_words (form.Tuple name.now remote)) }
    ensures err { OnErr result (IsFrontOf into.old into.new) }
{
    push_named(b"tuple", name, into)?;
    push_address(remote.ip, into)?;
    push_number(u64::from(remote.port), into)
}

// Appends an IPv4 address behind its space.
#[tactic(auto, using(crate::proofs::Fronts::shorter_front))]
fn push_address(ip: [u8; 4], into: &mut Bytes) -> Result<(), NoMemory>
    ensures ok { OnOk result (into.new ≡ into.old ++ space ∷ ip_text ip) }
    ensures err { OnErr result (IsFrontOf into.old into.new) }
{
    into.push(b' ')?;
    push_ip(ip, into)
}

// Appends the words of a line of a worker's log.
fn push_log(worker: WorkerKey, level: u8, text: &Bytes, into: &mut Bytes) -> Result<(), NoMemory>
    ensures ok { OnOk result (into.new ≡ into.old ++ note_words (form.Log worker level text.now)) }
    ensures err { OnErr result (IsFrontOf into.old into.new) }
{
    push_worker(b"log", worker, into)?;
    push_word(&[level], into)?;
    push_digits(text, into)
}

// Appends the words of an outcome.
fn push_outcome(alloc: Global, outcome: &Outcome, into: &mut Bytes) -> Result<(), NoMemory>
    ensures ok { OnOk result (into.new ≡ into.old ++ outcome_words outcome.now) }
    ensures err { OnErr result (IsFrontOf into.old into.new) }
{
    match outcome {
        Outcome::Done => into.extend_from_slice(b"ok"),
        Outcome::Answer(true) => into.extend_from_slice(b"yes"),
        Outcome::Answer(false) => into.extend_from_slice(b"no"),
        Outcome::NameTaken => into.extend_from_slice(b"nametaken"),
        Outcome::NoName => into.extend_from_slice(b"noname"),
        Outcome::WrongKind => into.extend_from_slice(b"wrongkind"),
        Outcome::InvalidState => into.extend_from_slice(b"invalidstate"),
        Outcome::TypeError { code } => push_code(b"typeerror", *code, into),
        Outcome::Unsupported { code } => push_code(b"unsupported", *code, into),
        Outcome::IdsSpent => into.extend_from_slice(b"idsspent"),
        Outcome::TooBig => into.extend_from_slice(b"toobig"),
        Outcome::Worker { error, reason } => push_refusal(alloc, *error, reason, into),
        Outcome::Closed { by } => push_named(b"closed", by, into),
        Outcome::Missed => into.extend_from_slice(b"missed"),
    }
}

// Appends a first word and the word of a code.
fn push_code(word: &[u8], code: Code, into: &mut Bytes) -> Result<(), NoMemory>
    ensures ok { OnOk result (into.new ≡ into.old ++ (word.now ++ space ∷ code_word code)) }
    ensures err { OnErr result (IsFrontOf into.old into.new) }
{
    into.extend_from_slice(word)?;
    push_word(code.word(), into)
}

// Appends the words of a refusal of the worker, its reason as a JSON text.
fn push_refusal(
    alloc: Global,
    error: WorkerError,
    reason: &Text,
    into: &mut Bytes,
) -> Result<(), NoMemory>
    ensures ok { OnOk result (into.new ≡ into.old ++ outcome_words (refusal.Worker error reason.now)) }
    ensures err { OnErr result (IsFrontOf into.old into.new) }
{
    into.extend_from_slice(b"worker")?;
    push_word(error_word(error), into)?;
    let quoted = Value::String(String::from_str(alloc, reason.as_str())?).to_string(alloc)?;
    push_word(quoted.as_bytes(), into)
}

// The word of a kind of object.
fn kind_word(kind: Kind) -> &'static [u8]
    ensures { result.now ≡ kind_word kind }
{
    match kind {
        Kind::Worker => b"worker",
        Kind::Router => b"router",
        Kind::Plain => b"plain",
        Kind::Pipe => b"pipe",
        Kind::Direct => b"direct",
        Kind::Producer => b"producer",
        Kind::Consumer => b"consumer",
    }
}

// The word of what has ended a worker.
fn cause_word(cause: Cause) -> &'static [u8]
    ensures { result.now ≡ cause_word cause }
{
    match cause {
        Cause::End => b"end",
        Cause::Read => b"read",
        Cause::Write => b"write",
        Cause::Start => b"start",
        Cause::Broken => b"broken",
    }
}

// The word of what has closed an object.
fn reason_word(reason: Reason) -> &'static [u8]
    ensures { result.now ≡ reason_word reason }
{
    match reason {
        Reason::Close => b"close",
        Reason::Died => b"died",
        Reason::Stop => b"stop",
        Reason::ProducerClose => b"producerclose",
        Reason::Cleanup => b"cleanup",
        Reason::WorkerClose => b"workerclose",
        Reason::RouterClose => b"routerclose",
        Reason::TransportClose => b"transportclose",
        Reason::PipeClose => b"pipeclose",
    }
}

// The word of a kind of refusal.
fn error_word(error: WorkerError) -> &'static [u8]
    ensures { result.now ≡ error_word error }
{
    match error {
        WorkerError::TypeError => b"TypeError",
        WorkerError::Error => b"Error",
        WorkerError::BadData => b"BadData",
    }
}
