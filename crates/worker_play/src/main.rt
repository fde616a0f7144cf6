//! Plays to a worker what standard input says happens to it, and writes each call on its outbox. For tests and
//! people: nothing is sent, and no socket is opened.
//!
//! The first line of the input is `ports` with the answers to `bind` in order, each a port or `-` for one that fails.
//! Behind it each line is `channel HEX`, bytes of the worker's channel in any pieces, or `datagram LINK IP PORT HEX`.
//! Each call has a line: `channel HEX`, `bind LINK IP PORT` with `failed` for the port of one that failed, `shut LINK`,
//! or `datagram LINK IP PORT HEX`; the last line is `status N`.
#![tactic(auto)]

ghost use Rattle.std.specs.Prelude.{IfOk, IfErr};
ghost use Rattle.worker_play.specs.Reading.{lines, TellsBad};
ghost use Rattle.worker_play.specs.Written.{IsPlayed};

mod fault;
mod line;
mod script;
mod words;
mod write;

use fault::PlayFault;
use ms_base::Bytes;
use ms_devices::{MemInbox, MemOutbox};
use run_top::worker_top;
use script::read_script;
use std::alloc::Global;
use std::io::{Read, Write};
use std::process::ExitCode;
use write::write_played;

fn main(rt: HostRuntime) -> ExitCode {
    match run(rt.alloc(), &mut rt.stdin(), &mut rt.stdout()) {
        Ok(()) => ExitCode::SUCCESS,
        Err(fault) => {
            let _ = eprintln!(rt; "worker_play: {fault}");
            ExitCode::FAILURE
        }
    }
}

// Reads the input to its end, plays it, and writes what was called.
fn run<R: Read, W: Write>(alloc: Global, input: &mut R, output: &mut W) -> Result<(), PlayFault> {
    let mut text = Vec::new(alloc);
    if input.read_to_end(&mut text).is_err() {
        return Err(PlayFault::Read);
    }
    let written = play(alloc, text.as_slice())?;
    if output.write_all(written.as_slice()).is_err() || output.flush().is_err() {
        return Err(PlayFault::Write);
    }
    Ok(())
}

// The text of the calls that a worker makes where this text says what happens to it.
fn play(alloc: Global, text: &[u8]) -> Result<Bytes, PlayFault>
    ensures ok { IfOk result (IsPlayed text.now) }
    ensures bad { IfErr result (λ fault. TellsBad fault (lines text.now)) }
{
    let script = read_script(alloc, text)?;
    let mut inbox = MemInbox::new(alloc, script.events, Vec::new(alloc))?;
    let mut outbox = MemOutbox::with_answers(alloc, script.answers, Vec::new(alloc));
    let status = worker_top(alloc, &mut inbox, &mut outbox);
    let Some(calls) = outbox.told() else {
        return Err(PlayFault::NoMemory);
    };
    let mut written = Bytes::new(alloc);
    write_played(calls, status.0, &mut written)?;
    Ok(written)
}

#[cfg(test)]
mod tests;
