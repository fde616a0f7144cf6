//! The media server as a program: the real objects, and the words that it is given.
#![tactic(auto)]

ghost use Rattle.std.specs.Prelude.{◌≡◌, ◌↔◌, ◌⊎◌, IfOk, drop, map, string_bytes};
ghost use Rattle.std.specs.Process.{exit_status};
ghost use Rattle.std.specs.Vec.Iter.{into_iter_items};

use ms_base::Text;
use real_edges::{RealSink, RealSource, open_worker};
use run_top::{Status, media_top};
use std::alloc::{AllocError, Global};
use std::env::Args;
use std::io::ErrorKind;
use std::process::ExitCode;

fn main(rt: HostRuntime) -> ExitCode {
    let args = match std::env::args(&rt) {
        Ok(args) => args,
        Err(fault) => return exit_code(status_without_words(fault.kind())),
    };
    let Ok(words) = command_words(rt.alloc(), args) else {
        return exit_code(Status::OUT_OF_MEMORY);
    };
    let mut source = RealSource::new(rt.stdin());
    let mut sink = RealSink::new(rt.stdout());
    // Standard input isn't read by it before a worker asks for its first event.
    let Ok(mut edges) = open_worker(rt, rt.alloc(), rt.stdin(), rt.stdout()) else {
        return exit_code(Status::OUT_OF_MEMORY);
    };
    let status = media_top(
        rt.alloc(),
        words.as_slice(),
        &mut source,
        &mut sink,
        &mut edges.inbox,
        &mut edges.outbox,
    );
    edges.close();
    exit_code(status)
}

// The exit code of a status.
fn exit_code(status: Status) -> ExitCode
    ensures { exit_status result ≡ status.0 }
{
    ExitCode::from(status.0)
}

// The words behind the program's own name.
fn command_words(alloc: Global, args: Args) -> Result<Vec<Text>, AllocError>
    ensures { IfOk result (λ words. words.items ≡ map string_bytes (drop 1 (into_iter_items args))) }
{
    let mut words = Vec::new(alloc);
    let mut rest = args;
    let _ = rest.next();
    while let Some(word) = rest.next() {
        words.push(Text::from_string(word))?;
    }
    Ok(words)
}

// The status where the words can't be had: out of memory, or a word that is no text and so no command's.
fn status_without_words(kind: ErrorKind) -> Status
    ensures memory { (result ≡ Status.OUT_OF_MEMORY) ↔ (kind ≡ ErrorKind.OutOfMemory) }
    ensures no_other { (result ≡ Status.OUT_OF_MEMORY) ⊎ (result ≡ Status.NO_COMMAND) }
{
    match kind {
        ErrorKind::OutOfMemory => Status::OUT_OF_MEMORY,
        _ => Status::NO_COMMAND,
    }
}

#[cfg(test)]
mod tests;
