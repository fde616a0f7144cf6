ghost use Rattle.std.specs.Prelude.{◌≡◌, ◌↔◌, None, Some};
ghost use Rattle.run_top.specs.Command.{command_of};
ghost use Rattle.run_top.specs.Replay.{IsReplay};
ghost use Rattle.run_top.specs.Worker.{IsWorker};
ghost use Rattle.run_top.specs.declared.command.Command.TheVariants.{Replay, Worker};

use crate::command::{Command, command_of};
use crate::replay::replay_top;
use crate::status::Status;
use crate::worker::worker_top;
use ms_base::Text;
use ms_devices::{Inbox, Outbox, Sink, Source};
use std::alloc::Global;

/// Runs the command that the words behind the program's own name are.
pub fn media_top<S: Source, K: Sink, I: Inbox, O: Outbox>(
    alloc: Global,
    words: &[Text],
    source: &mut S,
    sink: &mut K,
    inbox: &mut I,
    outbox: &mut O,
) -> Status
    // The words are no command's: nothing is read or written.
    ensures no_command { result ≡ Status.NO_COMMAND ↔ command_of words.now ≡ None }
    ensures untouched { command_of words.now ≡ None → (source.new ≡ source.old) × (sink.new ≡ sink.old) × (inbox.new ≡ inbox.old) × (outbox.new ≡ outbox.old) }

    // Else they are a command's, which keeps its promises, and leaves what it doesn't use as it was.
    ensures replay { command_of words.now ≡ Some Replay → IsReplay result.0
        (record { held = S.holds source.old; read_faults = S.faults source.old; got = K.got sink.old; write_faults = K.faults sink.old })
        (record { held = S.holds source.new; read_faults = S.faults source.new; got = K.got sink.new; write_faults = K.faults sink.new })
        sink.old sink.new }
    ensures replay_leaves { command_of words.now ≡ Some Replay → (inbox.new ≡ inbox.old) × (outbox.new ≡ outbox.old) }
    ensures worker { command_of words.now ≡ Some Worker → IsWorker result.0
        (record { given = I.given inbox.old; read_faults = I.faults inbox.old; calls = O.calls outbox.old; channel_faults = O.channel_faults outbox.old; link_faults = O.link_faults outbox.old })
        (record { given = I.given inbox.new; read_faults = I.faults inbox.new; calls = O.calls outbox.new; channel_faults = O.channel_faults outbox.new; link_faults = O.link_faults outbox.new }) }
    ensures worker_leaves { command_of words.now ≡ Some Worker → (source.new ≡ source.old) × (sink.new ≡ sink.old) }
{
    match command_of(words) {
        Some(Command::Replay) => replay_top(alloc, source, sink),
        Some(Command::Worker) => worker_top(alloc, inbox, outbox),
        None => Status::NO_COMMAND,
    }
}
