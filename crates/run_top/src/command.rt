ghost use Rattle.std.specs.Prelude.{◌≡◌};
ghost use Rattle.run_top.specs.Command.{command_of};

use ms_base::Text;

/// A command of the program.
#[derive(Clone, Copy, Debug, PartialEq, Eq)]
pub enum Command {
    /// Replays the journal that the source holds.
    Replay,
    /// Serves as a worker.
    Worker,
}

/// The command that the words behind the program's own name are, if they are one.
pub fn command_of(words: &[Text]) -> Option<Command>
    ensures { result ≡ command_of words.now }
{
    match words {
        [word] if word.as_str() == "replay" => Some(Command::Replay),
        [word] if word.as_str() == "worker" => Some(Command::Worker),
        _ => None,
    }
}
