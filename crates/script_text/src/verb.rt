ghost use Rattle.std.specs.Prelude.{◌≡◌};
ghost use Rattle.ms_base.specs.declared.code.Code.TheVariants as code;
ghost use Rattle.script_text.specs.Calls.{line_of, line_verb, verb_word, verbs};
ghost use Rattle.script_text.specs.Words.{by_word};

use ms_base::{Code, Op};

/// The first word of a call's line. Those that are followed by words of the same forms stand together.
#[derive(Clone, Copy, Debug, PartialEq, Eq)]
pub(crate) enum Verb {
    Worker,
    /// Behind it stand a name, the name of what it is made under, and options.
    Make(Making),
    Direct,
    Consume,
    /// Behind it stand a name and options.
    Tell(Telling),
    /// Behind it stands a name.
    Turn(Turning),
    Send,
    PipeRouter,
}

#[derive(Clone, Copy, Debug, PartialEq, Eq)]
pub(crate) enum Making {
    Router,
    Plain,
    Pipe,
    Produce,
}

#[derive(Clone, Copy, Debug, PartialEq, Eq)]
pub(crate) enum Telling {
    Connect,
    CanConsume,
}

#[derive(Clone, Copy, Debug, PartialEq, Eq)]
pub(crate) enum Turning {
    Pause,
    Resume,
    Close,
}

impl Verb {
    /// The verb of this word. `Op` comes exactly where no call's line begins so.
    pub(crate) fn read(word: &str) -> Result<Verb, Code>
        ensures { result ≡ by_word verb_word word.now code.Op verbs }
    {
        match word {
            "worker" => Ok(Verb::Worker),
            "router" => Ok(Verb::Make(Making::Router)),
            "plain" => Ok(Verb::Make(Making::Plain)),
            "pipe" => Ok(Verb::Make(Making::Pipe)),
            "direct" => Ok(Verb::Direct),
            "connect" => Ok(Verb::Tell(Telling::Connect)),
            "produce" => Ok(Verb::Make(Making::Produce)),
            "consume" => Ok(Verb::Consume),
            "pause" => Ok(Verb::Turn(Turning::Pause)),
            "resume" => Ok(Verb::Turn(Turning::Resume)),
            "close" => Ok(Verb::Turn(Turning::Close)),
            "canconsume" => Ok(Verb::Tell(Telling::CanConsume)),
            "send" => Ok(Verb::Send),
            "piperouter" => Ok(Verb::PipeRouter),
            _ => Err(Code::Op),
        }
    }
}

/// The first word of a call's line.
pub(crate) fn word_of(op: &Op) -> &'static [u8]
    ensures { result.now ≡ line_verb (line_of op.now) }
{
    match op {
        Op::Worker { .. } => b"worker",
        Op::Router { .. } => b"router",
        Op::Plain { .. } => b"plain",
        Op::Pipe { .. } => b"pipe",
        Op::Direct { .. } => b"direct",
        Op::Connect { .. } => b"connect",
        Op::Produce { .. } => b"produce",
        Op::Consume { .. } => b"consume",
        Op::Pause { .. } => b"pause",
        Op::Resume { .. } => b"resume",
        Op::Close { .. } => b"close",
        Op::CanConsume { .. } => b"canconsume",
        Op::Send { .. } => b"send",
        Op::PipeRouter { .. } => b"piperouter",
    }
}
