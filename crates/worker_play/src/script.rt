ghost use Rattle.std.specs.Prelude.{◌≡◌, ℕ, List, IfOk, IfErr, map};
ghost use Rattle.worker_play.specs.Reading.{lines, without_empty_end, HasLines, FirstBad, FirstOther, TellsBad, IsEventLine};

use crate::fault::{PlayFault, WordFault};
use crate::line::{read_event_line, read_ports_line};
use crate::words::pieces;
use ms_devices::MemEvent;
use std::alloc::Global;

/// What happens to a worker.
#[derive(Debug, Drop)]
pub struct Script {
    /// The answers to its `bind` calls in order, `None` for one that fails.
    pub answers: Vec<Option<u16>>,
    /// What its inbox gives.
    pub events: Vec<MemEvent>,
}

/// What the text says. `BadLine` comes exactly where a line can't be read, with the first such line; where there
/// is no line, it is the first.
pub fn read_script(alloc: Global, text: &[u8]) -> Result<Script, PlayFault>
    ensures ok { IfOk result (λ script. HasLines (lines text.now) script.answers.items script.events.items) }
    ensures bad { IfErr result (λ fault. TellsBad fault (lines text.now)) }
{
    let lines = pieces(alloc, text, b'\n')?;
    read_lines(alloc, without_empty_end(lines.as_slice()))
}

// Without the last piece, where nothing stands in it.
fn without_empty_end<'a, 'b>(pieces: &'a [&'b [u8]]) -> &'a [&'b [u8]]
    ensures { map (λ line. line.now) result.now ≡ without_empty_end (map (λ line. line.now) pieces.now) }
{
    match pieces {
        [front @ .., last] if last.is_empty() => front,
        _ => pieces,
    }
}

// What the lines say.
fn read_lines(alloc: Global, lines: &[&[u8]]) -> Result<Script, PlayFault>
    ensures ok { IfOk result (λ script. HasLines (map (λ line. line.now) lines.now) script.answers.items script.events.items) }
    ensures bad { IfErr result (λ fault. TellsBad fault (map (λ line. line.now) lines.now)) }
{
    let Some((first, rest)) = lines.split_first() else {
        return Err(PlayFault::BadLine { line: 1 });
    };
    let answers = match read_ports_line(alloc, first) {
        Ok(answers) => answers,
        Err(WordFault::Bad) => return Err(PlayFault::BadLine { line: 1 }),
        Err(WordFault::NoMemory) => return Err(PlayFault::NoMemory),
    };
    let mut events = Vec::new(alloc);
    for (count, line) in rest.iter().enumerate() {
        match read_event_line(alloc, line) {
            Ok(event) => events.push(event)?,
            Err(WordFault::Bad) => return Err(PlayFault::BadLine { line: count + 2 }),
            Err(WordFault::NoMemory) => return Err(PlayFault::NoMemory),
        }
    }
    Ok(Script { answers, events })
}
