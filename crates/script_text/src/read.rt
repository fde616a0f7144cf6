ghost use Rattle.std.specs.Prelude.{◌≡◌, ◌<◌, ◌≤◌, ◌∷◌, [], length, true, Ok, IfOk, IfErr, IfSome};
ghost use Rattle.std.specs.Option.{option_copied};
ghost use Rattle.std.specs.Io.BufRead.{strip_last};
ghost use Rattle.script_text.specs.Words.{lines, words, words_behind};
ghost use Rattle.script_text.specs.Gives.{Gives, Tells};
ghost use Rattle.script_text.specs.Script.{carriage_return, is_script, is_worker, lane_row, lanes_behind, max_script, row_of, row_steps, script_lines, script_lines_behind, script_of, step_by, step_of, text_row, workers_in};

use crate::call::{read_await, read_op};
use crate::fault::{ScriptFault, WordFault};
use crate::lines::{first_line, first_word};
use crate::row::Row;
use crate::script::{Lanes, Script, Step};
use crate::words::read_head;
use ms_base::{Code, Op};
use std::alloc::Global;

/// How many bytes a script may have.
pub const MAX_SCRIPT: usize = 16_777_216;

const MAX_LANES: usize = 64;

const MAX_WORKERS: u32 = 64;

/// The script that a text is.
///
/// `BadScript` comes exactly where the text is none, with the first line that is wrong and its first fault.
pub fn read_script(alloc: Global, text: &[u8]) -> Result<Script, ScriptFault>
    ensures ok { IfOk result (λ script. script_of text.now ≡ Ok script) }
    ensures bad { IfErr result (λ fault. Tells fault (script_of text.now)) }

    // What is read is in its bounds.
    ensures form { IfOk result (λ script. is_script script ≡ true) }
{
    if text.len() > MAX_SCRIPT {
        return Err(ScriptFault::BadScript {
            line: 1,
            code: Code::Long,
        });
    }
    let (head, behind) = script_line(text);
    let seed = match read_head("script", head) {
        Ok(seed) => seed,
        Err(code) => return Err(ScriptFault::BadScript { line: 1, code }),
    };
    match read_behind(alloc, behind) {
        Ok(lanes) => Ok(Script { seed, lanes }),
        Err(fault) => Err(fault),
    }
}

// The lanes of what stands behind the head, where something does.
fn read_behind(alloc: Global, rest: Option<&[u8]>) -> Result<Lanes, ScriptFault>
    requires { IfSome (option_copied rest) (λ text. length text ≤ max_script) }
    ensures ok { IfOk result (λ lanes. lanes_behind (script_lines_behind (option_copied rest.entry)) ≡ Ok lanes) }
    ensures bad { IfErr result (λ fault. Tells fault (lanes_behind (script_lines_behind (option_copied rest.entry)))) }
{
    match rest {
        Some(text) => read_lanes(alloc, text),
        None => Ok(Lanes::new(alloc)),
    }
}

// The lanes of the lines behind the head.
fn read_lanes(alloc: Global, text: &[u8]) -> Result<Lanes, ScriptFault>
    requires { length text.now ≤ max_script }
    ensures ok { IfOk result (λ lanes. lanes_behind (script_lines (lines text.now)) ≡ Ok lanes) }
    ensures bad { IfErr result (λ fault. Tells fault (lanes_behind (script_lines (lines text.now)))) }
{
    let mut lanes = Lanes::new(alloc);
    let mut workers = 0;
    let mut number = 2;
    let mut rest = text;
    'lines: loop {
        let (line, behind) = script_line(rest);
        let row = match read_row(alloc, line, lanes.len(), workers) {
            Ok(row) => row,
            Err(WordFault::Bad(code)) => return Err(ScriptFault::BadScript { line: number, code }),
            Err(WordFault::NoMemory) => return Err(ScriptFault::NoMemory),
        };
        workers += worker_lines(&row);
        lanes.add(row)?;
        let Some(next) = behind else {
            return Ok(lanes);
        };
        rest = next;
        number += 1;
    }
}

// The first line, without a carriage return before its line feed, and what stands behind that, where it has one.
fn script_line(text: &[u8]) -> (&[u8], Option<&[u8]>)
    ensures pieces { script_lines (lines text.now) ≡ result.0.now ∷ script_lines_behind (option_copied result.1) }
    ensures shorter { IfSome (option_copied result.1) (λ rest. length rest < length text.now) }
{
    let (line, behind) = first_line(text);
    match behind {
        Some(rest) => (without_return(line), Some(rest)),
        None => (line, None),
    }
}

// The line without a carriage return at its end.
fn without_return(line: &[u8]) -> &[u8]
    ensures { result.now ≡ strip_last carriage_return line.now }
{
    let len = line.len();
    if len > 0 && line[len - 1] == b'\r' {
        &line[..len - 1]
    } else {
        line
    }
}

// What a line behind the head is, where there are so many lanes and `worker` lines before it.
fn read_row(alloc: Global, line: &[u8], lanes: usize, workers: u32) -> Result<Row, WordFault>
    ensures { Gives result (row_of lanes workers line.now) }
{
    match std::str::from_utf8(line) {
        Ok(line) => read_text_row(alloc, line, lanes, workers),
        Err(_) => Err(WordFault::Bad(Code::Utf8)),
    }
}

fn read_text_row(alloc: Global, line: &str, lanes: usize, workers: u32) -> Result<Row, WordFault>
    ensures { Gives result (text_row lanes workers line.now) }
{
    if line.is_empty() || line.starts_with('#') {
        return Ok(Row::Skip);
    }
    if line == "lane" {
        return begin_lane(lanes);
    }
    if lanes == 0 {
        return Err(WordFault::Bad(Code::NoLane));
    }
    let step = read_step(alloc, line)?;
    if is_worker(&step) && workers >= MAX_WORKERS {
        return Err(WordFault::Bad(Code::TooMany));
    }
    Ok(Row::Step(step))
}

fn begin_lane(lanes: usize) -> Result<Row, WordFault>
    ensures { Gives result (lane_row lanes) }
{
    if lanes < MAX_LANES {
        Ok(Row::Lane)
    } else {
        Err(WordFault::Bad(Code::TooMany))
    }
}

// The step of a line.
fn read_step(alloc: Global, line: &str) -> Result<Step, WordFault>
    ensures { Gives result (step_of (words line.now)) }
{
    let (first, rest) = first_word(line);
    read_words(alloc, first, rest)
}

// A step by its first word and what stands behind it.
fn read_words(alloc: Global, first: &str, rest: Option<&str>) -> Result<Step, WordFault>
    ensures { Gives result (step_by first.now (words_behind (option_copied rest.entry))) }
{
    if first == "await" {
        let (name, event, count) = read_await(alloc, rest)?;
        Ok(Step::Wait { name, event, count })
    } else {
        let op = read_op(alloc, first, rest)?;
        Ok(Step::Do(op))
    }
}

// Whether a step makes a Worker.
fn is_worker(step: &Step) -> bool
    ensures { result ≡ is_worker step.now }
{
    matches!(step, Step::Do(Op::Worker { .. }))
}

// How many `worker` lines a row is.
fn worker_lines(row: &Row) -> u32
    ensures value { result ≡ workers_in (row_steps row.now) }
    ensures few { result ≤ 1 }
{
    match row {
        Row::Step(step) if is_worker(step) => 1,
        _ => 0,
    }
}
