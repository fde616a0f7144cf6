//! What a call comes to, as a line of words.

ghost use Rattle.std.specs.Prelude.{◌≡◌, true};
ghost use Rattle.request_build.specs.Columns.{HasShortName};

use crate::tests::host::{NEXT, kept, tree};
use crate::{BuildFault, Built, Draws, build, build_close, build_part};
use channel_msgs::Ids;
use ms_base::{Op, Outcome, Part, Serial, Text};
use object_tree::Tree;
use request_contents::{ids_of, method_of};
use serde_json::Value;
use std::alloc::Global;
use std::process::Abort;
use std::test::Fail;

// The word of a refusal.
fn word(outcome: &Outcome) -> &'static str {
    match outcome {
        Outcome::NameTaken => "nametaken",
        Outcome::NoName => "noname",
        Outcome::WrongKind => "wrongkind",
        Outcome::InvalidState => "invalidstate",
        Outcome::TypeError { .. } => "typeerror",
        Outcome::Unsupported { .. } => "unsupported",
        _ => "other",
    }
}

// The code of a refusal.
fn code(outcome: &Outcome) -> &'static [u8] {
    match outcome {
        Outcome::TypeError { code } | Outcome::Unsupported { code } => code.word(),
        _ => b"",
    }
}

// A refusal as its words, a request as its method, its content and what is drawn behind it.
fn told(alloc: Global, built: Result<Built, BuildFault>) -> Result<String, Fail> {
    match built {
        Err(BuildFault::Refused(outcome)) => refusal(alloc, &outcome),
        Err(BuildFault::NoMemory) => Err("out of memory".into()),
        Ok(Built::Own { answer }) => own(alloc, answer),
        Ok(
            Built::Ask {
                method,
                content,
                under,
                next,
                ..
            },
        ) => asked(alloc, &method, content, under, next),
    }
}

fn refusal(alloc: Global, outcome: &Outcome) -> Result<String, Fail> {
    let mut text = String::from_str(alloc, word(outcome))?;
    let code = std::str::from_utf8(code(outcome)).unwrap_or("");
    if !code.is_empty() {
        text.push_str(" ")?;
        text.push_str(code)?;
    }
    Ok(text)
}

fn own(alloc: Global, answer: Option<bool>) -> Result<String, Fail> {
    let text = match answer {
        None => "own",
        Some(true) => "yes",
        Some(false) => "no",
    };
    Ok(String::from_str(alloc, text)?)
}

fn asked(
    alloc: Global,
    method: &Text,
    content: Option<Value>,
    under: Serial,
    next: Draws,
) -> Result<String, Fail> {
    let mut text = String::from_str(alloc, method.as_str())?;
    text.push_str(" ")?;
    if let Some(content) = content {
        text.push_str(content.to_string(alloc)?.as_str())?;
        text.push_str(" ")?;
    }
    for number in [under.0, next.serial, next.ssrc] {
        text.push_str(number.to_string(alloc)?.as_str())?;
        text.push_str(" ")?;
    }
    Ok(text)
}

fn is_short(op: &Op) -> bool
    ensures { result ≡ true → HasShortName op.now }
{
    match op {
        Op::PipeRouter { name, .. } => name.as_slice().len() <= 62,
        _ => true,
    }
}

fn answer_behind(alloc: Global, slots: u32, stopped: bool, op: &Op) -> Result<String, Fail> {
    if !is_short(op) {
        return Err("the name is too long".into());
    }
    let (tree, kept) = (tree(alloc)?, kept(alloc, slots, stopped)?);
    told(alloc, build(alloc, &tree, &kept, op, NEXT))
}

// Compares the answer to a call, with a slot left and no stop.
pub(crate) fn check(rt: &impl Abort, alloc: Global, op: Op, expected: &str) -> Result<(), Fail> {
    check_behind(rt, alloc, 63, false, op, expected)
}

// Compares the answer behind so many slots, or a stop.
pub(crate) fn check_behind(
    rt: &impl Abort,
    alloc: Global,
    slots: u32,
    stopped: bool,
    op: Op,
    expected: &str,
) -> Result<(), Fail> {
    let text = answer_behind(alloc, slots, stopped, &op)?;
    assert_eq!(rt; text.as_str(), expected);
    Ok(())
}

// Compares what a part of a pipe comes to.
pub(crate) fn check_part(
    rt: &impl Abort,
    alloc: Global,
    part: Part,
    expected: &str,
) -> Result<(), Fail> {
    let text = answer_to_part(alloc, part)?;
    assert_eq!(rt; text.as_str(), expected);
    Ok(())
}

fn answer_to_part(alloc: Global, part: Part) -> Result<String, Fail> {
    let (tree, kept) = (tree(alloc)?, kept(alloc, 1, false)?);
    told(alloc, build_part(alloc, &tree, &kept, &part, NEXT))
}

// Compares the method and the ids that close the object of a serial.
pub(crate) fn check_close(
    rt: &impl Abort,
    tree: &Tree,
    serial: u32,
    expected: Option<(&str, Ids)>,
) -> Result<(), Fail> {
    let object = tree.get(Serial(serial)).ok_or("no such object")?;
    match (build_close(tree, object), expected) {
        (Some(asked), Some((method, ids))) => {
            assert_eq!(rt; method_of(&asked), method);
            assert_eq!(rt; ids_of(&asked), ids);
            Ok(())
        }
        (None, None) => Ok(()),
        _ => Err("another close".into()),
    }
}
