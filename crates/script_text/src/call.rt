ghost use Rattle.std.specs.Prelude.{ℕ, List, ◌∷◌, []};
ghost use Rattle.std.specs.Option.{option_copied};
ghost use Rattle.script_text.specs.Words.{words_behind};
ghost use Rattle.script_text.specs.Calls.{op_of, call_of, await_of};
ghost use Rattle.script_text.specs.Gives.{Gives};
ghost use Rattle.script_text.specs.declared.verb.Verb.TheVariants as verb;

use crate::fault::WordFault;
use crate::lines::{one_and_rest, one_word, three_and_rest, three_words, two_and_rest, two_words};
use crate::verb::{Making, Telling, Turning, Verb};
use crate::words::{read_budget, read_count, read_event, read_hex, read_json, read_name};
use ms_base::{Code, Event, Name, Op};
use std::alloc::Global;

/// The call of a line by its first word and what stands behind the space behind it. `Op` comes exactly where no call's
/// line begins so, `Words` where the number of words is wrong; else the code is that of the first bad word.
pub fn read_op(alloc: Global, first: &str, rest: Option<&str>) -> Result<Op, WordFault>
    ensures { Gives result (op_of first.now (words_behind (option_copied rest.entry))) }
{
    let verb = Verb::read(first)?;
    read_call(alloc, verb, rest)
}

// The call of a line that begins with this verb.
fn read_call(alloc: Global, verb: Verb, rest: Option<&str>) -> Result<Op, WordFault>
    ensures { Gives result (call_of verb (words_behind (option_copied rest.entry))) }
{
    match verb {
        Verb::Worker => read_worker_op(alloc, rest),
        Verb::Make(making) => read_making(alloc, making, rest),
        Verb::Direct => read_direct(alloc, rest),
        Verb::Consume => read_consume(alloc, rest),
        Verb::Tell(telling) => read_telling(alloc, telling, rest),
        Verb::Turn(turning) => read_turning(alloc, turning, rest),
        Verb::Send => read_send(alloc, rest),
        Verb::PipeRouter => not_read(),
    }
}

#[tactic(auto, unfolding(crate::specs::Calls::call_of))]
fn not_read() -> Result<Op, WordFault>
    ensures { (words : List (List ℕ)) → Gives result (call_of verb.PipeRouter words) }
{
    Err(WordFault::Bad(Code::Op))
}

/// What is waited for by `X EVENT COUNT`, behind a space.
pub fn read_await(alloc: Global, rest: Option<&str>) -> Result<(Name, Event, u32), WordFault>
    ensures { Gives result (await_of (words_behind (option_copied rest.entry))) }
{
    match three_words(rest) {
        Some((name, event, count)) => read_wait(alloc, name, event, count),
        None => Err(WordFault::Bad(Code::Words)),
    }
}

#[tactic(auto, unfolding(crate::specs::Calls::await_of))]
fn read_wait(
    alloc: Global,
    name: &str,
    event: &str,
    count: &str,
) -> Result<(Name, Event, u32), WordFault>
    ensures { Gives result (await_of (name.now ∷ event.now ∷ count.now ∷ [])) }
{
    let name = read_name(alloc, name)?;
    let event = read_event(event)?;
    let count = read_count(count)?;
    Ok((name, event, count))
}

// What follows reads the words behind a verb.

#[tactic(auto, unfolding(crate::specs::Calls::call_of))]
fn read_worker_op(alloc: Global, rest: Option<&str>) -> Result<Op, WordFault>
    ensures { Gives result (call_of verb.Worker (words_behind (option_copied rest.entry))) }
{
    let (name, budget) = two_words(rest)?;
    let name = read_name(alloc, name)?;
    let budget = read_budget(budget)?;
    Ok(Op::Worker { name, budget })
}

#[tactic(auto, unfolding(crate::specs::Calls::call_of))]
fn read_making(alloc: Global, making: Making, rest: Option<&str>) -> Result<Op, WordFault>
    ensures { Gives result (call_of (verb.Make making) (words_behind (option_copied rest.entry))) }
{
    let (name, under, options) = two_and_rest(rest)?;
    let name = read_name(alloc, name)?;
    let under = read_name(alloc, under)?;
    let options = read_json(alloc, options)?;
    Ok(match making {
        Making::Router => Op::Router {
            name,
            worker: under,
            options,
        },
        Making::Plain => Op::Plain {
            name,
            router: under,
            options,
        },
        Making::Pipe => Op::Pipe {
            name,
            router: under,
            options,
        },
        Making::Produce => Op::Produce {
            name,
            transport: under,
            options,
        },
    })
}

#[tactic(auto, unfolding(crate::specs::Calls::call_of))]
fn read_direct(alloc: Global, rest: Option<&str>) -> Result<Op, WordFault>
    ensures { Gives result (call_of verb.Direct (words_behind (option_copied rest.entry))) }
{
    let (name, router) = two_words(rest)?;
    let name = read_name(alloc, name)?;
    let router = read_name(alloc, router)?;
    Ok(Op::Direct { name, router })
}

#[tactic(auto, unfolding(crate::specs::Calls::call_of))]
fn read_consume(alloc: Global, rest: Option<&str>) -> Result<Op, WordFault>
    ensures { Gives result (call_of verb.Consume (words_behind (option_copied rest.entry))) }
{
    let (name, transport, producer, options) = three_and_rest(rest)?;
    let name = read_name(alloc, name)?;
    let transport = read_name(alloc, transport)?;
    let producer = read_name(alloc, producer)?;
    let options = read_json(alloc, options)?;
    Ok(Op::Consume {
        name,
        transport,
        producer,
        options,
    })
}

#[tactic(auto, unfolding(crate::specs::Calls::call_of))]
fn read_telling(alloc: Global, telling: Telling, rest: Option<&str>) -> Result<Op, WordFault>
    ensures { Gives result (call_of (verb.Tell telling) (words_behind (option_copied rest.entry))) }
{
    let (name, options) = one_and_rest(rest)?;
    let name = read_name(alloc, name)?;
    let options = read_json(alloc, options)?;
    Ok(match telling {
        Telling::Connect => Op::Connect {
            transport: name,
            options,
        },
        Telling::CanConsume => Op::CanConsume {
            producer: name,
            caps: options,
        },
    })
}

#[tactic(auto, unfolding(crate::specs::Calls::call_of))]
fn read_turning(alloc: Global, turning: Turning, rest: Option<&str>) -> Result<Op, WordFault>
    ensures { Gives result (call_of (verb.Turn turning) (words_behind (option_copied rest.entry))) }
{
    let name = one_word(rest)?;
    let name = read_name(alloc, name)?;
    Ok(match turning {
        Turning::Pause => Op::Pause { name },
        Turning::Resume => Op::Resume { name },
        Turning::Close => Op::Close { name },
    })
}

#[tactic(auto, unfolding(crate::specs::Calls::call_of))]
fn read_send(alloc: Global, rest: Option<&str>) -> Result<Op, WordFault>
    ensures { Gives result (call_of verb.Send (words_behind (option_copied rest.entry))) }
{
    let (producer, packet) = two_words(rest)?;
    let producer = read_name(alloc, producer)?;
    let packet = read_hex(alloc, packet)?;
    Ok(Op::Send { producer, packet })
}
