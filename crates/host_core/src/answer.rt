//! What a call comes to.

ghost use Rattle.std.specs.Prelude.{◌≡◌, ◌≤◌, false, length, IfOk, Ok, option_and_then};
ghost use Rattle.channel_msgs.specs.View.{request_view};
ghost use Rattle.ms_base.specs.declared.op.Op.{Op};
ghost use Rattle.object_tree.specs.Objects.{named, numbered};
ghost use Rattle.host_notes.specs.Sent.{max_packet};
ghost use Rattle.request_build.specs.Asks.{Own};
ghost use Rattle.request_build.specs.Asks as asks;
ghost use Rattle.request_build.specs.Built.{built};
ghost use Rattle.request_build.specs.Known.{known_of};
ghost use Rattle.request_build.specs.Laws.{HasNoFloat};
ghost use Rattle.host_model.specs.Answer.{answer, asked, closes, own, sends, tells};
ghost use Rattle.host_model.specs.State.{State, channel_of};
ghost use Rattle.host_model.specs.Step.{due_of, turn_of};
ghost use Rattle.host_tables.specs.Kept.{IsKept};
ghost use Rattle.host_tables.specs.declared.tables.Tables.{Tables};
ghost use Rattle.host_core.specs.Answers.{IsAnswer, IsDue, IsPlacedDue, if_open, issued_as, placed_as, unnumbered};
ghost use Rattle.host_core.specs.Apply.{is_unbuilt_op};
ghost use Rattle.host_core.specs.Tables.{HasRoom};

use channel_frames::MAX_PAYLOAD;
use channel_msgs::{Request, write_request};
use host_model::Due;
use host_tables::Tables;
use ms_base::{Bytes, Id, Name, NoMemory, Op, Outcome, Serial, WorkerKey};
use object_tree::Object;
use request_build::{BuildFault, Built, Draws, Keep, build, built_requests_have_whole_numbers};

/// What a call comes to.
#[derive(Drop)]
pub(crate) enum Course {
    Refuses {
        outcome: Outcome,
    },
    /// A Worker stands in the tree at once, and its start is wanted.
    AddsWorker {
        name: Name,
        budget: u32,
    },
    /// A request goes out on a channel with the next id of that.
    Issues {
        channel: WorkerKey,
        under: Serial,
        due: Due,
        /// What is drawn behind it.
        next: Draws,
        payload: Bytes,
    },
    /// An object closes: this one falls, where it is open.
    Closes {
        falls: Option<Serial>,
    },
    Tells {
        answer: bool,
    },
    /// A packet goes to a worker, for a Producer.
    Sends {
        channel: WorkerKey,
        producer: Id,
        packet: Bytes,
    },
}

/// Where a request goes.
#[derive(Drop)]
pub(crate) enum Placed {
    Refuses { outcome: Outcome },
    /// To this channel, as this payload, with the channel's next id.
    Issues { channel: WorkerKey, payload: Bytes },
}

/// What a call comes to: its first refusal, a start, a request with its payload, or an answer at once.
pub(crate) fn answer_to(tables: &Tables, op: &Op) -> Result<Course, NoMemory>
    requires room { HasRoom tables.now }
    requires built { is_unbuilt_op op.now ≡ false }
    ensures answer { IfOk result (λ a. (s : State) → IsKept s tables.now → IsAnswer op.now a (answer s op.now)) }
    ensures due { IfOk result (λ a. IsDue tables.now a) }
{
    built_requests_have_whole_numbers();
    match build(tables.alloc, &tables.tree, &tables.kept, op, tables.next) {
        Ok(
            Built::Ask {
                method,
                ids,
                content,
                under,
                makes,
                keeps,
                next,
            },
        ) => {
            let due = due_of(turn_of(op), makes, keeps);
            let request = Request {
                id: 0,
                method,
                ids,
                content,
            };
            Ok(issue(place(tables, under, request)?, under, due, next))
        }
        Ok(Built::Own { answer }) => own(tables, op, answer),
        Err(BuildFault::Refused(outcome)) => Ok(Course::Refuses { outcome }),
        Err(BuildFault::NoMemory) => Err(NoMemory),
    }
}

// Whether a call pauses or resumes.
fn turn_of(op: &Op) -> Option<bool>
    ensures { result ≡ turn_of op.now }
{
    match op {
        Op::Pause { .. } => Some(true),
        Op::Resume { .. } => Some(false),
        Op::Worker { .. }
        | Op::Router { .. }
        | Op::Plain { .. }
        | Op::Pipe { .. }
        | Op::Direct { .. }
        | Op::Connect { .. }
        | Op::Produce { .. }
        | Op::Consume { .. }
        | Op::Close { .. }
        | Op::CanConsume { .. }
        | Op::Send { .. }
        | Op::PipeRouter { .. } => None,
    }
}

// What the acceptance of a request does.
fn due_of(turn: Option<bool>, makes: Option<Object>, keeps: Keep) -> Due
    ensures { result ≡ due_of turn makes keeps }
{
    match makes {
        Some(object) => Due::Opens { object, keeps },
        None => match turn {
            Some(paused) => Due::Turns { paused },
            None => Due::Nothing,
        },
    }
}

// Where a request goes: on the channel of its worker, if that is up, has an id left and takes so long a payload.
fn place(tables: &Tables, under: Serial, request: Request) -> Result<Placed, NoMemory>
    ensures placed { IfOk result (λ p. (s : State) (r : asks.Request) → IsKept s tables.now → r.under ≡ under → unnumbered r ≡ request_view request → HasNoFloat r → placed_as r p ≡ asked s r) }
    ensures due { IfOk result (λ p. IsPlacedDue tables.now p) }
{
    let Some(channel) = channel_above(tables, under) else {
        return Ok(Placed::Refuses {
            outcome: Outcome::InvalidState,
        });
    };
    let Some(id) = tables.requests.last(channel).checked_add(1) else {
        return Ok(Placed::Refuses {
            outcome: Outcome::IdsSpent,
        });
    };
    let payload = write_request(tables.alloc, &Request { id, ..request })?;
    if payload.len() > MAX_PAYLOAD {
        return Ok(Placed::Refuses {
            outcome: Outcome::TooBig,
        });
    }
    // The payload stays with the notes, so it is kept in no more room than it takes.
    let kept = payload.copy(tables.alloc)?;
    Ok(Placed::Issues {
        channel,
        payload: kept,
    })
}

// The channel of the worker that the object of a serial lives in, while that is up.
fn channel_above(tables: &Tables, serial: Serial) -> Option<WorkerKey>
    ensures { result ≡ option_and_then (λ o. channel_of tables.now.slots.slots o.worker) (numbered tables.now.tree serial) }
{
    channel_to(tables, tables.tree.get(serial)?)
}

// The channel of the worker that an object lives in, while that is up.
fn channel_to(tables: &Tables, object: &Object) -> Option<WorkerKey>
    ensures { result ≡ channel_of tables.now.slots.slots object.now.worker }
{
    tables.slots.channel_of(object.worker)
}

// A request, where it goes.
fn issue(placed: Placed, under: Serial, due: Due, next: Draws) -> Course
    ensures { result ≡ issued_as under due next placed }
{
    match placed {
        Placed::Refuses { outcome } => Course::Refuses { outcome },
        Placed::Issues { channel, payload } => Course::Issues {
            channel,
            under,
            due,
            next,
            payload,
        },
    }
}

// A call that asks nothing of a worker.
fn own(tables: &Tables, op: &Op, told: Option<bool>) -> Result<Course, NoMemory>
    requires { built (known_of tables.now.tree tables.now.kept tables.now.next) op.now ≡ Ok (Own told) }
    ensures answer { IfOk result (λ a. (s : State) → IsKept s tables.now → IsAnswer op.now a (own s op.now told)) }
    ensures due { IfOk result (λ a. IsDue tables.now a) }
{
    match op {
        Op::Worker { name, budget } => Ok(Course::AddsWorker {
            name: name.copy(tables.alloc)?,
            budget: *budget,
        }),
        Op::Close { name } => Ok(closes(tables, name)),
        Op::Send { producer, packet } => sends(tables, producer, packet),
        Op::Router { .. }
        | Op::Plain { .. }
        | Op::Pipe { .. }
        | Op::Direct { .. }
        | Op::Connect { .. }
        | Op::Produce { .. }
        | Op::Consume { .. }
        | Op::Pause { .. }
        | Op::Resume { .. }
        | Op::CanConsume { .. }
        | Op::PipeRouter { .. } => Ok(tells(told)),
    }
}

fn closes(tables: &Tables, name: &Name) -> Course
    ensures answer { (s : State) (o : Op) → IsKept s tables.now → IsAnswer o result (closes (named s.objects name.now)) }
    ensures due { IsDue tables.now result }
{
    match tables.tree.by_name(name) {
        Some(object) => Course::Closes {
            falls: if_open(object),
        },
        None => Course::Refuses {
            outcome: Outcome::NoName,
        },
    }
}

// The serial of an object that is open.
fn if_open(object: &Object) -> Option<Serial>
    ensures { result ≡ if_open object.now }
{
    match object.closed {
        Some(_) => None,
        None => Some(object.serial),
    }
}

fn sends(tables: &Tables, producer: &Name, packet: &Bytes) -> Result<Course, NoMemory>
    requires { length packet.now ≤ max_packet }
    ensures answer { IfOk result (λ a. (s : State) (o : Op) → IsKept s tables.now → IsAnswer o a (sends s packet.now (named s.objects producer.now))) }
    ensures due { IfOk result (λ a. IsDue tables.now a) }
{
    let Some(object) = tables.tree.by_name(producer) else {
        return Ok(Course::Refuses {
            outcome: Outcome::NoName,
        });
    };
    let Some(channel) = channel_to(tables, object) else {
        return Ok(Course::Refuses {
            outcome: Outcome::InvalidState,
        });
    };
    Ok(Course::Sends {
        channel,
        producer: object.id,
        packet: packet.copy(tables.alloc)?,
    })
}

fn tells(told: Option<bool>) -> Course
    ensures answer { (o : Op) → IsAnswer o result (tells told) }
    ensures due { (t : Tables) → IsDue t result }
{
    match told {
        Some(answer) => Course::Tells { answer },
        None => Course::Refuses {
            outcome: Outcome::InvalidState,
        },
    }
}
