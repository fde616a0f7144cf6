//! A response settles the request of its own id.

ghost use Rattle.std.specs.Prelude.{◌≡◌, ◌<◌, ◌^◌, option_map, IfOk, OnOk};
ghost use Rattle.serde_json.specs.View.{view};
ghost use Rattle.channel_msgs.specs.View.{answer_view};
ghost use Rattle.ms_base.specs.declared.keys.Serial.{Serial};
ghost use Rattle.object_tree.specs.declared.object.Object.{Object};
ghost use Rattle.host_requests.specs.declared.request.Via.{Via};
ghost use Rattle.host_model.specs.declared.due.Due.TheVariants as due;
ghost use Rattle.host_model.specs.Step.{accepted_by, bad_data, made, opened_by, replied, settled_with};
ghost use Rattle.host_tables.specs.Kept.{IsNew, Moves, ShowsTheSame};
ghost use Rattle.host_core.specs.Tables.{Goes, IsDueNew, flagged_by};

use channel_msgs::{Answer, Reply};
use host_model::{Due, hosts_are_sound};
use host_requests::Request;
use host_tables::Tables;
use ms_base::{Kind, NoMemory, Outcome, Text, WorkerError, WorkerKey, ids_differ};
use object_tree::{Mark, Object};
use pending_calls::Owner;
use reply_contents::{Flags, consume_flags, local_tuple};
use request_build::Keep;
use serde_json::Value;
use std::alloc::Global;
use transcript::Note;

/// A response has come from a worker.
pub(crate) fn hear_reply(
    tables: &mut Tables,
    worker: WorkerKey,
    reply: Reply,
) -> Result<(), NoMemory>
    ensures ok { OnOk result (Goes (replied worker reply.id (answer_view reply.answer)) tables.old tables.new) }
    ensures shown { ShowsTheSame tables.old tables.new }
{
    hosts_are_sound();
    ids_differ();
    serial_fits(tables.next.serial);
    match tables.take_request(worker, reply.id)? {
        Some(request) => settle(tables, request, reply.answer),
        None => tables.note(Note::Late {
            worker,
            id: reply.id,
        }),
    }
}

// A serial has 32 bits. The function does nothing.
fn serial_fits(serial: u32)
    ensures { serial < 2 ^ 32 }
{
    let _serial = serial;
}

// A request has had its response, and waits no more.
fn settle(tables: &mut Tables, request: Request<Due>, answer: Answer) -> Result<(), NoMemory>
    ensures ok { OnOk result (IsDueNew tables.old.tree request.due → Moves (settled_with (answer_view answer) request) tables.old tables.new) }
    ensures shown { ShowsTheSame tables.old tables.new }
{
    match answer {
        Answer::Accepted(content) => accept(tables, request, &content),
        Answer::Refused { error, reason } => tables.settle_owner(
            request.owner,
            Outcome::Worker { error, reason },
            &request.due,
        ),
    }
}

// A request was accepted, with this content.
fn accept(
    tables: &mut Tables,
    request: Request<Due>,
    content: &Option<Value>,
) -> Result<(), NoMemory>
    ensures ok { OnOk result (IsDueNew tables.old.tree request.due → Moves (accepted_by request.due (option_map view content.now) request) tables.old tables.new) }
    ensures shown { ShowsTheSame tables.old tables.new }
{
    let Request {
        owner,
        under,
        due,
        ..
    } = request;
    match due {
        Due::Opens { object, keeps } => open_made(tables, owner, object, keeps, content),
        Due::Turns { paused } => {
            tables.turn(under, Mark::Paused(paused))?;
            tables.settle_owner(owner, Outcome::Done, &Due::Nothing)
        }
        Due::Nothing => tables.settle_owner(owner, Outcome::Done, &Due::Nothing),
    }
}

// A request was accepted that makes an object.
fn open_made(
    tables: &mut Tables,
    owner: Owner,
    object: Object,
    keeps: Keep,
    content: &Option<Value>,
) -> Result<(), NoMemory>
    ensures ok { OnOk result (IsNew tables.old.tree object → (via : Via) (under : Serial) → Moves (opened_by (record { via = via; owner = owner; under = under; due = due.Opens object keeps }) keeps (made object object.kind (option_map view content.now))) tables.old tables.new) }
    ensures shown { ShowsTheSame tables.old tables.new }
{
    match made_as(object.kind, content) {
        Some(flags) => {
            tables.open(with_flags(object, flags), keeps)?;
            tables.settle_owner(owner, Outcome::Done, &Due::Nothing)
        }
        None => {
            let outcome = bad_data(tables.alloc)?;
            tables.settle_owner(owner, outcome, &Due::Opens { object, keeps })
        }
    }
}

// The worker's content has not the form that was asked for.
fn bad_data(alloc: Global) -> Result<Outcome, NoMemory>
    ensures { IfOk result (λ outcome. outcome ≡ bad_data) }
{
    Ok(Outcome::Worker {
        error: WorkerError::BadData,
        reason: Text::from_str(alloc, "")?,
    })
}

// The flags that a worker has told of an object of this kind, if they are told of it; none where the content has not
// the form that the kind asks for.
fn made_as(kind: Kind, content: &Option<Value>) -> Option<Option<Flags>>
    ensures { (object : Object) → option_map (λ flags. flagged_by flags object) result ≡ made object kind (option_map view content.now) }
{
    match kind {
        Kind::Plain | Kind::Pipe => {
            local_tuple(content.as_ref())?;
            Some(None)
        }
        Kind::Consumer => Some(Some(consume_flags(content.as_ref())?)),
        Kind::Worker | Kind::Router | Kind::Direct | Kind::Producer => Some(None),
    }
}

// An object with the flags that were told of it, if they were.
fn with_flags(object: Object, flags: Option<Flags>) -> Object
    ensures { result ≡ flagged_by flags object }
{
    match flags {
        Some(flags) => Object {
            paused: flags.paused,
            producer_paused: flags.producer_paused,
            ..object
        },
        None => object,
    }
}
