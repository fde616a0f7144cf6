//! Objects fall: they close, what waits under them settles, and their workers are asked to close them.

ghost use Rattle.std.specs.Prelude.{◌≡◌, ◌≤◌, ◌<◌, ◌∷◌, [], length, IfOk, IfSome, OnOk, None};
ghost use Rattle.channel_frames.specs.Frames.{max_payload};
ghost use Rattle.ms_base.specs.Id.{id_text};
ghost use Rattle.pending_calls.specs.Pending.{max_id};
ghost use Rattle.host_requests.specs.Requests.{last_on};
ghost use Rattle.request_contents.specs.Methods.{ids_of, method_of};
ghost use Rattle.host_model.specs.Answer.{payload_of};
ghost use Rattle.host_model.specs.Falls.{close_sent, closes_sent, fallen, is_known};
ghost use Rattle.host_tables.specs.Kept.{Moves, ShowsTheSame};
ghost use Rattle.host_core.specs.Closes.{close_in};

use channel_msgs::{Ids, Request, write_request};
use host_model::Due;
use host_tables::Tables;
use ms_base::{Bytes, Id, NoMemory, Reason, Serial, Text, WorkerKey};
use object_tree::Among;
use pending_calls::Owner;
use request_build::build_close;
use request_contents::{ids_of, method_of};
use std::alloc::Global;
use worker_requests::Asked;

/// An object falls, with all that a link leads to.
pub(crate) fn fall(tables: &mut Tables, root: Serial, reason: Reason) -> Result<(), NoMemory>
    ensures ok { OnOk result (Moves (fallen (root ∷ []) reason) tables.old tables.new) }
    ensures shown { ShowsTheSame tables.old tables.new }
{
    let roots = [root];
    let fallen = tables.tree.fallen(&roots)?;
    let serials = fallen.as_slice();
    tables.close_objects(serials, &roots, reason)?;
    tables.close_requests(serials)?;
    send_closes(tables, serials, root, reason)
}

// The workers of these objects, which have fallen with a root, are asked to close them.
fn send_closes(
    tables: &mut Tables,
    fallen: &[Serial],
    root: Serial,
    reason: Reason,
) -> Result<(), NoMemory>
    ensures ok { OnOk result (Moves (closes_sent fallen.now (root ∷ []) reason fallen.now) tables.old tables.new) }
    ensures shown { ShowsTheSame tables.old tables.new }
{
    let among = Among::new(fallen);
    for serial in fallen {
        send_close(tables, &among, root, reason, *serial)?;
    }
    Ok(())
}

// The worker of a fallen object whose parent stands is asked to close it, unless it knows, isn't up or has no id left.
fn send_close(
    tables: &mut Tables,
    fallen: &Among<'_>,
    root: Serial,
    reason: Reason,
    serial: Serial,
) -> Result<(), NoMemory>
    ensures ok { OnOk result (Moves (close_sent fallen.now (root ∷ []) reason serial) tables.old tables.new) }
    ensures shown { ShowsTheSame tables.old tables.new }
{
    if is_known(reason, root, serial) {
        return Ok(());
    }
    let Some(close) = close_of(tables, fallen, serial) else {
        return Ok(());
    };
    let payload = close_payload(tables.alloc, &close.asked, close.id)?;
    tables.issue(
        close.channel,
        Owner::Close,
        close.parent,
        Due::Nothing,
        payload,
    )
}

// A worker knows of the close of a Consumer that it has told of itself.
fn is_known(reason: Reason, root: Serial, serial: Serial) -> bool
    ensures { result ≡ is_known reason (root ∷ []) serial }
{
    reason == Reason::ProducerClose && serial == root
}

/// A request that closes an object.
#[derive(Drop)]
struct Close {
    channel: WorkerKey,
    /// The next id of the channel.
    id: u32,
    /// The object that it is issued under.
    parent: Serial,
    asked: Asked,
}

// The request that closes a fallen object in its worker, if there is one.
fn close_of(tables: &Tables, fallen: &Among<'_>, serial: Serial) -> Option<Close>
    ensures close { result ≡ close_in tables.now.tree tables.now.slots.slots (last_on tables.now.requests) fallen.now serial }
    ensures left { IfSome result (λ c. last_on tables.now.requests c.channel < max_id) }
{
    let object = tables.tree.get(serial)?;
    let parent = object.parent?;
    if fallen.has(parent) {
        return None;
    }
    let channel = tables.slots.channel_of(object.worker)?;
    let asked = build_close(&tables.tree, object)?;
    let id = tables.requests.last(channel).checked_add(1)?;
    Some(Close {
        channel,
        id,
        parent,
        asked,
    })
}

// The payload of a request that has no content.
fn close_payload(alloc: Global, asked: &Asked, id: u32) -> Result<Bytes, NoMemory>
    ensures text { IfOk result (λ b. b ≡ payload_of (method_of asked.now) (ids_of asked.now) None id) }
    ensures short { IfOk result (λ b. length b ≤ max_payload) }
{
    let ids = ids_of(asked);
    asked_is_short(asked, ids, id);
    let request = Request {
        id,
        method: Text::from_str(alloc, method_of(asked))?,
        ids,
        content: None,
    };
    write_request(alloc, &request)
}

// A request without a content is short, whatever its ids. The function does nothing.
fn asked_is_short(asked: &Asked, ids: Ids, id: u32)
    ensures { length (payload_of (method_of asked.now) ids None id) ≤ max_payload }
{
    id_is_short(ids.router);
    id_is_short(ids.transport);
    id_is_short(ids.producer);
    id_is_short(ids.consumer);
}

// The text of an id has 36 characters. The function does nothing.
fn id_is_short(id: Option<Id>)
    ensures { IfSome id (λ id. length (id_text id.0) ≤ 36) }
{
    if let Some(id) = id {
        let bytes = id.0;
        text_is_short(&bytes);
    }
}

// The text of sixteen bytes has 36 characters. The function does nothing.
#[tactic(auto, using(crate::proofs::ShortLemmas::id_text_short))]
fn text_is_short(bytes: &[u8; 16])
    ensures { length (id_text bytes.now) ≤ 36 }
{}
