//! What a worker says is heard, payload by payload.

ghost use Rattle.std.specs.Prelude.{◌≡◌, OnOk, Some};
ghost use Rattle.channel_msgs.specs.Read.{message_of};
ghost use Rattle.channel_msgs.specs.View.{message_view};
ghost use Rattle.host_model.specs.State.{Slot, up_slot};
ghost use Rattle.host_model.specs.Step.{Says, hear, heard};
ghost use Rattle.host_tables.specs.Kept.{ShowsTheSame};
ghost use Rattle.host_core.specs.Tables.{Goes, speaker};

use crate::notice::{hear_notice, hear_packet};
use crate::reply::hear_reply;
use channel_msgs::{Message, MessageFault, read_message};
use host_tables::Tables;
use ms_base::{NoMemory, Serial, WorkerKey};
use transcript::Note;

/// A worker says something, in one payload of its channel.
pub(crate) fn hear_payload(
    tables: &mut Tables,
    worker: WorkerKey,
    payload: &[u8],
) -> Result<(), NoMemory>
    ensures ok { OnOk result (Goes (λ s. hear s (Says worker (message_of payload.now))) tables.old tables.new) }
    ensures shown { ShowsTheSame tables.old tables.new }
{
    let Some(slot) = tables.slots.up(worker) else {
        return Ok(());
    };
    let object = slot.worker;
    match read_message(tables.alloc, payload) {
        Ok(message) => hear_message(tables, worker, object, message),
        Err(MessageFault::Unexpected) => tables.note(Note::Unexpected { worker }),
        Err(MessageFault::NoMemory) => Err(NoMemory),
    }
}

// A message has come from a worker that is up, whose Worker this is.
fn hear_message(
    tables: &mut Tables,
    worker: WorkerKey,
    object: Serial,
    message: Message,
) -> Result<(), NoMemory>
    ensures ok { OnOk result ((x : Slot) → up_slot tables.old.slots.slots worker ≡ Some x → Goes (heard (speaker x worker object) (Some (message_view message))) tables.old tables.new) }
    ensures shown { ShowsTheSame tables.old tables.new }
{
    match message {
        Message::Reply(reply) => hear_reply(tables, worker, reply),
        Message::Notice(notice) => hear_notice(tables, worker, object, &notice),
        Message::Log { level, text } => tables.note(Note::Log {
            worker,
            level,
            text,
        }),
        Message::Rtp { id, packet } => hear_packet(tables, worker, object, id, packet),
    }
}
