ghost use Rattle.std.specs.Prelude.{◌≡◌, ◌≤◌, length, IfOk, IsUtf8, option_map};
ghost use Rattle.serde_json.specs.View.{view};
ghost use Rattle.channel_msgs.specs.View.{notice_view};
ghost use Rattle.worker_requests.specs.Said.{of_object, notice_of, notice_payload, max_said};

use crate::reply::remote_value;
use crate::short::notice_is_short;
use channel_msgs::{Notice, write_notice};
use ms_base::{Bytes, Id, NoMemory, Text, Tuple};
use serde_json::Value;
use std::alloc::Global;

/// What a worker tells unasked.
#[derive(Clone, Copy, Debug, PartialEq, Eq)]
pub enum WorkerNotice {
    /// The worker runs.
    Running,
    /// The Producer of this Consumer has closed, and with it the Consumer.
    ProducerClosed(Id),
    /// The Producer of this Consumer has paused.
    ProducerPaused(Id),
    /// The Producer of this Consumer has resumed.
    ProducerResumed(Id),
    /// This transport has learnt its other end.
    TupleLearnt(Id, Tuple),
}

/// The payload of a notice.
pub fn write_worker_notice(alloc: Global, notice: WorkerNotice) -> Result<Bytes, NoMemory>
    ensures payload { IfOk result (λ bytes. bytes ≡ notice_payload notice) }
    ensures short { IfOk result (λ bytes. length bytes ≤ max_said) }
{
    notice_is_short(notice);
    notice_bytes(alloc, notice)
}

fn notice_bytes(alloc: Global, notice: WorkerNotice) -> Result<Bytes, NoMemory>
    ensures { IfOk result (λ bytes. bytes ≡ notice_payload notice) }
{
    let notice = notice_message(alloc, notice)?;
    write_notice(alloc, &notice)
}

// The message that a notice is.
fn notice_message(alloc: Global, notice: WorkerNotice) -> Result<Notice, NoMemory>
    ensures { IfOk result (λ n. notice_view n ≡ notice_of notice) }
{
    match notice {
        WorkerNotice::Running => Ok(Notice {
            target: Text::from_str(alloc, "worker")?,
            event: Text::from_str(alloc, "running")?,
            content: None,
        }),
        WorkerNotice::ProducerClosed(id) => of_object(alloc, id, "producerclose", None),
        WorkerNotice::ProducerPaused(id) => of_object(alloc, id, "producerpause", None),
        WorkerNotice::ProducerResumed(id) => of_object(alloc, id, "producerresume", None),
        WorkerNotice::TupleLearnt(id, tuple) => {
            let content = remote_value(alloc, tuple)?;
            of_object(alloc, id, "tuple", Some(content))
        }
    }
}

// A notice of an object.
fn of_object(alloc: Global, id: Id, event: &str, content: Option<Value>) -> Result<Notice, NoMemory>
    ensures { IfOk result (λ n. notice_view n ≡ of_object id event.now (option_map view content)) }
{
    let text = id.text();
    Ok(Notice {
        target: Text::from_str(alloc, id_str(&text))?,
        event: Text::from_str(alloc, event)?,
        content,
    })
}

// The text of an id as a `&str`: it is ASCII.
fn id_str(text: &[u8; 36]) -> &str
    requires { IsUtf8 text.now }
    ensures { result.now ≡ text.now }
{
    match std::str::from_utf8(text) {
        Ok(text) => text,
        Err(_) => unreachable!(),
    }
}
