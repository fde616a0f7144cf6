//! What is said is short, since each value is of its type. These functions do nothing.

ghost use Rattle.std.specs.Prelude.{◌≡◌, ◌^◌, ◌<◌, ◌≤◌, length};
ghost use Rattle.json.specs.Print.{escape};
ghost use Rattle.ms_base.specs.Id.{id_text};
ghost use Rattle.ms_base.specs.Words.{ip_text};
ghost use Rattle.worker_requests.specs.Short.{IsShort, TellsShort, NotesShort};

use crate::accepted::Accepted;
use crate::notice::WorkerNotice;
use crate::refusal::Refusal;
use ms_base::{Id, Tuple};

/// The text of an address has at most 15 characters, and JSON writes it as it is.
pub(crate) fn address_is_short(ip: &[u8])
    ensures short { length (ip_text ip.now) ≤ 15 }
    ensures plain { escape (ip_text ip.now) ≡ ip_text ip.now }
{}

fn port_is_one(port: u16)
    ensures { port < 2 ^ 16 }
{
    let _port = port;
}

fn tuple_is_short(tuple: Tuple)
    ensures { IsShort tuple }
{
    address_is_short(&tuple.ip);
    port_is_one(tuple.port);
}

fn id_is_short(id: Id)
    ensures { length (id_text id.0) ≤ 36 }
{
    let _text = id.text();
}

pub(crate) fn answer_is_short(answer: Result<Accepted, Refusal>)
    ensures { TellsShort answer }
{
    match answer {
        Ok(Accepted::Local(tuple) | Accepted::Remote(tuple)) => tuple_is_short(tuple),
        Ok(_) | Err(_) => {}
    }
}

pub(crate) fn notice_is_short(notice: WorkerNotice)
    ensures { NotesShort notice }
{
    match notice {
        WorkerNotice::Running => {}
        WorkerNotice::ProducerClosed(id)
        | WorkerNotice::ProducerPaused(id)
        | WorkerNotice::ProducerResumed(id) => id_is_short(id),
        WorkerNotice::TupleLearnt(id, tuple) => {
            id_is_short(id);
            tuple_is_short(tuple);
        }
    }
}
