//! Laws: a host reads what a worker says. The functions do nothing; their contracts are the laws.

ghost use Rattle.std.specs.Prelude.{◌≡◌, ◌≤◌, ◌<◌, ◌^◌, length, Bool, Some};
ghost use Rattle.ms_base.specs.Id.{id_of_text, id_text};
ghost use Rattle.ms_base.specs.Words.{ip_text};
ghost use Rattle.worker_requests.specs.Contents.{ip_named};
ghost use Rattle.worker_requests.specs.Said.{accepted_content, notice_of};
ghost use Rattle.worker_requests.specs.declared.accepted.Accepted.TheVariants.{Consumed, Local};
ghost use Rattle.reply_contents.specs.Contents.{consume_flags, local_tuple};
ghost use Rattle.reply_contents.specs.Laws.{IsReadAs, said};
ghost use Rattle.reply_contents.specs.Notices.{told_of};

use ms_base::{Id, Tuple};
use worker_requests::WorkerNotice;

/// A host reads of a reply where a new transport listens and how a new Consumer stands, as the worker says it. A
/// transport that listens has a port other than 0.
pub fn what_is_answered_is_read(tuple: Tuple)
    ensures local { 1 ≤ tuple.port → local_tuple (accepted_content (Local tuple)) ≡ Some tuple }
    ensures consumed { (paused producer_paused : Bool) → consume_flags (accepted_content (Consumed paused producer_paused)) ≡ Some (record { paused = paused; producer_paused = producer_paused }) }
{
    tuple_is_read(tuple);
}

/// A host is told by a notice what the worker says by it.
pub fn what_is_noted_is_read(notice: WorkerNotice)
    ensures { told_of (notice_of notice) ≡ said notice }
{
    match notice {
        WorkerNotice::Running => {}
        WorkerNotice::ProducerClosed(id)
        | WorkerNotice::ProducerPaused(id)
        | WorkerNotice::ProducerResumed(id) => id_is_read(id),
        WorkerNotice::TupleLearnt(id, tuple) => {
            id_is_read(id);
            tuple_is_read(tuple);
        }
    }
}

fn id_is_read(id: Id)
    ensures { id_of_text (id_text id.0) ≡ Some id.0 }
{
    let _text = id.text();
}

fn tuple_is_read(tuple: Tuple)
    ensures { IsReadAs tuple }
{
    address_is_read(&tuple.ip);
    port_is_one(tuple.port);
}

fn address_is_read(ip: &[u8])
    requires { length ip.now ≡ 4 }
    ensures { ip_named (ip_text ip.now) ≡ Some ip.now }
{}

fn port_is_one(port: u16)
    ensures { port < 2 ^ 16 }
{
    let _port = port;
}
