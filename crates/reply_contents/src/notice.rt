//! Notices: what one tells, and of which object.

ghost use Rattle.std.specs.Prelude.{◌≡◌, option_map};
ghost use Rattle.serde_json.specs.View.{view};
ghost use Rattle.channel_msgs.specs.View.{notice_view};
ghost use Rattle.reply_contents.specs.Notices.{id_named, learnt, told_of, told_of_object, told_of_worker};

use crate::content::remote_tuple;
use channel_msgs::Notice;
use ms_base::{Id, Tuple};
use serde_json::Value;

/// What a notice tells a host.
#[derive(Clone, Copy, Debug, PartialEq, Eq)]
pub enum Told {
    /// The worker runs.
    Running,
    /// The Producer of this Consumer has closed.
    ProducerClosed(Id),
    /// The Producer of this Consumer has paused.
    ProducerPaused(Id),
    /// The Producer of this Consumer has resumed.
    ProducerResumed(Id),
    /// Packets come to this transport from this tuple.
    TupleLearnt(Id, Tuple),
    /// None of these: another event or target, or a tuple that can't be read.
    Other,
}

/// What a notice tells. `running` is told of the target `worker` alone, and every other event of an object, whose id is
/// read in either case of letters. A content counts for `tuple` alone.
pub fn read_told(notice: &Notice) -> Told
    ensures { result ≡ told_of (notice_view notice.now) }
{
    let event = notice.event.as_str();
    match notice.target.as_str() {
        "worker" => told_of_worker(event),
        target => match id_named(target) {
            Some(id) => told_of_object(id, event, notice.content.as_ref()),
            None => Told::Other,
        },
    }
}

fn told_of_worker(event: &str) -> Told
    ensures { result ≡ told_of_worker event.now }
{
    match event {
        "running" => Told::Running,
        _ => Told::Other,
    }
}

#[tactic(auto, unfolding(crate::specs::Notices::events))]
fn told_of_object(id: Id, event: &str, content: Option<&Value>) -> Told
    ensures { result ≡ told_of_object event.now (option_map (λ v. view v.now) content.entry) id }
{
    match event {
        "producerclose" => Told::ProducerClosed(id),
        "producerpause" => Told::ProducerPaused(id),
        "producerresume" => Told::ProducerResumed(id),
        "tuple" => learnt(id, remote_tuple(content)),
        _ => Told::Other,
    }
}

fn learnt(id: Id, tuple: Option<Tuple>) -> Told
    ensures { result ≡ learnt id tuple }
{
    match tuple {
        Some(tuple) => Told::TupleLearnt(id, tuple),
        None => Told::Other,
    }
}

// The object that a text names.
fn id_named(text: &str) -> Option<Id>
    ensures { result ≡ id_named text.now }
{
    Id::parse(text.as_bytes())
}
