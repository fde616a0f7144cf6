ghost use Rattle.std.specs.Prelude.{◌≡◌};
ghost use Rattle.channel_msgs.specs.declared.message.MessageFault.TheVariants.{NoMemory as NoMemoryFault};

use ms_base::{Bytes, Id, NoMemory, Text, WorkerError};
use serde_json::Value;
use thiserror::Error;

/// The greatest id of a request. The least is 1.
pub const MAX_ID: u32 = 4_294_967_295;

/// The ids of the objects that a request is about, each if it is there.
#[derive(Clone, Copy, Debug, PartialEq, Eq)]
pub struct Ids {
    pub router: Option<Id>,
    pub transport: Option<Id>,
    pub producer: Option<Id>,
    pub consumer: Option<Id>,
}

/// What a worker is asked to do.
#[derive(Debug, Drop, PartialEq)]
pub struct Request {
    /// 1 to `MAX_ID`. The reply has the same.
    pub id: u32,
    /// Such as `worker.createRouter`.
    pub method: Text,
    pub ids: Ids,
    /// The member `data`, if it is there.
    pub content: Option<Value>,
}

/// What a worker answers to a request.
#[derive(Debug, Drop, PartialEq)]
pub enum Answer {
    /// It has done it. The content is the member `data`, if it is there.
    Accepted(Option<Value>),
    /// It refuses. The reason may be empty.
    Refused { error: WorkerError, reason: Text },
}

/// A worker's answer, with the id of the request.
#[derive(Debug, Drop, PartialEq)]
pub struct Reply {
    pub id: u32,
    pub answer: Answer,
}

/// An event of one of a worker's objects, or of the worker itself.
#[derive(Debug, Drop, PartialEq)]
pub struct Notice {
    /// The text of the object's id, or `worker`.
    pub target: Text,
    pub event: Text,
    /// The member `data`, if it is there.
    pub content: Option<Value>,
}

/// What a worker says in one payload.
#[derive(Debug, Drop, PartialEq)]
pub enum Message {
    Reply(Reply),
    Notice(Notice),
    /// A line of its log, under its letter: `D`, `W`, `E` or `X`.
    Log { level: u8, text: Bytes },
    /// A packet for the object of this id.
    Rtp { id: Id, packet: Bytes },
}

/// Why a payload was not read.
#[derive(Clone, Copy, Debug, PartialEq, Eq, Error)]
pub enum MessageFault {
    /// It has none of the forms.
    #[error("the payload has none of the forms of a message")]
    Unexpected,
    #[error("out of memory")]
    NoMemory,
}

impl From<NoMemory> for MessageFault {
    ghost from_gives = { λ _ fault. fault ≡ NoMemoryFault };

    fn from(_refused: NoMemory) -> MessageFault {
        MessageFault::NoMemory
    }
}
