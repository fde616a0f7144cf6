//! What is changed in a worker.

ghost use Rattle.std.specs.Prelude.{◌≡◌, IfOk, option_map};
ghost use Rattle.serde_json.specs.View.{view};
ghost use Rattle.worker_requests.specs.Contents.{produce_content, consume_content};
ghost use Rattle.worker_requests.specs.Said.{produced};

use crate::place::Place;
use crate::waiting::Waiting;
use ms_base::{Id, NoMemory, Tuple};
use rtp_params::Encoding;
use serde_json::Value;
use std::alloc::Global;
use std::marker::Model;
use worker_requests::{
    Accepted, ConsumeContent, ConsumerIds, ProduceContent, ProducerIds, TransportIds,
    consume_content, produce_content, produced, what_is_read_is_whole,
};
use worker_router::Transport;

/// What a Producer is made of, as it was read.
#[derive(Debug, Drop)]
pub(crate) struct NewProducer {
    pub(crate) content: ProduceContent,
}

impl Model for NewProducer {
    ghost use Rattle.worker_requests.specs.declared.content.ProduceContent.{ProduceContent};
    ghost use Rattle.worker_requests.specs.Laws.{IsProduceContent};

    ghost Value = { ProduceContent };

    ghost view = { λ p. p.content };

    ghost invariant = { λ p. IsProduceContent p.content };
}

impl NewProducer {
    pub(crate) fn read(
        alloc: Global,
        content: Option<&Value>,
    ) -> Result<Option<NewProducer>, NoMemory>
        ensures { IfOk result (λ found. found ≡ produce_content (option_map (λ v. view v.now) content.entry)) }
    {
        what_is_read_is_whole();
        match produce_content(alloc, content)? {
            Some(content) => Ok(Some(NewProducer { content })),
            None => Ok(None),
        }
    }

    pub(crate) fn encodings(&self) -> &[Encoding]
        ensures { result.now ≡ self.now.params.encodings }
    {
        self.content.params.encodings.as_slice()
    }

    /// What the reply tells of it.
    pub(crate) fn produced(&self) -> Accepted
        ensures { result ≡ produced self.now.params }
    {
        produced(&self.content.params)
    }
}

/// What a Consumer is made of, as it was read.
#[derive(Debug, Drop)]
pub(crate) struct NewConsumer {
    pub(crate) content: ConsumeContent,
}

impl Model for NewConsumer {
    ghost use Rattle.worker_requests.specs.declared.content.ConsumeContent.{ConsumeContent};
    ghost use Rattle.worker_requests.specs.Laws.{IsConsumeContent};

    ghost Value = { ConsumeContent };

    ghost view = { λ c. c.content };

    ghost invariant = { λ c. IsConsumeContent c.content };
}

impl NewConsumer {
    pub(crate) fn read(
        alloc: Global,
        content: Option<&Value>,
    ) -> Result<Option<NewConsumer>, NoMemory>
        ensures { IfOk result (λ found. found ≡ consume_content (option_map (λ v. view v.now) content.entry)) }
    {
        what_is_read_is_whole();
        match consume_content(alloc, content)? {
            Some(content) => Ok(Some(NewConsumer { content })),
            None => Ok(None),
        }
    }

    pub(crate) fn is_paused(&self) -> bool
        ensures { result ≡ self.now.paused }
    {
        self.content.paused
    }
}

/// What is changed in one Router.
#[derive(Debug, Drop)]
pub(crate) enum RouterChange {
    AddTransport(Id, Transport),
    Connect(Id, Tuple),
    AddProducer(ProducerIds, NewProducer),
    AddConsumer(ConsumerIds, NewConsumer),
    RemoveTransport(Id),
    RemoveProducer(Id),
    RemoveConsumer(Id),
    PauseProducer(Id, bool),
    PauseConsumer(Id, bool),
}

/// What is changed in a worker.
#[derive(Debug, Drop)]
pub(crate) enum Change {
    Nothing,
    AddRouter(Id),
    RemoveRouter(Id),
    /// In the Router of this id.
    InRouter(Id, RouterChange),
    /// A transport waits for its link.
    Wait(Waiting),
    /// The transport that waited for its link is made.
    Stand {
        link: u32,
        place: Place,
        transport: Transport,
    },
    /// It isn't, since its link wasn't bound.
    Forget,
    /// A Producer, of a direct transport or another.
    AddProducer(ProducerIds, NewProducer, bool),
    RemoveTransport(TransportIds),
    RemoveProducer(ProducerIds),
}
