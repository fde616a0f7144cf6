ghost use Rattle.std.specs.Prelude.{◌≡◌, IfOk};

use crate::bytes::Bytes;
use crate::fault::NoMemory;
use crate::name::Name;
use crate::text::Text;
use std::alloc::Global;

/// What a lane asks of the host. Options and capabilities are JSON texts.
#[derive(Debug, Drop, PartialEq, Eq)]
pub enum Op {
    /// Make a Worker that may be restarted `budget` times.
    Worker {
        name: Name,
        budget: u32,
    },
    /// Make a Router on a Worker.
    Router {
        name: Name,
        worker: Name,
        options: Text,
    },
    /// Make a transport over a socket of its own on a Router.
    Plain {
        name: Name,
        router: Name,
        options: Text,
    },
    /// Make an end of a pipe on a Router.
    Pipe {
        name: Name,
        router: Name,
        options: Text,
    },
    /// Make a transport over the worker's channel on a Router.
    Direct {
        name: Name,
        router: Name,
    },
    /// Tell a transport its other end.
    Connect {
        transport: Name,
        options: Text,
    },
    /// Make a Producer on a transport.
    Produce {
        name: Name,
        transport: Name,
        options: Text,
    },
    /// Make a Consumer of a Producer on a transport.
    Consume {
        name: Name,
        transport: Name,
        producer: Name,
        options: Text,
    },
    /// Pause a Producer or a Consumer.
    Pause {
        name: Name,
    },
    /// Resume a Producer or a Consumer.
    Resume {
        name: Name,
    },
    /// Close an object, with all that stands under it.
    Close {
        name: Name,
    },
    /// Ask whether these capabilities can consume a Producer.
    CanConsume {
        producer: Name,
        caps: Text,
    },
    /// Give a packet to a Producer on a direct transport.
    Send {
        producer: Name,
        packet: Bytes,
    },
    /// Pipe a Producer to another Router.
    PipeRouter {
        name: Name,
        producer: Name,
        router: Name,
    },
}

impl Op {
    /// A copy of the value.
    pub fn copy(&self, alloc: Global) -> Result<Op, NoMemory>
        ensures { IfOk result (λ op. op ≡ self.now) }
    {
        Ok(match self {
            Op::Worker { name, budget } => Op::Worker {
                name: name.copy(alloc)?,
                budget: *budget,
            },
            Op::Router {
                name,
                worker,
                options,
            } => Op::Router {
                name: name.copy(alloc)?,
                worker: worker.copy(alloc)?,
                options: options.copy(alloc)?,
            },
            Op::Plain {
                name,
                router,
                options,
            } => Op::Plain {
                name: name.copy(alloc)?,
                router: router.copy(alloc)?,
                options: options.copy(alloc)?,
            },
            Op::Pipe {
                name,
                router,
                options,
            } => Op::Pipe {
                name: name.copy(alloc)?,
                router: router.copy(alloc)?,
                options: options.copy(alloc)?,
            },
            Op::Direct { name, router } => Op::Direct {
                name: name.copy(alloc)?,
                router: router.copy(alloc)?,
            },
            Op::Connect { transport, options } => Op::Connect {
                transport: transport.copy(alloc)?,
                options: options.copy(alloc)?,
            },
            Op::Produce {
                name,
                transport,
                options,
            } => Op::Produce {
                name: name.copy(alloc)?,
                transport: transport.copy(alloc)?,
                options: options.copy(alloc)?,
            },
            Op::Consume {
                name,
                transport,
                producer,
                options,
            } => Op::Consume {
                name: name.copy(alloc)?,
                transport: transport.copy(alloc)?,
                producer: producer.copy(alloc)?,
                options: options.copy(alloc)?,
            },
            Op::Pause { name } => Op::Pause {
                name: name.copy(alloc)?,
            },
            Op::Resume { name } => Op::Resume {
                name: name.copy(alloc)?,
            },
            Op::Close { name } => Op::Close {
                name: name.copy(alloc)?,
            },
            Op::CanConsume { producer, caps } => Op::CanConsume {
                producer: producer.copy(alloc)?,
                caps: caps.copy(alloc)?,
            },
            Op::Send { producer, packet } => Op::Send {
                producer: producer.copy(alloc)?,
                packet: packet.copy(alloc)?,
            },
            Op::PipeRouter {
                name,
                producer,
                router,
            } => Op::PipeRouter {
                name: name.copy(alloc)?,
                producer: producer.copy(alloc)?,
                router: router.copy(alloc)?,
            },
        })
    }
}
