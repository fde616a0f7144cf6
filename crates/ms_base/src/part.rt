ghost use Rattle.std.specs.Prelude.{◌≡◌, IfOk};

use crate::fault::NoMemory;
use crate::keys::Serial;
use crate::name::Name;
use crate::tuple::Tuple;
use std::alloc::Global;

/// One request of those that pipe a Producer to another Router.
#[derive(Debug, Drop, PartialEq, Eq)]
pub enum Part {
    /// Make an end of a pipe on a Router.
    Pipe {
        name: Name,
        router: Name,
    },
    /// Tell an end of a pipe its other end.
    Connect {
        transport: Name,
        to: Tuple,
    },
    /// Make the Consumer that sends into the pipe.
    Consume {
        name: Name,
        transport: Name,
        producer: Name,
    },
    /// Make the Producer that receives from the pipe: the one of `producer`'s id and kind, with the parameters
    /// of `consumer`.
    Produce {
        name: Name,
        transport: Name,
        producer: Serial,
        consumer: Serial,
        paused: bool,
    },
    /// Pause that Producer.
    Pause {
        name: Name,
    },
    /// Resume that Producer.
    Resume {
        name: Name,
    },
}

impl Part {
    /// A copy of the value.
    pub fn copy(&self, alloc: Global) -> Result<Part, NoMemory>
        ensures { IfOk result (λ part. part ≡ self.now) }
    {
        Ok(match self {
            Part::Pipe { name, router } => Part::Pipe {
                name: name.copy(alloc)?,
                router: router.copy(alloc)?,
            },
            Part::Connect { transport, to } => Part::Connect {
                transport: transport.copy(alloc)?,
                to: *to,
            },
            Part::Consume {
                name,
                transport,
                producer,
            } => Part::Consume {
                name: name.copy(alloc)?,
                transport: transport.copy(alloc)?,
                producer: producer.copy(alloc)?,
            },
            Part::Produce {
                name,
                transport,
                producer,
                consumer,
                paused,
            } => Part::Produce {
                name: name.copy(alloc)?,
                transport: transport.copy(alloc)?,
                producer: *producer,
                consumer: *consumer,
                paused: *paused,
            },
            Part::Pause { name } => Part::Pause {
                name: name.copy(alloc)?,
            },
            Part::Resume { name } => Part::Resume {
                name: name.copy(alloc)?,
            },
        })
    }
}
