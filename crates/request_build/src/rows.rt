//! The rows of the table of calls: the tests of each call in their order, and then its request.

ghost use Rattle.std.specs.Prelude.{◌≤◌, length};
ghost use Rattle.request_build.specs.Built.{built, built_view, is_own};
ghost use Rattle.request_build.specs.Columns.{HasShortName};
ghost use Rattle.request_build.specs.Known.{IsKnown, known, known_of};
ghost use Rattle.request_build.specs.Rules.{Gives};
ghost use Rattle.request_build.specs.Steps.{row_can_consume, row_close, row_connect, row_consume, row_direct, row_flag, row_pipe, row_pipe_router, row_plain, row_produce, row_router, row_send, row_worker};

use crate::builder::{Builder, are_same, is_one_of, refuse_where};
use crate::built::{BuildFault, Built, Draws};
use crate::kept::Kept;
use call_options::caps_options;
use ms_base::{Bytes, Code, Kind, Name, Op, Outcome, Text};
use object_tree::Tree;
use ortc_map::can_consume;
use std::alloc::Global;

/// How many slots there may be.
const MAX_SLOTS: u32 = 64;

/// How long a packet may be.
const MAX_PACKET: usize = 65_535;

const TRANSPORTS: [Kind; 3] = [Kind::Plain, Kind::Pipe, Kind::Direct];

const STREAMS: [Kind; 2] = [Kind::Producer, Kind::Consumer];

/// What a call comes to, by the objects of a host, what it keeps of the open ones, and what is drawn next: the first refusal
/// in this order, each over all names or objects of the call.
///
/// - `NameTaken`: an object, open or closed, has a name that the call is to make, or a pending call is to make one of it.
/// - `NoName`: a name that the call needs has no object.
/// - `WrongKind`: an object is of another kind than the call needs.
/// - `InvalidState`: an object is closed or not ready for the call, or the host was stopped.
/// - `TypeError` and `Unsupported`: what the call was given is wrong, or is more than is supported.
///
/// Else its one request, with the object that it is to make, or, for a call without one, its own answer. Nothing is changed.
pub fn build(
    alloc: Global,
    tree: &Tree,
    kept: &Kept,
    op: &Op,
    next: Draws,
) -> Result<Built, BuildFault>
    requires known { IsKnown kept.now next }
    requires short { HasShortName op.now }
    ensures { Gives built_view result (built (known_of tree.now kept.now next) op.now) }
{
    let builder = Builder {
        alloc,
        tree,
        kept,
        next,
    };
    match op {
        Op::Worker { name, .. } => builder.worker(name),
        Op::Router {
            name,
            worker,
            options,
        } => builder.router(name, worker, options),
        Op::Plain {
            name,
            router,
            options,
        } => builder.plain(name, router, options),
        Op::Pipe {
            name,
            router,
            options,
        } => builder.pipe(name, router, options),
        Op::Direct { name, router } => builder.direct(name, router),
        Op::Connect { transport, options } => builder.connect(transport, options),
        Op::Produce {
            name,
            transport,
            options,
        } => builder.produce(name, transport, options),
        Op::Consume {
            name,
            transport,
            producer,
            options,
        } => builder.consume(name, transport, producer, options),
        Op::Pause { name } => builder.flag(name, true),
        Op::Resume { name } => builder.flag(name, false),
        Op::Close { name } => builder.close(name),
        Op::CanConsume { producer, caps } => builder.can_consume(producer, caps),
        Op::Send { producer, packet } => builder.send(producer, packet),
        Op::PipeRouter {
            name,
            producer,
            router,
        } => builder.pipe_router(name, producer, router),
    }
}

// A call without a request and without an answer.
fn own() -> Result<Built, BuildFault>
    ensures { Gives built_view result is_own }
{
    Ok(Built::Own { answer: None })
}

impl<'k> Builder<'k> {
    fn worker(&self, name: &Name) -> Result<Built, BuildFault>
        ensures { Gives built_view result (row_worker (known self.now) name.now) }
    {
        self.free(name)?;
        refuse_where(self.kept.stopped, Outcome::InvalidState)?;
        let none_left = Outcome::TypeError { code: Code::Slots };
        refuse_where(self.kept.slots >= MAX_SLOTS, none_left)?;
        own()
    }

    fn router(&self, name: &Name, worker: &Name, options: &Text) -> Result<Built, BuildFault>
        ensures { Gives built_view result (row_router (known self.now) name.now worker.now options.now) }
    {
        self.free(name)?;
        let worker = self.needed(worker, &[Kind::Worker])?;
        refuse_where(!worker.running, Outcome::InvalidState)?;
        self.router_asked(name, worker, options)
    }

    fn plain(&self, name: &Name, router: &Name, options: &Text) -> Result<Built, BuildFault>
        ensures { Gives built_view result (row_plain (known self.now) name.now router.now options.now) }
    {
        self.free(name)?;
        let router = self.needed(router, &[Kind::Router])?;
        self.plain_asked(name, router, options)
    }

    fn pipe(&self, name: &Name, router: &Name, options: &Text) -> Result<Built, BuildFault>
        ensures { Gives built_view result (row_pipe (known self.now) name.now router.now options.now) }
    {
        self.free(name)?;
        let router = self.needed(router, &[Kind::Router])?;
        self.pipe_asked(name, router, options)
    }

    fn direct(&self, name: &Name, router: &Name) -> Result<Built, BuildFault>
        ensures { Gives built_view result (row_direct (known self.now) name.now router.now) }
    {
        self.free(name)?;
        let router = self.needed(router, &[Kind::Router])?;
        Ok(self.direct_asked(name, router)?)
    }

    fn connect(&self, transport: &Name, options: &Text) -> Result<Built, BuildFault>
        ensures { Gives built_view result (row_connect (known self.now) transport.now options.now) }
    {
        let transport = self.needed(transport, &[Kind::Plain, Kind::Pipe])?;
        self.connect_asked(transport, options)
    }

    fn produce(&self, name: &Name, transport: &Name, options: &Text) -> Result<Built, BuildFault>
        ensures { Gives built_view result (row_produce (known self.now) name.now transport.now options.now) }
    {
        self.free(name)?;
        let transport = self.needed(transport, &TRANSPORTS)?;
        self.produce_asked(name, transport, options)
    }

    fn consume(
        &self,
        name: &Name,
        transport: &Name,
        producer: &Name,
        options: &Text,
    ) -> Result<Built, BuildFault>
        ensures { Gives built_view result (row_consume (known self.now) name.now transport.now producer.now options.now) }
    {
        self.free(name)?;
        let transport = self.named(transport)?;
        let producer = self.named(producer)?;
        let is_wrong = !is_one_of(transport, &TRANSPORTS)
            || !is_one_of(producer, &[Kind::Producer]);
        refuse_where(is_wrong, Outcome::WrongKind)?;
        let is_barred = self.is_shut(transport) || self.is_shut(producer);
        let is_foreign = !are_same(transport.parent, self.router_of(producer));
        refuse_where(is_barred || is_foreign, Outcome::InvalidState)?;
        self.consume_asked(name, transport, producer, options)
    }

    fn flag(&self, name: &Name, paused: bool) -> Result<Built, BuildFault>
        ensures { Gives built_view result (row_flag (known self.now) name.now paused) }
    {
        let stream = self.needed(name, &STREAMS)?;
        self.flag_asked(stream, paused)
    }

    fn close(&self, name: &Name) -> Result<Built, BuildFault>
        ensures { Gives built_view result (row_close (known self.now) name.now) }
    {
        self.named(name)?;
        own()
    }

    fn can_consume(&self, producer: &Name, caps: &Text) -> Result<Built, BuildFault>
        ensures { Gives built_view result (row_can_consume (known self.now) producer.now caps.now) }
    {
        let producer = self.needed(producer, &[Kind::Producer])?;
        let given = caps_options(self.alloc, caps)?;
        let offer = self.offer(producer.serial)?;
        let answer = Some(can_consume(&offer.params, &given));
        Ok(Built::Own { answer })
    }

    fn send(&self, producer: &Name, packet: &Bytes) -> Result<Built, BuildFault>
        ensures { Gives built_view result (row_send (known self.now) producer.now packet.now) }
    {
        let producer = self.named(producer)?;
        let is_wrong = !is_one_of(producer, &[Kind::Producer])
            || !self.is_on(producer, Kind::Direct);
        refuse_where(is_wrong, Outcome::WrongKind)?;
        refuse_where(self.is_shut(producer), Outcome::InvalidState)?;
        let too_long = Outcome::TypeError { code: Code::Packet };
        refuse_where(packet.as_slice().len() > MAX_PACKET, too_long)?;
        own()
    }

    fn pipe_router(&self, name: &Name, producer: &Name, router: &Name) -> Result<Built, BuildFault>
        requires { length name.now ≤ 62 }
        ensures { Gives built_view result (row_pipe_router (known self.now) name.now producer.now router.now) }
    {
        refuse_where(self.is_one_taken(name)?, Outcome::NameTaken)?;
        let producer = self.named(producer)?;
        let router = self.named(router)?;
        let is_wrong = !is_one_of(producer, &[Kind::Producer])
            || !is_one_of(router, &[Kind::Router]);
        refuse_where(is_wrong, Outcome::WrongKind)?;
        let is_barred = self.is_shut(producer) || self.is_shut(router);
        refuse_where(is_barred, Outcome::InvalidState)?;
        let is_same = are_same(Some(router.serial), self.router_of(producer));
        let same_router = Outcome::TypeError {
            code: Code::SameRouter,
        };
        refuse_where(is_same, same_router)?;
        own()
    }
}
