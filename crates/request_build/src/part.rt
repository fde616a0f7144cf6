ghost use Rattle.request_build.specs.Built.{built_part, built_view};
ghost use Rattle.request_build.specs.Known.{IsKnown, known, known_of};
ghost use Rattle.request_build.specs.Rules.{Gives};

use crate::builder::Builder;
use crate::built::{BuildFault, Built, Draws};
use crate::kept::Kept;
use call_options::{PipeOptions, ProduceOptions};
use ms_base::{Name, Part, Serial};
use object_tree::Tree;
use std::alloc::Global;

/// Where the ends of a pipe listen.
const LOCALHOST: [u8; 4] = [127, 0, 0, 1];

/// What one request of those that pipe a Producer to another Router comes to, by the objects of a host, what it keeps of the
/// open ones, and what is drawn next: its first refusal of `TypeError` or `Unsupported`, or the request. The names of the
/// objects that it is to make are free, and those that it needs are open. Nothing is changed.
pub fn build_part(
    alloc: Global,
    tree: &Tree,
    kept: &Kept,
    part: &Part,
    next: Draws,
) -> Result<Built, BuildFault>
    requires { IsKnown kept.now next }
    ensures { Gives built_view result (built_part (known_of tree.now kept.now next) part.now) }
{
    let builder = Builder {
        alloc,
        tree,
        kept,
        next,
    };
    match part {
        Part::Pipe { name, router } => builder.pipe_part(name, router),
        Part::Connect { transport, to } => { builder.connect_to(builder.known(transport)?, *to) }
        Part::Consume {
            name,
            transport,
            producer,
        } => builder.consume_part(name, transport, producer),
        Part::Produce {
            name,
            transport,
            producer,
            consumer,
            paused,
        } => builder.produce_part(name, transport, *producer, *consumer, *paused),
        Part::Pause { name } => builder.flag_asked(builder.known(name)?, true),
        Part::Resume { name } => builder.flag_asked(builder.known(name)?, false),
    }
}

impl<'k> Builder<'k> {
    ghost use Rattle.ms_base.specs.declared.part.Part.TheVariants as part;

    fn pipe_part(&self, name: &Name, router: &Name) -> Result<Built, BuildFault>
        ensures { Gives built_view result (built_part (known self.now) (part.Pipe name.now router.now)) }
    {
        let router = self.known(router)?;
        let given = PipeOptions {
            listen_ip: LOCALHOST,
            enable_rtx: false,
        };
        Ok(self.pipe_of(name, router, given)?)
    }

    fn consume_part(
        &self,
        name: &Name,
        transport: &Name,
        producer: &Name,
    ) -> Result<Built, BuildFault>
        ensures { Gives built_view result (built_part (known self.now) (part.Consume name.now transport.now producer.now)) }
    {
        let transport = self.known(transport)?;
        let producer = self.known(producer)?;
        self.piped_consume(name, transport, producer, false)
    }

    fn produce_part(
        &self,
        name: &Name,
        transport: &Name,
        producer: Serial,
        consumer: Serial,
        paused: bool,
    ) -> Result<Built, BuildFault>
        ensures { Gives built_view result (built_part (known self.now) (part.Produce name.now transport.now producer consumer paused)) }
    {
        let transport = self.known(transport)?;
        let source = self.at(producer)?;
        let offer = self.offer(producer)?;
        let params = self.received(consumer)?;
        let given = ProduceOptions {
            media: offer.media,
            params: params.copy(self.alloc)?,
            paused,
            id: Some(source.id),
        };
        self.produce_as(name, transport, &given)
    }
}
