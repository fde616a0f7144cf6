//! The requests for Routers and transports, and what all requests share.

ghost use Rattle.std.specs.Prelude.{◌≡◌, ◌≤◌, IfOk, option_map};
ghost use Rattle.serde_json.specs.View.{view};
ghost use Rattle.request_build.specs.Asks.{changes, connect_asked, connect_to, direct_asked, drawn, makes_new, new_object, pipe_asked, pipe_of, plain_asked, router_asked, router_of_codecs};
ghost use Rattle.request_build.specs.Built.{built_view};
ghost use Rattle.request_build.specs.Known.{known};
ghost use Rattle.request_build.specs.Rules.{Gives};

use crate::builder::Builder;
use crate::built::{BuildFault, Built, Draws, Keep};
use crate::ids::transport_ids;
use boxed_value::Boxed;
use call_options::{PipeOptions, connect_options, pipe_options, plain_options, router_options};
use ms_base::{Id, Kind, Name, NoMemory, Serial, Text, Tuple};
use object_tree::Object;
use ortc_map::router_codecs;
use request_contents::{ids_of, method_of, write_connect, write_direct, write_pipe, write_plain};
use rtp_params::{Caps, Codec, Items};
use serde_json::Value;
use worker_requests::{Asked, PipeContent, PlainContent};

impl<'k> Builder<'k> {
    // What is drawn from behind a serial and so many SSRCs.
    fn drawn(&self, ssrcs: u32) -> Draws
        requires { ssrcs ≤ 16 }
        ensures { result ≡ drawn (known self.now) ssrcs }
    {
        Draws {
            seed: self.next.seed,
            serial: self.next.serial + 1,
            ssrc: self.next.ssrc + ssrcs,
        }
    }

    /// A request that makes an object on another, and draws so many SSRCs.
    pub(crate) fn makes_new(
        &self,
        asked: Asked,
        content: Option<Value>,
        parent: &Object,
        object: Object,
        keeps: Keep,
        ssrcs: u32,
    ) -> Result<Built, NoMemory>
        requires { ssrcs ≤ 16 }
        ensures { IfOk result (λ b. built_view b ≡ makes_new (known self.now) asked (option_map view content) parent.now object keeps ssrcs) }
    {
        Ok(Built::Ask {
            method: Text::from_str(self.alloc, method_of(&asked))?,
            ids: ids_of(&asked),
            content,
            under: parent.serial,
            makes: Some(object),
            keeps,
            next: self.drawn(ssrcs),
        })
    }

    /// A request that makes nothing and draws nothing.
    pub(crate) fn changes(
        &self,
        asked: Asked,
        content: Option<Value>,
        object: &Object,
    ) -> Result<Built, NoMemory>
        ensures { IfOk result (λ b. built_view b ≡ changes (known self.now) asked (option_map view content) object.now) }
    {
        Ok(Built::Ask {
            method: Text::from_str(self.alloc, method_of(&asked))?,
            ids: ids_of(&asked),
            content,
            under: object.serial,
            makes: None,
            keeps: Keep::Nothing,
            next: self.next,
        })
    }

    /// An object with the next serial, on another.
    pub(crate) fn new_object(
        &self,
        kind: Kind,
        name: &Name,
        id: Id,
        parent: &Object,
    ) -> Result<Object, NoMemory>
        ensures { IfOk result (λ o. o ≡ new_object (known self.now) kind name.now id parent.now) }
    {
        Ok(Object {
            serial: Serial(self.next.serial),
            name: name.copy(self.alloc)?,
            id,
            kind,
            parent: Some(parent.serial),
            worker: parent.worker,
            producer: None,
            closed: None,
            paused: false,
            producer_paused: false,
            running: false,
            far: None,
        })
    }

    /// A Router on a Worker.
    pub(crate) fn router_asked(
        &self,
        name: &Name,
        worker: &Object,
        options: &Text,
    ) -> Result<Built, BuildFault>
        ensures { Gives built_view result (router_asked (known self.now) name.now worker.now options.now) }
    {
        let given = router_options(self.alloc, options)?;
        let codecs = router_codecs(self.alloc, given.as_slice())?;
        Ok(self.router_of_codecs(name, worker, codecs)?)
    }

    fn router_of_codecs(
        &self,
        name: &Name,
        worker: &Object,
        codecs: Items<Codec>,
    ) -> Result<Built, NoMemory>
        ensures { IfOk result (λ b. built_view b ≡ router_of_codecs (known self.now) name.now worker.now codecs) }
    {
        let exts = Items::from_vec(Vec::new(self.alloc));
        let caps = Boxed::new(self.alloc, Caps { codecs, exts })?;
        let router = self.new_object(Kind::Router, name, self.own_id(), worker)?;
        let asked = Asked::CreateRouter(router.id);
        self.makes_new(asked, None, worker, router, Keep::Router(caps), 0)
    }

    /// A transport over a socket of its own.
    pub(crate) fn plain_asked(
        &self,
        name: &Name,
        router: &Object,
        options: &Text,
    ) -> Result<Built, BuildFault>
        ensures { Gives built_view result (plain_asked (known self.now) name.now router.now options.now) }
    {
        let given = plain_options(self.alloc, options)?;
        let comedia = given.comedia;
        let ip = given.listen_ip;
        let content = PlainContent { comedia, ip };
        let value = write_plain(self.alloc, content)?;
        let transport = self.new_object(Kind::Plain, name, self.own_id(), router)?;
        let asked = Asked::CreatePlainTransport(transport_ids(router, &transport));
        Ok(self.makes_new(asked, Some(value), router, transport, Keep::Nothing, 0)?)
    }

    /// An end of a pipe.
    pub(crate) fn pipe_asked(
        &self,
        name: &Name,
        router: &Object,
        options: &Text,
    ) -> Result<Built, BuildFault>
        ensures { Gives built_view result (pipe_asked (known self.now) name.now router.now options.now) }
    {
        let given = pipe_options(self.alloc, options)?;
        Ok(self.pipe_of(name, router, given)?)
    }

    /// An end of a pipe, of options that were read.
    pub(crate) fn pipe_of(
        &self,
        name: &Name,
        router: &Object,
        given: PipeOptions,
    ) -> Result<Built, NoMemory>
        ensures { IfOk result (λ b. built_view b ≡ pipe_of (known self.now) name.now router.now given) }
    {
        let enable_rtx = given.enable_rtx;
        let ip = given.listen_ip;
        let content = PipeContent { enable_rtx, ip };
        let value = write_pipe(self.alloc, content)?;
        let transport = self.new_object(Kind::Pipe, name, self.own_id(), router)?;
        let asked = Asked::CreatePipeTransport(transport_ids(router, &transport));
        let keeps = Keep::Pipe(enable_rtx);
        self.makes_new(asked, Some(value), router, transport, keeps, 0)
    }

    /// A transport over the worker's channel.
    pub(crate) fn direct_asked(&self, name: &Name, router: &Object) -> Result<Built, NoMemory>
        ensures { IfOk result (λ b. built_view b ≡ direct_asked (known self.now) name.now router.now) }
    {
        let value = write_direct(self.alloc)?;
        let transport = self.new_object(Kind::Direct, name, self.own_id(), router)?;
        let asked = Asked::CreateDirectTransport(transport_ids(router, &transport));
        self.makes_new(asked, Some(value), router, transport, Keep::Nothing, 0)
    }

    /// A transport's other end.
    pub(crate) fn connect_asked(
        &self,
        transport: &Object,
        options: &Text,
    ) -> Result<Built, BuildFault>
        ensures { Gives built_view result (connect_asked (known self.now) transport.now options.now) }
    {
        let to = connect_options(self.alloc, options)?;
        self.connect_to(transport, to)
    }

    /// A transport's other end, of options that were read.
    pub(crate) fn connect_to(&self, transport: &Object, to: Tuple) -> Result<Built, BuildFault>
        ensures { Gives built_view result (connect_to (known self.now) transport.now to) }
    {
        let router = self.above(transport)?;
        let value = write_connect(self.alloc, to)?;
        let asked = Asked::Connect(transport_ids(router, transport));
        Ok(self.changes(asked, Some(value), transport)?)
    }
}
