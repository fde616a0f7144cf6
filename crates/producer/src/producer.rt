ghost use Rattle.std.specs.Prelude.{◌≡◌, ℕ, ◌<◌, ◌≤◌, true, false, is_some, length, ◌&&◌, IfOk, IfSome};
ghost use Rattle.rtp_extension.specs.Ids.{new_id};
ghost use Rattle.rtp_params.specs.Readable.{Each};
ghost use Rattle.producer.specs.Ids.{element_id};
ghost use Rattle.producer.specs.Received.{media_of, mapped_ssrc, received};
ghost use Rattle.producer.specs.Stream.{stream_of};

use crate::ids::ids_of;
use crate::types::{MediaType, TYPES, mapped_ssrc, media_types};
use ms_base::NoMemory;
use rtp_extension::{IdMap, Mapped};
use rtp_packet::View;
use rtp_params::{Ext, Mapping, Params};
use std::alloc::Global;
use std::marker::Model;

/// A stream that comes in. Contracts see it as the record of what it was made of.
#[derive(Debug, Drop)]
pub struct Producer {
    params: Params,
    mapping: Mapping,
    ids: IdMap,
    paused: bool,
    // What is known of each payload type of media.
    types: [Option<MediaType>; TYPES],
}

impl Model for Producer {
    ghost use Rattle.producer.specs.Stream.{Stream};
    ghost use Rattle.producer.specs.Tables.{AreMediaTypes};

    ghost Value = { Stream };

    ghost view = { λ p. record { params = p.params; mapping = p.mapping; ids = p.ids; paused = p.paused } };

    ghost invariant = { λ p. AreMediaTypes p.params p.mapping p.types };
}

impl Producer {
    /// A Producer of what these parameters send. The mapping says what their payload types and SSRCs are mapped to, and
    /// `exts` are the header extensions that its Consumers may get, with the ids of their table.
    pub fn new(
        alloc: Global,
        params: &Params,
        mapping: &Mapping,
        exts: &[Ext],
        paused: bool,
    ) -> Result<Producer, NoMemory>
        ensures made { IfOk result (λ p. p ≡ stream_of params.now mapping.now p.ids paused) }
        // At each of 256 places the id of the table by the parameters' own.
        ensures places { IfOk result (λ p. length p.ids ≡ 256) }
        ensures ids { IfOk result (λ p. (id : ℕ) → id < 256 → new_id p.ids id ≡ element_id params.now exts.now id) }
    {
        let types = media_types(params, mapping);
        let ids = ids_of(params, exts);
        ids.has_places();
        let params = params.copy(alloc)?;
        let mapping = mapping.copy(alloc)?;
        Ok(Producer {
            params,
            mapping,
            ids,
            paused,
            types,
        })
    }

    /// What is said of a packet: the SSRC and the payload type that its own are mapped to, whether it starts a key frame,
    /// and whether it is video. `None` comes exactly where the SSRC isn't one of the encodings', the payload type isn't one
    /// of a codec of media, or the mapping lacks one of the two. No memory is taken.
    pub fn receive(&self, view: &View<'_>) -> Option<Mapped>
        ensures received { result ≡ received self.now.params self.now.mapping view.now }
        ensures when { is_some result ≡ (is_some (media_of self.now.params self.now.mapping view.now.payload_type)
            && is_some (mapped_ssrc self.now.params self.now.mapping view.now.ssrc)) }
        // A mapping to payload types gives payload types.
        ensures fits { Each (λ pair. pair.1 ≤ 127) self.now.mapping.codecs → IfSome result (λ m. m.payload_type < 128) }
    {
        self.mapped(view)
    }

    /// The new ids of its packets' elements.
    pub fn ids(&self) -> &IdMap
        ensures { result.now ≡ self.now.ids }
    {
        &self.ids
    }

    /// Whether it is paused.
    pub fn is_paused(&self) -> bool
        ensures { result ≡ self.now.paused }
    {
        self.paused
    }

    /// Pauses it.
    pub fn pause(&mut self)
        ensures { self.new ≡ record self.old { paused = true } }
    {
        self.paused = true;
    }

    /// Resumes it.
    pub fn resume(&mut self)
        ensures { self.new ≡ record self.old { paused = false } }
    {
        self.paused = false;
    }

    fn mapped(&self, view: &View<'_>) -> Option<Mapped>
        ensures { result ≡ received self.now.params self.now.mapping view.now }
    {
        let kind = self.types[usize::from(view.payload_type())]?;
        let ssrc = mapped_ssrc(&self.params, &self.mapping, view.ssrc())?;
        Some(Mapped {
            ssrc,
            payload_type: kind.mapped,
            key: kind.coding.starts_key(view.payload()),
            video: kind.coding.is_video(),
        })
    }
}
