//! The streams of a Consumer.

ghost use Rattle.std.specs.Prelude.{◌≡◌, ◌==◌, ◌<◌, length, IfOk, slice_index_or};
ghost use Rattle.std.specs.List.{position};
ghost use Rattle.pipe_consumer.specs.Streams.{with_encoding, streams_of};

use ms_base::NoMemory;
use rtp_extension::Flags;
use rtp_params::{Encoding, Items, Params};
use simple_consumer::SimpleConsumer;
use std::alloc::Global;

/// The streams of these mapped SSRCs, each with the encoding at its place, before the first call.
pub(crate) fn new_streams(
    alloc: Global,
    params: &Params,
    mapped: &[u32],
    flags: Flags,
) -> Result<Vec<SimpleConsumer>, NoMemory>
    requires { length params.now.encodings ≡ length mapped.now }
    ensures { IfOk result (λ streams. streams.items ≡ streams_of params.now mapped.now flags) }
{
    let mut streams = Vec::with_capacity(alloc, mapped.len())?;
    for place in 0..mapped.len() {
        let own = own_params(alloc, params, params.encodings.as_slice()[place])?;
        let stream = SimpleConsumer::new(alloc, &own, mapped[place], flags)?;
        streams.push(stream)?;
    }
    Ok(streams)
}

// The parameters with one encoding alone.
fn own_params(alloc: Global, params: &Params, encoding: Encoding) -> Result<Params, NoMemory>
    ensures { IfOk result (λ own. own ≡ with_encoding params.now encoding) }
{
    Ok(Params {
        codecs: params.codecs.copy(alloc)?,
        exts: params.exts.copy(alloc)?,
        encodings: Items::from_vec(Vec::from_array(alloc, [encoding])?),
        cname: params.cname.copy(alloc)?,
        reduced_size: params.reduced_size,
    })
}

/// The place of the stream of a mapped SSRC.
pub(crate) fn place_of(streams: &[SimpleConsumer], ssrc: u32) -> Option<usize>
    ensures { result ≡ position (λ s. ssrc == s.mapped) streams.now }
{
    streams.iter().position(|stream| ssrc == stream.mapped())
}
