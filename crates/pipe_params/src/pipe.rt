ghost use Rattle.std.specs.Prelude.{◌≡◌, ◌+◌, ◌*◌, ◌^◌, ◌<◌, ◌≤◌, length, filter, IfOk};
ghost use Rattle.pipe_params.specs.Pipe.{codec_stays, feedback_stays, is_feedback, is_of_one_transport, pipe_codec, pipe_codecs, pipe_encoding, pipe_encodings, pipe_exts, pipe_params};

use ms_base::{NoMemory, Text};
use rtp_params::{Codec, Encoding, Ext, Items, Params};
use std::alloc::Global;

// Whether it is feedback of this type with this parameter.
fn is_feedback(feedback: &(Text, Text), kind: &str, parameter: &str) -> bool
    ensures { result ≡ is_feedback kind.now parameter.now feedback.now }
{
    feedback.0.as_str() == kind && feedback.1.as_str() == parameter
}

// Whether feedback of this kind goes through a pipe.
fn feedback_stays(feedback: &(Text, Text), enable_rtx: bool) -> bool
    ensures { result ≡ feedback_stays enable_rtx feedback.now }
{
    is_feedback(feedback, "nack", "pli")
        || is_feedback(feedback, "ccm", "fir")
        || (enable_rtx && is_feedback(feedback, "nack", ""))
}

// The feedback that goes through a pipe.
fn pipe_feedback(
    alloc: Global,
    feedback: &[(Text, Text)],
    enable_rtx: bool,
) -> Result<Vec<(Text, Text)>, NoMemory>
    ensures { IfOk result (λ kept. kept.items ≡ filter (feedback_stays enable_rtx) feedback.now) }
{
    let mut kept = Vec::new(alloc);
    for each in feedback {
        if feedback_stays(each, enable_rtx) {
            kept.push((each.0.copy(alloc)?, each.1.copy(alloc)?))?;
        }
    }
    Ok(kept)
}

// A codec as a pipe has it.
fn pipe_codec(alloc: Global, codec: &Codec, enable_rtx: bool) -> Result<Codec, NoMemory>
    ensures { IfOk result (λ piped. piped ≡ pipe_codec enable_rtx codec.now) }
{
    let feedback = pipe_feedback(alloc, codec.feedback.as_slice(), enable_rtx)?;
    Ok(Codec {
        media: codec.media,
        name: codec.name.copy(alloc)?,
        payload_type: codec.payload_type,
        clock_rate: codec.clock_rate,
        channels: codec.channels,
        parameters: codec.parameters.copy(alloc)?,
        feedback: Items::from_vec(feedback),
    })
}

// Whether a pipe has the codec.
fn codec_stays(codec: &Codec, enable_rtx: bool) -> bool
    ensures { result ≡ codec_stays enable_rtx codec.now }
{
    enable_rtx || !codec.is_rtx()
}

// The codecs that a pipe has.
fn pipe_codecs(alloc: Global, codecs: &[Codec], enable_rtx: bool) -> Result<Vec<Codec>, NoMemory>
    ensures { IfOk result (λ piped. piped.items ≡ pipe_codecs enable_rtx codecs.now) }
{
    let mut piped = Vec::new(alloc);
    for codec in codecs {
        if codec_stays(codec, enable_rtx) {
            piped.push(pipe_codec(alloc, codec, enable_rtx)?)?;
        }
    }
    Ok(piped)
}

// Whether each transport writes the extension for itself.
fn is_of_one_transport(ext: &Ext) -> bool
    ensures { result ≡ is_of_one_transport ext.now }
{
    matches!(ext.id, 1 | 4 | 5)
}

// The extensions that go through a pipe.
fn pipe_exts(alloc: Global, exts: &[Ext]) -> Result<Vec<Ext>, NoMemory>
    ensures { IfOk result (λ kept. kept.items ≡ pipe_exts exts.now) }
{
    let mut kept = Vec::new(alloc);
    for ext in exts {
        if !is_of_one_transport(ext) {
            kept.push(ext.copy(alloc)?)?;
        }
    }
    Ok(kept)
}

// One of so many encodings.
fn pipe_encoding(ssrc: u32, count: u32, enable_rtx: bool) -> Encoding
    requires { ssrc + count < 2 ^ 32 }
    ensures { result ≡ pipe_encoding enable_rtx count ssrc }
{
    let rtx = if enable_rtx { Some(ssrc + count) } else { None };
    Encoding { ssrc, rtx }
}

// So many encodings, with the SSRCs from the first on.
#[tactic(auto, using(crate::proofs::PipeLemmas::one_more))]
fn pipe_encodings(
    alloc: Global,
    count: u32,
    enable_rtx: bool,
    first_ssrc: u32,
) -> Result<Vec<Encoding>, NoMemory>
    requires { first_ssrc + 2 * count ≤ 2 ^ 32 }
    ensures { IfOk result (λ encodings. encodings.items ≡ pipe_encodings enable_rtx first_ssrc count) }
{
    let mut encodings = Vec::new(alloc);
    for place in 0..count {
        encodings.push(pipe_encoding(first_ssrc + place, count, enable_rtx))?;
    }
    Ok(encodings)
}

/// The parameters of a Consumer that pipes to another Router what the consumable parameters say. A pipe asks for key
/// frames (`nack pli`, `ccm fir`) and has a stream for each encoding, with the SSRCs from `first_ssrc` on. With
/// `enable_rtx` it retransmits as well: it keeps the codecs for it and asks for lost packets (`nack`), and each encoding
/// has a second SSRC, from those behind the first ones. The header extensions of one transport alone, with the ids
/// 1, 4 and 5, don't go through.
#[tactic(auto, unfolding(crate::specs::Pipe::pipe_params))]
pub fn pipe_consumer_params(
    alloc: Global,
    consumable: &Params,
    enable_rtx: bool,
    first_ssrc: u32,
) -> Result<Params, NoMemory>
    requires { first_ssrc + 2 * length consumable.now.encodings ≤ 2 ^ 32 }
    ensures { IfOk result (λ params. params ≡ pipe_params consumable.now enable_rtx first_ssrc) }
{
    let codecs = pipe_codecs(alloc, consumable.codecs.as_slice(), enable_rtx)?;
    let exts = pipe_exts(alloc, consumable.exts.as_slice())?;
    let count = consumable.encodings.len() as u32;
    let encodings = pipe_encodings(alloc, count, enable_rtx, first_ssrc)?;
    Ok(Params {
        codecs: Items::from_vec(codecs),
        exts: Items::from_vec(exts),
        encodings: Items::from_vec(encodings),
        cname: consumable.cname.copy(alloc)?,
        reduced_size: consumable.reduced_size,
    })
}
