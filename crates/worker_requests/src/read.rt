//! The member `data` of a request. Of its faults none tells more than that there is one.

ghost use Rattle.std.specs.Prelude.{◌≡◌, List, Option, Some, IfOk, IfSome, option_map};
ghost use Rattle.serde_json.specs.Data.{Data};
ghost use Rattle.serde_json.specs.View.{view, members_view};
ghost use Rattle.rtp_params.specs.Gives.{Gives};
ghost use Rattle.worker_requests.specs.declared.content.ProduceContent.{ProduceContent};
ghost use Rattle.worker_requests.specs.declared.content.ConsumeContent.{ConsumeContent};
ghost use Rattle.worker_requests.specs.Contents.{plain_in, plain_content, pipe_in, pipe_content, direct_in, is_direct, connect_in, connect_content, produce_in, produce_content, consume_in, consume_content, valid_produce, valid_consume};
ghost use Rattle.worker_requests.specs.Laws.{IsProduceContent, IsConsumeContent};

use crate::content::{ConsumeContent, PipeContent, PlainContent, ProduceContent};
use crate::members::{
    Members, needed, object_in, read_bool, read_ip, read_listen_ip, read_media, read_port,
    read_true, read_type,
};
use ms_base::{Code, NoMemory, Tuple};
use rtp_params::{ParamFault, read_encodings, read_mapping, read_params};
use serde_json::Value;
use std::alloc::Global;

/// What a transport with a socket of its own is to be made of. `None` comes exactly where a member is absent or has
/// another form; `rtcpMux` has to be true.
pub fn plain_content(content: Option<&Value>) -> Option<PlainContent>
    ensures { result ≡ plain_content (option_map (λ v. view v.now) content.entry) }
{
    read_plain(object_in(content)?).ok()
}

/// What one end of a pipe is to be made of. `None` comes exactly where a member is absent or has another form.
pub fn pipe_content(content: Option<&Value>) -> Option<PipeContent>
    ensures { result ≡ pipe_content (option_map (λ v. view v.now) content.entry) }
{
    read_pipe(object_in(content)?).ok()
}

/// Whether the content is that of a direct transport: its `direct` is true.
pub fn is_direct(content: Option<&Value>) -> bool
    ensures { result ≡ is_direct (option_map (λ v. view v.now) content.entry) }
{
    match object_in(content) {
        Some(members) => read_direct(members).is_ok(),
        None => false,
    }
}

/// The other end that a transport is to be given. `None` comes exactly where a member is absent or has another form; a
/// port is 1 to 65,535.
pub fn connect_content(content: Option<&Value>) -> Option<Tuple>
    ensures { result ≡ connect_content (option_map (λ v. view v.now) content.entry) }
{
    read_connect(object_in(content)?).ok()
}

/// What a Producer is to be made of. `None` comes exactly where a member is absent or has another form, or there is no
/// encoding.
pub fn produce_content(
    alloc: Global,
    content: Option<&Value>,
) -> Result<Option<ProduceContent>, NoMemory>
    ensures { IfOk result (λ found. found ≡ produce_content (option_map (λ v. view v.now) content.entry)) }
{
    let Some(members) = object_in(content) else {
        return Ok(None);
    };
    match read_produce(alloc, members) {
        Ok(content) => Ok(valid_produce(content)),
        Err(ParamFault::TypeError { .. }) => Ok(None),
        Err(ParamFault::NoMemory) => Err(NoMemory),
    }
}

/// What a Consumer is to be made of. `None` comes exactly where a member is absent or has another form, there is no
/// encoding, they aren't as many as the consumable ones, or a simple one has several.
pub fn consume_content(
    alloc: Global,
    content: Option<&Value>,
) -> Result<Option<ConsumeContent>, NoMemory>
    ensures { IfOk result (λ found. found ≡ consume_content (option_map (λ v. view v.now) content.entry)) }
{
    let Some(members) = object_in(content) else {
        return Ok(None);
    };
    match read_consume(alloc, members) {
        Ok(content) => Ok(valid_consume(content)),
        Err(ParamFault::TypeError { .. }) => Ok(None),
        Err(ParamFault::NoMemory) => Err(NoMemory),
    }
}

/// What is read of a Producer or a Consumer has encodings in their ranges, with SSRCs of their own; a Consumer's are as
/// many as the consumable ones. The function does nothing; its contract is the law.
pub fn what_is_read_is_whole()
    ensures produced { (content : Option Data) (c : ProduceContent) → produce_content content ≡ Some c → IsProduceContent c }
    ensures consumed { (content : Option Data) (c : ConsumeContent) → consume_content content ≡ Some c → IsConsumeContent c }
{
    rtp_params::what_is_read_fits();
}

// The content, where it has an encoding.
fn valid_produce(content: ProduceContent) -> Option<ProduceContent>
    ensures { result ≡ valid_produce content }
{
    if content.params.encodings.len() > 0 {
        Some(content)
    } else {
        None
    }
}

// The content, where it has an encoding for each consumable one, and one alone where it is simple.
fn valid_consume(content: ConsumeContent) -> Option<ConsumeContent>
    ensures { result ≡ valid_consume content }
{
    let (own, consumable) = (content.params.encodings.len(), content.consumable.len());
    if own > 0 && consumable == own && (!content.simple || own == 1) {
        Some(content)
    } else {
        None
    }
}

// ---- the members of the contents, in their order

#[tactic(auto, unfolding(crate::specs::Contents::plain_in))]
fn read_plain(members: &Members) -> Result<PlainContent, Code>
    ensures { result ≡ plain_in (members_view members.now.entries) }
{
    let comedia = read_bool(needed(members, "comedia")?)?;
    let ip = read_listen_ip(needed(members, "listenIp")?)?;
    read_true(needed(members, "rtcpMux")?)?;
    Ok(PlainContent { comedia, ip })
}

#[tactic(auto, unfolding(crate::specs::Contents::pipe_in))]
fn read_pipe(members: &Members) -> Result<PipeContent, Code>
    ensures { result ≡ pipe_in (members_view members.now.entries) }
{
    let enable_rtx = read_bool(needed(members, "enableRtx")?)?;
    let ip = read_listen_ip(needed(members, "listenIp")?)?;
    Ok(PipeContent { enable_rtx, ip })
}

fn read_direct(members: &Members) -> Result<bool, Code>
    ensures { result ≡ direct_in (members_view members.now.entries) }
{
    read_true(needed(members, "direct")?)
}

#[tactic(auto, unfolding(crate::specs::Contents::connect_in))]
fn read_connect(members: &Members) -> Result<Tuple, Code>
    ensures { result ≡ connect_in (members_view members.now.entries) }
{
    let ip = read_ip(needed(members, "ip")?)?;
    let port = read_port(needed(members, "port")?)?;
    Ok(Tuple { ip, port })
}

#[tactic(auto, unfolding(crate::specs::Contents::produce_in))]
fn read_produce(alloc: Global, members: &Members) -> Result<ProduceContent, ParamFault>
    ensures { Gives result (produce_in (members_view members.now.entries)) }
{
    let media = read_media(needed(members, "kind")?)?;
    let paused = read_bool(needed(members, "paused")?)?;
    let mapping = read_mapping(alloc, needed(members, "rtpMapping")?)?;
    let params = read_params(alloc, needed(members, "rtpParameters")?)?;
    Ok(ProduceContent {
        media,
        paused,
        mapping,
        params,
    })
}

#[tactic(auto, unfolding(crate::specs::Contents::consume_in))]
fn read_consume(alloc: Global, members: &Members) -> Result<ConsumeContent, ParamFault>
    ensures { Gives result (consume_in (members_view members.now.entries)) }
{
    let consumable = read_encodings(alloc, needed(members, "consumableRtpEncodings")?)?;
    let media = read_media(needed(members, "kind")?)?;
    let paused = read_bool(needed(members, "paused")?)?;
    let params = read_params(alloc, needed(members, "rtpParameters")?)?;
    let simple = read_type(needed(members, "type")?)?;
    Ok(ConsumeContent {
        media,
        paused,
        consumable,
        params,
        simple,
    })
}
