//! A host with two Routers, as a call finds it.

ghost use Rattle.std.specs.Prelude.{◌≡◌, None, true, false, IfOk};
ghost use Rattle.object_tree.specs.Objects.{is_producer, open_with_id};
ghost use Rattle.request_build.specs.Known.{HasFew, IsKept};

use crate::{Draws, Keep, Kept, Offer, what_is_kept_has_few_encodings};
use boxed_value::Boxed;
use ms_base::{Id, Kind, Media, Name, Reason, Serial, Text};
use object_tree::{Object, Tree};
use rtp_params::{Caps, Mapping, Params, read_caps, read_mapping, read_params};
use serde_json::Value;
use std::alloc::Global;
use std::test::Fail;

// A Router of opus and VP8.
const ROUTER: &str =
    r#"{"codecs":[{"channels":2,"clockRate":48000,"mimeType":"audio/opus","preferredPayloadType":100,"rtcpFeedback":[{"parameter":"","type":"transport-cc"}]},{"clockRate":90000,"mimeType":"video/VP8","preferredPayloadType":101,"rtcpFeedback":[{"parameter":"","type":"nack"}]},{"clockRate":90000,"mimeType":"video/rtx","parameters":{"apt":101},"preferredPayloadType":102}],"headerExtensions":[]}"#;

// What a Producer of opus offers.
const OFFER: &str =
    r#"{"codecs":[{"channels":2,"clockRate":48000,"mimeType":"audio/opus","payloadType":100}],"encodings":[{"ssrc":100000000}],"headerExtensions":[],"rtcp":{"cname":"c"}}"#;

// What one of two streams offers.
const TWO: &str =
    r#"{"codecs":[{"clockRate":90000,"mimeType":"video/VP8","payloadType":101}],"encodings":[{"ssrc":100000001},{"ssrc":100000002}],"headerExtensions":[],"rtcp":{"cname":"c"}}"#;

const MAPPING: &str =
    r#"{"codecs":[{"mappedPayloadType":100,"payloadType":111}],"encodings":[{"mappedSsrc":100000000,"ssrc":2222}]}"#;

const SEED: u64 = 7;

pub(crate) const NEXT: Draws = Draws {
    seed: SEED,
    serial: 20,
    ssrc: 100000003,
};

pub(crate) fn name(alloc: Global, text: &str) -> Result<Name, Fail> {
    Ok(Name::read(alloc, text.as_bytes())?)
}

pub(crate) fn text(alloc: Global, text: &str) -> Result<Text, Fail> {
    Ok(Text::from_str(alloc, text)?)
}

fn caps(alloc: Global) -> Result<Caps, Fail> {
    let value = Value::from_str(alloc, ROUTER)?;
    Ok(read_caps(alloc, &value)?)
}

fn params(alloc: Global, text: &str) -> Result<Params, Fail> {
    let value = Value::from_str(alloc, text)?;
    Ok(read_params(alloc, &value)?)
}

fn mapping(alloc: Global) -> Result<Mapping, Fail> {
    let value = Value::from_str(alloc, MAPPING)?;
    Ok(read_mapping(alloc, &value)?)
}

// Serial, name, kind, parent; the worker is the first object.
const OBJECTS: [(u32, &str, Kind, u32); 14] = [
    (1, "w", Kind::Worker, 0),
    (2, "r", Kind::Router, 1),
    (3, "d", Kind::Direct, 2),
    (4, "t", Kind::Plain, 2),
    (5, "e", Kind::Pipe, 2),
    (6, "p", Kind::Producer, 3),
    (7, "q", Kind::Producer, 4),
    (8, "c", Kind::Consumer, 3),
    (9, "s", Kind::Router, 1),
    (10, "f", Kind::Direct, 9),
    (11, "shut", Kind::Router, 1),
    (12, "gone", Kind::Producer, 4),
    (13, "still", Kind::Worker, 0),
    (14, "rtx", Kind::Pipe, 2),
];

// The id of the object of a serial.
pub(crate) fn id_of(serial: u32) -> Id {
    Id::of(SEED, 100 + serial % 50)
}

fn object(alloc: Global, row: (u32, &str, Kind, u32)) -> Result<Object, Fail> {
    let (serial, named, kind, parent) = row;
    let is_shut = serial == 11 || serial == 12;
    let is_consumer = kind == Kind::Consumer;
    Ok(Object {
        serial: Serial(serial),
        name: name(alloc, named)?,
        id: id_of(serial),
        kind,
        parent: if parent == 0 {
            None
        } else {
            Some(Serial(parent))
        },
        worker: Serial(1),
        producer: if is_consumer { Some(Serial(6)) } else { None },
        closed: if is_shut { Some(Reason::Close) } else { None },
        paused: false,
        producer_paused: false,
        running: serial == 1,
        far: None,
    })
}

// Whether no open object of this one's worker and kind has its id, where that tells it apart.
fn is_apart(tree: &Tree, object: &Object) -> bool
    ensures { result ≡ true → is_producer object.now.kind ≡ false → open_with_id tree.now object.now.worker object.now.kind object.now.id ≡ None }
{
    if object.kind == Kind::Producer {
        return true;
    }
    tree.by_id(object.worker, object.kind, object.id).is_none()
}

// Adds an object, if it may be added.
fn add(tree: &mut Tree, object: Object) -> Result<(), Fail> {
    if tree.get(object.serial).is_some() || !is_apart(tree, &object) {
        return Err("the object is there".into());
    }
    tree.add(object)?;
    Ok(())
}

pub(crate) fn tree(alloc: Global) -> Result<Tree, Fail> {
    let mut tree = Tree::new(alloc);
    for row in OBJECTS {
        add(&mut tree, object(alloc, row)?)?;
    }
    Ok(tree)
}

// What a Producer of the first Router offers.
fn offer(alloc: Global, serial: u32, media: Media, text: &str) -> Result<Offer, Fail> {
    Ok(Offer {
        router: Serial(2),
        id: id_of(serial),
        media,
        mapping: mapping(alloc)?,
        params: params(alloc, text)?,
    })
}

fn has_few(keeps: &Keep) -> bool
    ensures { result ≡ true → HasFew keeps.now }
{
    match keeps {
        Keep::Producer(offer) => offer.params.encodings.len() <= 8,
        Keep::Consumer(params) => params.encodings.len() <= 8,
        _ => true,
    }
}

// What is kept with that of one object more.
fn with(mut kept: Kept, serial: u32, keeps: Keep) -> Result<Kept, Fail>
    requires { IsKept kept }
    ensures { IfOk result IsKept }
{
    what_is_kept_has_few_encodings();
    if !has_few(&keeps) {
        return Err("too many encodings".into());
    }
    kept.keep(Serial(serial), keeps)?;
    Ok(kept)
}

fn nothing_kept(alloc: Global, slots: u32, stopped: bool) -> Result<Kept, Fail>
    ensures { IfOk result IsKept }
{
    what_is_kept_has_few_encodings();
    let mut kept = Kept::new(alloc);
    kept.names.add(&name(alloc, "soon")?)?;
    kept.names.add(&name(alloc, "k_c")?)?;
    kept.producer_ids.add(Serial(2), Id::of(SEED, 77))?;
    kept.slots = slots;
    kept.stopped = stopped;
    Ok(kept)
}

pub(crate) fn kept(alloc: Global, slots: u32, stopped: bool) -> Result<Kept, Fail>
    ensures { IfOk result IsKept }
{
    let kept = nothing_kept(alloc, slots, stopped)?;
    let kept = with(kept, 2, Keep::Router(Boxed::new(alloc, caps(alloc)?)?))?;
    let kept = with(kept, 9, Keep::Router(Boxed::new(alloc, caps(alloc)?)?))?;
    let opus = offer(alloc, 6, Media::Audio, OFFER)?;
    let kept = with(kept, 6, Keep::Producer(Boxed::new(alloc, opus)?))?;
    let video = offer(alloc, 7, Media::Video, TWO)?;
    let kept = with(kept, 7, Keep::Producer(Boxed::new(alloc, video)?))?;
    let received = params(alloc, OFFER)?;
    let kept = with(kept, 8, Keep::Consumer(Boxed::new(alloc, received)?))?;
    let kept = with(kept, 5, Keep::Pipe(false))?;
    with(kept, 14, Keep::Pipe(true))
}
