ghost use Rattle.std.specs.Prelude.{◌≡◌, ◌≤◌, length, IfOk};
ghost use Rattle.rtp_params.specs.Readable.{Each};

use crate::{RouterFault, Transport, WorkerRouter};
use inner_transports::{DirectTransport, PipeTransport};
use ms_base::{Id, Kind, Media, NoMemory, Text, Tuple};
use plain_transport::{Accept, PlainTransport};
use rtp_extension::Mapped;
use rtp_packet::Packet;
use rtp_params::{Codec, Encoding, Items, Mapping, Params};
use std::alloc::Global;

const ONE: Tuple = Tuple {
    ip: [127, 0, 0, 1],
    port: 5004,
};

const OTHER: Tuple = Tuple {
    ip: [127, 0, 0, 1],
    port: 5006,
};

fn id(number: u8) -> Id {
    Id([number; 16])
}

fn codec(alloc: Global, media: Media, name: &str, payload_type: u8) -> Result<Codec, NoMemory> {
    Ok(Codec {
        media,
        name: Text::from_str(alloc, name)?,
        payload_type: Some(payload_type),
        clock_rate: 48_000,
        channels: None,
        parameters: Items::from_vec(Vec::new(alloc)),
        feedback: Items::from_vec(Vec::new(alloc)),
    })
}

// Opus and VP8 with these payload types, from one SSRC.
fn params(alloc: Global, audio: u8, video: u8, ssrc: u32) -> Result<Params, NoMemory>
    ensures { IfOk result (λ p. length p.encodings ≡ 1) }
{
    let opus = codec(alloc, Media::Audio, "opus", audio)?;
    let vp8 = codec(alloc, Media::Video, "VP8", video)?;
    let encoding = Encoding { ssrc, rtx: None };
    Ok(Params {
        codecs: Items::from_vec(Vec::from_array(alloc, [opus, vp8])?),
        exts: Items::from_vec(Vec::new(alloc)),
        encodings: Items::from_vec(Vec::from_array(alloc, [encoding])?),
        cname: Text::from_str(alloc, "")?,
        reduced_size: true,
    })
}

// What is mapped to 100 and 101 with the SSRC 100,000,000.
fn mapping(alloc: Global, ssrc: u32) -> Result<Mapping, NoMemory>
    ensures { IfOk result (λ m. Each (λ pair. pair.1 ≤ 127) m.codecs) }
{
    Ok(Mapping {
        codecs: Items::from_vec(Vec::from_array(alloc, [(111, 100), (96, 101)])?),
        encodings: Items::from_vec(Vec::from_array(alloc, [(ssrc, 100_000_000)])?),
    })
}

fn produce(
    router: &mut WorkerRouter,
    alloc: Global,
    transport: u8,
    own: u8,
    ssrc: u32,
) -> Result<(), RouterFault> {
    let params = params(alloc, 111, 96, ssrc)?;
    let mapping = mapping(alloc, ssrc)?;
    router.add_producer(id(transport), id(own), &params, &mapping, &[], false)
}

fn consume(
    router: &mut WorkerRouter,
    alloc: Global,
    transport: u8,
    own: u8,
    producer: u8,
    pipe: bool,
) -> Result<bool, RouterFault> {
    let params = params(alloc, 100, 101, 500)?;
    let mapped = [100_000_000];
    router.add_consumer(
        id(transport),
        id(own),
        id(producer),
        &params,
        &mapped,
        pipe,
        false,
    )
}

// Two plain transports 1 and 2, of which the second learns its tuple, a direct one 3 and one end of a pipe 4.
fn transports(router: &mut WorkerRouter) -> Result<(), RouterFault> {
    router.add_transport(id(1), Transport::Plain(PlainTransport::new(false)))?;
    router.add_transport(id(2), Transport::Plain(PlainTransport::new(true)))?;
    router.add_transport(id(3), Transport::Direct(DirectTransport))?;
    router.add_transport(id(4), Transport::Pipe(PipeTransport::new()))
}

// Producers 11 and 12 over the transports 1 and 3; of the first Consumers 21 to 24 over the transports 1 to 4, of the
// second the Consumer 25 over the transport 3.
fn router(alloc: Global) -> Result<WorkerRouter, RouterFault> {
    let mut router = WorkerRouter::new(alloc);
    transports(&mut router)?;
    produce(&mut router, alloc, 1, 11, 2222)?;
    produce(&mut router, alloc, 3, 12, 3333)?;
    for (own, transport) in [(21, 1), (22, 2), (23, 3), (24, 4)] {
        let _paused = consume(&mut router, alloc, transport, own, 11, own == 24)?;
    }
    let _paused = consume(&mut router, alloc, 3, 25, 12, false)?;
    Ok(router)
}

// A packet of opus with the low byte of its SSRC and this number.
fn packet(number: u8, ssrc: u8) -> [u8; 13] {
    [0x80, 0x6f, 0, number, 0, 0, 0, 0x0a, 0, 0, 0x08, ssrc, 0xaa]
}

// The Producer that receives a packet at a transport.
fn receiver(router: &WorkerRouter, transport: u8, packet: &[u8]) -> Option<Id> {
    match Packet::parse(packet) {
        Ok(view) => router.producer_of(id(transport), &view),
        Err(_) => None,
    }
}

// The Consumer at a place among those of the Producer at the transport 1, and the number that it gives to a packet of
// opus, if it sends it on.
fn passed(router: &mut WorkerRouter, place: usize, number: u8) -> Option<(Id, Option<u8>)> {
    let packet = packet(number, 0xae);
    let Ok(view) = Packet::parse(&packet) else {
        return None;
    };
    let producer = router.producer_of(id(1), &view)?;
    let mapped = router.receive(producer, &view)?;
    let mut into = [0x55; 13];
    let passed = router.pass_to(producer, place, mapped, &view, &packet, &mut into)?;
    match passed.length {
        Some(13) => Some((passed.consumer, Some(into[3]))),
        _ => Some((passed.consumer, None)),
    }
}

// What a Router is asked. Objects are named by the bytes of their ids.
#[derive(Clone, Copy)]
enum Step {
    Has(Kind, u8),
    Direct(u8),
    Produce(u8, u8, u32),
    Consume(u8, u8, u8),
    Connect(u8, Tuple),
    Accept(u8, Tuple),
    Remote(u8),
    Receiver(u8, u8),
    Pass(usize, u8),
    PauseProducer(u8),
    ResumeProducer(u8),
    IsPaused(u8),
    PauseConsumer(u8),
    ResumeConsumer(u8),
    CloseTransport(u8),
    CloseProducer(u8),
    CloseConsumer(u8),
}

// What it answers.
#[derive(Clone, Copy, Debug, PartialEq)]
enum Seen {
    Done,
    Fault(RouterFault),
    Flag(bool),
    Flagged(Option<bool>),
    Accept(Accept),
    Tuple(Option<Tuple>),
    Id(Option<Id>),
    Passed(Option<(Id, Option<u8>)>),
    /// The last bytes of the ids that are told, of which there are at most four.
    Told([u8; 4]),
}

fn done(answer: Result<(), RouterFault>) -> Seen {
    match answer {
        Ok(()) => Seen::Done,
        Err(fault) => Seen::Fault(fault),
    }
}

fn flag(answer: Result<bool, RouterFault>) -> Seen {
    match answer {
        Ok(flag) => Seen::Flag(flag),
        Err(fault) => Seen::Fault(fault),
    }
}

fn accept(answer: Result<Accept, RouterFault>) -> Seen {
    match answer {
        Ok(accept) => Seen::Accept(accept),
        Err(fault) => Seen::Fault(fault),
    }
}

fn told(answer: Result<Vec<Id>, RouterFault>) -> Seen {
    match answer {
        Ok(ids) => Seen::Told([last(&ids, 0), last(&ids, 1), last(&ids, 2), last(&ids, 3)]),
        Err(fault) => Seen::Fault(fault),
    }
}

fn last(ids: &Vec<Id>, place: usize) -> u8 {
    match ids.as_slice().get(place) {
        Some(id) => id.0[15],
        None => 0,
    }
}

fn make(router: &mut WorkerRouter, alloc: Global, step: Step) -> Seen {
    match step {
        Step::Direct(own) => done(router.add_transport(
            id(own),
            Transport::Direct(DirectTransport),
        )),
        Step::Produce(over, own, ssrc) => done(produce(router, alloc, over, own, ssrc)),
        Step::Consume(over, own, of) => flag(consume(router, alloc, over, own, of, false)),
        other => look(router, other),
    }
}

fn look(router: &mut WorkerRouter, step: Step) -> Seen {
    match step {
        Step::Has(kind, own) => Seen::Flag(router.has(kind, id(own))),
        Step::Remote(own) => Seen::Tuple(router.remote(id(own))),
        Step::Receiver(over, ssrc) => Seen::Id(receiver(router, over, &packet(1, ssrc))),
        Step::Pass(place, number) => Seen::Passed(passed(router, place, number)),
        Step::IsPaused(own) => Seen::Flagged(router.is_paused(id(own))),
        other => change(router, other),
    }
}

fn change(router: &mut WorkerRouter, step: Step) -> Seen {
    match step {
        Step::Connect(own, to) => done(router.connect(id(own), to)),
        Step::Accept(own, from) => accept(router.accepts(id(own), from)),
        Step::PauseProducer(own) => flag(router.pause_producer(id(own))),
        Step::ResumeProducer(own) => flag(router.resume_producer(id(own))),
        Step::PauseConsumer(own) => done(router.pause_consumer(id(own))),
        Step::ResumeConsumer(own) => done(router.resume_consumer(id(own))),
        other => close(router, other),
    }
}

fn close(router: &mut WorkerRouter, step: Step) -> Seen {
    match step {
        Step::CloseTransport(own) => told(router.close_transport(id(own))),
        Step::CloseProducer(own) => told(router.close_producer(id(own))),
        Step::CloseConsumer(own) => done(router.close_consumer(id(own))),
        _ => Seen::Done,
    }
}

// Asks one step after the other, and gives the first whose answer is another than this.
fn first_other(alloc: Global, rows: &[(Step, Seen)]) -> Result<Option<usize>, RouterFault> {
    let mut router = router(alloc)?;
    for (place, row) in rows.iter().enumerate() {
        if make(&mut router, alloc, row.0) != row.1 {
            return Ok(Some(place));
        }
    }
    Ok(None)
}

#[test]
fn objects_are_there(rt: HostRuntime) {
    let other = first_other(
        rt.alloc(),
        &[
            (Step::Has(Kind::Plain, 1), Seen::Flag(true)),
            (Step::Has(Kind::Plain, 3), Seen::Flag(false)),
            (Step::Has(Kind::Direct, 3), Seen::Flag(true)),
            (Step::Has(Kind::Pipe, 4), Seen::Flag(true)),
            (Step::Has(Kind::Producer, 21), Seen::Flag(false)),
            (Step::Has(Kind::Consumer, 25), Seen::Flag(true)),
            (Step::Pass(3, 5), Seen::Passed(Some((id(24), None)))),
            (Step::Pass(4, 5), Seen::Passed(None)),
            (Step::Receiver(1, 0xae), Seen::Id(Some(id(11)))),
            (Step::Receiver(2, 0xae), Seen::Id(None)),
        ],
    );
    assert_eq!(rt; other, Ok(None));
}

#[test]
fn objects_are_refused(rt: HostRuntime) {
    let other = first_other(
        rt.alloc(),
        &[
            (Step::Direct(3), Seen::Fault(RouterFault::Exists)),
            (
                Step::Produce(5, 11, 2222),
                Seen::Fault(RouterFault::Missing),
            ),
            (Step::Produce(1, 12, 2222), Seen::Fault(RouterFault::Exists)),
            (Step::Produce(1, 13, 2222), Seen::Fault(RouterFault::Ssrc)),
            (Step::Consume(5, 21, 11), Seen::Fault(RouterFault::Missing)),
            (Step::Consume(1, 21, 13), Seen::Fault(RouterFault::Missing)),
            (Step::Consume(2, 21, 12), Seen::Fault(RouterFault::Exists)),
            (Step::Produce(2, 13, 2222), Seen::Done),
        ],
    );
    assert_eq!(rt; other, Ok(None));
}

#[test]
fn tuples_are_told_and_learnt(rt: HostRuntime) {
    let other = first_other(
        rt.alloc(),
        &[
            (Step::Connect(1, ONE), Seen::Done),
            (Step::Connect(1, ONE), Seen::Fault(RouterFault::State)),
            (Step::Connect(2, ONE), Seen::Fault(RouterFault::State)),
            (Step::Connect(3, ONE), Seen::Fault(RouterFault::State)),
            (Step::Connect(5, ONE), Seen::Fault(RouterFault::Missing)),
            (Step::Accept(1, OTHER), Seen::Accept(Accept::No)),
            (Step::Accept(2, OTHER), Seen::Accept(Accept::Learnt)),
            (Step::Accept(2, ONE), Seen::Accept(Accept::No)),
            (Step::Accept(5, ONE), Seen::Fault(RouterFault::Missing)),
            (Step::Remote(1), Seen::Tuple(Some(ONE))),
            (Step::Remote(3), Seen::Tuple(None)),
        ],
    );
    assert_eq!(rt; other, Ok(None));
}

#[test]
fn packets_are_passed_while_active(rt: HostRuntime) {
    let other = first_other(
        rt.alloc(),
        &[
            (Step::Pass(2, 5), Seen::Passed(Some((id(23), Some(1))))),
            (Step::Pass(3, 5), Seen::Passed(Some((id(24), None)))),
            (Step::Connect(4, ONE), Seen::Done),
            (Step::Pass(3, 6), Seen::Passed(Some((id(24), Some(1))))),
            (Step::Accept(2, OTHER), Seen::Accept(Accept::Learnt)),
            (Step::Pass(1, 7), Seen::Passed(Some((id(22), Some(1))))),
            (Step::PauseConsumer(22), Seen::Done),
            (Step::Pass(1, 8), Seen::Passed(Some((id(22), None)))),
            (Step::ResumeConsumer(22), Seen::Done),
            (Step::Pass(1, 9), Seen::Passed(Some((id(22), Some(2))))),
            (Step::PauseConsumer(26), Seen::Fault(RouterFault::Missing)),
        ],
    );
    assert_eq!(rt; other, Ok(None));
}

// The number that a Consumer gives to a packet of opus, by its id alone.
fn passed_by(router: &mut WorkerRouter, consumer: Id, number: u8) -> Option<u8> {
    let packet = packet(number, 0xae);
    let Ok(view) = Packet::parse(&packet) else {
        return None;
    };
    let producer = router.producer_of(id(1), &view)?;
    let mapped = router.receive(producer, &view)?;
    if !router.has(Kind::Consumer, consumer) {
        return None;
    }
    let mut into = [0x55; 13];
    match router.pass(consumer, mapped, &packet, &mut into) {
        Some(13) => Some(into[3]),
        _ => None,
    }
}

#[test]
fn a_consumer_passes_by_its_id_as_by_its_place(rt: HostRuntime) -> Result<(), RouterFault> {
    let mut router = router(rt.alloc())?;
    let place = router.consumers_of(id(11), 2);
    assert_eq!(rt; place, Some((id(23), id(3))));
    assert_eq!(rt; passed_by(&mut router, id(23), 5), Some(1));
    assert_eq!(rt; passed(&mut router, 2, 6), Some((id(23), Some(2))));
    assert_eq!(rt; passed_by(&mut router, id(23), 7), Some(3));
    assert_eq!(rt; passed_by(&mut router, id(21), 8), None);
    assert_eq!(rt; router.consumers_of(id(11), 4), None);
    Ok(())
}

#[test]
fn a_consumer_is_found_where_it_has_moved(rt: HostRuntime) {
    let other = first_other(
        rt.alloc(),
        &[
            (Step::Pass(2, 5), Seen::Passed(Some((id(23), Some(1))))),
            (Step::CloseConsumer(22), Seen::Done),
            (Step::Pass(1, 6), Seen::Passed(Some((id(23), Some(2))))),
            (Step::CloseTransport(2), Seen::Told([0, 0, 0, 0])),
            (Step::Pass(1, 7), Seen::Passed(Some((id(23), Some(3))))),
            (Step::Pass(1, 8), Seen::Passed(Some((id(23), Some(4))))),
        ],
    );
    assert_eq!(rt; other, Ok(None));
}

#[test]
fn a_paused_producer_feeds_nobody(rt: HostRuntime) {
    let other = first_other(
        rt.alloc(),
        &[
            (Step::PauseProducer(11), Seen::Flag(true)),
            (Step::PauseProducer(11), Seen::Flag(false)),
            (Step::IsPaused(11), Seen::Flagged(Some(true))),
            (Step::Pass(2, 5), Seen::Passed(Some((id(23), None)))),
            (Step::Consume(3, 26, 11), Seen::Flag(true)),
            (Step::ResumeProducer(11), Seen::Flag(true)),
            (Step::Pass(2, 6), Seen::Passed(Some((id(23), Some(1))))),
            (Step::Pass(4, 7), Seen::Passed(Some((id(26), Some(1))))),
            (Step::ResumeProducer(13), Seen::Fault(RouterFault::Missing)),
        ],
    );
    assert_eq!(rt; other, Ok(None));
}

#[test]
fn a_transport_closes_with_what_comes_by_it(rt: HostRuntime) {
    let other = first_other(
        rt.alloc(),
        &[
            (Step::CloseTransport(1), Seen::Told([22, 23, 24, 0])),
            (Step::Has(Kind::Producer, 11), Seen::Flag(false)),
            (Step::Has(Kind::Consumer, 21), Seen::Flag(false)),
            (Step::Has(Kind::Consumer, 25), Seen::Flag(true)),
            (Step::CloseTransport(1), Seen::Fault(RouterFault::Missing)),
            (Step::Direct(1), Seen::Done),
            (Step::Produce(1, 11, 2222), Seen::Done),
            (Step::Pass(0, 5), Seen::Passed(None)),
        ],
    );
    assert_eq!(rt; other, Ok(None));
}

#[test]
fn producers_and_consumers_close(rt: HostRuntime) {
    let other = first_other(
        rt.alloc(),
        &[
            (Step::CloseConsumer(22), Seen::Done),
            (Step::CloseConsumer(22), Seen::Fault(RouterFault::Missing)),
            (Step::Pass(1, 5), Seen::Passed(Some((id(23), Some(1))))),
            (Step::CloseTransport(4), Seen::Told([0, 0, 0, 0])),
            (Step::Pass(2, 6), Seen::Passed(None)),
            (Step::CloseProducer(11), Seen::Told([21, 23, 0, 0])),
            (Step::CloseProducer(11), Seen::Fault(RouterFault::Missing)),
            (Step::Produce(1, 14, 2222), Seen::Done),
        ],
    );
    assert_eq!(rt; other, Ok(None));
}
