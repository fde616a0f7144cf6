//! What is changed in one Router.

ghost use Rattle.std.specs.Prelude.{◌≡◌, map, OnOk, OnErr, IfOk};
ghost use Rattle.worker_calls.specs.Plans.{changed_router};
ghost use Rattle.rtp_params.specs.Table.{sent_exts};
ghost use Rattle.worker_router.specs.Calls.{with_producer, new_source, with_producer_paused, with_consumer_paused};
ghost use Rattle.worker_calls.specs.Requests.{with_new_consumer};

use crate::change::{NewConsumer, NewProducer, RouterChange};
use ms_base::{Id, NoMemory};
use rtp_params::{Encoding, table_exts};
use std::alloc::Global;
use worker_requests::{ConsumerIds, ProducerIds};
use worker_router::WorkerRouter;

/// Changes a Router. What was tested before leaves memory alone as a reason against it.
pub(crate) fn change_router(
    alloc: Global,
    router: &mut WorkerRouter,
    change: RouterChange,
) -> Result<(), NoMemory>
    ensures ok { OnOk result (router.new ≡ changed_router change router.old) }
    ensures err { OnErr result (router.new ≡ router.old) }
{
    match change {
        RouterChange::AddTransport(id, transport) => router
            .add_transport(id, transport)
            .map_err(|_why| NoMemory),
        RouterChange::Connect(id, to) => router.connect(id, to).map_err(|_why| NoMemory),
        RouterChange::AddProducer(ids, producer) => add_producer(alloc, router, ids, producer),
        RouterChange::AddConsumer(ids, consumer) => add_consumer(alloc, router, ids, consumer),
        RouterChange::RemoveTransport(id) => {
            router.remove_transport(id);
            Ok(())
        }
        RouterChange::RemoveProducer(id) => {
            router.remove_producer(id);
            Ok(())
        }
        RouterChange::RemoveConsumer(id) => router.close_consumer(id).map_err(|_why| NoMemory),
        RouterChange::PauseProducer(id, paused) => pause_producer(router, id, paused),
        RouterChange::PauseConsumer(id, paused) => {
            pause_consumer(router, id, paused);
            Ok(())
        }
    }
}

fn add_producer(
    alloc: Global,
    router: &mut WorkerRouter,
    ids: ProducerIds,
    producer: NewProducer,
) -> Result<(), NoMemory>
    ensures ok { OnOk result (router.new ≡ with_producer router.old (new_source ids.transport ids.producer producer.params producer.mapping (sent_exts producer.media) producer.paused)) }
    ensures err { OnErr result (router.new ≡ router.old) }
{
    let content = &producer.content;
    let exts = table_exts(alloc, content.media)?;
    router
        .add_producer(
            ids.transport,
            ids.producer,
            &content.params,
            &content.mapping,
            exts.as_slice(),
            content.paused,
        )
        .map_err(|_why| NoMemory)
}

fn add_consumer(
    alloc: Global,
    router: &mut WorkerRouter,
    ids: ConsumerIds,
    consumer: NewConsumer,
) -> Result<(), NoMemory>
    ensures ok { OnOk result (router.new ≡ with_new_consumer ids consumer router.old) }
    ensures err { OnErr result (router.new ≡ router.old) }
{
    let content = &consumer.content;
    let mapped = ssrcs_of(alloc, content.consumable.as_slice())?;
    let added = router.add_consumer(
        ids.transport,
        ids.consumer,
        ids.producer,
        &content.params,
        mapped.as_slice(),
        !content.simple,
        content.paused,
    );
    match added {
        Ok(_producer_paused) => Ok(()),
        Err(_) => Err(NoMemory),
    }
}

// The own SSRCs of encodings.
fn ssrcs_of(alloc: Global, encodings: &[Encoding]) -> Result<Vec<u32>, NoMemory>
    ensures { IfOk result (λ ssrcs. ssrcs.items ≡ map (λ e. e.ssrc) encodings.now) }
{
    let mut ssrcs = Vec::with_capacity(alloc, encodings.len())?;
    for encoding in encodings {
        ssrcs.push(encoding.ssrc)?;
    }
    Ok(ssrcs)
}

fn pause_producer(router: &mut WorkerRouter, id: Id, paused: bool) -> Result<(), NoMemory>
    ensures ok { OnOk result (router.new ≡ with_producer_paused router.old id paused) }
    ensures err { OnErr result (router.new ≡ router.old) }
{
    let told = if paused {
        router.pause_producer(id)
    } else {
        router.resume_producer(id)
    };
    match told {
        Ok(_) => Ok(()),
        Err(_) => Err(NoMemory),
    }
}

fn pause_consumer(router: &mut WorkerRouter, id: Id, paused: bool)
    ensures { router.new ≡ with_consumer_paused router.old id paused }
{
    let _told = if paused {
        router.pause_consumer(id)
    } else {
        router.resume_consumer(id)
    };
}
