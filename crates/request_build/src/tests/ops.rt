//! Calls by their names and options.

use crate::tests::host::{name, text};
use ms_base::{Bytes, Op};
use std::alloc::Global;
use std::test::Fail;

pub(crate) fn worker(alloc: Global, named: &str) -> Result<Op, Fail> {
    Ok(Op::Worker {
        name: name(alloc, named)?,
        budget: 0,
    })
}

pub(crate) fn router(alloc: Global, named: &str, on: &str, options: &str) -> Result<Op, Fail> {
    Ok(Op::Router {
        name: name(alloc, named)?,
        worker: name(alloc, on)?,
        options: text(alloc, options)?,
    })
}

pub(crate) fn plain(alloc: Global, named: &str, on: &str, options: &str) -> Result<Op, Fail> {
    Ok(Op::Plain {
        name: name(alloc, named)?,
        router: name(alloc, on)?,
        options: text(alloc, options)?,
    })
}

pub(crate) fn pipe(alloc: Global, named: &str, on: &str, options: &str) -> Result<Op, Fail> {
    Ok(Op::Pipe {
        name: name(alloc, named)?,
        router: name(alloc, on)?,
        options: text(alloc, options)?,
    })
}

pub(crate) fn direct(alloc: Global, named: &str, on: &str) -> Result<Op, Fail> {
    Ok(Op::Direct {
        name: name(alloc, named)?,
        router: name(alloc, on)?,
    })
}

pub(crate) fn connect(alloc: Global, transport: &str, options: &str) -> Result<Op, Fail> {
    Ok(Op::Connect {
        transport: name(alloc, transport)?,
        options: text(alloc, options)?,
    })
}

pub(crate) fn produce(alloc: Global, named: &str, on: &str, options: &str) -> Result<Op, Fail> {
    Ok(Op::Produce {
        name: name(alloc, named)?,
        transport: name(alloc, on)?,
        options: text(alloc, options)?,
    })
}

pub(crate) fn consume(
    alloc: Global,
    named: &str,
    on: &str,
    of: &str,
    options: &str,
) -> Result<Op, Fail> {
    Ok(Op::Consume {
        name: name(alloc, named)?,
        transport: name(alloc, on)?,
        producer: name(alloc, of)?,
        options: text(alloc, options)?,
    })
}

pub(crate) fn send(alloc: Global, to: &str, length: usize) -> Result<Op, Fail> {
    Ok(Op::Send {
        producer: name(alloc, to)?,
        packet: Bytes::from_vec(Vec::from_elem(alloc, 0, length)?),
    })
}

pub(crate) fn pipe_router(alloc: Global, named: &str, of: &str, to: &str) -> Result<Op, Fail> {
    Ok(Op::PipeRouter {
        name: name(alloc, named)?,
        producer: name(alloc, of)?,
        router: name(alloc, to)?,
    })
}
