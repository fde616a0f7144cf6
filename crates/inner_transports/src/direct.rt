/// A transport whose packets go over the worker's channel. It has no other end that could be told or learnt: it is always
/// connected.
#[derive(Clone, Copy, Debug, PartialEq, Eq)]
pub struct DirectTransport;
