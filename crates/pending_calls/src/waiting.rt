use ms_base::{CallKey, Serial};

/// What a request was issued for.
#[derive(Clone, Copy, Debug, PartialEq, Eq)]
pub enum Owner {
    /// A call of a lane, which settles with it.
    Call(CallKey),
    /// A part, from 0, of the job that a call has begun.
    Job { call: CallKey, part: u8 },
    /// The close of an object in the worker. Nobody waits for it.
    Close,
    /// A pause or resume that follows another object's. Nobody waits for it.
    Follow,
}

/// A request that was issued and has no settlement yet.
#[derive(Clone, Copy, Debug, PartialEq, Eq)]
pub struct Waiting {
    /// Its id on its channel, from 1.
    pub id: u32,
    pub owner: Owner,
    /// The object that it was issued under.
    pub under: Serial,
}
