use ms_base::{CallKey, Event, Name};

/// A lane waits until there are `count` notes of an event for objects of a name.
#[derive(Debug, Drop)]
pub struct Await {
    /// The lane, and the place of the await among its calls.
    pub key: CallKey,
    pub name: Name,
    pub event: Event,
    pub count: u32,
}
