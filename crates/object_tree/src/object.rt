ghost use Rattle.std.specs.Prelude.{◌≡◌};
ghost use Rattle.object_tree.specs.Objects.{marked};

use ms_base::{Id, Kind, Name, Reason, Serial};

/// An object of the tree, open or closed.
#[derive(Debug, Drop)]
pub struct Object {
    /// Its number in the tree.
    pub serial: Serial,
    pub name: Name,
    /// Its id in its worker.
    pub id: Id,
    pub kind: Kind,
    /// The object that it stands on; a Worker stands on none.
    pub parent: Option<Serial>,
    /// The Worker that it lives in; a Worker's is its own.
    pub worker: Serial,
    /// The Producer that a Consumer consumes.
    pub producer: Option<Serial>,
    /// Why it closed, once it is closed.
    pub closed: Option<Reason>,
    pub paused: bool,
    /// The Producer of a Consumer is paused.
    pub producer_paused: bool,
    /// A Worker's process has said that it is running.
    pub running: bool,
    /// The far end of a pipe transport; the other of a Consumer and a Producer that a pipe links.
    pub far: Option<Serial>,
}

/// A change of one field of an object.
#[derive(Clone, Copy, Debug, PartialEq, Eq)]
pub enum Mark {
    /// The process of a Worker has said that it is running.
    Running,
    Paused(bool),
    ProducerPaused(bool),
    Far(Serial),
}

impl Object {
    /// Changes the one field that a mark names.
    pub(crate) fn set(&mut self, mark: Mark)
        ensures { self.new ≡ marked mark self.old }
    {
        match mark {
            Mark::Running => self.running = true,
            Mark::Paused(paused) => self.paused = paused,
            Mark::ProducerPaused(paused) => self.producer_paused = paused,
            Mark::Far(far) => self.far = Some(far),
        }
    }
}
