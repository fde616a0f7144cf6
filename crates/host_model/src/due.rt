use object_tree::Object;
use request_build::Keep;

/// What the acceptance of a request does.
#[derive(Drop)]
pub enum Due {
    /// An object is added, and so much is kept of it while it is open.
    Opens { object: Object, keeps: Keep },
    /// The object that it was issued under is paused, or resumed.
    Turns { paused: bool },
    /// It changes nothing that the host knows.
    Nothing,
}
