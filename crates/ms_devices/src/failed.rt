use thiserror::Error;

/// A call of an outside object has failed. It is answered only where the object's count of faults rose
/// in that call.
#[derive(Clone, Copy, Debug, PartialEq, Eq, Error)]
#[error("a call of an outside object failed")]
pub struct Failed;
