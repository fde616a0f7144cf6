ghost use Rattle.std.specs.Prelude.{◌≡◌};
ghost use Rattle.worker_requests.specs.Refusals.{code_of, error_of};

use ms_base::WorkerError;

/// Why a request is refused. Of several reasons it is the first in this order.
#[derive(Clone, Copy, Debug, PartialEq, Eq)]
pub enum Refusal {
    /// There is no such method.
    Method,
    /// An id that the method needs is absent or can't be read.
    Internal,
    /// An object of one of these ids isn't there.
    Missing,
    /// An object of the kind that is to be made has the id.
    Exists,
    /// The content lacks a member, or has one of another form.
    Data,
    /// The transport learns its other end itself, has one, or needs none.
    State,
    /// Another Producer of the transport has the SSRC of an encoding.
    Ssrc,
    /// No socket could be had, or there are no more numbers for sockets.
    Link,
}

impl Refusal {
    /// The word that stands for it in the reply.
    pub fn code(self) -> &'static str
        ensures { result.now ≡ code_of self }
    {
        match self {
            Refusal::Method => "method",
            Refusal::Internal => "internal",
            Refusal::Missing => "missing",
            Refusal::Exists => "exists",
            Refusal::Data => "data",
            Refusal::State => "state",
            Refusal::Ssrc => "ssrc",
            Refusal::Link => "link",
        }
    }

    /// Whether the request has a wrong form, or can't be carried out now.
    pub fn error(self) -> WorkerError
        ensures { result ≡ error_of self }
    {
        match self {
            Refusal::Method | Refusal::Internal | Refusal::Data => WorkerError::TypeError,
            Refusal::Missing | Refusal::Exists | Refusal::State | Refusal::Ssrc | Refusal::Link =>
                WorkerError::Error,
        }
    }
}
