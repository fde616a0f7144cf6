ghost use Rattle.std.specs.Prelude.{◌≡◌, ◌&&◌};
ghost use Rattle.worker_calls.specs.State.{same_place};
ghost use Rattle.worker_calls.specs.Requests.{place};
ghost use Rattle.worker_calls.specs.Plans.{covers};

use ms_base::Id;
use worker_requests::TransportIds;

/// A transport by the ids of its Router and of itself.
#[derive(Clone, Copy, Debug, PartialEq, Eq)]
pub struct Place {
    pub router: Id,
    pub transport: Id,
}

impl Place {
    pub(crate) fn new(ids: TransportIds) -> Place
        ensures { result ≡ place ids }
    {
        Place {
            router: ids.router,
            transport: ids.transport,
        }
    }

    pub(crate) fn is(self, other: Place) -> bool
        ensures { result ≡ same_place self other }
    {
        self.router.0 == other.router.0 && self.transport.0 == other.transport.0
    }
}

/// The transports that a close takes away.
#[derive(Clone, Copy, Debug, PartialEq, Eq)]
pub(crate) enum Span {
    Transport(Place),
    /// All those of a Router.
    Router(Id),
}

impl Span {
    /// Whether the transport at a place is one of them.
    pub(crate) fn covers(self, at: Place) -> bool
        ensures { result ≡ covers self at }
    {
        match self {
            Span::Transport(place) => at.is(place),
            Span::Router(id) => at.router.0 == id.0,
        }
    }
}
