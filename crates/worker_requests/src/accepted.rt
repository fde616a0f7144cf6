ghost use Rattle.std.specs.Prelude.{◌≡◌};
ghost use Rattle.worker_requests.specs.Said.{produced};

use ms_base::Tuple;
use rtp_params::Params;

/// What the reply to an accepted request tells.
#[derive(Clone, Copy, Debug, PartialEq, Eq)]
pub enum Accepted {
    /// That it is done, and nothing more.
    Done,
    /// Where a new transport listens.
    Local(Tuple),
    /// The other end that a transport was given.
    Remote(Tuple),
    /// The type of a new Producer.
    Produced { simulcast: bool },
    /// How a new Consumer stands.
    Consumed { paused: bool, producer_paused: bool },
}

/// What the reply tells of a new Producer: with several encodings it is one of simulcast.
pub fn produced(params: &Params) -> Accepted
    ensures { result ≡ produced params.now }
{
    Accepted::Produced {
        simulcast: params.encodings.len() > 1,
    }
}
