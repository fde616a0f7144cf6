ghost use Rattle.std.specs.Prelude.{◌≡◌};

use boxed_value::Boxed;
use call_options::OptionFault;
use channel_msgs::Ids;
use ms_base::{Id, Media, NoMemory, Outcome, Serial, Text};
use object_tree::Object;
use ortc_map::MapFault;
use rtp_params::{Caps, Mapping, Params};
use serde_json::Value;
use std::alloc::AllocError;
use thiserror::Error;

/// What the next calls draw from.
#[derive(Clone, Copy, Debug, PartialEq, Eq)]
pub struct Draws {
    /// The host's seed, which ids are made of.
    pub seed: u64,
    /// The next serial.
    pub serial: u32,
    /// The next SSRC.
    pub ssrc: u32,
}

/// What a Producer offers to Consumers.
#[derive(Debug, Drop)]
pub struct Offer {
    /// Its Router.
    pub router: Serial,
    /// Its id, of which its Router has no other open Producer.
    pub id: Id,
    pub media: Media,
    /// How its payload types and SSRCs are mapped to those of its Router.
    pub mapping: Mapping,
    /// What can be consumed of it, in the Router's payload types.
    pub params: Params,
}

/// What is kept of an object once it is open, in a place of its own where it is large: a request that waits holds it too.
#[derive(Debug, Drop)]
pub enum Keep {
    /// The codecs that a Router can receive and send. Its header extensions, which are those of every Router, aren't kept.
    Router(Boxed<Caps>),
    Producer(Boxed<Offer>),
    /// What a Consumer receives.
    Consumer(Boxed<Params>),
    /// Whether an end of a pipe retransmits.
    Pipe(bool),
    Nothing,
}

/// What a call comes to.
#[derive(Drop)]
pub enum Built {
    /// A request to a worker, without its id.
    Ask {
        method: Text,
        ids: Ids,
        /// The member `data`, if it has one.
        content: Option<Value>,
        /// The object that it is issued under.
        under: Serial,
        /// The object that it is to make.
        makes: Option<Object>,
        /// What is kept of that object once it is open.
        keeps: Keep,
        /// What is drawn from behind it.
        next: Draws,
    },
    /// No request, perhaps an answer at once.
    Own {
        answer: Option<bool>,
    },
}

/// Why nothing was built.
#[derive(Debug, Drop, Error)]
pub enum BuildFault {
    /// The call is refused, with this outcome.
    #[error("the call is refused: {0:?}")]
    Refused(Outcome),
    #[error("out of memory")]
    NoMemory,
}

impl From<NoMemory> for BuildFault {
    ghost use Rattle.request_build.specs.declared.built.BuildFault.TheVariants as fault;

    ghost from_gives = { λ _ wrong. wrong ≡ fault.NoMemory };

    fn from(_refused: NoMemory) -> BuildFault {
        BuildFault::NoMemory
    }
}

impl From<AllocError> for BuildFault {
    ghost use Rattle.request_build.specs.declared.built.BuildFault.TheVariants as fault;

    ghost from_gives = { λ _ wrong. wrong ≡ fault.NoMemory };

    fn from(_refused: AllocError) -> BuildFault {
        BuildFault::NoMemory
    }
}

impl From<OptionFault> for BuildFault {
    ghost use Rattle.request_build.specs.Rules.{option_fault};

    ghost from_gives = { λ fault wrong. wrong ≡ option_fault fault };

    fn from(fault: OptionFault) -> BuildFault {
        match fault {
            OptionFault::TypeError { code } => BuildFault::Refused(Outcome::TypeError { code }),
            OptionFault::Unsupported { code } => BuildFault::Refused(Outcome::Unsupported { code }),
            OptionFault::NoMemory => BuildFault::NoMemory,
        }
    }
}

impl From<MapFault> for BuildFault {
    ghost use Rattle.request_build.specs.Rules.{map_fault};

    ghost from_gives = { λ fault wrong. wrong ≡ map_fault fault };

    fn from(fault: MapFault) -> BuildFault {
        match fault {
            MapFault::TypeError { code } => BuildFault::Refused(Outcome::TypeError { code }),
            MapFault::Unsupported { code } => BuildFault::Refused(Outcome::Unsupported { code }),
            MapFault::NoMemory => BuildFault::NoMemory,
        }
    }
}
