//! What is looked up for each packet, by tables.

ghost use Rattle.std.specs.Prelude.{◌≡◌, ℕ};
ghost use Rattle.rtp_extension.specs.Ids.{has_id};
ghost use Rattle.simple_consumer.specs.Sending.{has_payload_type, has_ext};
ghost use Rattle.simple_consumer.specs.Tables.{AreTypesOf};

use rtp_extension::IdSet;
use rtp_params::Params;

/// How many payload types there are: each is a place of a table.
pub(crate) const TYPES: usize = 128;

fn has_payload_type(params: &Params, payload_type: u8) -> bool
    ensures { result ≡ has_payload_type params.now payload_type }
{
    params
        .codecs
        .as_slice()
        .iter()
        .any(|codec| codec.payload_type == Some(payload_type))
}

/// The table of payload types.
pub(crate) fn types_of(params: &Params) -> [bool; TYPES]
    ensures { AreTypesOf params.now result }
{
    let mut types = [false; TYPES];
    for own in 0..TYPES {
        types[own] = has_payload_type(params, own as u8);
    }
    types
}

/// The ids of the header extensions.
pub(crate) fn exts_of(params: &Params) -> IdSet
    ensures { (id : ℕ) → has_id result id ≡ has_ext params.now id }
{
    let mut exts = IdSet::new();
    for ext in params.exts.as_slice() {
        exts.add(ext.id);
    }
    exts
}
