//! The new ids of elements.

ghost use Rattle.std.specs.Prelude.{◌≡◌, ℕ, ◌<◌, find, ◌==◌, option_map};
ghost use Rattle.std.specs.Option.{option_copied};
ghost use Rattle.rtp_extension.specs.Ids.{new_id};
ghost use Rattle.producer.specs.Ids.{has_uri, table_id, element_id};

use ms_base::Text;
use rtp_extension::IdMap;
use rtp_params::{Ext, Params};

// The first extension of an id.
fn ext_of(exts: &[Ext], id: u8) -> Option<&Ext>
    ensures { option_copied result ≡ find (λ ext. ext.id == id) exts.now }
{
    for ext in exts {
        if ext.id == id {
            return Some(ext);
        }
    }
    None
}

// The first extension of a URI.
fn ext_named<'e>(exts: &'e [Ext], uri: &Text) -> Option<&'e Ext>
    ensures { option_copied result ≡ find (has_uri uri.now) exts.now }
{
    for ext in exts {
        if ext.uri == *uri {
            return Some(ext);
        }
    }
    None
}

// The id that a table has for a URI.
fn table_id(table: &[Ext], uri: &Text) -> Option<u8>
    ensures { result ≡ table_id table.now uri.now }
{
    let ext = ext_named(table, uri)?;
    if ext.id == 0 { None } else { Some(ext.id) }
}

// The new id of an element.
fn element_id(params: &Params, table: &[Ext], id: u8) -> Option<u8>
    ensures { result ≡ element_id params.now table.now id }
{
    let ext = ext_of(params.exts.as_slice(), id)?;
    table_id(table, &ext.uri)
}

/// The table's ids by the parameters' own.
pub(crate) fn ids_of(params: &Params, table: &[Ext]) -> IdMap
    ensures { (id : ℕ) → id < 256 → new_id result id ≡ element_id params.now table.now id }
{
    let mut ids = IdMap::new();
    for id in 0..256usize {
        if let Some(new) = element_id(params, table, id as u8) {
            ids.set(id as u8, new);
        }
    }
    ids
}
