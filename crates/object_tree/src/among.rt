ghost use Rattle.std.specs.Prelude.{◌≡◌, true};
ghost use Rattle.object_tree.specs.Falls.{is_among};
ghost use Rattle.object_tree.specs.Tables.{AreAscending};

use ms_base::Serial;
use std::marker::Model;

/// A list of serials, to be asked for each of many. It is searched by halves where it is in ascending order, and else from
/// its front.
#[derive(Debug, Drop)]
pub struct Among<'a> {
    serials: &'a [Serial],
    ascending: bool,
}

impl<'a> Model for Among<'a> {
    ghost use Rattle.std.specs.Prelude.{List, ◌≡◌, true};
    ghost use Rattle.ms_base.specs.declared.keys.Serial.{Serial};
    ghost use Rattle.object_tree.specs.Tables.{AreAscending};

    ghost Value = { List Serial };

    ghost view = { λ a. a.serials.now };

    ghost invariant = { λ a. a.ascending ≡ true → AreAscending a.serials.now };
}

impl<'a> Among<'a> {
    /// These serials, in any order.
    pub fn new(serials: &'a [Serial]) -> Among<'a>
        ensures { result ≡ serials.now }
    {
        let ascending = is_ascending(serials);
        Among { serials, ascending }
    }

    /// Whether a serial is one of them.
    pub fn has(&self, serial: Serial) -> bool
        ensures { result ≡ is_among self.now serial }
    {
        if self.ascending {
            has_by_halves(self.serials, serial)
        } else {
            self.serials.iter().any(|s| *s == serial)
        }
    }
}

// Whether no serial is smaller than one before it.
fn is_ascending(serials: &[Serial]) -> bool
    ensures { result ≡ true → AreAscending serials.now }
{
    let mut last = 0;
    for serial in serials {
        if serial.0 < last {
            return false;
        }
        last = serial.0;
    }
    true
}

// Whether a serial is one of a list in ascending order.
fn has_by_halves(serials: &[Serial], serial: Serial) -> bool
    requires { AreAscending serials.now }
    ensures { result ≡ is_among serials.now serial }
{
    let place = serials.partition_point(|s| s.0 < serial.0);
    match serials.get(place) {
        Some(found) => *found == serial,
        None => false,
    }
}
