ghost use Rattle.std.specs.Prelude.{◌≡◌, ℕ, ◌^◌, ◌≤◌, true, false};
ghost use Rattle.ms_devices.specs.Causes.{Rose};
ghost use Rattle.ms_devices.specs.Memory.{is_to_fail};

use std::marker::Model;

/// The calls of an object in memory: which of them are to fail, and how many there were.
#[derive(Debug, Drop)]
pub struct Calls {
    // The numbers of the calls that are to fail, from 1, in any order.
    fails: Vec<u32>,
    // It stands still at its type's end, beyond every number of the list.
    made: u64,
}

impl Model for Calls {
    ghost use Rattle.ms_devices.specs.Memory.{Calls as CallsMade};

    ghost Value = { CallsMade };

    ghost view = { λ c. record { fails = c.fails.items; made = c.made } };
}

impl Calls {
    ghost use Rattle.ms_devices.specs.Memory.{next_fails, after_call, fault_count};

    /// None was made yet.
    pub fn new(fails: Vec<u32>) -> Calls
        ensures { result ≡ record { fails = fails.items; made = 0 } }
    {
        Calls { fails, made: 0 }
    }

    /// Counts one more call, and says whether it is to fail.
    pub fn next_fails(&mut self) -> bool
        ensures fails { result ≡ next_fails self.old }
        ensures counted { self.new ≡ after_call self.old }
        ensures never_falls { fault_count self.old ≤ fault_count self.new }
        ensures rose { result ≡ true → Rose (fault_count self.old) (fault_count self.new) }
        ensures still { result ≡ false → fault_count self.new ≡ fault_count self.old }
    {
        let made = self.made;
        self.made = made.saturating_add(1);
        has_number(self.fails.as_slice(), self.made)
    }
}

// Whether a number is in the list.
fn has_number(fails: &[u32], number: u64) -> bool
    ensures value { result ≡ is_to_fail fails.now number }
    ensures far { (n : ℕ) → 2 ^ 32 ≤ n → is_to_fail fails.now n ≡ false }
{
    fails.iter().any(|f| u64::from(*f) == number)
}
