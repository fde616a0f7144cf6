//! The value of a lock, while it is out.
ghost use Rattle.std.specs.Prelude.{◌≡◌};
ghost use Rattle.std.specs.Borrow.{sem, Lends};
ghost use Rattle.turn_lock.specs.contracts.guard.Guard.{the_row};
ghost use Rattle.turn_lock.specs.Guards.{value_in, guarding};

/// The value of a lock, while its pass has its turn. `TurnLock::leave` alone spends it.
pub struct Guard<V> {
    pub(crate) value: V,
}

impl<V> Guard<V> {
    /// The value.
    pub fn get(&self) -> &V
        ensures { result.now ≡ value_in self.now }
    {
        &self.value
    }

    /// The value, to be changed.
    pub fn get_mut(&mut self) -> &mut V
        ensures* writes_back { sem 𝓛 (Lends (the_row V.row) V.row self.entry result guarding) }
        ensures value { result.now ≡ value_in self.old }
    {
        &mut self.value
    }
}
