//! The value stands for what it is in code, too.

ghost use Rattle.std.specs.Prelude.{◌≡◌};
ghost use Rattle.std.specs.Borrow.{Lends, sem};
ghost use Rattle.boxed_value.specs.contracts.Boxed.{the_row};

use crate::Boxed;
use std::ops::{Deref, DerefMut};

impl<T: Drop> Deref for Boxed<T> {
    type Target = T;

    fn deref(&self) -> &T
        ensures { result.now ≡ self.now }
    {
        &self.inner
    }
}

impl<T: Drop> DerefMut for Boxed<T> {
    fn deref_mut(&mut self) -> &mut T
        ensures* lends { sem 𝓛 (Lends (the_row T.row) T.row self.entry result (λ value. value)) }
        ensures shows { result.now ≡ self.old }
    {
        &mut self.inner
    }
}
