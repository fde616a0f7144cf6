ghost use Rattle.std.specs.Prelude.{◌≡◌};

use ms_base::Name;

/// How the names stand, as the host knows it.
pub trait Standing {
    ghost use Rattle.std.specs.Prelude.{ℕ, List, Bool};

    /// Whether what is waited for under a name can't come any more.
    ghost hopeless: { Self → List ℕ → Bool };

    /// Whether what is waited for under a name can't come any more.
    fn is_hopeless(&self, name: &Name) -> bool
        ensures { result ≡ hopeless self.now name.now };
}
