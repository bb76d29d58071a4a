//! Values with a number.

ghost use Rattle.std.specs.Prelude.{◌≡◌};

/// A value with a number, by which it is found.
pub trait Numbered {
    ghost use Rattle.std.specs.Prelude.{ℕ};

    /// The number of a value.
    ghost number_of: { Self → ℕ };

    /// Its number.
    fn number(&self) -> u64
        ensures { result ≡ number_of self.now };
}
