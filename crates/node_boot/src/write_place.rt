//! The number of a write that there is.

ghost use Rattle.std.specs.Prelude.{◌≡◌, ◌<◌, ◌+◌, ◌↔◌, IsTrue};
ghost use Rattle.image_parts.specs.Images.{greatest_place};

use std::marker::Model;

/// The number of a write of a node, from 0: no write has the greatest number, so there is always a next one.
#[derive(Clone, Copy, Debug)]
pub struct WritePlace {
    number: u32,
}

impl Model for WritePlace {
    ghost use Rattle.std.specs.Prelude.{ℕ, ◌<◌};
    ghost use Rattle.image_parts.specs.Images.{greatest_place};

    ghost Value = { ℕ };

    ghost view = { λ place. place.number };

    ghost invariant = { λ place. place.number < greatest_place };

    ghost inverse = { λ number. record { number = number } };
}

impl WritePlace {
    /// The number of a write, which isn't the greatest.
    pub(crate) fn of(number: u32) -> WritePlace
        requires { number < greatest_place }
        ensures { result ≡ number }
    {
        WritePlace { number }
    }

    /// The next number; no write may have it.
    pub(crate) fn next(&self) -> u32
        ensures { result ≡ self.now + 1 }
    {
        self.number + 1
    }

    /// Whether two numbers are the same.
    pub(crate) fn same(&self, other: &WritePlace) -> bool
        ensures { IsTrue result ↔ (self.now ≡ other.now) }
    {
        self.number == other.number
    }
}
