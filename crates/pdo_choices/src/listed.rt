//! A vector that contracts see as a list.
ghost use Rattle.std.specs.Prelude.{◌≡◌};

use std::marker::Model;

/// A vector that contracts see as a list.
#[derive(Drop)]
pub struct Listed<T> {
    items: Vec<T>,
}

impl<T> Model for Listed<T> {
    ghost use Rattle.std.specs.Prelude.{List};

    ghost Value = { List T };

    ghost view = { λ listed. listed.items.items };
}

impl<T> Listed<T> {
    /// The list of a vector's elements.
    pub fn from_vec(items: Vec<T>) -> Self
        ensures { result ≡ items.items }
    {
        Listed { items }
    }

    /// The elements.
    pub fn as_slice(&self) -> &[T]
        ensures { result.now ≡ self.now }
    {
        &self.items
    }
}
