//! A value with the inputs that it was built from.
ghost use Rattle.std.specs.Prelude.{◌≡◌, IfOk};

use crate::makes::{Makes, Offers};
use std::alloc::{AllocError, Global};
use std::marker::Model;

/// A value with the inputs that it was built from. Contracts see the inputs, which define the value.
#[derive(Drop)]
pub struct Kept<I: Makes<T>, T> {
    inputs: I,
    value: T,
}

impl<I: Makes<T>, T> Model for Kept<I, T> {
    ghost use Rattle.std.specs.Prelude.{◌≡◌};

    ghost Value = { I };

    ghost view = { λ k. k.inputs };

    ghost invariant = { λ k. k.value ≡ I.made k.inputs };
}

impl<I: Makes<T>, T> Kept<I, T> {
    /// A value that was built, with its inputs. Takes constant time.
    pub fn new(inputs: I, value: T) -> Kept<I, T>
        requires { value ≡ I.made inputs }
        ensures { result ≡ inputs }
    {
        Kept { inputs, value }
    }

    /// The inputs that the value was built from. Takes constant time.
    pub fn inputs(&self) -> &I
        ensures { result.now ≡ self.now }
    {
        &self.inputs
    }

    /// The value. Takes constant time.
    pub fn value(&self) -> &T
        ensures { result.now ≡ I.made self.now }
    {
        &self.value
    }
}

impl<I: Makes<T> + Drop, T: Drop> Kept<I, T> {
    /// Builds a value from the inputs of now, and keeps a copy of them with it. Takes the time and the
    /// memory of one copy and of one building; want of memory is the only error.
    pub fn build<O: Offers<I, T>>(alloc: Global, now: &O) -> Result<Kept<I, T>, AllocError>
        ensures { IfOk result (λ k. k ≡ O.offered now.now) }
    {
        let inputs = now.copy(alloc)?;
        let value = now.make(alloc)?;
        Ok(Kept { inputs, value })
    }
}
