//! What is built from inputs.
ghost use Rattle.std.specs.Prelude.{◌≡◌, ◌↔◌, IfOk, IsTrue};

use std::alloc::{AllocError, Global};

/// Inputs that a value is built from. They define the value: equal inputs make the same one.
pub trait Makes<T> {
    /// The value that these inputs define.
    ghost made: { Self → T };
}

/// Inputs as they are now, where they lie: to be compared with kept ones, copied, and built from.
pub trait Offers<I: Makes<T>, T> {
    /// The inputs of now.
    ghost offered: { Self → I };

    /// Whether the kept inputs are those of now. Takes no memory.
    fn same(&self, kept: &I) -> bool
        ensures { IsTrue result ↔ (kept.now ≡ offered self.now) };

    /// A copy of the inputs of now. Want of memory is the only error.
    fn copy(&self, alloc: Global) -> Result<I, AllocError>
        ensures { IfOk result (λ i. i ≡ offered self.now) };

    /// The value that the inputs of now define. Want of memory is the only error.
    fn make(&self, alloc: Global) -> Result<T, AllocError>
        ensures { IfOk result (λ t. t ≡ I.made (offered self.now)) };
}
