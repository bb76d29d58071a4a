//! Private numbers.

/// How many private numbers were given: to buses, and to the contents of parts.
#[derive(Drop)]
pub(crate) struct NumbersGiven {
    /// Those of buses.
    pub buses: u64,
    /// Those of contents.
    pub contents: u64,
}
