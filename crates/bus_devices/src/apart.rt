//! What tells two apart.

/// What tells two lists of devices, or two buses, apart.
#[derive(Clone, Copy, Debug)]
pub enum Apart {
    /// Nothing: they are the same.
    No,
    /// A quick look at the devices of this place.
    At(usize),
    /// Something else.
    Elsewhere,
}
