//! An entry of a node.

/// An entry of the device of a node.
#[derive(Clone, Copy, PartialEq, Eq)]
pub struct Place {
    /// The number of the node.
    pub node: u8,
    /// The index of the entry.
    pub index: u16,
    /// The sub-index of the entry.
    pub sub: u8,
}
