//! An entry of a mapping.

/// An entry of a PDO mapping (CiA 301): what is carried, and how many bits of it. The index of a
/// dummy is the code of its data type.
#[derive(Clone, Copy, Debug, PartialEq, Eq)]
pub struct Mapped {
    /// The index of the entry.
    pub index: u16,
    /// The sub-index of the entry.
    pub sub: u8,
    /// Its length in bits.
    pub bits: u8,
}
