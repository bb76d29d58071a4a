//! What a PDO can carry of an entry.

use co_values::DataType;

/// What a PDO of a direction can carry of an entry.
#[derive(Clone, Copy, Debug, PartialEq, Eq)]
pub struct Mappable {
    /// Whether the entry is there and can be mapped in that direction.
    pub can_map: bool,
    /// Its type; `NotModelled` too where it isn't there.
    pub kind: DataType,
    /// Its bits in a PDO, where it is there and BOOLEAN, an integer or a REAL.
    pub width: Option<u8>,
}
