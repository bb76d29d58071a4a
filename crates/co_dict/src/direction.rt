//! The directions of PDOs.

/// The direction of a PDO, as its device sees it (CiA 301).
#[derive(Clone, Copy, Debug, PartialEq, Eq)]
pub enum Direction {
    /// A TPDO: the device sends it.
    Transmit,
    /// An RPDO: the device takes it.
    Receive,
}
