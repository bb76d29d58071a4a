//! How a message is sent.

/// How a message is sent: by which TPDO of which node, and when (CiA 301, PDO communication
/// parameters).
#[derive(Clone, Copy, Debug, PartialEq, Eq)]
pub struct Message {
    /// The number of the node that sends it, 1 to 127.
    pub node: u8,
    /// The number of the node's TPDO, 1 to 512.
    pub tpdo: u16,
    /// The transmission type.
    pub transmission: u8,
    /// The inhibit time in multiples of 100 microseconds.
    pub inhibit: u16,
    /// The event timer in milliseconds.
    pub event: u16,
    /// The identifier of its frames (COB-ID), 0 for one that the plan gives.
    pub cob: u16,
}
