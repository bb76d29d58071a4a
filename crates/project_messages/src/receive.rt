//! By which RPDO a node takes a message.

/// By which of its RPDOs a node takes a message, and in which time it expects the next frame (CiA 301, PDO
/// communication parameters).
#[derive(Clone, Copy, Debug, PartialEq, Eq)]
pub struct Receive {
    /// The number of the node's RPDO, 1 to 512; 0 for the one that the plan gives.
    pub rpdo: u16,
    /// The event time of the RPDO in milliseconds; 0 for the one that it has.
    pub event: u16,
}
