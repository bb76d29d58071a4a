//! A node that takes a message.

use crate::listed::Listed;
use pdo_stations::Mapped;

/// A node that takes a message, by one of its RPDOs.
#[derive(Drop)]
pub struct Consumer {
    /// The number of the node.
    pub node: u8,
    /// The number of its RPDO, 1 to 512.
    pub rpdo: u16,
    /// What the RPDO maps.
    pub mapping: Listed<Mapped>,
    /// The event time of the RPDO in milliseconds, within which a frame is expected; 0 for the one that it has.
    pub event: u16,
}
