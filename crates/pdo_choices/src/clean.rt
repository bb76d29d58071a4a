//! A message that can be sent.

use crate::consumer::Consumer;
use crate::listed::Listed;
use pdo_stations::Mapped;
use project_messages::Message;

/// A message that can be sent: its identifier, what its PDO maps, and who takes it.
#[derive(Drop)]
pub struct Clean {
    /// How it is sent.
    pub message: Message,
    /// The SYNC start value of its sender's TPDO (CiA 301), 0 to 240.
    pub start: u8,
    /// The identifier of its frames (COB-ID).
    pub identifier: u16,
    /// What the sender's TPDO maps.
    pub mapping: Listed<Mapped>,
    /// The nodes that take it, by number.
    pub consumers: Listed<Consumer>,
}
