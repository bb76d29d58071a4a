//! What the plan says of a message.

use crate::message_fault::MessageFault;
use pdo_choices::{Clean, Listed};

/// What the plan says of a message.
#[derive(Drop)]
pub enum Outcome {
    /// It is clean: it can be sent.
    Planned(Clean),
    /// It has these faults, in the order of their declaration.
    Faulty(Listed<MessageFault>),
}
