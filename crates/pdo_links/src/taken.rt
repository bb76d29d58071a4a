//! A message as a node takes it.

use pdo_plan::{Clean, Consumer};

/// A message as a node takes it.
#[derive(Clone, Copy)]
pub(crate) struct Taken<'a> {
    /// The message.
    pub(crate) clean: &'a Clean,
    /// The node with its RPDO.
    pub(crate) consumer: &'a Consumer,
}
