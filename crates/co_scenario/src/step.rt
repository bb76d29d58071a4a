//! What happens to a node from outside, with its value.

use crate::nmt_command::NmtCommand;
use base::{Octets, Shared};

/// What happens to a node from outside, as the simulation takes it: a value that is set is bytes of its
/// entry's type, no longer text.
#[derive(Debug, Drop)]
pub enum Step {
    /// The application of a node sets an entry of its object dictionary.
    Set {
        /// The number of the node.
        node: u8,
        /// The index of the entry.
        index: u16,
        /// The sub-index of the entry.
        sub: u8,
        /// The value, as it travels: numbers with their lowest byte first. Others may hold it too.
        bytes: Shared<Octets>,
    },
    /// The power of a node is switched.
    Power {
        /// The number of the node.
        node: u8,
        /// On, or off.
        on: bool,
    },
    /// The network management sends a command (CiA 301).
    Nmt {
        /// The number of the node; 0 for all nodes.
        node: u8,
        /// The command.
        command: NmtCommand,
    },
}
