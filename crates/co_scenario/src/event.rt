//! What happens to a node from outside.
ghost use Rattle.std.specs.Prelude.{◌≡◌, ◌↔◌, IsTrue};
ghost use Rattle.co_scenario.specs.Scenario.{node_of};

use crate::nmt_command::NmtCommand;
use base::Octets;
use std::alloc::AllocError;

/// What happens to a node from outside.
#[derive(Debug, Drop)]
pub enum Event {
    /// The application of a node sets an entry of its object dictionary.
    Set {
        /// The number of the node.
        node: u8,
        /// The index of the entry.
        index: u16,
        /// The sub-index of the entry.
        sub: u8,
        /// The text of the value.
        text: Octets,
    },
    /// The power of a node is switched.
    Power {
        /// The number of the node.
        node: u8,
        /// On, or off.
        on: bool,
    },
    /// The network management sends a command (CiA 301).
    Nmt {
        /// The number of the node; 0 for all nodes.
        node: u8,
        /// The command.
        command: NmtCommand,
    },
}

impl Event {
    /// The number of the node that the event is of; none where it is of all nodes.
    pub fn node(&self) -> Option<u8>
        ensures { result ≡ node_of self.now }
    {
        match self {
            Event::Set { node, .. } => Some(*node),
            Event::Power { node, .. } => Some(*node),
            Event::Nmt { node: 0, .. } => None,
            Event::Nmt { node, .. } => Some(*node),
        }
    }

    /// Whether the other does the same to the same node. Takes time by the length of the text, and no
    /// memory.
    pub fn same(&self, other: &Event) -> bool
        ensures { IsTrue result ↔ (self.now ≡ other.now) }
    {
        match (self, other) {
            (
                Event::Set {
                    node,
                    index,
                    sub,
                    text,
                },
                Event::Set {
                    node: n,
                    index: i,
                    sub: s,
                    text: t,
                },
            ) => node == n && index == i && sub == s && text.as_slice() == t.as_slice(),
            (Event::Power { node, on }, Event::Power { node: n, on: o }) => node == n && on == o,
            (
                Event::Nmt { node, command },
                Event::Nmt {
                    node: n,
                    command: c,
                },
            ) => { node == n && command == c }
            _ => false,
        }
    }
}

impl Clone for Event {
    ghost is_clone = { λ a b. b ≡ a };

    fn clone(&self) -> Result<Event, AllocError> {
        match self {
            Event::Set {
                node,
                index,
                sub,
                text,
            } => {
                let text = text.clone()?;
                Ok(Event::Set {
                    node: *node,
                    index: *index,
                    sub: *sub,
                    text,
                })
            }
            Event::Power { node, on } => Ok(Event::Power {
                node: *node,
                on: *on,
            }),
            Event::Nmt { node, command } => Ok(Event::Nmt {
                node: *node,
                command: *command,
            }),
        }
    }
}
