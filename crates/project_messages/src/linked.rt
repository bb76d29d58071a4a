//! A message with its sources, its sinks and its receives.

ghost use Rattle.std.specs.Prelude.{◌≡◌, ◌↔◌, IsTrue};
ghost use Rattle.project_messages.specs.Messages.{has_receives, is_of_message, is_received};

use crate::message::Message;
use crate::receives::Receives;
use crate::sinks::Sinks;
use crate::sources::Sources;
use std::alloc::AllocError;

/// A message with the entries that it carries, those that take them, and the RPDOs by which nodes do.
#[derive(Drop)]
pub struct Linked {
    /// How it is sent.
    pub message: Message,
    /// The SYNC start value (CiA 301) of its sender's PDO, 0 to 240: the number that the counter of a SYNC has
    /// from which on SYNC messages are counted; 0 for any SYNC.
    pub start: u8,
    /// The entries of its sender, by position.
    pub sources: Sources,
    /// The entries of other nodes, by position and node.
    pub sinks: Sinks,
    /// By which RPDO a node takes it, by the number of the node.
    pub receives: Receives,
}

impl Linked {
    /// Whether a node sends the message or takes a part of it.
    pub fn concerns(&self, node: u8) -> bool
        ensures { result ≡ is_of_message node self.now }
    {
        self.message.node == node || self.sinks.has_node(node)
    }

    /// Whether a receive of the message is of a node.
    pub fn is_received(&self, node: u8) -> bool
        ensures { result ≡ is_received node self.now }
    {
        self.receives.has_node(node)
    }

    /// Whether the message has a receive.
    pub fn has_receives(&self) -> bool
        ensures { result ≡ has_receives self.now }
    {
        !self.receives.is_empty()
    }

    /// Whether the other message is sent in the same way, with the same sources, sinks and receives. Takes
    /// time by their number, and no memory.
    pub fn same(&self, other: &Linked) -> bool
        ensures { IsTrue result ↔ (self.now ≡ other.now) }
    {
        self.message == other.message
            && self.start == other.start
            && self.sources.same(&other.sources)
            && self.sinks.same(&other.sinks)
            && self.receives.same(&other.receives)
    }
}

impl Clone for Linked {
    ghost is_clone = { λ a b. b ≡ a };

    fn clone(&self) -> Result<Linked, AllocError> {
        let sources = self.sources.clone()?;
        let sinks = self.sinks.clone()?;
        let receives = self.receives.clone()?;
        Ok(Linked {
            message: self.message,
            start: self.start,
            sources,
            sinks,
            receives,
        })
    }
}
