//! The nodes that messages name.
ghost use Rattle.std.specs.Prelude.{◌≡◌, ◌==◌, ◌||◌, ℕ, false};
ghost use Rattle.project_messages.specs.Messages.{is_of_messages, is_of_message};
ghost use Rattle.project_plan.specs.Named.{is_flagged};

use project_messages::{Linked, Messages};
use std::marker::Model;

/// A flag for each node, set where messages name it. Contracts see the flags by number.
#[derive(Drop)]
pub struct Named {
    flags: [bool; 256],
}

impl Model for Named {
    ghost use Rattle.std.specs.Prelude.{Bool, List};

    ghost Value = { List Bool };

    ghost view = { λ n. n.flags };
}

impl Named {
    fn none() -> Self
        ensures { (node : ℕ) → is_flagged result node ≡ false }
    {
        Named {
            flags: [false; 256],
        }
    }

    /// Whether a node is named. Takes constant time.
    pub fn contains(&self, node: u8) -> bool
        ensures { result ≡ is_flagged self.now node }
    {
        self.flags[usize::from(node)]
    }

    fn take(&mut self, node: u8)
        ensures { (other : ℕ) → is_flagged self.new other ≡ (is_flagged self.old other || node == other) }
    {
        self.flags[usize::from(node)] = true;
    }

    /// Takes the sender of a message, and the nodes of its sinks.
    fn take_linked(&mut self, linked: &Linked)
        ensures { (node : ℕ) → is_flagged self.new node
            ≡ (is_flagged self.old node || is_of_message node linked.now) }
    {
        self.take(linked.message.node);
        for ((_position, node), _place) in linked.sinks.iter() {
            self.take(*node);
        }
    }

    /// The nodes that messages name: those that send one, or take a part of one. Takes time by the
    /// number of messages and sinks, and no memory.
    pub fn by(messages: &Messages) -> Self
        ensures { (node : ℕ) → is_flagged result node ≡ is_of_messages node messages.now }
    {
        let mut named = Named::none();
        for (_name, linked) in messages.iter() {
            named.take_linked(linked);
        }
        named
    }
}
