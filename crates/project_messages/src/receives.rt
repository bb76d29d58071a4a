//! The receives of a message.
ghost use Rattle.std.specs.Prelude.{◌≡◌, ◌↔◌, [], IsTrue, OnOk, OnErr, None, ◌==◌, length};
ghost use Rattle.std.specs.List.{list_any};
ghost use Rattle.std.specs.Map.{remove_entry};
ghost use Rattle.std.specs.BTreeMap.{insert_entry, is_at};
ghost use Rattle.std.specs.Option.{option_copied};
ghost use Rattle.std.specs.Ordering.{nat_cmp};
ghost use Rattle.project_messages.specs.Messages.{receive_at};

use crate::receive::Receive;
use std::alloc::{AllocError, Global};
use std::collections::BTreeMap;
use std::collections::btree_map::Iter;
use std::marker::Model;

/// The receives of a message: of nodes, by which RPDO they take it, seen as a list by the number of the node.
#[derive(Drop)]
pub struct Receives {
    entries: BTreeMap<u8, Receive>,
}

impl Model for Receives {
    ghost use Rattle.std.specs.Prelude.{ℕ, List};
    ghost use Rattle.project_messages.specs.declared.receive.Receive.{Receive};

    ghost Value = { List (ℕ × Receive) };

    ghost view = { λ receives. receives.entries.entries };
}

impl Receives {
    /// No receives.
    pub fn new(alloc: Global) -> Self
        ensures { result ≡ [] }
    {
        Receives {
            entries: BTreeMap::new(alloc),
        }
    }

    /// Whether there are none.
    pub fn is_empty(&self) -> bool
        ensures { result ≡ (length self.now == 0) }
    {
        self.entries.len() == 0
    }

    /// By which RPDO a node takes the message, if that is said.
    pub fn get(&self, node: u8) -> Option<&Receive>
        ensures { option_copied result ≡ receive_at self.now node }
    {
        self.entries.get(&node)
    }

    /// The receives by the number of the node.
    pub fn iter(&self) -> Iter<'_, u8, Receive>
        ensures { result ≡ self.now }
    {
        self.entries.iter()
    }

    /// Whether one of a node is among them.
    pub fn has_node(&self, node: u8) -> bool
        ensures { result ≡ list_any (λ r. r.0 == node) self.now }
    {
        self.iter().any(|(receiver, _)| *receiver == node)
    }

    /// Whether the others are the same of the same nodes. Takes time by their number, and no memory.
    pub fn same(&self, other: &Receives) -> bool
        ensures { IsTrue result ↔ (self.now ≡ other.now) }
    {
        let mut others = other.iter();
        for (node, receive) in self.iter() {
            let Some((other_node, other_receive)) = others.next() else {
                return false;
            };
            if *node != *other_node || *receive != *other_receive {
                return false;
            }
        }
        others.next().is_none()
    }

    /// Gives a node a receive, in place of the one that it has. Want of memory changes nothing, and can come
    /// only where it has none.
    pub fn put(&mut self, node: u8, receive: Receive) -> Result<(), AllocError>
        ensures ok { OnOk result (self.new ≡ insert_entry nat_cmp self.old node receive) }
        ensures err { OnErr result (self.new ≡ self.old) }
        ensures absent { OnErr result (receive_at self.old node ≡ None) }
    {
        self.entries.insert(node, receive)?;
        Ok(())
    }

    /// Takes the receive of a node away, if there is one.
    pub fn remove(&mut self, node: u8)
        ensures { self.new ≡ remove_entry (is_at (nat_cmp node)) self.old }
    {
        self.entries.remove(&node);
    }
}

impl Clone for Receives {
    ghost is_clone = { λ a b. b ≡ a };

    fn clone(&self) -> Result<Receives, AllocError> {
        Ok(Receives {
            entries: self.entries.clone()?,
        })
    }
}
