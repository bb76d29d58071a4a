//! The sinks of a message.
ghost use Rattle.std.specs.Prelude.{◌≡◌, ◌↔◌, [], IsTrue, OnOk, OnErr, None, ◌==◌};
ghost use Rattle.std.specs.List.{list_any};
ghost use Rattle.std.specs.Map.{remove_entry};
ghost use Rattle.std.specs.BTreeMap.{insert_entry, is_at};
ghost use Rattle.std.specs.Option.{option_copied};
ghost use Rattle.project_messages.specs.Messages.{seat_cmp, sink_at};

use std::alloc::{AllocError, Global};
use std::collections::BTreeMap;
use std::collections::btree_map::Iter;
use std::marker::Model;

/// The sinks of a message: the entries of other nodes that take what stands at a position, seen as a
/// list by position and then by node.
#[derive(Drop)]
pub struct Sinks {
    entries: BTreeMap<(u8, u8), (u16, u8)>,
}

impl Model for Sinks {
    ghost use Rattle.std.specs.Prelude.{ℕ, List};

    ghost Value = { List ((ℕ × ℕ) × (ℕ × ℕ)) };

    ghost view = { λ sinks. sinks.entries.entries };
}

impl Sinks {
    /// No sinks.
    pub fn new(alloc: Global) -> Self
        ensures { result ≡ [] }
    {
        Sinks {
            entries: BTreeMap::new(alloc),
        }
    }

    /// The index and sub-index of the entry of a node that takes what stands at a position.
    pub fn get(&self, position: u8, node: u8) -> Option<&(u16, u8)>
        ensures { option_copied result ≡ sink_at self.now position node }
    {
        self.entries.get(&(position, node))
    }

    /// The entries by position and then by node.
    pub fn iter(&self) -> Iter<'_, (u8, u8), (u16, u8)>
        ensures { result ≡ self.now }
    {
        self.entries.iter()
    }

    /// Whether an entry of a node is among them.
    pub fn has_node(&self, node: u8) -> bool
        ensures { result ≡ list_any (λ s. s.0.1 == node) self.now }
    {
        self.iter().any(|((_, taker), _)| *taker == node)
    }

    /// Whether the others have the same entries at the same positions and nodes. Takes time by their
    /// number, and no memory.
    pub fn same(&self, other: &Sinks) -> bool
        ensures { IsTrue result ↔ (self.now ≡ other.now) }
    {
        let mut others = other.iter();
        for (seat, place) in self.iter() {
            let Some((other_seat, other_place)) = others.next() else {
                return false;
            };
            if *seat != *other_seat || *place != *other_place {
                return false;
            }
        }
        others.next().is_none()
    }

    /// Gives a position an entry of a node, in place of the one that it has there. Want of memory
    /// changes nothing, and can come only where it has none.
    pub fn put(&mut self, position: u8, node: u8, index: u16, sub: u8) -> Result<(), AllocError>
        ensures ok { OnOk result (self.new ≡ insert_entry seat_cmp self.old (position, node) (index, sub)) }
        ensures err { OnErr result (self.new ≡ self.old) }
        ensures absent { OnErr result (sink_at self.old position node ≡ None) }
    {
        self.entries.insert((position, node), (index, sub))?;
        Ok(())
    }

    /// Takes the entry of a node at a position away, if there is one.
    pub fn remove(&mut self, position: u8, node: u8)
        ensures { self.new ≡ remove_entry (is_at (seat_cmp (position, node))) self.old }
    {
        self.entries.remove(&(position, node));
    }
}

impl Clone for Sinks {
    ghost is_clone = { λ a b. b ≡ a };

    fn clone(&self) -> Result<Sinks, AllocError> {
        Ok(Sinks {
            entries: self.entries.clone()?,
        })
    }
}
