//! The sources of a message.
ghost use Rattle.std.specs.Prelude.{◌≡◌, ◌↔◌, [], IsTrue, OnOk, OnErr, None};
ghost use Rattle.std.specs.Map.{remove_entry};
ghost use Rattle.std.specs.BTreeMap.{insert_entry, is_at};
ghost use Rattle.std.specs.Option.{option_copied};
ghost use Rattle.std.specs.Ordering.{nat_cmp};
ghost use Rattle.project_messages.specs.Messages.{source_at};

use std::alloc::{AllocError, Global};
use std::collections::BTreeMap;
use std::collections::btree_map::Iter;
use std::marker::Model;

/// The sources of a message: the entries of its sender that it carries, seen as a list by position.
#[derive(Drop)]
pub struct Sources {
    entries: BTreeMap<u8, (u16, u8)>,
}

impl Model for Sources {
    ghost use Rattle.std.specs.Prelude.{ℕ, List};

    ghost Value = { List (ℕ × (ℕ × ℕ)) };

    ghost view = { λ sources. sources.entries.entries };
}

impl Sources {
    /// No sources.
    pub fn new(alloc: Global) -> Self
        ensures { result ≡ [] }
    {
        Sources {
            entries: BTreeMap::new(alloc),
        }
    }

    /// The index and sub-index of the entry that stands at a position.
    pub fn get(&self, position: u8) -> Option<&(u16, u8)>
        ensures { option_copied result ≡ source_at self.now position }
    {
        self.entries.get(&position)
    }

    /// The entries by position.
    pub fn iter(&self) -> Iter<'_, u8, (u16, u8)>
        ensures { result ≡ self.now }
    {
        self.entries.iter()
    }

    /// Whether the others have the same entries at the same positions. Takes time by their number, and
    /// no memory.
    pub fn same(&self, other: &Sources) -> bool
        ensures { IsTrue result ↔ (self.now ≡ other.now) }
    {
        let mut others = other.iter();
        for (position, place) in self.iter() {
            let Some((other_position, other_place)) = others.next() else {
                return false;
            };
            if *position != *other_position || *place != *other_place {
                return false;
            }
        }
        others.next().is_none()
    }

    /// Gives a position an entry, in place of the one that stands there. Want of memory changes
    /// nothing, and can come only where none stands.
    pub fn put(&mut self, position: u8, index: u16, sub: u8) -> Result<(), AllocError>
        ensures ok { OnOk result (self.new ≡ insert_entry nat_cmp self.old position (index, sub)) }
        ensures err { OnErr result (self.new ≡ self.old) }
        ensures absent { OnErr result (source_at self.old position ≡ None) }
    {
        self.entries.insert(position, (index, sub))?;
        Ok(())
    }

    /// Takes the entry at a position away, if there is one.
    pub fn remove(&mut self, position: u8)
        ensures { self.new ≡ remove_entry (is_at (nat_cmp position)) self.old }
    {
        self.entries.remove(&position);
    }
}

impl Clone for Sources {
    ghost is_clone = { λ a b. b ≡ a };

    fn clone(&self) -> Result<Sources, AllocError> {
        Ok(Sources {
            entries: self.entries.clone()?,
        })
    }
}
