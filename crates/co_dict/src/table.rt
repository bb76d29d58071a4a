//! Entries by place.

ghost use Rattle.std.specs.Prelude.{◌≡◌, ◌↔◌, IsTrue, OnOk, OnErr, option_copied};
ghost use Rattle.std.specs.FinMap as map;
ghost use Rattle.co_dict.specs.Places.{place_cmp};
ghost use Rattle.co_dict.specs.Tables.{IsNextIndexIn};

use crate::comparing::same_descriptions;
use crate::entry::Entry;
use std::alloc::{AllocError, Global};
use std::collections::BTreeMap;
use std::marker::Model;

/// The entries at places, each place by index and sub.
#[derive(Drop)]
pub(crate) struct Table {
    tree: BTreeMap<(u16, u8), Entry>,
}

impl Model for Table {
    ghost use Rattle.std.specs.Coded.{coded_ℕ, coded×};
    ghost use Rattle.std.specs.FinMap as map;
    ghost use Rattle.co_dict.specs.contracts.entry.Entry as described;
    ghost use Rattle.co_dict.specs.Places.{place_cmp};
    ghost use Rattle.co_dict.specs.Tables.{Described};

    ghost Value = { Described };

    ghost coded = { map.code (coded× coded_ℕ coded_ℕ) described.the_row.coded };

    ghost view = { λ table. map.from_entries table.tree.entries };
}

impl Table {
    /// No entries. Takes no memory.
    pub(crate) fn new(alloc: Global) -> Table
        ensures { result ≡ map.empty }
    {
        Table {
            tree: BTreeMap::new(alloc),
        }
    }

    /// Sets the entry at a place, and at that one alone.
    pub(crate) fn insert(&mut self, place: (u16, u8), entry: Entry) -> Result<(), AllocError>
        ensures ok { OnOk result (self.new ≡ map.insert self.old place entry) }
        ensures err { OnErr result (self.new ≡ self.old) }
    {
        self.tree.insert(place, entry)?;
        Ok(())
    }

    /// The number of entries.
    pub(crate) fn len(&self) -> usize
        ensures { result ≡ map.len self.now }
    {
        self.tree.len()
    }

    /// The entry at a place, if there is one.
    pub(crate) fn get(&self, place: (u16, u8)) -> Option<&Entry>
        ensures { option_copied result ≡ map.get self.now place }
    {
        self.tree.get(&place)
    }

    /// The least index from a number on that some entry has.
    pub(crate) fn next_index(&self, from: u16) -> Option<u16>
        ensures { IsNextIndexIn self.now from result }
    {
        let (place, _) = self.tree.range((from, 0)..).next()?;
        Some(place.0)
    }

    /// Whether the other table has the same entries.
    pub(crate) fn same(&self, other: &Table) -> bool
        ensures { IsTrue result ↔ (self.now ≡ other.now) }
    {
        same_descriptions(&self.tree, &other.tree)
    }
}

impl Clone for Table {
    ghost is_clone = { λ a b. b ≡ a };

    fn clone(&self) -> Result<Table, AllocError> {
        Ok(Table {
            tree: self.tree.clone()?,
        })
    }
}
