//! Values by place.

ghost use Rattle.std.specs.Prelude.{◌≡◌, ◌≤◌, ◌↔◌, IsTrue, length, IfOk, IfSome, OnOk, OnErr};
ghost use Rattle.std.specs.Prelude.{option_copied};
ghost use Rattle.std.specs.FinMap as map;
ghost use Rattle.dict_values.specs.Places.{place_cmp};
ghost use Rattle.co_values.specs.Values.{longest_value};

use crate::entries::same_entries;
use crate::held::Held;
use std::alloc::{AllocError, Global};
use std::collections::BTreeMap;
use std::marker::Model;

/// The values at places, each place by index and sub.
#[derive(Drop)]
pub(crate) struct Table {
    pub(crate) held: BTreeMap<(u16, u8), Held>,
}

impl Model for Table {
    ghost use Rattle.std.specs.Coded.{coded_ℕ, coded_list, coded×};
    ghost use Rattle.std.specs.FinMap as map;
    ghost use Rattle.dict_values.specs.Values.{Values};

    ghost Value = { Values };

    ghost coded = { map.code (coded× coded_ℕ coded_ℕ) (coded_list coded_ℕ) };

    ghost view = { λ table. map.from_entries table.held.entries };
}

impl Table {
    /// No values.
    pub(crate) fn new(alloc: Global) -> Table
        ensures { result ≡ map.empty }
    {
        Table {
            held: BTreeMap::new(alloc),
        }
    }

    /// Whether there is no value.
    pub(crate) fn is_empty(&self) -> bool
        ensures { IsTrue result → self.now ≡ map.empty }
    {
        self.held.is_empty()
    }

    /// The value at a place, if it has one.
    pub(crate) fn get(&self, place: (u16, u8)) -> Option<&[u8]>
        ensures value { option_copied result ≡ map.get self.now place }
        ensures short { IfSome result (λ bytes. length bytes.now ≤ longest_value) }
    {
        match self.held.get(&place) {
            Some(value) => Some(value.as_slice()),
            None => None,
        }
    }

    /// Sets the value at a place, and at that one alone. Gives the value that it had.
    pub(crate) fn insert(
        &mut self,
        place: (u16, u8),
        value: Held,
    ) -> Result<Option<Held>, AllocError>
        ensures ok { OnOk result (self.new ≡ map.insert self.old place value) }
        ensures before { IfOk result (λ before. before ≡ map.get self.old place) }
        ensures err { OnErr result (self.new ≡ self.old) }
    {
        let before = self.held.insert(place, value)?;
        Ok(before)
    }

    /// Whether the other table has the same values.
    pub(crate) fn same(&self, other: &Table) -> bool
        ensures { IsTrue result ↔ (self.now ≡ other.now) }
    {
        same_entries(&self.held, &other.held)
    }
}

impl Clone for Table {
    ghost is_clone = { λ a b. b ≡ a };

    fn clone(&self) -> Result<Table, AllocError> {
        Ok(Table {
            held: self.held.clone()?,
        })
    }
}
