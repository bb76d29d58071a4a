//! Values that copies share.

ghost use Rattle.std.specs.Prelude.{◌≡◌, ◌≤◌, ◌↔◌, IsTrue, length, MatchOption, IfSome, IfOk, OnOk, OnErr};
ghost use Rattle.std.specs.Prelude.{option_copied};
ghost use Rattle.std.specs.FinMap as map;
ghost use Rattle.dict_values.specs.Places.{place_cmp};
ghost use Rattle.co_values.specs.Values.{longest_value};

use crate::held::Held;
use crate::table::Table;
use base::unshare;
use std::alloc::{AllocError, Global};
use std::marker::Model;
use std::rc::Rc;

/// The values at places, which copies share until one of them is written.
#[derive(Drop)]
pub(crate) struct Layer {
    table: Option<Rc<Table>>,
}

impl Model for Layer {
    ghost use Rattle.std.specs.Coded.{coded_ℕ, coded_list, coded×};
    ghost use Rattle.std.specs.FinMap as map;
    ghost use Rattle.dict_values.specs.Layers.{values_behind};
    ghost use Rattle.dict_values.specs.Values.{Values};

    ghost Value = { Values };

    ghost coded = { map.code (coded× coded_ℕ coded_ℕ) (coded_list coded_ℕ) };

    ghost view = { λ layer. values_behind layer.table };
}

/// Sets the value at a place of a table behind a handle, and gives the one that it had. Copies of the handle keep
/// theirs.
fn insert_in(
    table: &mut Rc<Table>,
    place: (u16, u8),
    value: Held,
) -> Result<Option<Held>, AllocError>
    ensures ok { OnOk result (table.new.value ≡ map.insert table.old.value place value) }
    ensures before { IfOk result (λ before. before ≡ map.get table.old.value place) }
    ensures err { OnErr result (table.new.value ≡ table.old.value) }
{
    let table = unshare(table)?;
    table.insert(place, value)
}

/// A handle of a table with one value.
fn table_of(alloc: Global, place: (u16, u8), value: Held) -> Result<Rc<Table>, AllocError>
    ensures { IfOk result (λ table. table.value ≡ map.insert map.empty place value) }
{
    let mut table = Table::new(alloc);
    table.insert(place, value)?;
    let table = Rc::new(alloc, table)?;
    Ok(table)
}

impl Layer {
    /// No values. Takes no memory.
    pub(crate) fn new() -> Layer
        ensures { result ≡ map.empty }
    {
        Layer { table: None }
    }

    /// Equal values, which it shares. Takes no memory.
    pub(crate) fn copy(&self) -> Result<Layer, AllocError>
        ensures { IfOk result (λ layer. layer ≡ self.now) }
    {
        match &self.table {
            None => Ok(Layer::new()),
            Some(table) => {
                let table = table.clone()?;
                Ok(Layer { table: Some(table) })
            }
        }
    }

    /// Equal values, which it doesn't share. Takes time and memory by their number.
    pub(crate) fn duplicate(&self, alloc: Global) -> Result<Layer, AllocError>
        ensures { IfOk result (λ layer. layer ≡ self.now) }
    {
        match &self.table {
            None => Ok(Layer::new()),
            Some(table) => {
                let table = table.as_ref().clone()?;
                let table = Rc::new(alloc, table)?;
                Ok(Layer { table: Some(table) })
            }
        }
    }

    /// Whether there is no value.
    pub(crate) fn is_empty(&self) -> bool
        ensures { IsTrue result → self.now ≡ map.empty }
    {
        match &self.table {
            None => true,
            Some(table) => table.is_empty(),
        }
    }

    /// The table of the values; none where there is no value.
    pub(crate) fn table(&self) -> Option<&Table>
        ensures { MatchOption result (self.now ≡ map.empty) (λ table. self.now ≡ table.now) }
    {
        match &self.table {
            None => None,
            Some(table) => Some(table.as_ref()),
        }
    }

    /// Whether copies share the values.
    pub(crate) fn is_shared(&self) -> bool {
        match &self.table {
            None => false,
            Some(table) => Rc::strong_count(table) > 1,
        }
    }

    /// The value at a place, if it has one.
    pub(crate) fn get(&self, place: (u16, u8)) -> Option<&[u8]>
        ensures value { option_copied result ≡ map.get self.now place }
        ensures short { IfSome result (λ bytes. length bytes.now ≤ longest_value) }
    {
        match &self.table {
            None => None,
            Some(table) => table.get(place),
        }
    }

    /// Whether the other layer has the same values. Not said where one of them has no table.
    pub(crate) fn is_like(&self, other: &Layer) -> bool
        ensures { IsTrue result → self.now ≡ other.now }
    {
        match (&self.table, &other.table) {
            (None, None) => true,
            (Some(table), Some(other)) => table.same(other),
            _ => false,
        }
    }

    /// Sets the value at a place, and at that one alone. Gives the value that it had. Where copies share the values,
    /// it takes a copy of all of them first.
    pub(crate) fn insert(
        &mut self,
        alloc: Global,
        place: (u16, u8),
        value: Held,
    ) -> Result<Option<Held>, AllocError>
        ensures ok { OnOk result (self.new ≡ map.insert self.old place value) }
        ensures before { IfOk result (λ before. before ≡ map.get self.old place) }
        ensures err { OnErr result (self.new ≡ self.old) }
    {
        match &mut self.table {
            Some(table) => insert_in(table, place, value),
            None => {
                let table = table_of(alloc, place, value)?;
                self.table = Some(table);
                Ok(None)
            }
        }
    }
}
