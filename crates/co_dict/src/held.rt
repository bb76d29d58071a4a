//! Entries that are held alone, or shared.

ghost use Rattle.std.specs.Prelude.{◌≡◌, IfOk, OnOk, OnErr};
ghost use Rattle.std.specs.Arc.{arc_value};
ghost use Rattle.std.specs.FinMap as map;
ghost use Rattle.co_dict.specs.Places.{place_cmp};
ghost use Rattle.co_dict.specs.Held.{entries_of};

use crate::entry::Entry;
use crate::table::Table;
use std::alloc::{AllocError, Global};
use std::sync::Arc;

/// The entries of a shape: its own, or some that other shapes have too.
#[derive(Drop)]
pub(crate) enum Held {
    Own(Table),
    Shared(Arc<Table>),
}

/// Sets the entry at a place of a table behind a handle. Other handles keep theirs.
fn insert_in(table: &mut Arc<Table>, place: (u16, u8), entry: Entry) -> Result<(), AllocError>
    ensures ok { OnOk result (arc_value table.new ≡ map.insert (arc_value table.old) place entry) }
    ensures err { OnErr result (arc_value table.new ≡ arc_value table.old) }
{
    let table = Arc::make_mut(table)?;
    table.insert(place, entry)
}

/// A handle of a table.
fn shared(alloc: Global, table: Table) -> Result<Held, AllocError>
    ensures { IfOk result (λ held. entries_of held ≡ table) }
{
    let handle = Arc::new(alloc, table)?;
    Ok(Held::Shared(handle))
}

impl Held {
    /// The table of the entries.
    pub(crate) fn table(&self) -> &Table
        ensures { result.now ≡ entries_of self.now }
    {
        match self {
            Held::Own(table) => table,
            Held::Shared(handle) => &**handle,
        }
    }

    /// Sets the entry at a place, and at that one alone. Where others share the entries, it takes a copy of
    /// all of them first.
    pub(crate) fn insert(&mut self, place: (u16, u8), entry: Entry) -> Result<(), AllocError>
        ensures ok { OnOk result (entries_of self.new ≡ map.insert (entries_of self.old) place entry) }
        ensures err { OnErr result (entries_of self.new ≡ entries_of self.old) }
    {
        match self {
            Held::Own(table) => table.insert(place, entry),
            Held::Shared(handle) => insert_in(handle, place, entry),
        }
    }

    /// The same entries, which others can share. Takes constant time, and memory for one handle.
    pub(crate) fn into_shared(self, alloc: Global) -> Result<Held, AllocError>
        ensures { IfOk result (λ held. entries_of held ≡ entries_of self) }
    {
        match self {
            Held::Own(table) => shared(alloc, table),
            Held::Shared(handle) => Ok(Held::Shared(handle)),
        }
    }

    /// The same entries: shared ones in constant time and without memory, else a copy of all.
    pub(crate) fn share(&self) -> Result<Held, AllocError>
        ensures { IfOk result (λ held. entries_of held ≡ entries_of self.now) }
    {
        match self {
            Held::Own(table) => {
                let table = table.clone()?;
                Ok(Held::Own(table))
            }
            Held::Shared(handle) => {
                let handle = Arc::try_clone(handle)?;
                Ok(Held::Shared(handle))
            }
        }
    }
}
