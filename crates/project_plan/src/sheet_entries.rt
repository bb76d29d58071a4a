//! The entries of a data sheet that have to be looked at at each of its nodes.
ghost use Rattle.std.specs.Prelude.{IfOk};
ghost use Rattle.project_plan.specs.Sheets.{AreEntriesOf};

use crate::doubtful_defaults::doubtful_places;
use crate::given_parameters::given_places;
use eds_device::DataSheet;
use std::alloc::{AllocError, Global};

/// The entries of a data sheet that have to be looked at at each of its nodes: which they are is the same at all of
/// them.
#[derive(Drop)]
pub struct SheetEntries {
    /// The entries that it gives a parameter, by index and sub-index.
    pub given: Vec<(u16, u8)>,
    /// The entries whose default may spell no value at some node, by index and sub-index.
    pub doubtful: Vec<(u16, u8)>,
}

/// These entries of a data sheet. Takes time by the number of its entries, at most 4,096, and the logarithm of it.
pub fn entries_of_sheet(alloc: Global, device: &DataSheet) -> Result<SheetEntries, AllocError>
    ensures { IfOk result (AreEntriesOf device.now) }
{
    let given = given_places(alloc, device)?;
    let doubtful = doubtful_places(alloc, device)?;
    Ok(SheetEntries { given, doubtful })
}
