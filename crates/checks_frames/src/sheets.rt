//! Devices of data sheets.

use anyhow::Result;
use eds_device::DataSheet;
use std::fs;

/// The device of the data sheet of a file.
pub fn device(rt: &HostRuntime, path: &str) -> Result<DataSheet> {
    let text = fs::read(rt, path)?;
    Ok(DataSheet::read(rt.alloc(), false, &text)?)
}
