//! What is shown of a device.

use crate::entry::show_entry;
use crate::files::show_files;
use co_dict::{Dict, Shape};
use eds_device::DataSheet;
use std::alloc::AllocError;
use std::io;

/// The number of the node that the devices are shown at.
pub const NODE: u8 = 5;

/// Places that no data sheet here has an entry at: a sub of an object that some have, and an object.
const ABSENT: [(u16, u8); 2] = [(0x1017, 0xFF), (0xFFFF, 0)];

/// A device, with its shape and a copy of its defaults at the node.
#[derive(Drop)]
pub struct Sheet<'a> {
    pub device: &'a DataSheet,
    pub shape: Shape,
    pub defaults: Dict,
}

impl<'a> Sheet<'a> {
    pub fn new(device: &'a DataSheet) -> Result<Self, AllocError> {
        let shape = device.shape(NODE)?;
        let defaults = copied_defaults(device)?;
        Ok(Sheet {
            device,
            shape,
            defaults,
        })
    }
}

/// A copy of a device's defaults at the node.
fn copied_defaults(device: &DataSheet) -> Result<Dict, AllocError> {
    let defaults = device.defaults(NODE)?;
    defaults.copy()
}

/// The lines with warnings.
fn show_warnings(rt: &HostRuntime, device: &DataSheet) -> io::Result<()> {
    print!(rt; "warned lines:")?;
    for line in device.warnings() {
        print!(rt; " {line}")?;
    }
    println!(rt; "")
}

/// The identity.
fn show_identity(rt: &HostRuntime, device: &DataSheet) -> io::Result<()> {
    print!(rt; "identity:")?;
    for number in &device.identity(NODE) {
        print!(rt; " {number:08X}")?;
    }
    println!(rt; "")
}

/// A type, if the device says that an RPDO may map its dummy.
fn show_own_dummy(rt: &HostRuntime, device: &DataSheet, kind: u16) -> io::Result<()> {
    if device.dummy_allowed(kind) {
        print!(rt; " {kind:04X}")
    } else {
        Ok(())
    }
}

/// A type, if the shape says that an RPDO may map its dummy.
fn show_shape_dummy(rt: &HostRuntime, shape: &Shape, kind: u16) -> io::Result<()> {
    if shape.dummy_allowed(kind) {
        print!(rt; " (shape {kind:04X})")
    } else {
        Ok(())
    }
}

/// The types whose dummies an RPDO may map, as the device and as its shape has them.
fn show_dummies(rt: &HostRuntime, sheet: &Sheet<'_>) -> io::Result<()> {
    print!(rt; "dummies:")?;
    for kind in 0..=8 {
        show_own_dummy(rt, sheet.device, kind)?;
        show_shape_dummy(rt, &sheet.shape, kind)?;
    }
    println!(rt; "")
}

/// How many entries there are.
fn show_count(rt: &HostRuntime, shape: &Shape) -> io::Result<()> {
    let (count, is_empty) = (shape.len(), shape.is_empty());
    println!(rt; "entries: {count}, none: {is_empty}")
}

/// Shows the entries at some places.
fn show_places(rt: &HostRuntime, sheet: &Sheet<'_>, places: &[(u16, u8)]) -> io::Result<()> {
    for (index, sub) in places {
        show_entry(rt, sheet, *index, *sub)?;
    }
    Ok(())
}

/// Shows each entry.
fn show_entries(rt: &HostRuntime, sheet: &Sheet<'_>) -> io::Result<()> {
    show_places(rt, sheet, sheet.device.pairs())?;
    show_places(rt, sheet, &ABSENT)
}

/// Shows what stands before the entries.
fn show_head(rt: &HostRuntime, sheet: &Sheet<'_>) -> io::Result<()> {
    show_warnings(rt, sheet.device)?;
    show_identity(rt, sheet.device)?;
    show_dummies(rt, sheet)?;
    show_count(rt, &sheet.shape)
}

/// Shows all that is said of a device, and the files that it gets.
pub fn show_sheet(rt: &HostRuntime, sheet: &Sheet<'_>) -> io::Result<()> {
    show_head(rt, sheet)?;
    show_entries(rt, sheet)?;
    show_files(rt, sheet.device)
}
