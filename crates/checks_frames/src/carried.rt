//! Values of a dictionary in a frame.

use co_dict::{Access, Dict, Entry, Shape, check_mapping};
use co_values::DataType;
use eds_device::DataSheet;
use pdo_rules::{pack, unpack};
use std::alloc::{AllocError, Global};
use std::io;

/// The entries, each with its bytes at the start.
const ENTRIES: [(u16, u8, DataType, &[u8]); 6] = [
    (0x1600, 0, DataType::Unsigned8, &[2]),
    (0x1600, 1, DataType::Unsigned32, &[0x08, 0x00, 0x00, 0x20]),
    (0x1600, 2, DataType::Unsigned32, &[0x10, 0x00, 0x06, 0x00]),
    (0x2000, 0, DataType::Unsigned8, &[7]),
    (0x2002, 0, DataType::Unsigned16, &[0x34, 0x12]),
    (0x2004, 0, DataType::Boolean, &[1]),
];

/// The shape: all entries may be mapped and written, and of the dummies those of 16 bits.
fn shape(alloc: Global) -> Result<Shape, AllocError> {
    let dummies = [false, false, false, false, false, true, false];
    let mut shape = Shape::new(alloc, dummies);
    for row in &ENTRIES {
        let entry = Entry {
            kind: row.2,
            access: Access::ReadWrite,
            low: None,
            high: None,
            mappable: true,
        };
        shape.insert(row.0, row.1, entry)?;
    }
    Ok(shape)
}

/// The values at the start.
fn values(alloc: Global) -> Result<Dict, AllocError> {
    let mut dict = Dict::new(alloc);
    for row in &ENTRIES {
        if row.3.len() <= 4 {
            dict.write(row.0, row.1, row.3)?;
        }
    }
    Ok(dict)
}

/// Prints the value of an entry.
fn show_entry(rt: &HostRuntime, dict: &Dict, index: u16, sub: u8) -> io::Result<()> {
    print!(rt; "{index:04X}:{sub:02X}")?;
    for byte in dict.read(index, sub).unwrap_or(&[]) {
        print!(rt; " {byte:02X}")?;
    }
    println!(rt; "")
}

/// Prints the values.
fn show(rt: &HostRuntime, dict: &Dict) -> io::Result<()> {
    for row in &ENTRIES {
        show_entry(rt, dict, row.0, row.1)?;
    }
    Ok(())
}

/// Prints a frame of three entries.
fn show_packed(rt: &HostRuntime, dict: &Dict) -> io::Result<()> {
    let (bytes, length) = pack(dict, &[0x2000_0008, 0x2004_0001, 0x2002_0010]);
    print!(rt; "{length}")?;
    for byte in &bytes {
        print!(rt; " {byte:02X}")?;
    }
    println!(rt; "")
}

/// The code of the abort of a mapping with a count of entries, 0 where it is a right one.
fn abort_code(shape: &Shape, dict: &Dict, count: u8) -> u32 {
    match check_mapping(shape, dict, 0x1600, count) {
        Ok(_) => 0,
        Err(abort) => abort.code(),
    }
}

/// Prints whether the mapping may have none to three entries.
fn show_counts(rt: &HostRuntime, shape: &Shape, dict: &Dict) -> io::Result<()> {
    for count in 0..4 {
        println!(rt; "count {count} {:08X}", abort_code(shape, dict, count))?;
    }
    Ok(())
}

/// Prints what a mapping makes of the values.
fn show_mapped(rt: &HostRuntime, shape: &Shape, dict: &Dict) -> io::Result<()> {
    show_packed(rt, dict)?;
    show_counts(rt, shape, dict)
}

/// Takes a frame of an entry and a dummy.
fn take(shape: &Shape, dict: &mut Dict) -> Result<(), AllocError> {
    unpack(shape, dict, &[0x2000_0008, 0x0006_0010], &[9, 0, 0])
}

/// Takes a frame of an entry and a dummy, and prints the values.
fn show_unpacked(rt: &HostRuntime, shape: &Shape, dict: &mut Dict) -> io::Result<()> {
    take(shape, dict)?;
    show(rt, dict)
}

/// Prints a frame of three entries, and the values after one of an entry and a dummy came.
fn show_both(rt: &HostRuntime, shape: &Shape, dict: &mut Dict) -> io::Result<()> {
    show_mapped(rt, shape, dict)?;
    show_unpacked(rt, shape, dict)
}

/// Prints what frames carry of the values, both ways.
pub fn both_ways(rt: &HostRuntime) -> io::Result<()> {
    let shape = shape(rt.alloc())?;
    let mut dict = values(rt.alloc())?;
    show_both(rt, &shape, &mut dict)
}

/// Prints the values of all entries of a device.
fn show_all(rt: &HostRuntime, device: &DataSheet, dict: &Dict) -> io::Result<()> {
    for (index, sub) in device.pairs() {
        show_entry(rt, dict, *index, *sub)?;
    }
    Ok(())
}

/// Prints the values of node 6 of a data sheet, after a frame of an entry and a dummy came.
pub fn taken(rt: &HostRuntime, device: &DataSheet) -> io::Result<()> {
    let shape = device.shape(6)?;
    let mut dict = device.defaults(6)?;
    take(&shape, &mut dict)?;
    show_all(rt, device, &dict)
}
