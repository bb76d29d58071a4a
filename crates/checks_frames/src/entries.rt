//! The entries of the device whose server is asked.

use co_dict::{Access, Dict, Entry, Shape};
use co_values::{DataType, default_value};
use std::alloc::{AllocError, Global};

/// An entry without limits that no PDO can map.
fn plain(kind: DataType, access: Access) -> Entry {
    Entry {
        kind,
        access,
        low: None,
        high: None,
        mappable: false,
    }
}

/// The entries: each access, values of each length, limits, and a PDO with its mapping.
const ENTRIES: [(u16, u8, DataType, Access); 19] = [
    (0x1018, 0, DataType::Unsigned8, Access::Constant),
    (0x1018, 1, DataType::Unsigned32, Access::ReadOnly),
    (0x1800, 1, DataType::Unsigned32, Access::ReadWrite),
    (0x1A00, 0, DataType::Unsigned8, Access::ReadWrite),
    (0x1A00, 1, DataType::Unsigned32, Access::ReadWrite),
    (0x1A00, 2, DataType::Unsigned32, Access::ReadWrite),
    (0x2000, 0, DataType::Boolean, Access::ReadWrite),
    (0x2001, 0, DataType::Unsigned8, Access::ReadWrite),
    (0x2001, 1, DataType::Integer16, Access::ReadWrite),
    (0x2001, 2, DataType::Unsigned32, Access::ReadWriteOnOutput),
    (0x2001, 3, DataType::Unsigned64, Access::ReadWrite),
    (0x2001, 4, DataType::VisibleString, Access::ReadWrite),
    (0x2001, 5, DataType::OctetString, Access::ReadWrite),
    (0x2001, 6, DataType::Domain, Access::WriteOnly),
    (0x2001, 7, DataType::VisibleString, Access::ReadOnly),
    (0x2001, 8, DataType::NotModelled, Access::ReadWrite),
    (0x2002, 0, DataType::Unsigned16, Access::ReadOnly),
    (0x2002, 1, DataType::Unsigned64, Access::ReadWrite),
    (0xFFFF, 255, DataType::OctetString, Access::ReadWriteOnInput),
];

/// The shape of the device. Entry 2001h:01 has the limits -5 and 300, and a PDO can map the entries
/// of 2002h.
pub fn shape(alloc: Global) -> Result<Shape, AllocError> {
    let mut shape = Shape::new(alloc, [false; 7]);
    for row in &ENTRIES {
        let mut entry = plain(row.2, row.3);
        if row.0 == 0x2001 && row.1 == 1 {
            entry.low = Some(-5);
            entry.high = Some(300);
        }
        entry.mappable = row.0 == 0x2002;
        shape.insert(row.0, row.1, entry)?;
    }
    Ok(shape)
}

/// Writes 0, or what is empty, to an entry of a data type.
fn write_default(
    alloc: Global,
    dict: &mut Dict,
    index: u16,
    sub: u8,
    kind: DataType,
) -> Result<(), AllocError> {
    let value = default_value(alloc, kind)?;
    dict.write(index, sub, value.bytes.as_slice())
}

/// Writes 0, or what is empty, to each entry.
fn write_defaults(alloc: Global, dict: &mut Dict) -> Result<(), AllocError> {
    for row in &ENTRIES {
        write_default(alloc, dict, row.0, row.1, row.2)?;
    }
    Ok(())
}

/// Writes the values at the start.
fn write_values(alloc: Global, dict: &mut Dict) -> Result<(), AllocError> {
    write_defaults(alloc, dict)?;
    dict.write(0x2001, 7, b"a label of cobnch")?;
    dict.write(0x1800, 1, &[0, 0, 0, 0x80])
}

/// The values at the start: 0 or empty, a label of 16 bytes at 2001h:07, and a COB-ID of no PDO.
pub fn values(alloc: Global) -> Result<Dict, AllocError> {
    let mut dict = Dict::new(alloc);
    write_values(alloc, &mut dict)?;
    Ok(dict)
}
