//! Entries, dictionaries, and values in frames: `co_dict`, `pdo_rules`.

ghost use Rattle.std.specs.Prelude.{◌≤◌, length};
ghost use Rattle.co_dict.specs.Mappings.{mapping_bits};
ghost use Rattle.co_values.specs.Values.{longest_value};

use co_dict::{Abort, Access, Dict, Entry, Shape, check_write};
use co_values::DataType;
use pdo_rules::{pack, unpack};
use std::alloc::{AllocError, Global};

/// An entry is its type, access, limits and whether it can be mapped.
pub fn entry(
    kind: DataType,
    access: Access,
    low: Option<i128>,
    high: Option<i128>,
    mappable: bool,
) -> Entry {
    Entry {
        kind,
        access,
        low,
        high,
        mappable,
    }
}

/// The entry of an index and a sub.
pub fn entry_at(shape: &Shape, index: u16, sub: u8) -> Option<&Entry> {
    shape.entry(index, sub)
}

/// What a device answers to a write, before it writes.
pub fn check(shape: &Shape, dict: &Dict, index: u16, sub: u8, bytes: &[u8]) -> Result<(), Abort> {
    check_write(shape, dict, index, sub, bytes)
}

/// The number of an abort.
pub fn code(abort: Abort) -> u32 {
    let Abort(code) = abort;
    code
}

/// A dictionary without values.
pub fn dictionary(alloc: Global) -> Dict {
    Dict::new(alloc)
}

/// A value is written.
pub fn write(dict: &mut Dict, index: u16, sub: u8, bytes: &[u8]) -> Result<(), AllocError>
    requires { length bytes.now ≤ longest_value }
{
    dict.write(index, sub, bytes)
}

/// A value is read.
pub fn read(dict: &Dict, index: u16, sub: u8) -> Option<&[u8]> {
    dict.read(index, sub)
}

/// The bytes of a frame, by its mapping, and how many.
pub fn packed(dict: &Dict, mapping: &[u32]) -> ([u8; 8], usize)
    requires { mapping_bits mapping.now ≤ 64 }
{
    pack(dict, mapping)
}

/// The bytes of a frame become values of entries, by its mapping.
pub fn unpacked(
    shape: &Shape,
    dict: &mut Dict,
    mapping: &[u32],
    bytes: &[u8],
) -> Result<(), AllocError>
    requires { mapping_bits mapping.now ≤ 64 }
{
    unpack(shape, dict, mapping, bytes)
}
