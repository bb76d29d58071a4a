//! Values out of a frame.

ghost use Rattle.std.specs.Prelude.{◌≡◌, ◌≤◌, ◌+◌, OnOk, OnErr, IfOk, IfSome, Some, is_some, take};
ghost use Rattle.std.specs.FinMap as map;
ghost use Rattle.co_dict.specs.Mappings.{mapped_length as length_mapped, mapped_place as place_mapped, mapping_bits};
ghost use Rattle.pdo_rules.specs.Packing.{bits_for, bytes_begun, frame_bits, names_entry as names_one, takes};
ghost use Rattle.pdo_rules.specs.Packing.{after_payload, value_of_bits, with_bits};

use crate::bits::moved_down;
use co_dict::{Dict, Direction, Entry, Shape, check_write_of, mapped_length, mapped_place};
use co_values::{number_64, to_le};
use std::alloc::AllocError;

/// The bytes of the value that a frame has for a mapping entry at a position, and behind them zeros.
fn value_for(entry: u32, position: u32, bytes: &[u8]) -> [u8; 8]
    requires { position + length_mapped entry ≤ 64 }
    ensures { take (bytes_begun (length_mapped entry)) result
        ≡ value_of_bits (bits_for entry position (frame_bits bytes.now)) }
{
    to_le(moved_down(number_64(bytes), mapped_length(entry), position))
}

/// The entry of the device that a mapping entry names, where RPDOs can map it; else it is a dummy.
fn named_entry(shape: &Shape, entry: u32) -> Option<&Entry>
    ensures named { is_some result ≡ names_one shape.now entry }
    ensures there { IfSome result (λ named. map.get shape.now.entries (place_mapped entry) ≡ Some named.now) }
{
    let (index, sub) = mapped_place(entry);
    let named = shape.entry(index, sub)?;
    if named.is_mappable(Direction::Receive) {
        Some(named)
    } else {
        None
    }
}

/// Gives one mapped entry its bits out of a frame (CiA 301, PDO mapping), those from a position on,
/// as a value of as many bytes as they begin: it is written where RPDOs can map it and `check_write`
/// passes, as the dictionary stands; else nothing changes, as at a dummy. Tells whether it was
/// written. A bit that the frame lacks is 0. The position is from 0 to 64, less the entry's length.
///
/// Want of memory leaves the dictionary as it was.
#[tactic(auto, unfolding(crate::specs::Packing::takes, crate::specs::Packing::with_bits))]
pub fn unpack_entry(
    shape: &Shape,
    dict: &mut Dict,
    entry: u32,
    position: u32,
    bytes: &[u8],
) -> Result<bool, AllocError>
    requires { position + length_mapped entry ≤ 64 }
    ensures wrote { IfOk result (λ wrote. wrote
        ≡ takes shape.now entry (bits_for entry position (frame_bits bytes.now)) dict.old) }
    ensures ok { OnOk result (dict.new
        ≡ with_bits shape.now entry (bits_for entry position (frame_bits bytes.now)) dict.old) }
    ensures err { OnErr result (dict.new ≡ dict.old) }
{
    let Some(named) = named_entry(shape, entry) else {
        return Ok(false);
    };
    let (index, sub) = mapped_place(entry);
    let value = value_for(entry, position, bytes);
    let value = &value[..(mapped_length(entry) as usize + 7) / 8];
    if check_write_of(shape, named, dict, index, sub, value).is_err() {
        return Ok(false);
    }
    dict.write(index, sub, value)?;
    Ok(true)
}

/// Each mapped entry out of a frame.
fn unpack_all(
    shape: &Shape,
    dict: &mut Dict,
    mapping: &[u32],
    bytes: &[u8],
) -> Result<(), AllocError>
    requires { mapping_bits mapping.now ≤ 64 }
    ensures { OnOk result (dict.new ≡ after_payload shape.now mapping.now bytes.now dict.old) }
{
    let mut position = 0;
    for entry in mapping {
        let _written = unpack_entry(shape, dict, *entry, position, bytes)?;
        position += mapped_length(*entry);
    }
    Ok(())
}

/// Gives the mapped entries their bits out of a frame (CiA 301, PDO mapping), one entry after the
/// other as `unpack_entry` does, each behind the bits of those before it. The mapping has at most 64
/// bits, as one that passes `check_mapping` has.
///
/// Works on a copy of the dictionary, so that want of memory leaves it as it was; so it takes time and
/// memory by the number of entries. `unpack_entry` takes no copy.
pub fn unpack(
    shape: &Shape,
    dict: &mut Dict,
    mapping: &[u32],
    bytes: &[u8],
) -> Result<(), AllocError>
    requires { mapping_bits mapping.now ≤ 64 }
    ensures ok { OnOk result (dict.new ≡ after_payload shape.now mapping.now bytes.now dict.old) }
    ensures err { OnErr result (dict.new ≡ dict.old) }
{
    let mut copy = dict.copy()?;
    unpack_all(shape, &mut copy, mapping, bytes)?;
    *dict = copy;
    Ok(())
}
