//! What a device answers to a write of the objects of its PDOs (CiA 301).

ghost use Rattle.std.specs.Prelude.{◌≡◌, ◌≤◌};
ghost use Rattle.std.specs.List.{list_any, range_with_len};
ghost use Rattle.co_dict.specs.Mappings.{direction_of as direction_of_object, dummy_width as width_of_dummy};
ghost use Rattle.co_dict.specs.Mappings.{width_mapped as width_of_mapped, can_be_mapped as can_be_mapped_whole};
ghost use Rattle.co_dict.specs.Mappings.{mapping_bits, mapping_of};
ghost use Rattle.co_dict.specs.Checks.{first_refusal};
ghost use Rattle.co_dict.specs.PdoChecks.{is_cob_id, takes_restricted};
ghost use Rattle.co_dict.specs.PdoChecks.{changes_frames, cob_id_lines, has_valid_pdo, is_mapping_enabled};
ghost use Rattle.co_dict.specs.PdoChecks.{mapping_lines, is_bad_entry, count_lines, mapping_check, new_count_lines};

use crate::abort::Abort;
use crate::direction::Direction;
use crate::mapped::{mapped_length, mapped_place};
use crate::shape::Shape;
use cia301::{CobId, is_communication_object, is_mapping_object};
use co_values::{DataType, number_8, number_32, width_bits};
use dict_values::Dict;

/// How far the mapping object of a PDO is above its communication object.
const MAPPING_OFFSET: u16 = 0x200;

/// The most entries of a mapping.
const MAX_ENTRIES: u8 = 64;

/// The most bits of a frame.
const MAX_BITS: u32 = 64;

/// Whether an entry is the COB-ID of a PDO.
fn is_cob_id(shape: &Shape, index: u16, sub: u8) -> bool
    ensures { result ≡ is_cob_id shape.now (index, sub) }
{
    is_communication_object(index) && sub == 1 && shape.has_unsigned32(index, sub)
}

/// Whether a COB-ID makes a PDO exist under an identifier that no PDO may have.
fn takes_restricted(cob_id: CobId) -> bool
    ensures { result ≡ takes_restricted cob_id }
{
    cob_id.is_valid() && cob_id.identifier().is_restricted()
}

/// Whether the frames of a PDO would change while it exists.
fn changes_frames(old: CobId, new: CobId) -> bool
    ensures { result ≡ changes_frames old new }
{
    old.is_valid() && new.is_valid() && old.identifier_with_form() != new.identifier_with_form()
}

/// Whether an entry takes the bytes as the COB-ID of a PDO, where it is one.
pub(crate) fn check_cob_id(
    shape: &Shape,
    dict: &Dict,
    index: u16,
    sub: u8,
    bytes: &[u8],
) -> Result<(), Abort>
    ensures { result ≡ first_refusal (cob_id_lines shape.now dict.now (index, sub) bytes.now) }
{
    if !is_cob_id(shape, index, sub) {
        return Ok(());
    }
    let new = CobId::of(number_32(bytes));
    if takes_restricted(new) || changes_frames(CobId::of(dict.number_32(index, sub)), new) {
        return Err(Abort::INVALID_VALUE);
    }
    Ok(())
}

/// Whether the PDO of a mapping object exists.
fn has_valid_pdo(shape: &Shape, dict: &Dict, object: u16) -> bool
    requires { 0x200 ≤ object }
    ensures { result ≡ has_valid_pdo shape.now dict.now object }
{
    let communication = object - MAPPING_OFFSET;
    shape.has_unsigned32(communication, 1) && CobId::of(dict.number_32(communication, 1)).is_valid()
}

/// Whether the mapping of a mapping object is in force.
fn is_mapping_enabled(shape: &Shape, dict: &Dict, object: u16) -> bool
    ensures { result ≡ is_mapping_enabled shape.now dict.now object }
{
    shape.has_unsigned8(object, 0) && dict.number_8(object, 0) > 0
}

/// Whether an entry can be written now, where it is one of a mapping object.
pub(crate) fn check_mapping_object(
    shape: &Shape,
    dict: &Dict,
    index: u16,
    sub: u8,
) -> Result<(), Abort>
    ensures { result ≡ first_refusal (mapping_lines shape.now dict.now (index, sub)) }
{
    if !is_mapping_object(index) {
        return Ok(());
    }
    if has_valid_pdo(shape, dict, index) || (sub > 0 && is_mapping_enabled(shape, dict, index)) {
        return Err(Abort::UNSUPPORTED_ACCESS);
    }
    Ok(())
}

/// The direction of the PDO that a mapping object is of.
fn direction_of(object: u16) -> Direction
    ensures { result ≡ direction_of_object object }
{
    if matches!(object, 0x1600..=0x17FF) {
        Direction::Receive
    } else {
        Direction::Transmit
    }
}

/// The bits of a dummy entry that a PDO can map.
fn dummy_width(direction: Direction, shape: &Shape, index: u16, sub: u8) -> Option<u32>
    ensures { result ≡ width_of_dummy direction shape.now (index, sub) }
{
    match direction {
        Direction::Receive if sub == 0 && shape.dummy_allowed(index) => {
            width_bits(DataType::of_code(i128::from(index)))
        }
        _ => None,
    }
}

/// The bits of what a mapping entry can name: an entry of the device, else a dummy.
fn width_mapped(direction: Direction, shape: &Shape, index: u16, sub: u8) -> Option<u32>
    ensures { result ≡ width_of_mapped direction shape.now (index, sub) }
{
    if let Some(entry) = shape.entry(index, sub)
        && entry.is_mappable(direction)
    {
        return width_bits(entry.kind);
    }
    dummy_width(direction, shape, index, sub)
}

/// Whether a mapping entry names what a PDO can map, in its whole length.
fn can_be_mapped(direction: Direction, shape: &Shape, entry: u32) -> bool
    ensures { result ≡ can_be_mapped_whole direction shape.now entry }
{
    let (index, sub) = mapped_place(entry);
    width_mapped(direction, shape, index, sub).is_some_and(|bits| bits == mapped_length(entry))
}

/// Whether an entry of a mapping object isn't there as UNSIGNED32, or names what can't be mapped in
/// its whole length.
fn is_bad_entry(shape: &Shape, dict: &Dict, object: u16, sub: u8) -> bool
    ensures { result ≡ is_bad_entry shape.now dict.now object sub }
{
    !(shape.has_unsigned32(object, sub)
        && can_be_mapped(direction_of(object), shape, dict.number_32(object, sub)))
}

/// Whether an entry of a mapping object, from sub 1 to a count, is a bad one.
fn has_bad_entry(shape: &Shape, dict: &Dict, object: u16, count: u8) -> bool
    requires { count ≤ 64 }
    ensures { result ≡ list_any (is_bad_entry shape.now dict.now object) (range_with_len 1 count) }
{
    for sub in 1..count + 1 {
        if is_bad_entry(shape, dict, object, sub) {
            return true;
        }
    }
    false
}

/// The bits that the entries of a mapping object take in a frame, from sub 1 to a count.
fn mapping_bits(dict: &Dict, object: u16, count: u8) -> u32
    requires { count ≤ 64 }
    ensures { result ≡ mapping_bits (mapping_of dict.now object count) }
{
    let mut bits = 0;
    for sub in 1..count + 1 {
        bits += mapped_length(dict.number_32(object, sub));
    }
    bits
}

/// Whether a PDO can carry the first entries of its mapping object, `count` of them (CiA 301): it
/// works only where it can. `PDO_LENGTH_EXCEEDED` over 64 entries; else `CANNOT_BE_MAPPED` where one
/// of them isn't there as UNSIGNED32, or names no entry that a PDO of that direction can map, or has
/// another length than the entry's; else `PDO_LENGTH_EXCEEDED` where they have over 64 bits. The
/// dummies that the device allows can be mapped in the objects 1600h to 17FFh; any other object
/// counts as that of a TPDO. Needs no memory.
#[tactic(auto, unfolding(crate::specs::PdoChecks::mapping_check))]
pub fn check_mapping(shape: &Shape, dict: &Dict, object: u16, count: u8) -> Result<(), Abort>
    ensures { result ≡ mapping_check shape.now dict.now object count }
{
    if count > MAX_ENTRIES {
        return Err(Abort::PDO_LENGTH_EXCEEDED);
    }
    if has_bad_entry(shape, dict, object, count) {
        return Err(Abort::CANNOT_BE_MAPPED);
    }
    if mapping_bits(dict, object, count) > MAX_BITS {
        return Err(Abort::PDO_LENGTH_EXCEEDED);
    }
    Ok(())
}

/// Whether a mapping object takes the bytes as its count, where the entry is that of one.
#[tactic(auto, unfolding(crate::specs::PdoChecks::mapping_check))]
pub(crate) fn check_new_count(
    shape: &Shape,
    dict: &Dict,
    index: u16,
    sub: u8,
    bytes: &[u8],
) -> Result<(), Abort>
    ensures { result ≡ first_refusal (new_count_lines shape.now dict.now (index, sub) bytes.now) }
{
    if is_mapping_object(index) && sub == 0 && shape.has_unsigned8(index, sub) {
        check_mapping(shape, dict, index, number_8(bytes))
    } else {
        Ok(())
    }
}
