//! Values into a frame.

ghost use Rattle.std.specs.Prelude.{◌≡◌, ◌≤◌, ◌+◌, ◌*◌, ◌%◌, ◌^◌};
ghost use Rattle.co_dict.specs.Mappings.{mapped_length as length_mapped, mapped_place as place_mapped, mapping_bits};
ghost use Rattle.co_dict.specs.Values.{number_at};
ghost use Rattle.pdo_rules.specs.Packing.{payload_of};

use crate::bits::moved_up;
use co_dict::{Dict, mapped_length, mapped_place};
use co_values::to_le;

/// The bits of a mapped entry at a position of a frame.
fn placed(dict: &Dict, entry: u32, position: u32) -> u64
    requires { position + length_mapped entry ≤ 64 }
    ensures moved { result ≡ 2 ^ position * (number_at 8 dict.now (place_mapped entry) % 2 ^ length_mapped entry) }
    ensures bound { result + 2 ^ position ≤ 2 ^ (position + length_mapped entry) }
{
    let (index, sub) = mapped_place(entry);
    moved_up(dict.number_64(index, sub), mapped_length(entry), position)
}

/// The frame of a PDO (CiA 301, PDO mapping), and how many of its bytes the PDO has.
///
/// The values that the mapped entries hold stand one after the other from position 0 on, each with as
/// many bits as its mapping entry says, the lowest first; position p is bit p mod 8 of byte p div 8.
/// The PDO has as many bytes as it begins, from 0 to 8; the others are 0. A bit that a value lacks is
/// 0. A mapping entry has the index, the sub-index and the length in bits of what it maps: 2002h:00
/// of 16 bits is 20020010h. The mapping has at most 64 bits, as one that passes `check_mapping` has.
///
/// Needs no memory, and takes time by the length of the mapping and the logarithm of the number of
/// entries.
pub fn pack(dict: &Dict, mapping: &[u32]) -> ([u8; 8], usize)
    requires { mapping_bits mapping.now ≤ 64 }
    ensures { result ≡ payload_of dict.now mapping.now }
{
    let mut frame = 0;
    let mut position = 0;
    for entry in mapping {
        frame += placed(dict, *entry, position);
        position += mapped_length(*entry);
    }
    (to_le(frame), (position as usize + 7) / 8)
}
