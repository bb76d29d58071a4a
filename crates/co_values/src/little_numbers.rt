//! Numbers in bytes, the lowest first (CiA 301); a byte that is not there counts as 0.

ghost use Rattle.std.specs.Prelude.{◌≡◌, slice_index};
ghost use Rattle.byteorder.specs.Endian.{little_number};

use byteorder::{ByteOrder, LittleEndian};

/// The byte at a place.
fn byte_at(bytes: &[u8], place: usize) -> u8
    ensures { result ≡ slice_index bytes.now place }
{
    bytes.get(place).copied().unwrap_or(0)
}

/// The number in the first byte.
pub fn number_8(bytes: &[u8]) -> u8
    ensures { result ≡ little_number 1 bytes.now }
{
    byte_at(bytes, 0)
}

/// The number in the first two bytes.
pub fn number_16(bytes: &[u8]) -> u16
    ensures { result ≡ little_number 2 bytes.now }
{
    LittleEndian::read_u16(&[byte_at(bytes, 0), byte_at(bytes, 1)])
}

/// The number in the first four bytes.
pub fn number_32(bytes: &[u8]) -> u32
    ensures { result ≡ little_number 4 bytes.now }
{
    LittleEndian::read_u32(&[
        byte_at(bytes, 0),
        byte_at(bytes, 1),
        byte_at(bytes, 2),
        byte_at(bytes, 3),
    ])
}

/// The number in the first eight bytes.
pub fn number_64(bytes: &[u8]) -> u64
    ensures { result ≡ little_number 8 bytes.now }
{
    LittleEndian::read_u64(&[
        byte_at(bytes, 0),
        byte_at(bytes, 1),
        byte_at(bytes, 2),
        byte_at(bytes, 3),
        byte_at(bytes, 4),
        byte_at(bytes, 5),
        byte_at(bytes, 6),
        byte_at(bytes, 7),
    ])
}
