//! Numbers as eight bytes, the lowest first.

ghost use Rattle.std.specs.Prelude.{◌≡◌};
ghost use Rattle.byteorder.specs.Endian.{little_bytes, little_number};

use byteorder::{ByteOrder, LittleEndian};

/// The bytes of a number as CiA 301 sends them, the lowest first.
pub fn to_le(number: u64) -> [u8; 8]
    ensures bytes { result ≡ little_bytes 8 number }
    ensures back { little_number 8 result ≡ number }
{
    let mut bytes = [0u8; 8];
    LittleEndian::write_u64(&mut bytes, number);
    bytes
}

/// The number in bytes as CiA 301 sends them, the lowest first.
pub fn from_le(bytes: [u8; 8]) -> u64
    ensures number { result ≡ little_number 8 bytes }
    ensures back { little_bytes 8 result ≡ bytes }
{
    LittleEndian::read_u64(&bytes)
}
