//! Numbers in the ranges of the data types.

ghost use Rattle.std.specs.Prelude.{◌≡◌, ◌*◌, ◌-◌, ◌^◌};
ghost use Rattle.co_values.specs.Types.{octets};
ghost use Rattle.co_values.specs.Values.{flag_bits as bits_of_flag, unsigned_bits as bits_of_unsigned};
ghost use Rattle.co_values.specs.Values.{signed_bits as bits_of_signed};

use crate::form::Width;

/// 2^(n - 1) for an integer of n bits.
fn half(width: Width) -> u128
    ensures { result ≡ 2 ^ (8 * octets width - 1) }
{
    match width {
        Width::Bits8 => 0x80,
        Width::Bits16 => 0x8000,
        Width::Bits24 => 0x80_0000,
        Width::Bits32 => 0x8000_0000,
        Width::Bits40 => 0x80_0000_0000,
        Width::Bits48 => 0x8000_0000_0000,
        Width::Bits56 => 0x80_0000_0000_0000,
        Width::Bits64 => 0x8000_0000_0000_0000,
    }
}

/// A number as a BOOLEAN.
pub(crate) fn flag_bits(number: i128) -> Option<u64>
    ensures { result ≡ bits_of_flag number }
{
    match number {
        0 => Some(0),
        1 => Some(1),
        _ => None,
    }
}

/// A number as an unsigned integer.
pub(crate) fn unsigned_bits(width: Width, number: i128) -> Option<u64>
    ensures { result ≡ bits_of_unsigned width number }
{
    let size = number.unsigned_abs();
    if number >= 0 && size < 2 * half(width) {
        Some(size as u64)
    } else {
        None
    }
}

/// A number as a signed integer, a negative one as its two's complement.
pub(crate) fn signed_bits(width: Width, number: i128) -> Option<u64>
    ensures { result ≡ bits_of_signed width number }
{
    let half = half(width);
    let size = number.unsigned_abs();
    if number >= 0 {
        if size < half { Some(size as u64) } else { None }
    } else if size <= half {
        Some((2 * half - size) as u64)
    } else {
        None
    }
}
