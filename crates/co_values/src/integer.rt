//! Numbers of values, without memory.

ghost use Rattle.std.specs.Prelude.{◌≡◌, ◌≤◌, pos, option_and_then};
ghost use Rattle.byteorder.specs.Endian.{little_bytes, little_number, twos_complement};
ghost use Rattle.co_values.specs.Types.{octets};
ghost use Rattle.co_values.specs.Values.{value, number_in as number_of_bytes};

use crate::data_type::DataType;
use crate::form::{Form, Width};
use crate::little::to_le;
use crate::reading::{flag_text_bits, signed_text_bits, unsigned_text_bits};
use crate::spelling::Spelling;
use byteorder::{ByteOrder, LittleEndian};

/// The number that the low bytes of `bits` are without a sign.
fn unsigned_number(len: usize, bits: u64) -> i128
    requires low { 1 ≤ len }
    requires high { len ≤ 8 }
    ensures { result ≡ pos (little_number len (little_bytes len bits)) }
{
    i128::from(LittleEndian::read_uint(&to_le(bits)[..len], len))
}

/// The number that the low bytes of `bits` are in two's complement.
fn signed_number(width: Width, bits: u64) -> i128
    ensures { result ≡ twos_complement (octets width)
        (little_number (octets width) (little_bytes (octets width) bits)) }
{
    let len = width.octets();
    i128::from(LittleEndian::read_int(&to_le(bits)[..len], len))
}

/// The number of the value that a text of an EDS or DCF (CiA 306) spells at a node as a BOOLEAN or
/// an integer, from -2^63 to 2^64 - 1. `None` where it spells no value of the type, and for all
/// other types. Takes constant time and no memory.
#[tactic(auto, unfolding(crate::specs::Values::value, crate::specs::Values::number_in))]
pub fn integer_of(kind: DataType, text: &Spelling<'_>, node: u8) -> Option<i128>
    ensures { result ≡ option_and_then (number_of_bytes kind) (value kind text.now node) }
{
    match kind.form() {
        Form::Flag => {
            let bits = flag_text_bits(text, node)?;
            Some(unsigned_number(1, bits))
        }
        Form::Signed(width) => {
            let bits = signed_text_bits(width, text, node)?;
            Some(signed_number(width, bits))
        }
        Form::Unsigned(width) => {
            let bits = unsigned_text_bits(width, text, node)?;
            Some(unsigned_number(width.octets(), bits))
        }
        Form::Decimal(_) | Form::Characters | Form::HexPairs | Form::Unmodelled => None,
    }
}
