//! Values.

ghost use Rattle.std.specs.Prelude.{◌≡◌, IfOk};
ghost use Rattle.co_values.specs.Values.{IsValueOf, number_in as number_of_bytes, zero_value};

use crate::data_type::DataType;
use crate::form::Form;
use base::Octets;
use byteorder::{ByteOrder, LittleEndian};
use std::alloc::{AllocError, Global};

/// The longest value, in bytes, of a type without a fixed length.
pub(crate) const LONGEST_VALUE: usize = 512;

/// A value of a data type: its bytes as they travel, a number's lowest byte first (CiA 301).
#[derive(Clone, Debug, Drop)]
pub struct Value {
    pub kind: DataType,
    pub bytes: Octets,
}

/// The number that the bytes of a BOOLEAN or an integer are, from -2^63 to 2^64 - 1; `None` for the
/// other types.
#[tactic(auto, unfolding(crate::specs::Values::number_in))]
pub fn number_in(kind: DataType, bytes: &[u8]) -> Option<i128>
    requires { IsValueOf kind bytes.now }
    ensures { result ≡ number_of_bytes kind bytes.now }
{
    match kind.form() {
        Form::Flag => Some(i128::from(LittleEndian::read_uint(bytes, 1))),
        Form::Signed(width) => Some(i128::from(LittleEndian::read_int(bytes, width.octets()))),
        Form::Unsigned(width) => Some(i128::from(LittleEndian::read_uint(bytes, width.octets()))),
        Form::Decimal(_) | Form::Characters | Form::HexPairs | Form::Unmodelled => None,
    }
}

/// 0 or the empty string: the value of an entry that has no default (CiA 306). The empty string
/// also for a type that is not modelled.
pub fn default_value(alloc: Global, kind: DataType) -> Result<Value, AllocError>
    ensures kind { IfOk result (λ v. v.kind ≡ kind) }
    ensures bytes { IfOk result (λ v. v.bytes ≡ zero_value kind) }
{
    let len = kind.fixed_len().unwrap_or(0);
    let zeros = [0u8; 8];
    let bytes = Octets::from_slice(alloc, &zeros[..len])?;
    Ok(Value { kind, bytes })
}
