//! The text of a value.

ghost use Rattle.std.specs.Prelude.{◌≡◌, ◌++◌, IfOk, codes, reverse};
ghost use Rattle.co_values.specs.Values.{text_of_value, text_of_value_in, pairs_of, Fits, FitsForm};

use crate::form::Form;
use crate::hex::push_pairs;
use crate::value::Value;
use byteorder::{ByteOrder, LittleEndian};
use real_texts::real_text;
use std::alloc::{AllocError, Global};

/// `0x` and the digits of an unsigned integer.
fn unsigned_text(alloc: Global, bytes: &[u8]) -> Result<Vec<u8>, AllocError>
    ensures { IfOk result (λ text. text.items ≡ codes "0x" ++ pairs_of (reverse bytes.now)) }
{
    let mut high_first = Vec::from_slice(alloc, bytes)?;
    high_first.reverse();
    push_pairs(Vec::from_slice(alloc, b"0x")?, &high_first)
}

/// The text of a value in a form.
fn text_in(alloc: Global, form: Form, bytes: &[u8]) -> Result<Vec<u8>, AllocError>
    requires { FitsForm form bytes.now }
    ensures { IfOk result (λ text. text.items ≡ text_of_value_in form bytes.now) }
{
    match form {
        Form::Flag => Ok(
            LittleEndian::read_uint(bytes, 1)
                .to_string(alloc)?
                .into_bytes(),
        ),
        Form::Signed(width) => Ok(
            LittleEndian::read_int(bytes, width.octets())
                .to_string(alloc)?
                .into_bytes(),
        ),
        Form::Unsigned(_) => unsigned_text(alloc, bytes),
        Form::Decimal(real) => real_text(alloc, real, bytes),
        Form::Characters => Vec::from_slice(alloc, bytes),
        Form::HexPairs => push_pairs(Vec::new(alloc), bytes),
        Form::Unmodelled => unreachable!(),
    }
}

/// The text of a value in a DCF (CiA 306): `0` or `1` for BOOLEAN, decimal digits for INTEGERn,
/// `0x` and 2 to 16 upper-case digits, two for each byte, for UNSIGNEDn, the exact decimal number for
/// REAL32 and REAL64, the bytes of a VISIBLE_STRING, and pairs of upper-case digits for OCTET_STRING
/// and DOMAIN. `value_of` reads it back at every node. Takes time and memory linear in the value, and
/// for a REAL those of `real_text`.
#[tactic(auto, unfolding(crate::specs::Values::text_of_value))]
pub fn hex_text(alloc: Global, value: &Value) -> Result<Vec<u8>, AllocError>
    requires { Fits value.now.kind value.now.bytes }
    ensures { IfOk result (λ text. text.items ≡ text_of_value value.now.kind value.now.bytes) }
{
    text_in(alloc, value.kind.form(), value.bytes.as_slice())
}
