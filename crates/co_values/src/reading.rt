//! Values from text.

ghost use Rattle.std.specs.Prelude.{◌≡◌, ◌≤◌, pos, None, Ok, IfOk, IfSome, is_some, option_map, option_and_then};
ghost use Rattle.byteorder.specs.Endian.{little_bytes};
ghost use Rattle.co_values.specs.Number.{formula, hexadecimal};
ghost use Rattle.co_values.specs.Values.{value, value_in, bytes_of_pairs, if_not_too_long, flag_bits as bits_of_flag};
ghost use Rattle.co_values.specs.Values.{unsigned_bits as bits_of_unsigned, signed_text_bits as bits_of_signed_text};

use crate::data_type::DataType;
use crate::form::{Form, Width};
use crate::hex::{is_paired, read_pairs};
use crate::little::to_le;
use crate::range::{flag_bits, signed_bits, unsigned_bits};
use crate::spelling::Spelling;
use crate::value::{LONGEST_VALUE, Value};
use base::Octets;
use real_texts::read_real;
use std::alloc::{AllocError, Global};

/// The bytes of a number, the lowest first.
fn number_bytes(
    alloc: Global,
    number: Option<u64>,
    len: usize,
) -> Result<Option<Octets>, AllocError>
    requires { len ≤ 8 }
    ensures bytes { IfOk result (λ bytes. bytes ≡ option_map (little_bytes len) number) }
    ensures none { number ≡ None → result ≡ Ok None }
{
    let Some(number) = number else {
        return Ok(None);
    };
    let bytes = to_le(number);
    Ok(Some(Octets::from_slice(alloc, &bytes[..len])?))
}

/// What a text spells as a BOOLEAN.
pub(crate) fn flag_text_bits(text: &Spelling<'_>, node: u8) -> Option<u64>
    ensures { result ≡ option_and_then bits_of_flag (formula text.now node) }
{
    flag_bits(text.number(node)?)
}

/// What a text spells as an unsigned integer.
pub(crate) fn unsigned_text_bits(width: Width, text: &Spelling<'_>, node: u8) -> Option<u64>
    ensures { result ≡ option_and_then (bits_of_unsigned width) (formula text.now node) }
{
    unsigned_bits(width, text.number(node)?)
}

/// What a text spells as a two's complement.
fn complement_bits(width: Width, text: &Spelling<'_>) -> Option<u64>
    ensures { result ≡ option_and_then (bits_of_unsigned width) (option_map pos (hexadecimal text.now)) }
{
    match text.digits() {
        Some(digits) => unsigned_bits(width, i128::from(digits)),
        None => None,
    }
}

/// What a text spells as a signed integer.
pub(crate) fn signed_text_bits(width: Width, text: &Spelling<'_>, node: u8) -> Option<u64>
    ensures { result ≡ bits_of_signed_text width text.now node }
{
    if let Some(number) = text.number(node) {
        if let Some(bits) = signed_bits(width, number) {
            return Some(bits);
        }
    }
    complement_bits(width, text)
}

/// The bytes that a text spells, where they are not too many.
fn characters(alloc: Global, text: &[u8]) -> Result<Option<Octets>, AllocError>
    ensures bytes { IfOk result (λ bytes. bytes ≡ if_not_too_long text.now) }
    ensures none { if_not_too_long text.now ≡ None → result ≡ Ok None }
{
    if text.len() <= LONGEST_VALUE {
        Ok(Some(Octets::from_slice(alloc, text)?))
    } else {
        Ok(None)
    }
}

/// Whether a text is pairs of hexadecimal digits, and not too many.
fn are_pairs(text: &[u8]) -> bool
    ensures { result ≡ is_some (option_and_then if_not_too_long (bytes_of_pairs text.now)) }
{
    text.len() <= 2 * LONGEST_VALUE && is_paired(text)
}

/// The bytes that pairs of hexadecimal digits spell, where they are not too many.
#[tactic(auto, using(crate::proofs::Pairs::short_pairs))]
fn pairs(alloc: Global, text: &[u8]) -> Result<Option<Octets>, AllocError>
    ensures bytes { IfOk result (λ bytes. bytes ≡ option_and_then if_not_too_long (bytes_of_pairs text.now)) }
    ensures none { option_and_then if_not_too_long (bytes_of_pairs text.now) ≡ None → result ≡ Ok None }
{
    if are_pairs(text) {
        let bytes = read_pairs(alloc, text)?;
        Ok(Some(Octets::from_vec(bytes)))
    } else {
        Ok(None)
    }
}

/// The bytes that a text spells in a form.
fn bytes_of(
    alloc: Global,
    form: Form,
    text: &Spelling<'_>,
    node: u8,
) -> Result<Option<Octets>, AllocError>
    ensures bytes { IfOk result (λ bytes. bytes ≡ value_in form text.now node) }
    ensures none { value_in form text.now node ≡ None → result ≡ Ok None }
{
    match form {
        Form::Flag => number_bytes(alloc, flag_text_bits(text, node), 1),
        Form::Signed(width) => number_bytes(
            alloc,
            signed_text_bits(width, text, node),
            width.octets(),
        ),
        Form::Unsigned(width) => number_bytes(
            alloc,
            unsigned_text_bits(width, text, node),
            width.octets(),
        ),
        Form::Decimal(real) => number_bytes(alloc, read_real(real, text.text()), real.octets()),
        Form::Characters => characters(alloc, text.text()),
        Form::HexPairs => pairs(alloc, text.text()),
        Form::Unmodelled => Ok(None),
    }
}

/// Whether a text spells a value in a form.
fn has_bytes(form: Form, text: &Spelling<'_>, node: u8) -> bool
    ensures { result ≡ is_some (value_in form text.now node) }
{
    match form {
        Form::Flag => flag_text_bits(text, node).is_some(),
        Form::Signed(width) => signed_text_bits(width, text, node).is_some(),
        Form::Unsigned(width) => unsigned_text_bits(width, text, node).is_some(),
        Form::Decimal(real) => read_real(real, text.text()).is_some(),
        Form::Characters => text.text().len() <= LONGEST_VALUE,
        Form::HexPairs => are_pairs(text.text()),
        Form::Unmodelled => false,
    }
}

/// Whether a text spells a value of a type at a node, as `value_of` reads it. Takes constant time, and for
/// REAL32, REAL64, OCTET_STRING and DOMAIN time linear in the text. Needs no memory.
#[tactic(auto, unfolding(crate::specs::Values::value))]
pub fn is_spelled(kind: DataType, text: &Spelling<'_>, node: u8) -> bool
    ensures { result ≡ is_some (value kind text.now node) }
{
    has_bytes(kind.form(), text, node)
}

/// The value that a text spells at a node, as `value_of` reads it. Takes constant time for BOOLEAN and the
/// integers, and else time linear in the text; memory linear in the value.
#[tactic(auto, unfolding(crate::specs::Values::value))]
pub fn spelled_value(
    alloc: Global,
    kind: DataType,
    text: &Spelling<'_>,
    node: u8,
) -> Result<Option<Value>, AllocError>
    ensures kind { IfOk result (λ given. IfSome given (λ v. v.kind ≡ kind)) }
    ensures bytes { IfOk result (λ given. option_map (λ v. v.bytes) given ≡ value kind text.now node) }
    ensures none { value kind text.now node ≡ None → result ≡ Ok None }
{
    let bytes = bytes_of(alloc, kind.form(), text, node)?;
    match bytes {
        Some(bytes) => Ok(Some(Value { kind, bytes })),
        None => Ok(None),
    }
}

/// The value that a text of an EDS or DCF (CiA 306) spells at a node, as its data type reads it:
/// BOOLEAN and integers by a formula in range, INTEGERn also by its two's complement in hexadecimal
/// digits, REAL32 and REAL64 by a decimal number as the nearest value, where that is finite,
/// VISIBLE_STRING by its bytes, OCTET_STRING and DOMAIN by pairs of hexadecimal digits, up to 512
/// bytes. `None` where it spells none, for which no memory is needed. Takes time and memory
/// linear in the text.
pub fn value_of(
    alloc: Global,
    kind: DataType,
    text: &[u8],
    node: u8,
) -> Result<Option<Value>, AllocError>
    ensures kind { IfOk result (λ given. IfSome given (λ v. v.kind ≡ kind)) }
    ensures bytes { IfOk result (λ given. option_map (λ v. v.bytes) given ≡ value kind text.now node) }
    ensures none { value kind text.now node ≡ None → result ≡ Ok None }
{
    let text = Spelling::read(text);
    spelled_value(alloc, kind, &text, node)
}
