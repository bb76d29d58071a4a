//! Numbers, formulas, values of each type and their texts.

use crate::bytes::{number, parted, show_bytes, show_number, show_text};
use crate::words::ValueWord;
use co_values::{
    DataType, Form, default_value, from_le, hex_text, read_formula, read_number, to_le, value_of,
    width_bits,
};
use std::alloc::{AllocError, Global};
use std::io;

/// The bytes that a text spells at node 127, and their text in a DCF.
fn spelled(
    alloc: Global,
    kind: DataType,
    text: &[u8],
) -> Result<Option<(Vec<u8>, Vec<u8>)>, AllocError> {
    let value = value_of(alloc, kind, text, 127)?;
    match value {
        Some(value) => {
            let text = hex_text(alloc, &value)?;
            Ok(Some((value.bytes.into_vec(), text)))
        }
        None => Ok(None),
    }
}

/// Shows the bytes that a text spells, if it spells a value.
fn show_again(rt: &HostRuntime, kind: DataType, text: &[u8]) -> io::Result<()> {
    match spelled(rt.alloc(), kind, text)? {
        Some((bytes, _printed)) => show_bytes(rt, &bytes),
        None => Ok(()),
    }
}

/// Shows bytes and their text.
fn show_both(rt: &HostRuntime, bytes: &[u8], printed: &[u8]) -> io::Result<()> {
    show_bytes(rt, bytes)?;
    show_text(rt, Some(printed))
}

/// Shows bytes, their text, and what that spells.
fn show_printed(rt: &HostRuntime, kind: DataType, bytes: &[u8], printed: &[u8]) -> io::Result<()> {
    show_both(rt, bytes, printed)?;
    show_again(rt, kind, printed)
}

/// Shows the bytes that a text spells, their text, and what that spells.
fn show_spelled(rt: &HostRuntime, kind: DataType, text: &[u8]) -> io::Result<()> {
    match spelled(rt.alloc(), kind, text)? {
        Some((bytes, printed)) => show_printed(rt, kind, &bytes, &printed),
        None => println!(rt; "  no value"),
    }
}

/// Shows the width of an integer's form.
fn show_form(rt: &HostRuntime, kind: DataType) -> io::Result<()> {
    match kind.form() {
        Form::Signed(width) | Form::Unsigned(width) => {
            let (bits, octets) = (width.bits(), width.octets());
            println!(rt; "  a number of {bits} bits, {octets} bytes")
        }
        _ => println!(rt; "  no number"),
    }
}

/// Shows the name of a data type, and whether values of it are modelled and integers.
fn show_kind(rt: &HostRuntime, kind: DataType) -> io::Result<()> {
    let (is_modelled, is_integer) = (kind.is_modelled(), kind.is_integer());
    println!(rt; "  {kind:?}, modelled: {is_modelled}, integer: {is_integer}")
}

/// Shows how many bits values of a data type have, where all have as many.
fn show_bits(rt: &HostRuntime, kind: DataType) -> io::Result<()> {
    match width_bits(kind) {
        Some(bits) => show_number(rt, Some(i128::from(bits))),
        None => show_number(rt, None),
    }
}

/// Shows how many bytes values of a data type have, where all have as many.
fn show_len(rt: &HostRuntime, kind: DataType) -> io::Result<()> {
    match kind.fixed_len() {
        Some(octets) => show_number(rt, Some(octets as i128)),
        None => show_number(rt, None),
    }
}

/// Shows what a data type is.
fn show_kind_and_widths(rt: &HostRuntime, kind: DataType) -> io::Result<()> {
    show_kind(rt, kind)?;
    show_bits(rt, kind)?;
    show_len(rt, kind)?;
    show_form(rt, kind)
}

/// Shows the value that an entry of a data type begins with.
fn show_default(rt: &HostRuntime, kind: DataType) -> io::Result<()> {
    let value = default_value(rt.alloc(), kind)?;
    show_bytes(rt, value.bytes.as_slice())
}

/// Shows what a data type is, and the value that an entry of it begins with.
fn show_type(rt: &HostRuntime, kind: DataType) -> io::Result<()> {
    show_kind_and_widths(rt, kind)?;
    show_default(rt, kind)
}

/// Shows the bytes of a number, and the number of these.
fn show_little(rt: &HostRuntime, number: u64) -> io::Result<()> {
    let bytes = to_le(number);
    show_bytes(rt, &bytes)?;
    show_number(rt, Some(i128::from(from_le(bytes))))
}

/// The data type of a code.
fn kind_of(code: &[u8]) -> DataType {
    DataType::of_code(read_number(code).unwrap_or(0))
}

/// Shows what a text spells as a value of the type whose code stands before it.
fn show_typed(rt: &HostRuntime, text: &[u8]) -> io::Result<()> {
    let (code, spelling) = parted(text);
    show_spelled(rt, kind_of(code), spelling)
}

/// Shows what a text spells: as a `number`, a `formula` at node 127, or a `value` of the type whose code
/// stands before it; what is said of the `type` of a code; or the bytes of a number (`little`).
pub fn show_value(rt: &HostRuntime, word: ValueWord, text: &[u8]) -> io::Result<()> {
    match word {
        ValueWord::Number => show_number(rt, read_number(text)),
        ValueWord::Formula => show_number(rt, read_formula(text, 127)),
        ValueWord::Little => show_little(rt, number(text)),
        ValueWord::Type => show_type(rt, kind_of(text)),
        ValueWord::Value => show_typed(rt, text),
    }
}
