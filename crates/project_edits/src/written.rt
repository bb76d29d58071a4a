//! Words of a line, written at the end of an output.
ghost use Rattle.std.specs.Prelude.{◌≡◌, ◌<◌, ◌≤◌, ◌++◌, ◌∷◌, decimal, drop, length, OnOk, OnErr};
ghost use Rattle.std.specs.Io.{StartsWith};
ghost use Rattle.std.specs.Str.{byte};
ghost use Rattle.base.specs.Digits.{byte_digits, index_digits, identifier_digits};

use base::{byte_digits, identifier_digits, index_digits};
use std::alloc::AllocError;

/// Writes a space and a word.
pub(crate) fn write_word(out: &mut Vec<u8>, word: &[u8]) -> Result<(), AllocError>
    ensures written { OnOk result (out.new.items ≡ out.old.items ++ byte " " ∷ word.now) }
    ensures kept { OnErr result (StartsWith out.new.items out.old.items) }
{
    out.push(b' ')?;
    out.extend_from_slice(word)?;
    Ok(())
}

/// As many bytes as a space and the digits of a number of 64 bits take.
const ROW: usize = 21;

/// Puts a space and the decimal digits of a number at the end of a row, and returns where they start.
fn put_number(row: &mut [u8], number: u64) -> usize
    requires { length row.old ≡ 21 }
    ensures start { result ≤ length row.new }
    ensures written { drop result row.new ≡ byte " " ∷ decimal number }
{
    let mut at = ROW;
    let mut left = number;
    'digits: while left >= 10 {
        at -= 1;
        row[at] = b'0' + (left % 10) as u8;
        left /= 10;
    }
    row[at - 1] = b'0' + left as u8;
    row[at - 2] = b' ';
    at - 2
}

/// Writes a space and a number in decimal digits.
pub(crate) fn write_number(out: &mut Vec<u8>, number: u64) -> Result<(), AllocError>
    ensures written { OnOk result (out.new.items ≡ out.old.items ++ byte " " ∷ decimal number) }
    ensures kept { OnErr result (StartsWith out.new.items out.old.items) }
{
    let mut row = [b' '; ROW];
    let at = put_number(&mut row, number);
    out.extend_from_slice(&row[at..])?;
    Ok(())
}

/// Writes an index in four hexadecimal digits and a sub-index in two, a space before each.
pub(crate) fn write_place(out: &mut Vec<u8>, index: u16, sub: u8) -> Result<(), AllocError>
    ensures written { OnOk result (out.new.items
        ≡ out.old.items ++ byte " " ∷ index_digits index ++ byte " " ∷ byte_digits sub) }
    ensures kept { OnErr result (StartsWith out.new.items out.old.items) }
{
    let [first, second, third, fourth] = index_digits(index);
    let [high, low] = byte_digits(sub);
    out.extend_from_slice(&[b' ', first, second, third, fourth, b' ', high, low])?;
    Ok(())
}

/// Writes ` ID INDEX SUB`.
pub(crate) fn write_target(
    out: &mut Vec<u8>,
    node: u8,
    index: u16,
    sub: u8,
) -> Result<(), AllocError>
    ensures written { OnOk result (out.new.items ≡ out.old.items ++ byte " " ∷ decimal node
        ++ byte " " ∷ index_digits index ++ byte " " ∷ byte_digits sub) }
    ensures kept { OnErr result (StartsWith out.new.items out.old.items) }
{
    write_number(out, u64::from(node))?;
    write_place(out, index, sub)?;
    Ok(())
}

/// Writes a space and an identifier in three hexadecimal digits.
pub(crate) fn write_identifier(out: &mut Vec<u8>, identifier: u16) -> Result<(), AllocError>
    requires { identifier < 4096 }
    ensures written { OnOk result (out.new.items ≡ out.old.items ++ byte " " ∷ identifier_digits identifier) }
    ensures kept { OnErr result (StartsWith out.new.items out.old.items) }
{
    write_word(out, &identifier_digits(identifier))?;
    Ok(())
}
