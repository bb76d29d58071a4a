//! Bytes as lines of hexadecimal digits.
ghost use Rattle.std.specs.Prelude.{◌≡◌, ◌==◌, ◌++◌, ◌∷◌, [], length, IfOk, OnOk, cond};
ghost use Rattle.std.specs.Str.{byte};
ghost use Rattle.base.specs.Digits.{byte_digits};
ghost use Rattle.base.specs.Lines.{line_feed};
ghost use Rattle.base.specs.Hex.{hex_line, hex_text, digits_and_space};

use crate::digits::byte_digits;
use std::alloc::{AllocError, Global};

const ROW: usize = 16;

/// The characters that a byte takes with what stands behind it.
const WIDTH: usize = 3;

/// The bytes, 16 a line, two upper-case hexadecimal digits each, separated by one space.
#[tactic(auto, unfolding(crate::specs::Hex::hex_text))]
pub fn hex_text(alloc: Global, bytes: &[u8]) -> Result<Vec<u8>, AllocError>
    ensures { IfOk result (λ v. v.items ≡ hex_text bytes.now) }
{
    let mut out = Vec::with_capacity(alloc, bytes.len().saturating_mul(WIDTH))?;
    let mut rest = bytes;
    while !rest.is_empty() {
        let (row, after) = rest.split_at(ROW.min(rest.len()));
        push_line(&mut out, row)?;
        rest = after;
    }
    Ok(out)
}

fn push_line(out: &mut Vec<u8>, row: &[u8]) -> Result<(), AllocError>
    ensures { OnOk result (out.new.items ≡ out.old.items ++ hex_line row.now) }
{
    let mut rest = row;
    'fours: while let [a, b, c, d, after @ ..] = rest {
        push_four(out, *a, *b, *c, *d, end_before(after))?;
        rest = after;
    }
    'ones: while let [first, after @ ..] = rest {
        push_byte(out, *first, end_before(after))?;
        rest = after;
    }
    Ok(())
}

/// What stands before the bytes that are left in a line: a space, or where there are none its end.
fn end_before(after: &[u8]) -> u8
    ensures { result ≡ cond (length after.now == 0) line_feed (byte " ") }
{
    if after.is_empty() { b'\n' } else { b' ' }
}

/// Adds four bytes at once.
fn push_four(out: &mut Vec<u8>, a: u8, b: u8, c: u8, d: u8, end: u8) -> Result<(), AllocError>
    ensures { OnOk result (out.new.items ≡ out.old.items ++ (digits_and_space a (digits_and_space b (digits_and_space c (byte_digits d ++ end ∷ []))))) }
{
    let a = byte_digits(a);
    let b = byte_digits(b);
    let c = byte_digits(c);
    let d = byte_digits(d);
    out.extend_from_slice(&[
        a[0], a[1], b' ', b[0], b[1], b' ', c[0], c[1], b' ', d[0], d[1], end,
    ])?;
    Ok(())
}

fn push_byte(out: &mut Vec<u8>, byte: u8, end: u8) -> Result<(), AllocError>
    ensures { OnOk result (out.new.items ≡ out.old.items ++ (byte_digits byte ++ end ∷ [])) }
{
    out.extend_from_slice(&byte_digits(byte))?;
    out.push(end)?;
    Ok(())
}
