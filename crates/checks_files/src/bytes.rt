//! Bytes and numbers of lines, and how they are shown.

ghost use Rattle.std.specs.Prelude.{◌≤◌};

use co_values::read_number;
use std::alloc::{AllocError, Global};
use std::io;
use std::io::Write;

/// The number that a hexadecimal digit is, 0 for other bytes.
fn digit(byte: u8) -> u8
    ensures { result ≤ 15 }
{
    match byte {
        b'0'..=b'9' => byte - b'0',
        b'A'..=b'F' => byte - b'A' + 10,
        _ => 0,
    }
}

/// Adds what stands first in a text, and gives what follows: a backslash with `n`, `r`, `t` or `s` (a blank)
/// is one byte, and so is one with `x` and two hexadecimal digits.
fn put_first<'a>(bytes: &mut Vec<u8>, text: &'a [u8]) -> Result<&'a [u8], AllocError> {
    let (byte, after) = match text {
        [b'\\', b'n', after @ ..] => (b'\n', after),
        [b'\\', b'r', after @ ..] => (b'\r', after),
        [b'\\', b't', after @ ..] => (b'\t', after),
        [b'\\', b's', after @ ..] => (b' ', after),
        [b'\\', b'x', high, low, after @ ..] => (digit(*high) * 16 + digit(*low), after),
        [byte, after @ ..] => (*byte, after),
        [] => return Ok(text),
    };
    bytes.push(byte)?;
    Ok(after)
}

/// The bytes of a text with its backslashes.
pub fn plain(alloc: Global, text: &[u8]) -> Result<Vec<u8>, AllocError> {
    let mut bytes = Vec::new(alloc);
    let mut rest = text;
    for _ in 0..text.len() {
        rest = put_first(&mut bytes, rest)?;
    }
    Ok(bytes)
}

/// What stands before the first `|` of a text, and after it; nothing after it where there is none.
pub fn parted(text: &[u8]) -> (&[u8], &[u8]) {
    match text.iter().position(|byte| *byte == b'|') {
        Some(place) => (&text[..place], &text[place + 1..]),
        None => (text, b""),
    }
}

/// The number that a text spells, 0 where it spells none from 0 to 18,446,744,073,709,551,615.
pub fn number(text: &[u8]) -> u64 {
    let number = read_number(text).unwrap_or(0);
    u64::try_from(number).unwrap_or(0)
}

/// An index, a sub-index and what follows, with `|` between.
pub fn place(text: &[u8]) -> (u16, u8, &[u8]) {
    let (index, after) = parted(text);
    let (sub, rest) = parted(after);
    (
        (number(index) % 0x10000) as u16,
        (number(sub) % 0x100) as u8,
        rest,
    )
}

/// Shows bytes, two digits each, to the end of the line.
pub fn show_bytes(rt: &HostRuntime, bytes: &[u8]) -> io::Result<()> {
    print!(rt; " ")?;
    for byte in bytes {
        print!(rt; " {byte:02X}")?;
    }
    println!(rt; "")
}

/// Shows a text between marks.
pub fn show_text(rt: &HostRuntime, text: Option<&[u8]>) -> io::Result<()> {
    let Some(text) = text else {
        return println!(rt; "  none");
    };
    print!(rt; "  `")?;
    rt.stdout().write_all(text)?;
    println!(rt; "`")
}

/// Shows a number, if there is one.
pub fn show_number(rt: &HostRuntime, number: Option<i128>) -> io::Result<()> {
    match number {
        Some(number) => println!(rt; "  {number}"),
        None => println!(rt; "  none"),
    }
}
