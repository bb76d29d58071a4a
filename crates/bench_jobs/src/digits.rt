//! Numbers in digits, written faster than by a format: scripts of many edits have little else.

use std::alloc::AllocError;
use std::str;

/// Writes digits of ASCII.
fn put_ascii(script: &mut String, digits: &[u8]) -> Result<(), AllocError> {
    script.push_str(str::from_utf8(digits).unwrap_or("?"))
}

/// Writes a number in decimal digits.
pub fn put_decimal(script: &mut String, number: u32) -> Result<(), AllocError> {
    let mut digits = [b'0'; 10];
    let mut rest = number;
    for place in (0..10).rev() {
        digits[place] = b'0' + (rest % 10) as u8;
        rest /= 10;
        if rest == 0 {
            return put_ascii(script, &digits[place..]);
        }
    }
    Ok(())
}

/// Writes a number in hexadecimal digits.
pub fn put_hex(script: &mut String, number: u32) -> Result<(), AllocError> {
    let mut digits = [b'0'; 8];
    let mut rest = number;
    for place in (0..8).rev() {
        digits[place] = b"0123456789ABCDEF"[(rest % 16) as usize];
        rest /= 16;
        if rest == 0 {
            return put_ascii(script, &digits[place..]);
        }
    }
    Ok(())
}

/// Writes words, each a text or a number, one behind the other.
pub fn put_all(script: &mut String, words: &[Word<'_>]) -> Result<(), AllocError> {
    for word in words {
        match word {
            Word::Text(text) => script.push_str(text)?,
            Word::Decimal(number) => put_decimal(script, *number)?,
            Word::Hex(number) => put_hex(script, *number)?,
        }
    }
    Ok(())
}

/// A word of a command.
#[derive(Clone, Copy)]
pub enum Word<'a> {
    Text(&'a str),
    Decimal(u32),
    Hex(u32),
}
