//! A value as bits and as text.

use real_texts::{Real, bits_text, read_real};
use std::alloc::Global;
use std::io;
use std::io::Write;

/// Shows the bits of a value in hexadecimal digits.
fn show_bits<W: Write>(out: &mut W, real: Real, bits: u64) -> io::Result<()> {
    match real {
        Real::Real32 => write!(out, "{bits:08x} "),
        Real::Real64 => write!(out, "{bits:016x} "),
    }
}

/// Shows the value that a text gives, or that it gives none.
pub fn show<W: Write>(alloc: Global, out: &mut W, real: Real, text: &[u8]) -> io::Result<()> {
    let Some(bits) = read_real(real, text) else {
        return out.write_all(b"none\n");
    };
    let exact = bits_text(alloc, real, bits)?;
    show_bits(out, real, bits)?;
    out.write_all(&exact)?;
    out.write_all(b"\n")
}
