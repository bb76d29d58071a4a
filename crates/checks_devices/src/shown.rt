//! How bytes, texts and numbers are shown.

use std::io;
use std::io::Write;

/// Shows bytes as two digits each, on the line that a name began.
pub fn show_octets(rt: &HostRuntime, bytes: Option<&[u8]>) -> io::Result<()> {
    let Some(bytes) = bytes else {
        return println!(rt; " none");
    };
    for byte in bytes {
        print!(rt; " {byte:02X}")?;
    }
    println!(rt; "")
}

/// Shows a text as it is, on the line that a name began.
pub fn show_text(rt: &HostRuntime, text: Option<&[u8]>) -> io::Result<()> {
    let Some(text) = text else {
        return println!(rt; " none");
    };
    print!(rt; " `")?;
    rt.stdout().write_all(text)?;
    println!(rt; "`")
}

/// Shows a number that may be missing.
pub fn show_number(rt: &HostRuntime, number: Option<i128>) -> io::Result<()> {
    match number {
        Some(number) => print!(rt; " {number}"),
        None => print!(rt; " none"),
    }
}
