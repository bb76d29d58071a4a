//! INI texts.

use crate::bytes::{number, parted, show_text};
use crate::words::TextWord;
use anyhow::Result;
use ini_text::{Ini, IniFault, Section};
use std::alloc::{AllocError, Global};
use std::io;

/// The text that was read last.
#[derive(Drop)]
pub struct Texts {
    ini: Ini,
}

impl Texts {
    /// An empty text.
    pub fn new(alloc: Global) -> Result<Texts, IniFault> {
        Ok(Texts {
            ini: Ini::read(alloc, b"")?,
        })
    }
}

/// How many of the keys of a section give their value.
fn found_in(section: &Section) -> u64 {
    let mut found = 0u64;
    for pair in section.pairs() {
        if section.get(pair.key()) == Some(pair.value()) {
            found = found.saturating_add(1);
        }
    }
    found
}

/// Shows a section by its name, and how many of its keys give their value.
fn show_section(rt: &HostRuntime, section: &Section) -> io::Result<()> {
    println!(rt; "  values that are found: {}", found_in(section))?;
    show_text(rt, Some(section.name()))
}

/// Shows the lines with warnings.
fn show_warnings(rt: &HostRuntime, ini: &Ini) -> io::Result<()> {
    print!(rt; "  warned:")?;
    for line in ini.warnings() {
        print!(rt; " {line}")?;
    }
    println!(rt; "")
}

/// Shows the sections.
fn show_sections(rt: &HostRuntime, ini: &Ini) -> io::Result<()> {
    for section in ini.sections() {
        show_section(rt, section)?;
    }
    Ok(())
}

/// Shows the lines with warnings, and the sections.
fn show_lines(rt: &HostRuntime, ini: &Ini) -> io::Result<()> {
    show_warnings(rt, ini)?;
    show_sections(rt, ini)
}

/// Shows the text that is printed.
fn show_printed(rt: &HostRuntime, ini: &Ini) -> io::Result<()> {
    let printed = ini.print()?;
    show_text(rt, Some(printed.as_slice()))
}

/// Shows the lines with warnings, the sections, and the text that is printed.
fn show_read(rt: &HostRuntime, ini: &Ini) -> io::Result<()> {
    show_lines(rt, ini)?;
    show_printed(rt, ini)
}

/// A text of so many equal bytes with others before and after them.
fn long(alloc: Global, text: &[u8]) -> Result<Vec<u8>, AllocError> {
    let (first, after) = parted(text);
    let (count, after) = parted(after);
    let (byte, last) = parted(after);
    let mut long = Vec::from_slice(alloc, first)?;
    for _ in 0..number(count) {
        long.extend_from_slice(byte)?;
    }
    long.extend_from_slice(last)?;
    Ok(long)
}

/// Shows how many sections were read, or the fault that the text has.
fn show_outcome(rt: &HostRuntime, outcome: &Result<Ini, IniFault>) -> io::Result<()> {
    match outcome {
        Ok(ini) => println!(rt; "  sections: {}", ini.sections().len()),
        Err(fault) => println!(rt; "  {fault:?}"),
    }
}

/// Shows the fault of a text, if it has one.
fn show_fault(rt: &HostRuntime, text: &[u8]) -> io::Result<()> {
    let outcome = Ini::read(rt.alloc(), text);
    show_outcome(rt, &outcome)
}

/// Shows the fault of a `long` text, if it has one.
fn show_long(rt: &HostRuntime, text: &[u8]) -> io::Result<()> {
    let made = long(rt.alloc(), text)?;
    show_fault(rt, &made)
}

/// Shows a text as it is read.
fn read(rt: &HostRuntime, texts: &mut Texts, text: &[u8]) -> Result<()> {
    texts.ini = Ini::read(rt.alloc(), text)?;
    Ok(show_read(rt, &texts.ini)?)
}

/// Sets a value.
fn set(ini: &mut Ini, text: &[u8]) -> Result<(), AllocError> {
    let (section, after) = parted(text);
    let (key, value) = parted(after);
    ini.set(section, key, value)
}

/// Shows the text after a value is set.
fn show_set(rt: &HostRuntime, ini: &mut Ini, text: &[u8]) -> io::Result<()> {
    set(ini, text)?;
    show_read(rt, ini)
}

/// Shows the value that a section and a key get.
fn show_value(rt: &HostRuntime, ini: &Ini, text: &[u8]) -> io::Result<()> {
    let (section, key) = parted(text);
    show_text(rt, ini.get(section, key))
}

/// Shows an `ini` text as it is read; the value that a section and a key `get`; the text after one is
/// `set`; or the fault of a `long` text, of bytes before, a count, the bytes that come so often, and bytes
/// after.
pub fn show_ini(rt: &HostRuntime, texts: &mut Texts, word: TextWord, text: &[u8]) -> Result<()> {
    match word {
        TextWord::Read => read(rt, texts, text),
        TextWord::Set => Ok(show_set(rt, &mut texts.ini, text)?),
        TextWord::Get => Ok(show_value(rt, &texts.ini, text)?),
        TextWord::Long => Ok(show_long(rt, text)?),
    }
}
