//! What is shown of an entry.

use crate::sheet::{NODE, Sheet};
use crate::shown::{show_number, show_octets, show_text};
use co_dict::Entry;
use eds_device::{DataSheet, Origin, Section};
use node_parameters::judge;
use std::io;
use std::io::Write;

/// The texts that are judged as parameters.
const TEXTS: [&str; 5] = ["1", "-1", "300", "$NODEID", "ABCD"];

fn show_section(rt: &HostRuntime, section: &Section) -> io::Result<()> {
    print!(rt; " [")?;
    rt.stdout().write_all(section.name())?;
    print!(rt; "]")
}

/// The section that an entry stands in, and the highest sub-index of a compact object.
fn show_origin(rt: &HostRuntime, device: &DataSheet, index: u16, sub: u8) -> io::Result<()> {
    match device.origin(index, sub) {
        Some(Origin::Own(section)) => show_section(rt, section),
        Some(Origin::Compact(section, highest)) => {
            show_section(rt, section)?;
            print!(rt; " compact to {highest}")
        }
        None => Ok(()),
    }
}

/// The limits of an entry, at the end of a line.
fn show_limits(rt: &HostRuntime, entry: &Entry) -> io::Result<()> {
    show_number(rt, entry.low)?;
    print!(rt; " to")?;
    show_number(rt, entry.high)?;
    println!(rt; "")
}

/// What the EDS says of an entry.
fn show_said(rt: &HostRuntime, entry: &Entry) -> io::Result<()> {
    let (kind, access, mappable) = (entry.kind, entry.access, entry.mappable);
    print!(rt; " {kind:?} {access:?}, mappable: {mappable}, from")?;
    show_limits(rt, entry)
}

/// Where an entry stands, and what the EDS says of it.
fn show_line(rt: &HostRuntime, device: &DataSheet, index: u16, sub: u8) -> io::Result<()> {
    print!(rt; "{index:04X}:{sub:02X}")?;
    show_origin(rt, device, index, sub)?;
    match device.entry(NODE, index, sub) {
        Some(entry) => show_said(rt, &entry),
        None => println!(rt; " no entry"),
    }
}

/// The texts of its default and of its ParameterValue.
fn show_texts(rt: &HostRuntime, device: &DataSheet, index: u16, sub: u8) -> io::Result<()> {
    print!(rt; "  DefaultValue:")?;
    show_text(rt, device.default_text(index, sub))?;
    print!(rt; "  ParameterValue:")?;
    show_text(rt, device.value_text(index, sub))
}

/// Whether the shape has this entry and its index, and the value that it begins with.
fn show_kept(rt: &HostRuntime, sheet: &Sheet<'_>, index: u16, sub: u8) -> io::Result<()> {
    let is_same = sheet.shape.entry(index, sub).copied() == sheet.device.entry(NODE, index, sub);
    let has_index = sheet.shape.has_index(index);
    println!(rt; "  shape as said: {is_same}, index there: {has_index}")?;
    print!(rt; "  begins with:")?;
    show_octets(rt, sheet.defaults.read(index, sub))
}

/// What a text gives it as a parameter.
fn show_given(
    rt: &HostRuntime,
    sheet: &Sheet<'_>,
    index: u16,
    sub: u8,
    text: &str,
) -> io::Result<()> {
    match judge(rt.alloc(), sheet.device, NODE, index, sub, text.as_bytes())? {
        Ok(bytes) => show_octets(rt, Some(bytes.as_slice())),
        Err(fault) => println!(rt; " {fault:?}"),
    }
}

/// What some texts give it as parameters.
fn show_judgements(rt: &HostRuntime, sheet: &Sheet<'_>, index: u16, sub: u8) -> io::Result<()> {
    for text in &TEXTS {
        print!(rt; "  given {text}:")?;
        show_given(rt, sheet, index, sub, text)?;
    }
    Ok(())
}

/// Shows all that is said of an entry.
pub fn show_entry(rt: &HostRuntime, sheet: &Sheet<'_>, index: u16, sub: u8) -> io::Result<()> {
    show_line(rt, sheet.device, index, sub)?;
    show_texts(rt, sheet.device, index, sub)?;
    show_kept(rt, sheet, index, sub)?;
    show_judgements(rt, sheet, index, sub)
}
