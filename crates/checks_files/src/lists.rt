//! Lists of writes as concise DCFs, and bytes that are kept.

use crate::bytes::show_bytes;
use crate::words::ListWord;
use anyhow::Result;
use base::Octets;
use concise_dcf::{Write as Entry, decode, encode};
use std::alloc::{AllocError, Global};
use std::io;

/// 80000205h to 1400h:01, and 1 to 6000h:FFh.
fn two_writes(alloc: Global) -> Result<Vec<u8>, AllocError> {
    let mut writes = Vec::new(alloc);
    writes.push(Entry {
        index: 0x1400,
        sub: 1,
        bytes: Octets::from_slice(alloc, &[0x05, 0x02, 0, 0x80])?,
    })?;
    writes.push(Entry {
        index: 0x6000,
        sub: 0xFF,
        bytes: Octets::from_slice(alloc, &[1])?,
    })?;
    encode(alloc, &writes)
}

/// Shows a write.
fn show_write(rt: &HostRuntime, entry: &Entry) -> io::Result<()> {
    let (index, sub) = (entry.index, entry.sub);
    print!(rt; "  {index:04X}:{sub:02X}")?;
    show_bytes(rt, entry.bytes.as_slice())
}

/// Shows a copy of a write.
fn show_copy(rt: &HostRuntime, entry: &Entry) -> io::Result<()> {
    let copy = entry.clone()?;
    show_write(rt, &copy)
}

/// Shows how many writes there are, and a copy of each.
fn show_copies(rt: &HostRuntime, writes: &[Entry]) -> io::Result<()> {
    println!(rt; "  writes: {}", writes.len())?;
    for entry in writes {
        show_copy(rt, entry)?;
    }
    Ok(())
}

/// Shows the writes, or why the bytes are no list.
fn show_writes(rt: &HostRuntime, bytes: &[u8]) -> io::Result<()> {
    match decode(rt.alloc(), bytes) {
        Ok(writes) => show_copies(rt, &writes),
        Err(fault) => println!(rt; "  {fault:?}"),
    }
}

/// Shows how many bytes are kept.
fn show_length(rt: &HostRuntime, octets: &Octets) -> io::Result<()> {
    let (length, is_empty) = (octets.len(), octets.is_empty());
    println!(rt; "  length: {length}, none: {is_empty}")
}

/// Shows how many bytes are kept, and a copy of them.
fn show_copied(rt: &HostRuntime, octets: &Octets) -> io::Result<()> {
    show_length(rt, octets)?;
    let copy = octets.clone()?;
    show_bytes(rt, copy.as_slice())
}

/// Shows what bytes that are kept are handed on as.
fn show_handed_on(rt: &HostRuntime, octets: Octets) -> io::Result<()> {
    let again = Octets::from_vec(octets.into_vec());
    show_bytes(rt, again.as_slice())
}

/// Shows bytes that are kept, a copy of them, and what they are handed on as.
fn show_octets(rt: &HostRuntime, bytes: &[u8]) -> io::Result<()> {
    let octets = Octets::from_slice(rt.alloc(), bytes)?;
    show_copied(rt, &octets)?;
    show_handed_on(rt, octets)
}

/// Shows the list of two writes.
fn show_two(rt: &HostRuntime) -> io::Result<()> {
    let list = two_writes(rt.alloc())?;
    show_bytes(rt, &list)
}

/// Shows bytes as a `list` or as `octets`, or the list of `two` writes.
fn show_decoded(rt: &HostRuntime, word: ListWord, bytes: &[u8]) -> io::Result<()> {
    match word {
        ListWord::List => show_writes(rt, bytes),
        ListWord::Octets => show_octets(rt, bytes),
        ListWord::Two => show_two(rt),
    }
}

/// Shows the bytes of a `list` as the writes that they are, `octets` as such, and the list of `two` writes.
pub fn show_list(rt: &HostRuntime, word: ListWord, digits: &[u8]) -> Result<()> {
    let bytes = hex::decode(rt.alloc(), digits)?;
    Ok(show_decoded(rt, word, &bytes)?)
}
