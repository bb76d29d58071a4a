//! What a node holds of what was written to it.

use crate::marks::{Mark, Marks};
use anyhow::Result;
use co_dict::Dict;
use concise_dcf::Write as Written;
use std::alloc::{AllocError, Global};
use std::io::Write;
use std::rc::Rc;

/// What an entry holds, and whether it is what the last write to it gave.
#[derive(Drop)]
struct HeldEntry {
    index: u16,
    sub: u8,
    bytes: Vec<u8>,
    is_as_written: bool,
}

/// What the entries of a node hold after a moment: each that its writes name, in the order of the last write to it.
#[derive(Drop)]
pub struct Holding {
    moment: u64,
    node: u8,
    entries: Vec<HeldEntry>,
}

/// Whether a write is to the same entry as another.
fn is_to_same(write: &Written, other: &Written) -> bool {
    write.index == other.index && write.sub == other.sub
}

/// Whether none of these writes is to the same entry.
fn is_last(write: &Written, later: &[Rc<Written>]) -> bool {
    !later.iter().any(|other| is_to_same(write, other))
}

/// The bytes that an entry holds, none where it has no value.
fn bytes_of<'a>(values: &'a Dict, write: &Written) -> &'a [u8] {
    values.read(write.index, write.sub).unwrap_or(&[])
}

/// The entry of the last write to it.
fn entry_of(alloc: Global, values: &Dict, write: &Written) -> Result<HeldEntry, AllocError> {
    let bytes = Vec::from_slice(alloc, bytes_of(values, write))?;
    let is_as_written = bytes.as_slice() == write.bytes.as_slice();
    Ok(HeldEntry {
        index: write.index,
        sub: write.sub,
        bytes,
        is_as_written,
    })
}

/// Adds the entry of the first of these writes, if no later one of them is to the same.
fn add_first(
    alloc: Global,
    values: &Dict,
    writes: &[Rc<Written>],
    entries: &mut Vec<HeldEntry>,
) -> Result<(), AllocError> {
    let Some((write, later)) = writes.split_first() else {
        return Ok(());
    };
    if is_last(write, later) {
        entries.push(entry_of(alloc, values, write)?)?;
    }
    Ok(())
}

/// The entries that writes name.
fn entries_of(
    alloc: Global,
    values: &Dict,
    writes: &[Rc<Written>],
) -> Result<Vec<HeldEntry>, AllocError> {
    let mut entries = Vec::new(alloc);
    for place in 0..writes.len() {
        add_first(alloc, values, &writes[place..], &mut entries)?;
    }
    Ok(entries)
}

/// Shows bytes, two digits each.
fn show_bytes<W: Write>(out: &mut W, bytes: &[u8]) -> Result<()> {
    for byte in bytes {
        write!(out, "{byte:02X}")?;
    }
    Ok(())
}

impl HeldEntry {
    /// Whether it is marked after a moment.
    fn is_marked(&self, moment: u64, node: u8, marks: &Marks) -> bool {
        marks.has(Mark {
            moment,
            node,
            index: self.index,
            sub: self.sub,
        })
    }

    /// Shows it.
    fn show<W: Write>(&self, out: &mut W, is_marked: bool) -> Result<()> {
        let (index, sub) = (self.index, self.sub);
        write!(out, "    {index:04X} {sub:02X} ")?;
        show_bytes(out, &self.bytes)?;
        let held = if self.is_as_written {
            "as written"
        } else {
            "another"
        };
        let mark = if is_marked { " marked" } else { "" };
        writeln!(out, " {held}{mark}")?;
        Ok(())
    }
}

impl Holding {
    /// What a node holds after a moment, where these are its values and its writes.
    pub fn of(
        alloc: Global,
        moment: u64,
        node: u8,
        values: Option<&Dict>,
        writes: &[Rc<Written>],
    ) -> Result<Holding, AllocError> {
        let entries = match values {
            None => Vec::new(alloc),
            Some(values) => entries_of(alloc, values, writes)?,
        };
        Ok(Holding {
            moment,
            node,
            entries,
        })
    }

    /// Shows it.
    pub fn show<W: Write>(&self, out: &mut W, marks: &Marks) -> Result<()> {
        let (moment, node) = (self.moment, self.node);
        writeln!(out, "  at {moment} node {node}")?;
        for entry in &self.entries {
            entry.show(out, entry.is_marked(moment, node, marks))?;
        }
        Ok(())
    }
}
