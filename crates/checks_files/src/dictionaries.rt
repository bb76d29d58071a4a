//! The entries and the values of a dictionary.

use crate::bytes::{number, place, show_text};
use crate::words::{ChangeWord, DictWord};
use co_dict::{Access, Dict, Entry, Shape};
use co_values::DataType;
use std::alloc::{AllocError, Global};
use std::io;

/// A heartbeat time of at most 1,000 milliseconds.
const HEARTBEAT: Entry = Entry {
    kind: DataType::Unsigned16,
    access: Access::ReadWrite,
    low: None,
    high: Some(1000),
    mappable: false,
};

/// A text that may not be written.
const NAME: Entry = Entry {
    kind: DataType::VisibleString,
    access: Access::Constant,
    low: None,
    high: None,
    mappable: false,
};

/// Values, a copy of what they were, and a shape.
#[derive(Drop)]
pub struct Kept {
    dict: Dict,
    copy: Dict,
    shape: Shape,
}

impl Kept {
    /// No values, and a shape of no entry, which allows the dummies 0002h and 0007h.
    pub fn new(alloc: Global) -> Kept {
        Kept {
            dict: Dict::new(alloc),
            copy: Dict::new(alloc),
            shape: Shape::new(alloc, [false, true, false, false, false, false, true]),
        }
    }

    /// Writes a value of at most 512 bytes.
    fn write(&mut self, index: u16, sub: u8, bytes: &[u8]) -> Result<(), AllocError> {
        if bytes.len() <= 512 {
            self.dict.write(index, sub, bytes)
        } else {
            Ok(())
        }
    }

    /// Keeps a copy of the values.
    fn keep(&mut self) -> Result<(), AllocError> {
        self.copy = self.dict.copy()?;
        Ok(())
    }

    /// Shows the value of an entry, that in the copy, and whether the two have the same values.
    fn show_values(&self, rt: &HostRuntime, index: u16, sub: u8) -> io::Result<()> {
        show_text(rt, self.dict.read(index, sub))?;
        show_text(rt, self.copy.read(index, sub))?;
        println!(rt; "  same: {}", self.dict.same(&self.copy))
    }

    /// Shows what the shape says of an entry.
    fn show_shaped(&self, rt: &HostRuntime, index: u16, sub: u8) -> io::Result<()> {
        match self.shape.entry(index, sub) {
            Some(entry) => println!(rt; "  {:?} {:?}", entry.kind, entry.access),
            None => println!(rt; "  no entry"),
        }
    }

    /// Shows whether an index is in the shape, and how many entries there are.
    fn show_index(&self, rt: &HostRuntime, index: u16) -> io::Result<()> {
        let (has_index, is_empty) = (self.shape.has_index(index), self.shape.is_empty());
        let count = self.shape.len();
        println!(rt; "  index: {has_index}, of {count}, none: {is_empty}")
    }

    /// Shows an entry of the shape, whether its index is there, and how many entries there are.
    fn show_entry(&self, rt: &HostRuntime, index: u16, sub: u8) -> io::Result<()> {
        self.show_shaped(rt, index, sub)?;
        self.show_index(rt, index)
    }

    /// Shows whether RPDOs may map the dummy of a type.
    fn show_dummy(&self, rt: &HostRuntime, text: &[u8]) -> io::Result<()> {
        let kind = (number(text) % 0x10000) as u16;
        println!(rt; "  {}", self.shape.dummy_allowed(kind))
    }
}

/// Shows the value of an entry (`value-of`), an entry of the shape (`entry`), or whether RPDOs may map the
/// dummy of a type (`dummy`).
pub fn show_kept(rt: &HostRuntime, kept: &Kept, word: DictWord, text: &[u8]) -> io::Result<()> {
    let (index, sub, _bytes) = place(text);
    match word {
        DictWord::Value => kept.show_values(rt, index, sub),
        DictWord::Entry => kept.show_entry(rt, index, sub),
        DictWord::Dummy => kept.show_dummy(rt, text),
    }
}

/// Changes values and entries: `write`, `copy`, `heartbeat` and `name`.
pub fn change_kept(kept: &mut Kept, word: ChangeWord, text: &[u8]) -> Result<(), AllocError> {
    let (index, sub, bytes) = place(text);
    match word {
        ChangeWord::Write => kept.write(index, sub, bytes),
        ChangeWord::Copy => kept.keep(),
        ChangeWord::Heartbeat => kept.shape.insert(index, sub, HEARTBEAT),
        ChangeWord::Name => kept.shape.insert(index, sub, NAME),
    }
}
