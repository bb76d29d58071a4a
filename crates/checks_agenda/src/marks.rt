//! Which entries are marked.

use anyhow::Result;
use std::alloc::{AllocError, Global};

/// That an entry of a node is marked after a moment in microseconds.
#[derive(Clone, Copy, PartialEq, Eq)]
pub struct Mark {
    pub moment: u64,
    pub node: u8,
    pub index: u16,
    pub sub: u8,
}

/// The marks that the input gives.
#[derive(Drop)]
pub struct Marks {
    items: Vec<Mark>,
}

/// The number that a text has, 0 where it has none.
fn decimal(text: &str) -> u64 {
    text.parse::<u64>().unwrap_or(0)
}

/// The number of hexadecimal digits, 0 where they are none up to FFFFh.
fn hexadecimal(text: &str) -> u16 {
    u16::from_str_radix(text, 16).unwrap_or(0)
}

/// What stands before the first blank of a text, and after it.
fn parted(text: &str) -> (&str, &str) {
    text.split_once(' ').unwrap_or((text, ""))
}

/// The mark that a text names: moment and node, index and sub-index in hexadecimal digits.
fn mark_of(text: &str) -> Mark {
    let (moment, rest) = parted(text);
    let (node, rest) = parted(rest);
    let (index, sub) = parted(rest);
    Mark {
        moment: decimal(moment),
        node: u8::try_from(decimal(node)).unwrap_or(0),
        index: hexadecimal(index),
        sub: u8::try_from(hexadecimal(sub)).unwrap_or(0),
    }
}

impl Marks {
    /// No marks.
    pub fn none(alloc: Global) -> Marks {
        Marks {
            items: Vec::new(alloc),
        }
    }

    /// Takes the mark that a text names.
    pub fn take(&mut self, text: &str) -> Result<(), AllocError> {
        self.items.push(mark_of(text))?;
        Ok(())
    }

    /// Whether this mark is among them.
    pub fn has(&self, mark: Mark) -> bool {
        self.items.iter().any(|other| *other == mark)
    }
}
