//! What a line says after its word.

use anyhow::Result;
use std::alloc::Global;

/// A number, and two rows of bytes.
#[derive(Drop)]
pub struct Step {
    pub time: u64,
    pub head: Vec<u8>,
    pub data: Vec<u8>,
}

/// The number of the first two bytes, the highest first.
fn number(bytes: &[u8]) -> u16 {
    match bytes {
        [high, low, ..] => u16::from(*high) * 256 + u16::from(*low),
        _ => 0,
    }
}

/// An index and a sub-index, where these are three bytes.
fn place(bytes: &[u8]) -> Option<(u16, u8)> {
    match bytes {
        [_, _, sub] => Some((number(bytes), *sub)),
        _ => None,
    }
}

impl Step {
    /// Reads what stands after the word: a number, and hexadecimal digits twice. What is missing counts as
    /// 0 and as no bytes.
    pub fn read(alloc: Global, text: &str) -> Result<Step> {
        let (time, digits) = text.split_once(' ').unwrap_or((text, ""));
        let (head, data) = digits.split_once(' ').unwrap_or((digits, ""));
        Ok(Step {
            time: time.parse::<u64>().unwrap_or(0),
            head: hex::decode(alloc, head.as_bytes())?,
            data: hex::decode(alloc, data.as_bytes())?,
        })
    }

    /// The number of the first two bytes.
    pub fn number(&self) -> u16 {
        number(&self.head)
    }

    /// The number of the four second bytes, the highest first; 0 where they aren't four.
    pub fn long_number(&self) -> u32 {
        match self.data.as_slice() {
            [a, b, c, d] => u32::from_be_bytes([*a, *b, *c, *d]),
            _ => 0,
        }
    }

    /// The index and the sub-index of the first bytes.
    pub fn place(&self) -> Option<(u16, u8)> {
        place(&self.head)
    }

    /// The index and the sub-index of the second bytes.
    pub fn other_place(&self) -> Option<(u16, u8)> {
        place(&self.data)
    }
}
