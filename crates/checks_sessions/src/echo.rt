//! A reader that shows what it gives.

use crate::recorded::line_len;
use std::io;
use std::io::{Read, Write};

/// Gives the lines of a text, one a read, and writes `> ` and the line first.
#[derive(Drop)]
pub struct Echo<'a, W> {
    rest: &'a [u8],
    /// Whether the next byte begins a line.
    begins: bool,
    shown: W,
}

/// Shows a line.
fn show<W: Write>(shown: &mut W, line: &[u8]) -> io::Result<()> {
    shown.write_all(b"> ")?;
    shown.write_all(line.strip_suffix(b"\n").unwrap_or(line))?;
    shown.write_all(b"\n")
}

impl<'a, W: Write> Echo<'a, W> {
    pub fn new(text: &'a [u8], shown: W) -> Self {
        Echo {
            rest: text,
            begins: true,
            shown,
        }
    }
}

impl<W: Write> Read for Echo<'_, W> {
    fn read(&mut self, buf: &mut [u8]) -> io::Result<usize> {
        if self.rest.is_empty() {
            return Ok(0);
        }
        let mut line = &self.rest[..line_len(self.rest)];
        if self.begins {
            show(&mut self.shown, line)?;
        }
        let given = line.read(buf)?;
        self.begins = line.is_empty();
        self.rest = &self.rest[given..];
        Ok(given)
    }
}
