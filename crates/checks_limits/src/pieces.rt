//! A reader that gives its bytes in pieces.

use std::alloc::Global;
use std::cell::Cell;
use std::io;
use std::io::{ErrorKind, Read};

/// Gives its bytes, at most so many a read; one read may fail, and those after it go on. At each
/// read it notes how many bytes the writer has let go out.
#[derive(Drop)]
pub struct Pieces<'a> {
    bytes: &'a [u8],
    step: usize,
    /// The number of the read that fails, from 0.
    failing: Option<usize>,
    /// What the read that fails says.
    kind: ErrorKind,
    gone_out: &'a Cell<usize>,
    noted: Vec<usize>,
}

impl<'a> Pieces<'a> {
    pub fn new(
        alloc: Global,
        bytes: &'a [u8],
        step: usize,
        failing: Option<usize>,
        gone_out: &'a Cell<usize>,
    ) -> Self {
        Pieces {
            bytes,
            step,
            failing,
            kind: ErrorKind::Other,
            gone_out,
            noted: Vec::new(alloc),
        }
    }

    /// The same reader, of which the read that fails says this.
    pub fn saying(self, kind: ErrorKind) -> Self {
        Pieces { kind, ..self }
    }

    /// For each read how many bytes had gone out.
    pub fn noted(&self) -> &[usize] {
        &self.noted
    }
}

impl Read for Pieces<'_> {
    fn read(&mut self, buf: &mut [u8]) -> io::Result<usize> {
        let number = self.noted.len();
        self.noted.push(self.gone_out.get())?;
        if self.failing == Some(number) {
            return Err(self.kind.into());
        }
        let length = self.bytes.len().min(self.step);
        let mut piece = &self.bytes[..length];
        let given = piece.read(buf)?;
        self.bytes = &self.bytes[given..];
        Ok(given)
    }
}
