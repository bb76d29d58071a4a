//! A writer that makes trouble.

use std::alloc::Global;
use std::cell::Cell;
use std::io;
use std::io::{ErrorKind, Write};

/// The trouble that a writer makes. It goes on after a call that failed.
#[derive(Clone, Copy, PartialEq, Eq)]
pub enum Trouble {
    /// None at all.
    Nothing,
    /// The write of this number fails, from 0.
    Write(usize),
    /// The flush of this number fails, from 0.
    Flush(usize),
    /// It takes so many bytes and no more.
    Room(usize),
    /// None, but it takes at most so many bytes a call.
    Step(usize),
}

/// Keeps what it takes, counts its calls, and notes how many bytes have gone out: those that it had
/// at the last flush.
#[derive(Drop)]
pub struct Narrow<'a> {
    text: Vec<u8>,
    trouble: Trouble,
    writes: usize,
    flushes: usize,
    gone_out: &'a Cell<usize>,
}

impl<'a> Narrow<'a> {
    pub fn new(alloc: Global, trouble: Trouble, gone_out: &'a Cell<usize>) -> Self {
        Narrow {
            text: Vec::new(alloc),
            trouble,
            writes: 0,
            flushes: 0,
            gone_out,
        }
    }

    pub fn text(&self) -> &[u8] {
        &self.text
    }

    pub fn writes(&self) -> usize {
        self.writes
    }

    /// Whether a call has failed, or taken no byte.
    pub fn was_troubled(&self) -> bool {
        match self.trouble {
            Trouble::Nothing | Trouble::Step(_) => false,
            Trouble::Write(number) => number < self.writes,
            Trouble::Flush(number) => number < self.flushes,
            Trouble::Room(room) => room == self.text.len(),
        }
    }

    /// How many more bytes are taken, at most, by one call.
    fn room(&self) -> usize {
        match self.trouble {
            Trouble::Room(room) => room.saturating_sub(self.text.len()),
            Trouble::Step(step) => step,
            Trouble::Nothing | Trouble::Write(_) | Trouble::Flush(_) => usize::MAX,
        }
    }
}

impl Write for Narrow<'_> {
    fn write(&mut self, buf: &[u8]) -> io::Result<usize> {
        let number = self.writes;
        self.writes = number.saturating_add(1);
        if self.trouble == Trouble::Write(number) {
            return Err(ErrorKind::Other.into());
        }
        let taken = buf.len().min(self.room());
        self.text.extend_from_slice(&buf[..taken])?;
        Ok(taken)
    }

    fn flush(&mut self) -> io::Result<()> {
        let number = self.flushes;
        self.flushes = number.saturating_add(1);
        if self.trouble == Trouble::Flush(number) {
            return Err(ErrorKind::Other.into());
        }
        self.gone_out.set(self.text.len());
        Ok(())
    }
}
