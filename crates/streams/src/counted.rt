//! Any reader or writer, with the numbers of its reads and of its failed calls.
ghost use Rattle.std.specs.Prelude.{◌≡◌, true};

use crate::intake::Intake;
use crate::outlet::Outlet;
use std::io;
use std::io::{Read, Write};

/// Any reader or writer, with the numbers of its reads and of its failed calls, and whether what it
/// took was flushed. Each call is passed on as it is. The number of reads stops at 2^64 - 1, that of
/// failed calls goes round there.
#[derive(Drop)]
pub struct Counted<T> {
    inner: T,
    reads: u64,
    failures: u64,
    flushed: bool,
}

impl<T> Counted<T> {
    /// The reader or writer, which wasn't read yet, and of which no call has failed.
    pub fn new(inner: T) -> Self
        ensures inner { result.inner ≡ inner }
        ensures reads { result.reads ≡ 0 }
        ensures failures { result.failures ≡ 0 }
        ensures flushed { result.flushed ≡ true }
    {
        Counted {
            inner,
            reads: 0,
            failures: 0,
            flushed: true,
        }
    }

    /// The reader or writer.
    pub fn inner(&self) -> &T
        ensures { result.now ≡ self.now.inner }
    {
        &self.inner
    }
}

impl<T: Read> Intake for Counted<T> {
    ghost remaining = { λ c. T.remaining c.inner };

    ghost reads = { λ c. c.reads };

    ghost failures = { λ c. c.failures };

    fn read(&mut self, buf: &mut [u8]) -> io::Result<usize> {
        self.reads = self.reads.saturating_add(1);
        let outcome = self.inner.read(buf);
        if outcome.is_err() {
            self.failures = self.failures.wrapping_add(1);
        }
        outcome
    }
}

impl<T: Write> Outlet for Counted<T> {
    ghost contents = { λ c. T.contents c.inner };

    ghost failures = { λ c. c.failures };

    ghost flushed = { λ c. c.flushed };

    fn write(&mut self, buf: &[u8]) -> io::Result<usize> {
        let outcome = self.inner.write(buf);
        self.flushed = false;
        let failed = match &outcome {
            Ok(n) => *n == 0 && !buf.is_empty(),
            Err(_) => true,
        };
        if failed {
            self.failures = self.failures.wrapping_add(1);
        }
        outcome
    }

    fn flush(&mut self) -> io::Result<()> {
        let outcome = self.inner.flush();
        if outcome.is_ok() {
            self.flushed = true;
        } else {
            self.failures = self.failures.wrapping_add(1);
        }
        outcome
    }
}
