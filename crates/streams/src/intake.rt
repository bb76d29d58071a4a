//! Readers whose calls and failed calls contracts can count.
ghost use Rattle.std.specs.Prelude.{ℕ, List, Option};
ghost use Rattle.std.specs.Io.{ReadsAtMost};
ghost use Rattle.std.specs.Io.KnownBytes.{ReadConsumes};
ghost use Rattle.streams.specs.Streams.{CallFails, CountsOne};

use std::io;

/// What is read from.
pub trait Intake {
    /// The bytes that reads will give from here on, where they are known.
    ghost remaining: { Self → Option (List ℕ) };

    /// The number of calls. It stops at 2^64 - 1.
    ghost reads: { Self → ℕ };

    /// The number of failed calls. It can go round, but not with one call.
    ghost failures: { Self → ℕ };

    /// Gives the next bytes into the front of the buffer, and their number: 0 only at the end, or
    /// where there is no room.
    fn read(&mut self, buf: &mut [u8]) -> io::Result<usize>
        ensures bound { ReadsAtMost result buf.new }
        ensures bytes { ReadConsumes (remaining self.old) (remaining self.new) result buf.new }
        ensures counted { CountsOne (reads self.old) (reads self.new) }
        ensures failed { CallFails (failures self.old) (failures self.new) result };
}
