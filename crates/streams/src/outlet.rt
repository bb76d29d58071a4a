//! Writers whose failed calls contracts can count.
ghost use Rattle.std.specs.Prelude.{◌≡◌, ◌<◌, ℕ, Bool, true, false, List, Option, OnOk, IfOk};
ghost use Rattle.std.specs.Io.{WritesAtMost};
ghost use Rattle.std.specs.Io.KnownBytes.{Keeps, WriteAppends};
ghost use Rattle.streams.specs.Streams.{CallFails, WriteFails};

use std::io;

/// What is written to.
pub trait Outlet {
    /// The bytes that the writer holds, where they are known.
    ghost contents: { Self → Option (List ℕ) };

    /// The number of failed calls. A write of at least one byte that takes none is one. The number can
    /// go round, but not with one call.
    ghost failures: { Self → ℕ };

    /// Whether no byte was taken since the last flush that didn't fail.
    ghost flushed: { Self → Bool };

    /// Takes a front of the bytes, and gives its length.
    fn write(&mut self, buf: &[u8]) -> io::Result<usize>
        ensures bound { WritesAtMost result buf.now }
        ensures bytes { WriteAppends (contents self.old) (contents self.new) result buf.now }
        ensures failed { WriteFails (failures self.old) (failures self.new) result buf.now }
        ensures flushed { IfOk result (λ n. 0 < n → flushed self.new ≡ false) };

    /// Lets go out what was taken.
    fn flush(&mut self) -> io::Result<()>
        ensures bytes { Keeps (contents self.old) (contents self.new) }
        ensures failed { CallFails (failures self.old) (failures self.new) result }
        ensures flushed { OnOk result (flushed self.new ≡ true) };
}
