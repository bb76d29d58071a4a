//! What work was done.
ghost use Rattle.std.specs.Prelude.{◌≡◌, ◌+◌, ◌-◌, ◌^◌, min};
ghost use Rattle.kept_values.specs.Work.{idle, Rises};

use std::marker::Model;

/// Counts of the segments that were run and of the parts that were built anew.
///
/// Each count stops at 2^64 - 1. A call takes constant time and no memory.
#[derive(Drop)]
pub struct Meter {
    segments: u64,
    parts: u64,
}

impl Model for Meter {
    ghost use Rattle.kept_values.specs.Work.{Work};

    ghost Value = { Work };

    ghost view = { λ m. record { segments = m.segments; parts = m.parts } };
}

impl Meter {
    /// A meter that has counted nothing.
    pub fn new() -> Meter
        ensures { result ≡ idle }
    {
        Meter {
            segments: 0,
            parts: 0,
        }
    }

    /// The number of segments that were run, up to 2^64 - 1.
    pub fn segments(&self) -> u64
        ensures { result ≡ self.now.segments }
    {
        self.segments
    }

    /// The number of parts that were built anew, up to 2^64 - 1.
    pub fn parts(&self) -> u64
        ensures { result ≡ self.now.parts }
    {
        self.parts
    }

    /// Counts one more segment that was run.
    pub fn ran(&mut self)
        ensures counted { self.new ≡ record self.old { segments = min (self.old.segments + 1) (2 ^ 64 - 1) } }
        ensures rises { Rises self.old self.new }
    {
        self.segments = self.segments.saturating_add(1);
    }

    /// Counts one more part that was built anew.
    pub fn refreshed(&mut self)
        ensures counted { self.new ≡ record self.old { parts = min (self.old.parts + 1) (2 ^ 64 - 1) } }
        ensures rises { Rises self.old self.new }
    {
        self.parts = self.parts.saturating_add(1);
    }
}
