//! A frame that waits for the bus.
ghost use Rattle.std.specs.Prelude.{◌≡◌, ◌↔◌, IsTrue};

use crate::frame::Frame;
use crate::purpose::Purpose;

/// A frame that waits for the bus, and what it is for.
#[derive(Clone, Copy, Debug)]
pub struct Waiting {
    /// What it is for.
    pub purpose: Purpose,
    /// The frame.
    pub frame: Frame,
}

impl Waiting {
    /// Whether two waiting frames are the same, and for the same purpose.
    pub fn same(&self, other: &Waiting) -> bool
        ensures { IsTrue result ↔ (self.now ≡ other.now) }
    {
        self.purpose.is_same(other.purpose) && self.frame.same(&other.frame)
    }
}
