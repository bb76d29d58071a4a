//! A frame on the wire.

ghost use Rattle.std.specs.Prelude.{◌≡◌, ◌↔◌, IsTrue};

use can_frame::Frame;

/// A frame on the wire.
#[derive(Clone, Copy, Debug)]
pub struct Slot {
    /// The moment at which it ends and is delivered, in microseconds.
    pub end: u64,
    /// Who sends it: `device_sender` or `manager_sender` of a number.
    pub sender: u16,
    /// The frame.
    pub frame: Frame,
}

impl Slot {
    /// Whether two slots are the same.
    pub fn same(&self, other: &Slot) -> bool
        ensures { IsTrue result ↔ (self.now ≡ other.now) }
    {
        self.end == other.end && self.sender == other.sender && self.frame.same(&other.frame)
    }
}
