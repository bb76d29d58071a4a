//! The identifiers of frames that may be something to a device.

ghost use Rattle.std.specs.Prelude.{◌≡◌, ◌<◌, ◌==◌, ℕ, false};
ghost use Rattle.device_agenda.specs.Reach.{Extends, reaches};

use crate::groups::Groups;
use crate::low_bytes::LowBytes;

/// The identifiers of frames that may be something to a device: those of both sets.
#[derive(Clone, Copy, Debug)]
pub(crate) struct Reach {
    pub(crate) groups: Groups,
    pub(crate) low_bytes: LowBytes,
}

impl Reach {
    /// None.
    pub(crate) fn none() -> Reach
        ensures { (id : ℕ) → reaches result id ≡ false }
    {
        Reach {
            groups: Groups::none(),
            low_bytes: LowBytes::none(),
        }
    }

    /// These and an identifier from 0 to 7FFh.
    pub(crate) fn with(self, id: u16) -> Reach
        requires { id < 0x800 }
        ensures kept { Extends self result }
        ensures with { (other : ℕ) → other < 0x800 → reaches result other ≡ false → (other == id) ≡ false }
    {
        let groups = self.groups.with(id);
        let low_bytes = self.low_bytes.with(id);
        Reach { groups, low_bytes }
    }
}
