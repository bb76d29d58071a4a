//! Which waiting frames are dropped.
ghost use Rattle.std.specs.Prelude.{◌≡◌};
ghost use Rattle.can_frame.specs.WaitingFrames.{is_unwanted as is_unwanted_by};

use crate::purpose::Purpose;

/// Which waiting frames are dropped.
#[derive(Clone, Copy, Debug)]
pub enum Unwanted {
    /// All.
    All,
    /// The TPDOs.
    Tpdos,
    /// The SDO frames of or to any node.
    Sdos,
    /// The SDO frames of or to a node.
    SdoOf(u8),
    /// The emergency objects.
    Emergencies,
}

impl Unwanted {
    /// Whether frames of a purpose are dropped.
    pub fn includes(self, purpose: Purpose) -> bool
        ensures { result ≡ is_unwanted_by self purpose }
    {
        match (self, purpose) {
            (Unwanted::All, _) => true,
            (Unwanted::Tpdos, Purpose::Tpdo(_)) => true,
            (Unwanted::Sdos, Purpose::Sdo(_)) => true,
            (Unwanted::SdoOf(node), Purpose::Sdo(other)) => node == other,
            (Unwanted::Emergencies, Purpose::Emergency) => true,
            _ => false,
        }
    }
}
