//! The NMT states of a device.

ghost use Rattle.std.specs.Prelude.{◌≡◌};
ghost use Rattle.cia301.specs.NmtStates.{state_byte};

/// An NMT state (CiA 301). Initialisation isn't one: a device leaves it at once, for Pre-operational.
#[derive(Clone, Copy, Debug, PartialEq, Eq)]
pub enum NmtState {
    /// SDO, and no PDO.
    PreOperational,
    /// Everything.
    Operational,
    /// Network management and error control alone.
    Stopped,
}

impl NmtState {
    /// The byte by which a heartbeat tells the state: 127, 5 or 4.
    pub fn byte(self) -> u8
        ensures { result ≡ state_byte self }
    {
        match self {
            NmtState::PreOperational => 127,
            NmtState::Operational => 5,
            NmtState::Stopped => 4,
        }
    }
}
