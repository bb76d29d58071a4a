//! How the slot of a frame is counted.

/// Which bits a frame takes on the simulated bus (ISO 11898-1).
#[derive(Clone, Copy, Debug, PartialEq, Eq)]
pub enum SlotRule {
    /// Those of its fields and of the intermission, without stuff bits.
    Unstuffed,
    /// These and its stuff bits, as on a wire.
    Stuffed,
}
