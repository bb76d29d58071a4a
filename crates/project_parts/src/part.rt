//! The names of parts.

use base::Octets;

/// A part of a project that is kept.
#[derive(Debug, Drop)]
pub enum Part {
    /// The device that the EDS of a name describes.
    Device(Octets),
    /// The plan of messages.
    Plan,
    /// The writes of the node of a number.
    Writes(u8),
    /// The concise DCF (CiA 302) of the node of a number.
    Concise(u8),
    /// The DCF (CiA 306) of the node of a number.
    Dcf(u8),
    /// The roster: bit rate, manager, when it starts nodes, and node numbers.
    Roster,
    /// What the node of a number has by its device: the values of its entries, the entries, and what identity is
    /// expected of it.
    Node(u8),
    /// The events of a window of 10,000 microseconds, by its number, 0 to 1000.
    Window(u16),
    /// All that is wrong with the project, with its lines.
    Diagnostics,
}
