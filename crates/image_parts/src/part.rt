//! The names of parts.

/// The name of a part of an image. Nodes are 1 to 127.
#[derive(Clone, Copy, Debug, PartialEq, Eq, PartialOrd, Ord)]
pub enum Part {
    /// Bit rate, manager and nodes of the network.
    Roster,
    /// The values that the entries of a node have by its EDS.
    Defaults(u8),
    /// The entries of a node.
    Shape(u8),
    /// The device type and the identity that the manager expects of a node.
    Expect(u8),
    /// A write of the concise DCF of a node, counted from 0.
    Boot(u8, u32),
    /// The events of a window, counted from 0: window i has the 10,000 microseconds from 10,000 i on.
    Events(u32),
}
