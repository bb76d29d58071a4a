//! A heartbeat consumer of a node.

/// A heartbeat consumer of a node (CiA 301, 1016h).
#[derive(Clone, Copy)]
pub struct HeartbeatConsumer {
    /// The number of the node that waits, 1 to 127.
    pub node: u8,
    /// The sub-index of the entry, from 1 on.
    pub sub: u8,
    /// The entry's value: the node that it waits for, and its time in milliseconds.
    pub number: u32,
}
