//! What a waiting frame is for.
ghost use Rattle.std.specs.Prelude.{◌≡◌};
ghost use Rattle.can_frame.specs.WaitingFrames.{is_same as same_purpose};

/// What a waiting frame is for (CiA 301).
#[derive(Clone, Copy, Debug)]
pub enum Purpose {
    /// The boot-up message of a node.
    BootUp,
    /// The heartbeat of a node.
    Heartbeat,
    /// The TPDO of a number.
    Tpdo(u16),
    /// An SDO request to a node, or an answer of it.
    Sdo(u8),
    /// The emergency object of a node.
    Emergency,
    /// The synchronization object.
    Sync,
    /// The time stamp object.
    Time,
    /// A command of the network management.
    Nmt,
}

impl Purpose {
    /// Whether two purposes are one.
    pub fn is_same(self, other: Purpose) -> bool
        ensures { result ≡ same_purpose self other }
    {
        match (self, other) {
            (Purpose::BootUp, Purpose::BootUp) => true,
            (Purpose::Heartbeat, Purpose::Heartbeat) => true,
            (Purpose::Tpdo(number), Purpose::Tpdo(another)) => number == another,
            (Purpose::Sdo(node), Purpose::Sdo(another)) => node == another,
            (Purpose::Emergency, Purpose::Emergency) => true,
            (Purpose::Sync, Purpose::Sync) => true,
            (Purpose::Time, Purpose::Time) => true,
            (Purpose::Nmt, Purpose::Nmt) => true,
            _ => false,
        }
    }
}
