//! The SYNC of an instant, as a TPDO finds it.

ghost use Rattle.std.specs.Prelude.{◌≡◌};
ghost use Rattle.pdo_rules.specs.Sync.{has_counter};

/// The SYNC of an instant as a TPDO finds it in its turn (CiA 301).
#[derive(Clone, Copy, Debug, PartialEq, Eq)]
pub struct SyncSeen {
    /// Its counter; none where it has none.
    pub counter: Option<u8>,
    /// Whether the device counts SYNCs: its synchronous counter overflow value, 1019h:00, isn't 0.
    pub is_counted: bool,
}

impl SyncSeen {
    /// Whether it has a counter, which is this start value.
    pub(crate) fn has_counter(self, start: u8) -> bool
        ensures { result ≡ has_counter start self }
    {
        match self.counter {
            Some(counter) => counter == start,
            None => false,
        }
    }
}
