//! A SYNC message.

ghost use Rattle.std.specs.Prelude.{◌≡◌};
ghost use Rattle.pdo_rules.specs.Sync.{sync_message};

/// A SYNC message as it was received (CiA 301).
#[derive(Clone, Copy, Debug, PartialEq, Eq)]
pub struct SyncMessage {
    /// Its counter: the byte of one that has exactly one; else none.
    pub counter: Option<u8>,
}

impl SyncMessage {
    /// That of these bytes.
    #[tactic(auto, unfolding(crate::specs::Sync::sync_message))]
    pub fn of(bytes: &[u8]) -> SyncMessage
        ensures { result ≡ sync_message bytes.now }
    {
        let counter = match bytes {
            [counter] => Some(*counter),
            _ => None,
        };
        SyncMessage { counter }
    }
}
