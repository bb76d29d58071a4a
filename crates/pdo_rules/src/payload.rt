//! The bytes of a PDO.
ghost use Rattle.std.specs.Prelude.{◌≡◌, ◌≤◌, ◌↔◌, length, IsTrue};

use std::marker::Model;

const LONGEST: usize = 8;

/// The bytes of a PDO, at most 8.
#[derive(Clone, Copy, Debug)]
pub(crate) struct Payload {
    bytes: [u8; LONGEST],
    count: u8,
}

impl Model for Payload {
    ghost use Rattle.std.specs.Prelude.{ℕ, List, length, take};
    ghost use Rattle.pdo_rules.specs.Payloads.{IsStored};
    ghost use Rattle.base.specs.Bytes.{filled_up};

    ghost Value = { List ℕ };

    ghost view = { λ p. take p.count p.bytes };

    ghost invariant = { λ p. IsStored (take p.count p.bytes) p.bytes p.count };

    ghost inverse = { λ v. record { bytes = filled_up v; count = length v } };
}

impl Payload {
    /// At most 8 bytes.
    pub(crate) fn of(bytes: &[u8]) -> Payload
        requires { length bytes.now ≤ 8 }
        ensures { result ≡ bytes.now }
    {
        let mut stored = [0; LONGEST];
        stored[..bytes.len()].copy_from_slice(bytes);
        Payload {
            bytes: stored,
            count: bytes.len() as u8,
        }
    }

    /// The bytes.
    pub(crate) fn bytes(&self) -> &[u8]
        ensures { result.now ≡ self.now }
    {
        &self.bytes[..usize::from(self.count)]
    }

    /// Whether two have the same bytes.
    pub(crate) fn same(&self, other: &Payload) -> bool
        ensures { IsTrue result ↔ (self.now ≡ other.now) }
    {
        self.bytes() == other.bytes()
    }
}
