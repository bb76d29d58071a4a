//! An identifier of 11 bits.
ghost use Rattle.std.specs.Prelude.{◌≡◌, ◌<◌, nat_eq};
ghost use Rattle.std.proofs.Common.{rules};
ghost use Rattle.std.specs.Cmp as Cmp;
ghost use Rattle.std.specs.Cmp.Rules.{comparing};
ghost use Rattle.std.specs.Ordering.{nat_cmp, as_partial_cmp};
ghost use Rattle.base.specs.Digits.{identifier_digits};
ghost use Rattle.cia301.specs.CobIds.{identifier_in, is_restricted as is_restricted_id};

use std::cmp::Ordering;
use std::marker::Model;

/// Whether an identifier is one that no PDO may have (CiA 301, restricted CAN-IDs): 000h to 07Fh,
/// 101h to 180h, 581h to 5FFh, 601h to 67Fh, 6E0h to 6FFh and 701h to 7FFh.
#[tactic(auto, unfolding(crate::specs::CobIds::is_restricted))]
pub fn is_restricted(id: u16) -> bool
    ensures { result ≡ is_restricted_id id }
{
    matches!(
        id,
        0..=0x7F | 0x101..=0x180 | 0x581..=0x5FF | 0x601..=0x67F | 0x6E0..=0x6FF | 0x701..=0x7FF
    )
}

/// An identifier of 11 bits (CiA 301: bits 0 to 10 of a COB-ID), 0 to 7FFh, in the order of the numbers.
#[derive(Clone, Copy, Debug)]
pub struct Identifier {
    number: u16,
}

impl Model for Identifier {
    ghost use Rattle.std.specs.Prelude.{ℕ, ◌<◌};

    ghost Value = { ℕ };

    ghost view = { λ identifier. identifier.number };

    ghost invariant = { λ identifier. identifier.number < 0x800 };

    ghost inverse = { λ number. record { number = number } };
}

impl Identifier {
    /// The identifier of a COB-ID.
    pub(crate) fn of_cob(cob: u32) -> Self
        ensures { result ≡ identifier_in cob }
    {
        Identifier {
            number: (cob % 0x800) as u16,
        }
    }

    /// Its number, below 800h.
    pub fn number(&self) -> u16
        ensures number { result ≡ self.now }
        ensures below { result < 0x800 }
    {
        self.number
    }

    /// Whether it is one that no PDO may have (CiA 301, restricted CAN-IDs).
    pub fn is_restricted(&self) -> bool
        ensures { result ≡ is_restricted_id self.now }
    {
        is_restricted(self.number)
    }

    /// Its three upper-case hexadecimal digits.
    pub fn digits(&self) -> [u8; 3]
        ensures { result ≡ identifier_digits self.now }
    {
        base::identifier_digits(self.number)
    }
}

impl PartialEq for Identifier {
    ghost eq = { nat_eq };

    ghost laws = { Prim.search (comparing, rules) };

    fn eq(&self, other: &Identifier) -> bool {
        self.number == other.number
    }
}

impl Eq for Identifier {
    ghost laws = { Prim.search (comparing, rules) };
}

impl PartialOrd for Identifier {
    ghost partial_cmp = { as_partial_cmp nat_cmp };

    ghost laws = { Cmp.partial_order_from_own_ties (Prim.search (comparing, rules)) (Prim.search (comparing, rules)) };

    fn partial_cmp(&self, other: &Identifier) -> Option<Ordering> {
        Some(self.cmp(other))
    }
}

impl Ord for Identifier {
    ghost cmp = { nat_cmp };

    ghost total = { Prim.search (comparing, rules) };

    ghost matches_partial_cmp = { Prim.search (comparing, rules) };

    ghost matches_eq = { Prim.search (comparing, rules) };

    fn cmp(&self, other: &Identifier) -> Ordering {
        self.number.cmp(&other.number)
    }
}
