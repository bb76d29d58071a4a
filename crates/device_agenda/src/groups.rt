//! Sets of groups of identifiers.

ghost use Rattle.std.specs.Prelude.{◌≡◌, ◌↔◌, ◌<◌, ◌==◌, ◌||◌, ℕ, IsTrue, false};
ghost use Rattle.std.specs.Int.{bit_at};
ghost use Rattle.device_agenda.specs.Groups.{group_of, includes};

/// A set of groups of identifiers: each is of one of 64, by its function code (CiA 301) and its two lowest bits.
#[derive(Clone, Copy, Debug)]
pub struct Groups {
    bits: u64,
}

/// The group of an identifier from 0 to 7FFh.
pub(crate) fn group_of(id: u16) -> u32
    requires { id < 0x800 }
    ensures group { result ≡ group_of id }
    ensures bound { result < 64 }
{
    u32::from(id / 128 * 4 + id % 4)
}

impl Groups {
    /// No groups.
    pub(crate) fn none() -> Groups
        ensures { (id : ℕ) → includes result id ≡ false }
    {
        Groups { bits: 0 }
    }

    /// These groups and that of an identifier from 0 to 7FFh.
    pub(crate) fn with(self, id: u16) -> Groups
        requires { id < 0x800 }
        ensures { (other : ℕ) → other < 0x800 → includes result other ≡ (group_of other == group_of id)
            || includes self other }
    {
        Groups {
            bits: self.bits | 1 << group_of(id),
        }
    }

    /// The groups of two sets.
    pub(crate) fn and(self, other: Groups) -> Groups
        ensures { (id : ℕ) → includes result id ≡ includes self id || includes other id }
    {
        Groups {
            bits: self.bits | other.bits,
        }
    }

    /// Whether the other set has the same groups.
    pub(crate) fn same(&self, other: &Groups) -> bool
        ensures { IsTrue result ↔ (self.now ≡ other.now) }
    {
        self.bits == other.bits
    }

    /// Whether a group is one of them.
    pub(crate) fn has(self, group: u32) -> bool
        requires { group < 64 }
        ensures { result ≡ (bit_at self.bits group == 1) }
    {
        (self.bits >> group) & 1 == 1
    }
}
