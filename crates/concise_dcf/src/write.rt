//! A write to a dictionary.
ghost use Rattle.std.specs.Prelude.{◌≡◌, ◌↔◌, IsTrue};

use base::Octets;
use std::alloc::AllocError;

/// The bytes of the count of a concise DCF.
pub(crate) const COUNT_LEN: usize = 4;

/// The bytes of an entry before its data: index, sub-index and size.
pub(crate) const HEADER_LEN: usize = 7;

/// A write to one entry of an object dictionary, as an entry of a concise DCF carries it.
#[derive(Debug, Drop)]
pub struct Write {
    /// The index of the entry.
    pub index: u16,
    /// The sub-index of the entry.
    pub sub: u8,
    /// The data, as it travels: numbers with their lowest byte first.
    pub bytes: Octets,
}

impl Clone for Write {
    ghost is_clone = { λ a b. b ≡ a };

    fn clone(&self) -> Result<Write, AllocError> {
        let bytes = self.bytes.clone()?;
        Ok(Write {
            index: self.index,
            sub: self.sub,
            bytes,
        })
    }
}

impl Write {
    /// Whether the other write gives the same data to the same entry. Takes time by the length of the
    /// data, and no memory.
    pub fn same(&self, other: &Write) -> bool
        ensures { IsTrue result ↔ (self.now ≡ other.now) }
    {
        self.index == other.index
            && self.sub == other.sub
            && self.bytes.as_slice() == other.bytes.as_slice()
    }
}

/// Whether lists have the same writes in the same order. Takes time by the length of their data up to
/// the first difference, and no memory.
pub fn same_writes(a: &[Write], b: &[Write]) -> bool
    ensures { IsTrue result ↔ (a.now ≡ b.now) }
{
    if a.len() != b.len() {
        return false;
    }
    for i in 0..a.len() {
        if !a[i].same(&b[i]) {
            return false;
        }
    }
    true
}
