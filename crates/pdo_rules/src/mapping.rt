//! The mapping of a PDO.

ghost use Rattle.std.specs.Prelude.{◌≡◌, ◌≤◌, ◌↔◌, IfOk, IsTrue};
ghost use Rattle.co_dict.specs.Mappings.{mapping_bits};

use std::alloc::{AllocError, Global};
use std::marker::Model;
use std::rc::Rc;

/// The mapping of a PDO (CiA 301): entries of 64 bits or fewer in all, as one that passes
/// `check_mapping` has. Copies share it.
#[derive(Drop)]
pub struct Mapping {
    entries: Rc<Vec<u32>>,
}

impl Model for Mapping {
    ghost use Rattle.std.specs.Prelude.{◌≤◌, ℕ, List};
    ghost use Rattle.co_dict.specs.Mappings.{mapping_bits};

    ghost Value = { List ℕ };

    ghost view = { λ m. m.entries.value.items };

    ghost invariant = { λ m. mapping_bits m.entries.value.items ≤ 64 };
}

impl Mapping {
    /// Entries of at most 64 bits.
    pub(crate) fn new(alloc: Global, entries: Vec<u32>) -> Result<Mapping, AllocError>
        requires { mapping_bits entries.items ≤ 64 }
        ensures { IfOk result (λ mapping. mapping ≡ entries.items) }
    {
        let entries = Rc::new(alloc, entries)?;
        Ok(Mapping { entries })
    }

    /// The entries, each with the index, the sub-index and the length in bits of what it maps.
    pub fn entries(&self) -> &[u32]
        ensures entries { result.now ≡ self.now }
        ensures fits { mapping_bits result.now ≤ 64 }
    {
        &self.entries
    }

    /// Whether the other one has the same entries.
    pub fn same(&self, other: &Mapping) -> bool
        ensures { IsTrue result ↔ (self.now ≡ other.now) }
    {
        self.entries() == other.entries()
    }
}

impl Clone for Mapping {
    ghost is_clone = { λ a b. b ≡ a };

    /// The same mapping, which it shares. Takes no memory.
    fn clone(&self) -> Result<Mapping, AllocError> {
        let entries = self.entries.clone()?;
        Ok(Mapping { entries })
    }
}
