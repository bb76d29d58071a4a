//! What a PDO goes by.

ghost use Rattle.std.specs.Prelude.{◌≡◌, ◌≤◌, ◌↔◌, IfOk, IsTrue};
ghost use Rattle.co_dict.specs.Mappings.{mapping_bits};
ghost use Rattle.pdo_rules.specs.Configured.{configuration_of, mapping_now};
ghost use Rattle.pdo_rules.specs.Working.{count_of, works as works_now};

use crate::communication::Communication;
use crate::mapping::Mapping;
use crate::working::{identifier, works};
use cia301::Identifier;
use co_dict::{Dict, Shape};
use std::alloc::{AllocError, Global};

/// The sub-index of a mapping object that has the count of its entries.
const COUNT: u8 = 0;

/// What a PDO that works goes by (CiA 301), until one of its entries is written. Copies share its mapping.
#[derive(Drop)]
pub struct Configuration {
    /// The identifier of its frames.
    pub identifier: Identifier,
    /// When it is sent or taken.
    pub communication: Communication,
    /// What it carries.
    pub mapping: Mapping,
}

/// The mapping of a PDO that works.
fn mapping_of_pdo(alloc: Global, dict: &Dict, object: u16) -> Result<Mapping, AllocError>
    requires object { object ≤ 0xFDFF }
    requires short { count_of dict.now object ≤ 64 }
    requires fits { mapping_bits (mapping_now dict.now object) ≤ 64 }
    ensures { IfOk result (λ mapping. mapping ≡ mapping_now dict.now object) }
{
    let mapping = object + 0x200;
    let count = dict.number_8(mapping, COUNT);
    let mut entries = Vec::with_capacity(alloc, usize::from(count))?;
    for i in 0..count {
        entries.push(dict.number_32(mapping, i + 1))?;
    }
    Mapping::new(alloc, entries)
}

impl Configuration {
    /// That of the PDO with a communication object, at most FDFFh; `None` where it doesn't work. Takes memory
    /// for its mapping, and time by the length of the mapping and the logarithm of the number of entries.
    #[tactic(auto, using(crate::proofs::WorkingLemmas::few, crate::proofs::WorkingLemmas::fits), unfolding(crate::specs::Configured::configuration_of))]
    pub fn of(
        alloc: Global,
        shape: &Shape,
        dict: &Dict,
        object: u16,
    ) -> Result<Option<Configuration>, AllocError>
        requires { object ≤ 0xFDFF }
        ensures { IfOk result (λ configuration. configuration ≡ configuration_of shape.now dict.now object) }
    {
        if !works(shape, dict, object) {
            return Ok(None);
        }
        let mapping = mapping_of_pdo(alloc, dict, object)?;
        Ok(Some(Configuration {
            identifier: identifier(dict, object),
            communication: Communication::of(shape, dict, object),
            mapping,
        }))
    }

    /// Whether the other one is the same.
    pub fn same(&self, other: &Configuration) -> bool
        ensures { IsTrue result ↔ (self.now ≡ other.now) }
    {
        self.identifier == other.identifier
            && self.communication == other.communication
            && self.mapping.same(&other.mapping)
    }

    /// Whether two PDOs go by the same, or neither works.
    pub fn are_same(one: &Option<Configuration>, other: &Option<Configuration>) -> bool
        ensures { IsTrue result ↔ (one.now ≡ other.now) }
    {
        match (one, other) {
            (Some(one), Some(other)) => one.same(other),
            (None, None) => true,
            _ => false,
        }
    }

    /// What a PDO goes by, if it works; the mapping is shared. Takes no memory.
    pub fn copy_of(
        configuration: &Option<Configuration>,
    ) -> Result<Option<Configuration>, AllocError>
        ensures { IfOk result (λ copy. copy ≡ configuration.now) }
    {
        match configuration {
            None => Ok(None),
            Some(configuration) => {
                let copy = configuration.clone()?;
                Ok(Some(copy))
            }
        }
    }
}

impl Clone for Configuration {
    ghost is_clone = { λ a b. b ≡ a };

    /// The same, of which it shares the mapping. Takes no memory.
    fn clone(&self) -> Result<Configuration, AllocError> {
        let mapping = self.mapping.clone()?;
        Ok(Configuration {
            identifier: self.identifier,
            communication: self.communication,
            mapping,
        })
    }
}
