//! The parameters of a node.
ghost use Rattle.std.specs.Prelude.{◌≡◌, ◌↔◌, ◌==◌, IsTrue, None, IfOk, OnOk, OnErr, option_copied};
ghost use Rattle.std.specs.FinMap as map;
ghost use Rattle.node_parameters.specs.Params.{is_full_for};

use base::Octets;
use std::alloc::{AllocError, Global};
use std::collections::BTreeMap;
use std::collections::btree_map::Iter;
use std::marker::Model;

const MAX_PARAMS: usize = 4096;

/// The parameters of a node: the text of each entry of its object dictionary that has one.
///
/// A call takes time by the logarithm of the number of parameters.
#[derive(Drop)]
pub struct Params {
    texts: BTreeMap<(u16, u8), Octets>,
}

impl Model for Params {
    ghost use Rattle.std.specs.Coded.{coded_ℕ, coded_list, coded×};
    ghost use Rattle.std.specs.FinMap as map;
    ghost use Rattle.node_parameters.specs.Params.{Texts};

    ghost Value = { Texts };

    ghost coded = { map.code (coded× coded_ℕ coded_ℕ) (coded_list coded_ℕ) };

    ghost view = { λ params. map.from_entries params.texts.entries };
}

/// Whether the same entries have the same texts.
fn same_texts(a: &Params, b: &Params) -> bool
    ensures { IsTrue result ↔ (map.entries a.now ≡ map.entries b.now) }
{
    let mut others = b.iter();
    for (place, text) in a.iter() {
        let Some((other_place, other)) = others.next() else {
            return false;
        };
        if *place != *other_place || text.as_slice() != other.as_slice() {
            return false;
        }
    }
    others.next().is_none()
}

impl Params {
    /// No parameters.
    pub fn new(alloc: Global) -> Self
        ensures { result ≡ map.empty }
    {
        Params {
            texts: BTreeMap::new(alloc),
        }
    }

    /// Equal parameters. Takes time and memory by the length of their texts.
    pub fn copy(&self) -> Result<Params, AllocError>
        ensures { IfOk result (λ params. params ≡ self.now) }
    {
        Ok(Params {
            texts: self.texts.clone()?,
        })
    }

    /// Whether the others have the same texts at the same entries. Takes time by the length of the
    /// texts up to the first difference, and no memory.
    pub fn same(&self, other: &Params) -> bool
        ensures { IsTrue result ↔ (self.now ≡ other.now) }
    {
        same_texts(self, other)
    }

    /// The number of parameters.
    pub fn len(&self) -> usize
        ensures { result ≡ map.len self.now }
    {
        self.texts.len()
    }

    /// Whether there is no parameter.
    pub fn is_empty(&self) -> bool
        ensures { result ≡ (map.len self.now == 0) }
    {
        self.len() == 0
    }

    /// The text of an entry, if it has one.
    pub fn get(&self, index: u16, sub: u8) -> Option<&[u8]>
        ensures { option_copied result ≡ map.get self.now (index, sub) }
    {
        match self.texts.get(&(index, sub)) {
            Some(text) => Some(text.as_slice()),
            None => None,
        }
    }

    /// The parameters by index and then by sub-index.
    pub fn iter(&self) -> Iter<'_, (u16, u8), Octets>
        ensures { result ≡ map.entries self.now }
    {
        self.texts.iter()
    }

    /// Whether an entry has a text.
    pub fn contains(&self, index: u16, sub: u8) -> bool
        ensures { result ≡ map.contains_key self.now (index, sub) }
    {
        self.get(index, sub).is_some()
    }

    /// Whether no other entry than the known ones can have a text.
    pub fn is_full_for(&self, index: u16, sub: u8) -> bool
        ensures { result ≡ is_full_for self.now (index, sub) }
    {
        self.len() >= MAX_PARAMS && !self.contains(index, sub)
    }

    /// Gives an entry a text, in place of any that it has. Want of memory changes nothing, and can
    /// come at an entry without a text alone.
    pub fn put(&mut self, index: u16, sub: u8, text: Octets) -> Result<(), AllocError>
        ensures ok { OnOk result (self.new ≡ map.insert self.old (index, sub) text) }
        ensures err { OnErr result (self.new ≡ self.old) }
        ensures absent { OnErr result (map.get self.old (index, sub) ≡ None) }
    {
        self.texts.insert((index, sub), text)?;
        Ok(())
    }

    /// Takes the text of an entry away, if it has one.
    pub fn remove(&mut self, index: u16, sub: u8)
        ensures { self.new ≡ map.remove self.old (index, sub) }
    {
        self.texts.remove(&(index, sub));
    }
}
