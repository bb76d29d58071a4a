//! The texts of EDS by name.
ghost use Rattle.std.specs.Prelude.{◌≡◌, ◌↔◌, IsTrue, None, IfOk, OnOk, OnErr, option_copied};
ghost use Rattle.std.specs.FinMap as map;
ghost use Rattle.project_messages.specs.Messages.{by_name};
ghost use Rattle.co_project.specs.Tables.{text_at, has_no_room};

use base::{Octets, Shared};
use std::alloc::{AllocError, Global};
use std::collections::BTreeMap;
use std::collections::btree_map::Iter;
use std::marker::Model;

const MAX_TEXTS: usize = 64;

/// The texts of EDS by name.
#[derive(Drop)]
pub(crate) struct Texts {
    texts: BTreeMap<Vec<u8>, Shared<Octets>>,
}

impl Model for Texts {
    ghost use Rattle.std.specs.Coded.{coded_ℕ, coded_list};
    ghost use Rattle.std.specs.FinMap as map;
    ghost use Rattle.project_messages.specs.Messages.{by_name};
    ghost use Rattle.co_project.specs.Tables.{Texts as TextsByName};

    ghost Value = { TextsByName };

    ghost coded = { map.code (coded_list coded_ℕ) (coded_list coded_ℕ) };

    ghost view = { λ t. map.from_entries (by_name t.texts.entries) };
}

/// Whether the same names have the same texts.
fn same_texts(a: &Texts, b: &Texts) -> bool
    ensures { IsTrue result ↔ (map.entries a.now ≡ map.entries b.now) }
{
    let mut others = b.iter();
    for (name, text) in a.iter() {
        let Some((other_name, other)) = others.next() else {
            return false;
        };
        if name.as_slice() != other_name.as_slice()
            || text.get().as_slice() != other.get().as_slice()
        {
            return false;
        }
    }
    others.next().is_none()
}

impl Texts {
    pub fn new(alloc: Global) -> Self
        ensures { result ≡ map.empty }
    {
        Texts {
            texts: BTreeMap::new(alloc),
        }
    }

    /// Equal texts, which are shared. Takes time and memory by their number and the length of their
    /// names, and not by that of the texts; want of memory is the only error.
    pub fn copy(&self) -> Result<Texts, AllocError>
        ensures { IfOk result (λ texts. texts ≡ self.now) }
    {
        let texts = self.texts.clone()?;
        Ok(Texts { texts })
    }

    /// Whether the others are the same by the same names. Takes time by the length of the texts up to
    /// the first difference, and no memory.
    pub fn same(&self, other: &Texts) -> bool
        ensures { IsTrue result ↔ (self.now ≡ other.now) }
    {
        same_texts(self, other)
    }

    pub fn len(&self) -> usize
        ensures { result ≡ map.len self.now }
    {
        self.texts.len()
    }

    pub fn get(&self, name: &[u8]) -> Option<&[u8]>
        ensures { option_copied result ≡ text_at self.now name.now }
    {
        match self.texts.get(name) {
            Some(text) => Some(text.get().as_slice()),
            None => None,
        }
    }

    pub fn contains(&self, name: &[u8]) -> bool
        ensures { result ≡ map.contains_key self.now name.now }
    {
        self.get(name).is_some()
    }

    /// Whether no other name than the known ones can have a text.
    pub fn has_no_room(&self, name: &[u8]) -> bool
        ensures { result ≡ has_no_room self.now name.now }
    {
        self.len() >= MAX_TEXTS && !self.contains(name)
    }

    pub fn iter(&self) -> Iter<'_, Vec<u8>, Shared<Octets>>
        ensures { by_name result ≡ map.entries self.now }
    {
        self.texts.iter()
    }

    /// Gives a name a text, in place of any that it has. Want of memory changes nothing, and can come
    /// at a name without a text alone.
    pub fn put(&mut self, name: Octets, text: Shared<Octets>) -> Result<(), AllocError>
        ensures ok { OnOk result (self.new ≡ map.insert self.old name text) }
        ensures err { OnErr result (self.new ≡ self.old) }
        ensures absent { OnErr result (map.get self.old name ≡ None) }
    {
        self.texts.insert(name.into_vec(), text)?;
        Ok(())
    }

    /// Takes the text of a name away, if it has one.
    pub fn remove(&mut self, name: &[u8])
        ensures { self.new ≡ map.remove self.old name.now }
    {
        self.texts.remove(name);
    }
}
