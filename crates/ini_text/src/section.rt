//! A section: its name, and its pairs in the order of their first lines.
ghost use Rattle.std.specs.Prelude.{◌≡◌, not, IfOk, OnErr, OnOk, ◌++◌, []};
ghost use Rattle.std.specs.Option.{option_copied};
ghost use Rattle.std.specs.List.{flat_map};
ghost use Rattle.ini_text.specs.Change.{pair_text};

use crate::name::Name;
use crate::pair::Pair;
use crate::text_hash::TextHash;
use indexmap::IndexSet;
use std::alloc::{AllocError, Global};
use std::marker::Model;

/// Writes pairs at the end.
fn print_pairs(pairs: &[Pair], out: &mut Vec<u8>) -> Result<(), AllocError>
    ensures { OnOk result (out.new.items ≡ out.old.items ++ flat_map pair_text pairs.now) }
{
    for pair in pairs {
        pair.print(out)?;
    }
    Ok(())
}

/// A section of a text: its name, and its pairs in the order of their first lines.
#[derive(Drop)]
pub struct Section {
    name: Vec<u8>,
    pairs: IndexSet<Pair, TextHash>,
}

impl Model for Section {
    ghost use Rattle.ini_text.specs.Content.{Section as Entry};

    ghost Value = { Entry };

    ghost view = { λ a. record { name = a.name.items; pairs = a.pairs.keys } };
}

impl Section {
    ghost use Rattle.ini_text.specs.Content.{value_at};
    ghost use Rattle.ini_text.specs.Reading.{has_key, with_pair};
    ghost use Rattle.ini_text.specs.Change.{put_in_section, section_text};

    pub(crate) fn new(alloc: Global, name: &[u8], hash: TextHash) -> Result<Self, AllocError>
        ensures { IfOk result (λ s. s ≡ record { name = name.now; pairs = [] }) }
    {
        Ok(Section {
            name: Vec::from_slice(alloc, name)?,
            pairs: IndexSet::with_hasher(alloc, hash),
        })
    }

    /// Adds a pair last, unless the key is there, and answers whether it was new.
    pub(crate) fn add(
        &mut self,
        alloc: Global,
        key: &[u8],
        value: &[u8],
    ) -> Result<bool, AllocError>
        ensures added { IfOk result (λ added. added ≡ not (has_key self.old.pairs key.now)) }
        ensures ok { OnOk result (self.new ≡ with_pair self.old key.now value.now) }
        ensures err { OnErr result (self.new ≡ self.old) }
    {
        let pair = Pair::new(alloc, key, value)?;
        let is_new = self.pairs.insert(pair)?;
        Ok(is_new)
    }

    /// Sets the value of a key in its place, or adds the key last.
    pub(crate) fn set(&mut self, alloc: Global, key: &[u8], value: &[u8]) -> Result<(), AllocError>
        ensures ok { OnOk result (self.new ≡ put_in_section self.old key.now value.now) }
        ensures err { OnErr result (self.new ≡ self.old) }
    {
        let spelled = match self.pairs.get(Name(key)) {
            Some(pair) => pair.key(),
            None => key,
        };
        let pair = Pair::new(alloc, spelled, value)?;
        self.pairs.replace(pair)?;
        Ok(())
    }

    /// Writes `[name]`, an LF, and the pairs at the end.
    pub(crate) fn print(&self, out: &mut Vec<u8>) -> Result<(), AllocError>
        ensures { OnOk result (out.new.items ≡ out.old.items ++ section_text self.now) }
    {
        out.push(b'[')?;
        out.extend_from_slice(self.name.as_slice())?;
        out.push(b']')?;
        out.push(b'\n')?;
        print_pairs(self.pairs(), out)
    }

    /// The name, as its first header spells it.
    pub fn name(&self) -> &[u8]
        ensures { result.now ≡ self.now.name }
    {
        self.name.as_slice()
    }

    /// The pairs, in the order of their first lines.
    pub fn pairs(&self) -> &[Pair]
        ensures { result.now ≡ self.now.pairs }
    {
        self.pairs.as_slice()
    }

    /// The value of a key, in any case of ASCII letters. Takes time linear in the key.
    #[tactic(auto, using(crate::proofs::PairLemmas::value_found))]
    pub fn get(&self, key: &[u8]) -> Option<&[u8]>
        ensures { option_copied result ≡ value_at self.now.pairs key.now }
    {
        let pair = self.pairs.get(Name(key))?;
        Some(pair.value())
    }
}
