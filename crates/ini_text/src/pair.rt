//! A key with its value.
ghost use Rattle.std.specs.Prelude.{◌≡◌, ◌++◌, IfOk, OnOk};
ghost use Rattle.std.specs.Cmp.{on_equiv, on_per, partial_equiv_from_equiv};
ghost use Rattle.std.specs.Cmp.Lexicographic.{nat_list_eq_equiv};
ghost use Rattle.ini_text.specs.Content.{lower_case, same_key};
ghost use Rattle.ini_text.specs.Change.{pair_text};
ghost use Rattle.ini_text.specs.Keyed.{name_writes, fed_alike};

use crate::name::{hash_name, same};
use std::alloc::{AllocError, Global};
use std::hash::{Hash, Hasher};
use std::marker::Model;

/// A key with its value, as a line `key=value` of CiA 306 gives them. Two are equal where their
/// keys are, without ASCII case, as the pairs of a section never are.
#[derive(Drop)]
pub struct Pair {
    line: Vec<u8>,
    key_len: usize,
}

impl Model for Pair {
    ghost use Rattle.std.specs.Prelude.{take, drop, ◌+◌, ◌<◌, length};
    ghost use Rattle.ini_text.specs.Content.{Pair as Entry};
    ghost use Rattle.ini_text.specs.Keyed.{IsSplit};

    ghost Value = { Entry };

    ghost view = { λ a. record { key = take a.key_len a.line.items; value = drop (a.key_len + 1) a.line.items } };

    ghost invariant = { λ a. IsSplit a.line.items a.key_len };
}

impl Pair {
    pub(crate) fn new(alloc: Global, key: &[u8], value: &[u8]) -> Result<Self, AllocError>
        ensures { IfOk result (λ p. p ≡ record { key = key.now; value = value.now }) }
    {
        let mut line = Vec::with_capacity(alloc, key.len() + 1 + value.len())?;
        line.extend_from_slice(key)?;
        line.push(b'=')?;
        line.extend_from_slice(value)?;
        Ok(Pair {
            line,
            key_len: key.len(),
        })
    }

    /// The key, as it was spelled first.
    pub fn key(&self) -> &[u8]
        ensures { result.now ≡ self.now.key }
    {
        &self.line[..self.key_len]
    }

    /// The value. It may be empty.
    pub fn value(&self) -> &[u8]
        ensures { result.now ≡ self.now.value }
    {
        &self.line[self.key_len + 1..]
    }

    /// Writes `key=value` and an LF at the end.
    pub fn print(&self, out: &mut Vec<u8>) -> Result<(), AllocError>
        ensures { OnOk result (out.new.items ≡ out.old.items ++ pair_text self.now) }
    {
        out.extend_from_slice(self.line.as_slice())?;
        out.push(b'\n')?;
        Ok(())
    }
}

impl PartialEq for Pair {
    ghost eq = { same_key };

    ghost laws = { on_per (λ p. lower_case p.key) (partial_equiv_from_equiv nat_list_eq_equiv) };

    fn eq(&self, other: &Pair) -> bool {
        same(self.key(), other.key())
    }
}

impl Eq for Pair {
    ghost laws = { on_equiv (λ p. lower_case p.key) nat_list_eq_equiv };
}

impl Hash for Pair {
    ghost hash_input = { λ p. name_writes p.key };

    ghost respects_eq = { λ p q. fed_alike (lower_case p.key) (lower_case q.key) };

    fn hash<H: Hasher>(&self, state: &mut H) {
        hash_name(self.key(), state)
    }
}
