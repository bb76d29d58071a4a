//! Names: sections and keys are equal where they are equal without ASCII case.
ghost use Rattle.std.specs.Prelude.{◌≡◌, IfOk, fold};
ghost use Rattle.std.specs.Cmp.{on_equiv, on_per, partial_equiv_from_equiv};
ghost use Rattle.std.specs.Cmp.Lexicographic.{nat_list_eq_equiv};
ghost use Rattle.std.specs.Hash as fed;
ghost use Rattle.std.specs.Str.{bytes_eq};
ghost use Rattle.ini_text.specs.Content.{lower_case, same};
ghost use Rattle.ini_text.specs.Keyed.{name_writes, fed_alike};

use crate::pair::Pair;
use indexmap::Equivalent;
use std::alloc::{AllocError, Global};
use std::hash::{Hash, Hasher};

/// The bytes with `a` to `z` in place of `A` to `Z`.
pub(crate) fn lower_case(alloc: Global, bytes: &[u8]) -> Result<Vec<u8>, AllocError>
    ensures { IfOk result (λ v. v.items ≡ lower_case bytes.now) }
{
    let mut folded = Vec::from_slice(alloc, bytes)?;
    folded.make_ascii_lowercase();
    Ok(folded)
}

/// Whether two names are equal without ASCII case.
#[tactic(auto, using(crate::proofs::KeyedLemmas::same_is))]
pub(crate) fn same(a: &[u8], b: &[u8]) -> bool
    ensures { result ≡ same a.now b.now }
{
    a.eq_ignore_ascii_case(b)
}

/// Whether `key` is `name` in lower case.
fn is_folded(name: &[u8], key: &[u8]) -> bool
    ensures { result ≡ bytes_eq (lower_case name.now) key.now }
{
    let mut name = name;
    let mut key = key;
    'bytes: while let Some((byte, name_rest)) = name.split_first() {
        let Some((key_byte, key_rest)) = key.split_first() else {
            return false;
        };
        if byte.to_ascii_lowercase() != *key_byte {
            return false;
        }
        name = name_rest;
        key = key_rest;
    }
    key.is_empty()
}

/// Feeds a name to a hasher, as its bytes in lower case are fed.
pub(crate) fn hash_name<H: Hasher>(name: &[u8], state: &mut H)
    ensures { state.new ≡ fold H.write state.old (name_writes name.now) }
{
    state.write_usize(name.len());
    for byte in name {
        state.write_u8(byte.to_ascii_lowercase());
    }
}

/// A name that is looked up, in any case of ASCII letters.
#[derive(Clone, Copy)]
pub(crate) struct Name<'a>(pub(crate) &'a [u8]);

impl PartialEq for Name<'_> {
    ghost eq = { λ a b. same a.0.now b.0.now };

    ghost laws = { on_per (λ a. lower_case a.0.now) (partial_equiv_from_equiv nat_list_eq_equiv) };

    fn eq(&self, other: &Name<'_>) -> bool {
        same(self.0, other.0)
    }
}

impl Eq for Name<'_> {
    ghost laws = { on_equiv (λ a. lower_case a.0.now) nat_list_eq_equiv };
}

impl Hash for Name<'_> {
    ghost hash_input = { λ a. name_writes a.0.now };

    ghost respects_eq = { λ a b. fed_alike (lower_case a.0.now) (lower_case b.0.now) };

    fn hash<H: Hasher>(&self, state: &mut H) {
        hash_name(self.0, state)
    }
}

/// Stands for the pairs whose key has the name.
impl Equivalent<Pair> for Name<'_> {
    ghost equivalent = { λ a p. same a.0.now p.key };

    ghost respects_hash = { λ a p. fed_alike (lower_case a.0.now) (lower_case p.key) };

    ghost respects_eq = { λ a p q. nat_list_eq_equiv.congr (lower_case a.0.now) (lower_case p.key) (lower_case q.key) };

    fn equivalent(&self, pair: &Pair) -> bool {
        same(self.0, pair.key())
    }
}

/// Stands for the name in lower case.
impl Equivalent<Vec<u8>> for Name<'_> {
    ghost equivalent = { λ a k. bytes_eq (lower_case a.0.now) k.items };

    ghost respects_hash = { λ a k. fed_alike (lower_case a.0.now) k.items };

    ghost respects_eq = { λ a k m. nat_list_eq_equiv.congr (lower_case a.0.now) k.items m.items };

    fn equivalent(&self, key: &Vec<u8>) -> bool {
        is_folded(self.0, key.as_slice())
    }
}
