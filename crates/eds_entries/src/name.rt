//! What the names of sections say (CiA 306).
ghost use Rattle.std.specs.Prelude.{◌≡◌};
ghost use Rattle.ini_text.specs.Content.{same};
ghost use Rattle.eds_entries.specs.Names.{index_named, sub_named, sub_listed, place_named, values_named};

use base::read_digits;

/// The index that a name of four hexadecimal digits is, in any case, as `1A00`.
#[tactic(auto, unfolding(crate::specs::Names::index_named))]
pub fn index_named(name: &[u8]) -> Option<u16>
    ensures { result ≡ index_named name.now }
{
    if name.len() != 4 {
        return None;
    }
    let index = read_digits(16, name)?;
    Some(index as u16)
}

/// Whether two texts are equal without ASCII case.
#[tactic(auto, using(crate::proofs::NameLemmas::same_is))]
pub(crate) fn same(a: &[u8], b: &[u8]) -> bool
    ensures { result ≡ same a.now b.now }
{
    a.eq_ignore_ascii_case(b)
}

/// The sub-index that one or two hexadecimal digits are.
#[tactic(auto, unfolding(crate::specs::Names::sub_named))]
fn sub_named(digits: &[u8]) -> Option<u8>
    ensures { result ≡ sub_named digits.now }
{
    if digits.len() > 2 {
        return None;
    }
    let sub = read_digits(16, digits)?;
    Some(sub as u8)
}

/// The index and the sub-index that a name `xxxxsubN` says, in any case.
#[tactic(auto, using(crate::proofs::NameLemmas::short_for_place), unfolding(crate::specs::Names::place_named))]
pub fn place_named(name: &[u8]) -> Option<(u16, u8)>
    ensures { result ≡ place_named name.now }
{
    if name.len() < 7 || !same(&name[4..7], b"sub") {
        return None;
    }
    let index = index_named(&name[..4])?;
    let sub = sub_named(&name[7..])?;
    Some((index, sub))
}

/// The index that a name `xxxxValue` says, in any case.
#[tactic(auto, using(crate::proofs::NameLemmas::short_for_values), unfolding(crate::specs::Names::values_named))]
pub fn values_named(name: &[u8]) -> Option<u16>
    ensures { result ≡ values_named name.now }
{
    if name.len() < 4 || !same(&name[4..], b"Value") {
        return None;
    }
    index_named(&name[..4])
}

/// The sub-index that a key of decimal digits alone is, as `7` or `007`.
#[tactic(auto, unfolding(crate::specs::Names::sub_listed))]
pub fn sub_listed(key: &[u8]) -> Option<u8>
    ensures { result ≡ sub_listed key.now }
{
    let number = read_digits(10, key)?;
    u8::try_from(number).ok()
}
