//! The texts of a section's keys. A section is walked for them, since it has few: that is cheaper than
//! a look-up by the hash of a key.
ghost use Rattle.std.specs.Prelude.{◌≡◌, position};
ghost use Rattle.std.specs.List.{find};
ghost use Rattle.std.specs.Option.{option_copied};
ghost use Rattle.ini_text.specs.Content.{same, value_at};
ghost use Rattle.eds_entries.specs.Described.{text_at, unless_empty};
ghost use Rattle.eds_entries.specs.Said.{pair_of, value_from};

use crate::name::same;
use ini_text::{Pair, Section};

/// The first pair of a key.
fn pair_named<'a>(pairs: &'a [Pair], key: &[u8]) -> Option<&'a Pair>
    ensures { option_copied result ≡ find (λ p. same key.now p.key) pairs.now }
{
    pairs.iter().find(|pair| same(key, pair.key()))
}

/// The position of the first pair of a key.
fn position_named(pairs: &[Pair], key: &[u8]) -> Option<usize>
    ensures { result ≡ position (λ p. same key.now p.key) pairs.now }
{
    pairs.iter().position(|pair| same(key, pair.key()))
}

/// The value of a key, in any case. Takes time by the number of the section's keys.
#[tactic(auto, using(ini_text::proofs::PairLemmas::value_found))]
pub(crate) fn value_at<'a>(section: &'a Section, key: &[u8]) -> Option<&'a [u8]>
    ensures { option_copied result ≡ value_at section.now.pairs key.now }
{
    let pair = pair_named(section.pairs(), key)?;
    Some(pair.value())
}

/// The value of a key, empty where it is missing.
pub(crate) fn text_at<'a>(section: &'a Section, key: &[u8]) -> &'a [u8]
    ensures { result.now ≡ text_at section.now key.now }
{
    match value_at(section, key) {
        Some(text) => text,
        None => &[],
    }
}

/// The position of a key's pair, in any case.
#[tactic(auto, unfolding(crate::specs::Said::pair_of))]
pub(crate) fn pair_of(section: &Section, key: &[u8]) -> Option<usize>
    ensures { result ≡ pair_of section.now key.now }
{
    position_named(section.pairs(), key)
}

/// The value of the pair at a position.
pub(crate) fn value_from(section: &Section, at: Option<usize>) -> Option<&[u8]>
    ensures { option_copied result ≡ value_from section.now at }
{
    let pair = section.pairs().get(at?)?;
    Some(pair.value())
}

/// A text, unless it is empty.
pub fn unless_empty(text: &[u8]) -> Option<&[u8]>
    ensures { option_copied result ≡ unless_empty text.now }
{
    if text.is_empty() { None } else { Some(text) }
}
