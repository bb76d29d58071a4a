//! The sections `[xxxxValue]` of compact objects.
ghost use Rattle.std.specs.Prelude.{◌≡◌, ◌++◌, not, IfOk, OnOk, count_by, filter};
ghost use Rattle.std.specs.Char.{is_digit};
ghost use Rattle.std.specs.List.{flat_map, list_all, list_any};
ghost use Rattle.ini_text.specs.Change.{pair_text};
ghost use Rattle.eds_dcf.specs.Compact.{is_decimal as is_decimal_key, with_all, with_count, with_set as pairs_with_set};
ghost use Rattle.eds_dcf.specs.Compact.{values_pairs};

use crate::printing::{put_pairs, put_settings};
use crate::setting::{Setting, put};
use ini_text::Pair;
use std::alloc::{AllocError, Global};

pub(crate) const NR_OF_ENTRIES: &[u8] = b"NrOfEntries";

/// Whether each byte is a decimal digit.
fn are_digits(key: &[u8]) -> bool
    ensures { result ≡ list_all (λ c. is_digit c 10) key.now }
{
    key.iter().all(|byte| char::from(*byte).is_digit(10))
}

/// Whether a key is decimal digits alone.
fn is_decimal(key: &[u8]) -> bool
    ensures { result ≡ is_decimal_key key.now }
{
    !key.is_empty() && are_digits(key)
}

/// Whether some key is decimal.
fn has_decimal(pairs: &[Pair]) -> bool
    ensures { result ≡ list_any (λ p. is_decimal_key p.key) pairs.now }
{
    pairs.iter().any(|pair| is_decimal(pair.key()))
}

/// How many keys are decimal.
fn count_decimal(settings: &[Setting]) -> usize
    ensures { result ≡ count_by (λ p. is_decimal_key p.key) settings.now }
{
    settings
        .iter()
        .filter(|setting| is_decimal(setting.key()))
        .count()
}

/// Copies of the pairs.
fn copies(alloc: Global, pairs: &[Pair]) -> Result<Vec<Setting>, AllocError>
    ensures { IfOk result (λ settings. settings.items ≡ pairs.now) }
{
    let mut settings = Vec::new(alloc);
    for pair in pairs {
        settings.push(Setting::of(alloc, pair)?)?;
    }
    Ok(settings)
}

/// Copies of the pairs whose key is not decimal.
fn copies_of_others(alloc: Global, pairs: &[Pair]) -> Result<Vec<Setting>, AllocError>
    ensures { IfOk result (λ settings. settings.items ≡ filter (λ p. not (is_decimal_key p.key)) pairs.now) }
{
    let mut settings = Vec::new(alloc);
    for pair in pairs {
        if !is_decimal(pair.key()) {
            settings.push(Setting::of(alloc, pair)?)?;
        }
    }
    Ok(settings)
}

/// Puts each setting where its key stands, or last: none or one is the case, since sub 0 alone is
/// modelled where the object is not.
fn put_all(settings: &mut Vec<Setting>, set: Vec<Setting>) -> Result<(), AllocError>
    ensures { OnOk result (settings.new.items ≡ with_all settings.old.items set.items) }
{
    for setting in set {
        let (key, value) = setting.into_parts();
        put(settings, key, value)?;
    }
    Ok(())
}

/// The pairs with the settings that are set.
fn with_set(
    alloc: Global,
    modelled: bool,
    pairs: &[Pair],
    mut set: Vec<Setting>,
) -> Result<Vec<Setting>, AllocError>
    ensures { IfOk result (λ settings. settings.items ≡ pairs_with_set modelled pairs.now set.items) }
{
    if modelled {
        let mut settings = copies_of_others(alloc, pairs)?;
        settings.append(&mut set)?;
        Ok(settings)
    } else {
        let mut settings = copies(alloc, pairs)?;
        put_all(&mut settings, set)?;
        Ok(settings)
    }
}

/// Sets NrOfEntries to the number of the decimal keys.
fn put_count(settings: &mut Vec<Setting>, alloc: Global) -> Result<(), AllocError>
    ensures { OnOk result (settings.new.items ≡ with_count settings.old.items) }
{
    let count = count_decimal(settings.as_slice())
        .to_string(alloc)?
        .into_bytes();
    put(settings, Vec::from_slice(alloc, NR_OF_ENTRIES)?, count)?;
    Ok(())
}

/// Writes the pairs of a section `[xxxxValue]` with the settings that are set.
#[tactic(auto, unfolding(crate::specs::Compact::values_pairs))]
pub(crate) fn put_values(
    out: &mut Vec<u8>,
    alloc: Global,
    modelled: bool,
    pairs: &[Pair],
    set: Vec<Setting>,
) -> Result<(), AllocError>
    ensures { OnOk result (out.new.items ≡ out.old.items
        ++ flat_map pair_text (values_pairs modelled pairs.now set.items)) }
{
    if !(modelled && has_decimal(pairs)) && set.is_empty() {
        return put_pairs(out, pairs);
    }
    let mut settings = with_set(alloc, modelled, pairs, set)?;
    put_count(&mut settings, alloc)?;
    put_settings(out, settings.as_slice())?;
    Ok(())
}
