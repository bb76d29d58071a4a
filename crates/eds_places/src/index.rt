//! Where the first sections of names stand.
ghost use Rattle.std.specs.Prelude.{◌≡◌, ℕ, Some, None, OnOk, IfOk, if◌then◌else◌};
ghost use Rattle.std.specs.Option.{option_or};
ghost use Rattle.std.specs.BTreeMap.{is_at};
ghost use Rattle.std.specs.Ordering.{nat_cmp};
ghost use Rattle.std.specs.Map.{lookup};
ghost use Rattle.eds_places.specs.Index.{FindsFirsts, FindsListed};
ghost use Rattle.eds_entries.specs.Names.{index_named, place_named, sub_listed, values_named};
ghost use Rattle.co_dict.specs.Places.{place_cmp};
ghost use Rattle.eds_places.specs.Origins.{is_index, is_place};

use eds_entries::{index_named, place_named, sub_listed, values_named};
use ini_text::{Pair, Section};
use std::alloc::{AllocError, Global};
use std::collections::BTreeMap;

/// Where a section of compact values stands, and the positions of its pairs by sub.
#[derive(Drop)]
pub(crate) struct Listed {
    pub(crate) position: usize,
    pub(crate) pairs: BTreeMap<u8, usize>,
}

/// Notes the position of a section that is named for an entry, unless an earlier one is.
fn note_place(
    table: &mut BTreeMap<(u16, u8), usize>,
    named: Option<(u16, u8)>,
    position: usize,
) -> Result<(), AllocError>
    ensures { OnOk result ((key : ℕ × ℕ) → lookup (is_at (place_cmp key)) table.new.entries
        ≡ option_or (lookup (is_at (place_cmp key)) table.old.entries)
        (if is_place key named then Some position else None)) }
{
    if let Some(place) = named
        && !table.contains_key(&place)
    {
        table.insert(place, position)?;
    }
    Ok(())
}

/// Notes the position of a section that is named for an object, unless an earlier one is.
fn note_index(
    table: &mut BTreeMap<u16, usize>,
    named: Option<u16>,
    position: usize,
) -> Result<(), AllocError>
    ensures { OnOk result ((key : ℕ) → lookup (is_at (nat_cmp key)) table.new.entries
        ≡ option_or (lookup (is_at (nat_cmp key)) table.old.entries)
        (if is_index key named then Some position else None)) }
{
    if let Some(index) = named
        && !table.contains_key(&index)
    {
        table.insert(index, position)?;
    }
    Ok(())
}

/// Notes the position of a pair whose key is a sub, unless an earlier one is.
fn note_sub(
    table: &mut BTreeMap<u8, usize>,
    named: Option<u8>,
    position: usize,
) -> Result<(), AllocError>
    ensures { OnOk result ((key : ℕ) → lookup (is_at (nat_cmp key)) table.new.entries
        ≡ option_or (lookup (is_at (nat_cmp key)) table.old.entries)
        (if is_index key named then Some position else None)) }
{
    if let Some(sub) = named
        && !table.contains_key(&sub)
    {
        table.insert(sub, position)?;
    }
    Ok(())
}

/// Notes a section of compact values, unless an earlier one has its index.
fn note_values(
    table: &mut BTreeMap<u16, Listed>,
    index: u16,
    listed: Listed,
) -> Result<(), AllocError>
    ensures { OnOk result ((key : ℕ) → lookup (is_at (nat_cmp key)) table.new.entries
        ≡ option_or (lookup (is_at (nat_cmp key)) table.old.entries)
        (if is_index key (Some index) then Some listed else None)) }
{
    if !table.contains_key(&index) {
        table.insert(index, listed)?;
    }
    Ok(())
}

/// The positions of the first sections `xxxxsubN`.
pub(crate) fn sub_positions(
    alloc: Global,
    sections: &[Section],
) -> Result<BTreeMap<(u16, u8), usize>, AllocError>
    ensures { IfOk result (λ table. FindsFirsts place_cmp (λ key s. is_place key (place_named s.name)) table.entries
        sections.now sections.now) }
{
    let mut table = BTreeMap::new(alloc);
    for (position, section) in sections.iter().enumerate() {
        note_place(&mut table, place_named(section.name()), position)?;
    }
    Ok(table)
}

/// The positions of the first sections `xxxx`.
pub(crate) fn object_positions(
    alloc: Global,
    sections: &[Section],
) -> Result<BTreeMap<u16, usize>, AllocError>
    ensures { IfOk result (λ table. FindsFirsts nat_cmp (λ key s. is_index key (index_named s.name)) table.entries
        sections.now sections.now) }
{
    let mut table = BTreeMap::new(alloc);
    for (position, section) in sections.iter().enumerate() {
        note_index(&mut table, index_named(section.name()), position)?;
    }
    Ok(table)
}

/// The positions of the first pairs whose keys are a sub.
fn pair_positions(alloc: Global, pairs: &[Pair]) -> Result<BTreeMap<u8, usize>, AllocError>
    ensures { IfOk result (λ table. FindsFirsts nat_cmp (λ key p. is_index key (sub_listed p.key)) table.entries
        pairs.now pairs.now) }
{
    let mut table = BTreeMap::new(alloc);
    for (position, pair) in pairs.iter().enumerate() {
        note_sub(&mut table, sub_listed(pair.key()), position)?;
    }
    Ok(table)
}

/// The first sections `xxxxValue`.
pub(crate) fn values_positions(
    alloc: Global,
    sections: &[Section],
) -> Result<BTreeMap<u16, Listed>, AllocError>
    ensures { IfOk result (λ table. FindsListed table.entries sections.now sections.now) }
{
    let mut table = BTreeMap::new(alloc);
    for (position, section) in sections.iter().enumerate() {
        let Some(index) = values_named(section.name()) else {
            continue;
        };
        let pairs = pair_positions(alloc, section.pairs())?;
        note_values(&mut table, index, Listed { position, pairs })?;
    }
    Ok(table)
}
