//! Whether two shapes are the same.

ghost use Rattle.std.specs.Prelude.{◌≡◌, ◌↔◌, IsTrue};
ghost use Rattle.std.specs.List.Sorted.{IsStrictlySortedBy};
ghost use Rattle.std.specs.Map.{keys_of};
ghost use Rattle.co_dict.specs.Places.{place_cmp};

use crate::entry::Entry;
use co_values::DataType;
use std::collections::BTreeMap;

/// Whether two limits are the same.
fn same_limit(limit: Option<i128>, other: Option<i128>) -> bool
    ensures { IsTrue result ↔ (limit ≡ other) }
{
    match (limit, other) {
        (None, None) => true,
        (Some(limit), Some(other)) => limit == other,
        _ => false,
    }
}

/// Whether two data types are the same.
fn same_kind(kind: DataType, other: DataType) -> bool
    ensures { IsTrue result ↔ (kind ≡ other) }
{
    kind == other
}

/// Whether two entries are described alike.
fn same_entry(entry: &Entry, other: &Entry) -> bool
    ensures { IsTrue result ↔ (entry.now ≡ other.now) }
{
    same_kind(entry.kind, other.kind)
        && entry.access == other.access
        && same_limit(entry.low, other.low)
        && same_limit(entry.high, other.high)
        && entry.mappable == other.mappable
}

/// Whether two maps describe the same entries alike.
pub(crate) fn same_descriptions(
    entries: &BTreeMap<(u16, u8), Entry>,
    others: &BTreeMap<(u16, u8), Entry>,
) -> bool
    ensures same { IsTrue result ↔ (entries.now.entries ≡ others.now.entries) }
    ensures ordered { IsStrictlySortedBy place_cmp (keys_of entries.now.entries) }
    ensures others_ordered { IsStrictlySortedBy place_cmp (keys_of others.now.entries) }
{
    let mut rest = others.iter();
    for (place, entry) in entries.iter() {
        match rest.next() {
            None => return false,
            Some((other_place, other)) => {
                if *place != *other_place || !same_entry(entry, other) {
                    return false;
                }
            }
        }
    }
    rest.next().is_none()
}

/// Whether two lists of flags are the same.
pub(crate) fn same_flags(flags: &[bool], others: &[bool]) -> bool
    ensures { IsTrue result ↔ (flags.now ≡ others.now) }
{
    if flags.len() != others.len() {
        return false;
    }
    for place in 0..flags.len() {
        if flags[place] != others[place] {
            return false;
        }
    }
    true
}
