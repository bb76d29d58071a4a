//! Ordered maps of values.

ghost use Rattle.std.specs.Prelude.{◌≡◌, ◌↔◌, IsTrue};
ghost use Rattle.std.specs.List.Sorted.{IsStrictlySortedBy};
ghost use Rattle.std.specs.Map.{keys_of};
ghost use Rattle.std.specs.FinMap as map;
ghost use Rattle.dict_values.specs.Places.{place_cmp};

use crate::held::Held;
use std::collections::BTreeMap;

/// Whether two maps have the same entries.
pub(crate) fn same_entries(a: &BTreeMap<(u16, u8), Held>, b: &BTreeMap<(u16, u8), Held>) -> bool
    ensures same { IsTrue result ↔ (a.now.entries ≡ b.now.entries) }
    ensures ordered { IsStrictlySortedBy place_cmp (keys_of a.now.entries) }
    ensures others_ordered { IsStrictlySortedBy place_cmp (keys_of b.now.entries) }
{
    let mut others = b.iter();
    for (place, value) in a.iter() {
        match others.next() {
            None => return false,
            Some((other_place, other)) => {
                if *place != *other_place || !value.same(other) {
                    return false;
                }
            }
        }
    }
    others.next().is_none()
}
