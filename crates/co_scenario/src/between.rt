//! The events of a scenario by time.
ghost use Rattle.std.specs.Prelude.{◌≡◌, IfOk};
ghost use Rattle.std.specs.FinMap as map;
ghost use Rattle.std.specs.List.Sorted.{IsStrictlySortedBy};
ghost use Rattle.std.specs.Map.{keys_of};
ghost use Rattle.base.specs.Ranges.{is_between};
ghost use Rattle.co_scenario.specs.Scenario.{events_between, moment_cmp, moments_between};

use crate::script::Script;
use std::alloc::{AllocError, Global};
use std::collections::BTreeMap;

/// Whether a time lies from `first` to `last`, both included.
fn lies_between(first: u32, last: u32, time: u32) -> bool
    ensures { result ≡ is_between first last time }
{
    first <= time && time <= last
}

/// The times and numbers of the events with a time from `first` to `last`, both included.
fn gather(
    alloc: Global,
    script: &Script,
    first: u32,
    last: u32,
) -> Result<BTreeMap<(u32, u16), ()>, AllocError>
    ensures { IfOk result (λ moments. map.from_entries moments.entries ≡ moments_between first last script.now) }
{
    let mut moments = BTreeMap::new(alloc);
    for (number, event) in script.iter() {
        if lies_between(first, last, event.time) {
            moments.insert((event.time, *number), ())?;
        }
    }
    Ok(moments)
}

/// The keys of a table in their order.
fn keys(alloc: Global, moments: BTreeMap<(u32, u16), ()>) -> Result<Vec<(u32, u16)>, AllocError>
    ensures keys { IfOk result (λ keys. keys.items ≡ keys_of moments.entries) }
    ensures ordered { IsStrictlySortedBy moment_cmp (keys_of moments.entries) }
{
    let keys = moments.into_keys().collect(alloc)?;
    Ok(keys)
}

/// The same in their order.
pub(crate) fn in_order(
    alloc: Global,
    script: &Script,
    first: u32,
    last: u32,
) -> Result<Vec<(u32, u16)>, AllocError>
    ensures { IfOk result (λ moments. moments.items ≡ events_between first last script.now) }
{
    let moments = gather(alloc, script, first, last)?;
    keys(alloc, moments)
}
