//! The defaults of a device that have to be looked at at each node.
ghost use Rattle.std.specs.Prelude.{◌≡◌, IfOk, filter};
ghost use Rattle.eds_device.specs.Places.{pairs_of};
ghost use Rattle.project_plan.specs.Doubtful.{doubtful_places, is_doubtful, spells_none};

use co_values::{DataType, Spelling, is_spelled};
use eds_device::DataSheet;
use std::alloc::{AllocError, Global};

/// Whether a type is modelled and a text spells none of its values at a node.
pub fn spells_none(id: u8, text: &Spelling<'_>, kind: DataType) -> bool
    ensures { result ≡ spells_none id text.now kind }
{
    kind.is_modelled() && !is_spelled(kind, text, id)
}

/// Whether the default of an entry may spell no value at some node. One that spells a value at one node, and no
/// other at another, spells one at each.
#[tactic(auto, unfolding(crate::specs::Doubtful::is_doubtful))]
fn is_doubtful(device: &DataSheet, index: u16, sub: u8) -> bool
    ensures { result ≡ is_doubtful device.now (index, sub) }
{
    match device.default_given(index, sub) {
        Some((text, kind)) => text.may_vary(kind) || !is_spelled(kind, &text, 1),
        None => false,
    }
}

/// The entries of a device whose default may spell no value at some node, by index and sub-index: each other
/// default is the same at each node. Takes time by the number of entries, at most 4,096, and the logarithm of it.
pub(crate) fn doubtful_places(
    alloc: Global,
    device: &DataSheet,
) -> Result<Vec<(u16, u8)>, AllocError>
    ensures { IfOk result (λ places. places.items ≡ doubtful_places device.now) }
{
    let mut places = Vec::new(alloc);
    for place in device.pairs() {
        if is_doubtful(device, place.0, place.1) {
            places.push(*place)?;
        }
    }
    Ok(places)
}
