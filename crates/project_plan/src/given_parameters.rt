//! The entries that the data sheet of a device gives a parameter.
ghost use Rattle.std.specs.Prelude.{◌≡◌, IfOk};
ghost use Rattle.project_plan.specs.GivenParameters.{given_places, is_given};

use cia301::is_of_pdos;
use eds_device::DataSheet;
use std::alloc::{AllocError, Global};

/// Whether the text of a device gives an entry a parameter.
fn is_given(device: &DataSheet, index: u16, sub: u8) -> bool
    ensures { result ≡ is_given device.now.sections (index, sub) }
{
    !is_of_pdos(index) && device.value_text(index, sub).is_some()
}

/// The entries that the text of a device gives a parameter, by index and sub-index. Takes time by the number of
/// entries, at most 4,096, and the logarithm of it.
pub(crate) fn given_places(alloc: Global, device: &DataSheet) -> Result<Vec<(u16, u8)>, AllocError>
    ensures { IfOk result (λ places. places.items ≡ given_places device.now.sections) }
{
    let mut places = Vec::new(alloc);
    for place in device.pairs() {
        if is_given(device, place.0, place.1) {
            places.push(*place)?;
        }
    }
    Ok(places)
}
