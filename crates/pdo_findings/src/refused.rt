//! Writes that a device refuses by their limits.
ghost use Rattle.std.specs.Prelude.{◌≡◌, ◌++◌, IfOk, OnOk};
ghost use Rattle.pdo_findings.specs.Findings.{is_beside_limits, refused_place, refused_places};

use co_values::number_64;
use concise_dcf::Write;
use node_parameters::is_outside;
use pdo_stations::AsMade;
use std::alloc::{AllocError, Global};

/// Whether the number that is written to a PDO lies outside the limits of its entry.
fn is_beside_limits(device: &AsMade, write: &Write) -> bool
    ensures { result ≡ is_beside_limits device.now write.now }
{
    match device.shape.entry(write.index, write.sub) {
        Some(entry) => is_outside(entry, i128::from(number_64(write.bytes.as_slice()))),
        None => false,
    }
}

/// Adds the place of a write that lies outside the limits of its entry.
fn add_place(places: &mut Vec<(u16, u8)>, device: &AsMade, write: &Write) -> Result<(), AllocError>
    ensures { OnOk result (places.new.items ≡ places.old.items ++ refused_place device.now write.now) }
{
    if is_beside_limits(device, write) {
        places.push((write.index, write.sub))?;
    }
    Ok(())
}

/// The places of those of a node's writes to its PDOs that lie outside the limits of their entries, in the order of the
/// writes. Takes time by the number of writes and the logarithm of that of the entries.
#[tactic(auto, unfolding(crate::specs::Findings::refused_places))]
pub fn refused_places(
    alloc: Global,
    device: &AsMade,
    writes: &[Write],
) -> Result<Vec<(u16, u8)>, AllocError>
    ensures { IfOk result (λ places. places.items ≡ refused_places device.now writes.now) }
{
    let mut places = Vec::new(alloc);
    for write in writes {
        add_place(&mut places, device, write)?;
    }
    Ok(places)
}
