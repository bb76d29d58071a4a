//! Devices as their vendors made them, by the numbers of nodes.
ghost use Rattle.std.specs.Prelude.{◌≡◌, ◌==◌, ℕ, length, if◌then◌else◌, None, Some, IfOk, OnOk};
ghost use Rattle.std.specs.Prelude.{option_map};
ghost use Rattle.std.specs.Option.{option_copied};
ghost use Rattle.pdo_stations.specs.Devices.{as_made, devices_of, sheet_at};
ghost use Rattle.pdo_stations.specs.Seats.{made_at};
ghost use Rattle.pdo_stations.specs.Shown.{nodes_of};

use crate::as_made::AsMade;
use crate::seats::NUMBERS;
use eds_device::DataSheet;
use std::alloc::{AllocError, Global};

/// A seat for each number, each without a device.
fn no_makes(alloc: Global) -> Result<Vec<Option<AsMade>>, AllocError>
    ensures count { IfOk result (λ makes. length makes.items ≡ 256) }
    ensures empty { IfOk result (λ makes. (node : ℕ) → made_at makes.items node ≡ None) }
{
    let mut makes = Vec::with_capacity(alloc, NUMBERS)?;
    for _number in 0..NUMBERS {
        makes.push(None)?;
    }
    Ok(makes)
}

/// Puts the device of a node in the place of one that has its number.
fn put_made(makes: &mut [Option<AsMade>], number: u8, device: &DataSheet) -> Result<(), AllocError>
    requires { length makes.now ≡ 256 }
    ensures count { OnOk result (length makes.new ≡ 256) }
    ensures made { OnOk result ((node : ℕ) → made_at makes.new node
        ≡ (if number == node then Some (as_made device.now number)
        else made_at makes.old node)) }
{
    let made = AsMade::of(device, number)?;
    makes[usize::from(number)] = Some(made);
    Ok(())
}

/// Looks the devices of the nodes up. Of two nodes with one number the first counts.
fn look_up_makes(
    alloc: Global,
    nodes: &[(u8, &DataSheet)],
) -> Result<Vec<Option<AsMade>>, AllocError>
    ensures { IfOk result (λ makes. (node : ℕ) → made_at makes.items node
        ≡ option_map (λ sheet. as_made sheet node) (sheet_at (nodes_of nodes.now) node)) }
{
    let mut makes = no_makes(alloc)?;
    let mut count = nodes.len();
    'nodes: while count > 0 {
        count -= 1;
        let (number, device) = nodes[count];
        put_made(makes.as_mut_slice(), number, device)?;
    }
    Ok(makes)
}

/// In version 3 the devices of the nodes.
pub(crate) fn makes_of(
    alloc: Global,
    is_three: bool,
    nodes: &[(u8, &DataSheet)],
) -> Result<Option<Vec<Option<AsMade>>>, AllocError>
    ensures { IfOk result (λ makes. option_map (λ m. made_at m.items) makes
        ≡ (devices_of is_three None (nodes_of nodes.now)).vendor) }
{
    if is_three {
        let makes = look_up_makes(alloc, nodes)?;
        Ok(Some(makes))
    } else {
        Ok(None)
    }
}

/// The device of a node.
pub(crate) fn made_at(makes: &[Option<AsMade>], node: u8) -> Option<&AsMade>
    ensures { option_copied result ≡ made_at makes.now node }
{
    let seat = makes.get(usize::from(node))?;
    seat.as_ref()
}
