//! The identifiers that are withheld from automatic choice.
ghost use Rattle.std.specs.Prelude.{◌≡◌, ◌<◌, ◌≤◌, ◌||◌, ℕ, false, option_and_then, IfOk, OnOk};
ghost use Rattle.std.specs.Option.{option_map_or};
ghost use Rattle.std.specs.BTreeSet.{contains};
ghost use Rattle.std.specs.Ordering.{nat_cmp};
ghost use Rattle.cia301.specs.PdoObjects.{rpdo_object, tpdo_object};
ghost use Rattle.pdo_stations.specs.Stations.{devices_in};
ghost use Rattle.vendor_pdos.specs.Fixed.{fixes, has_fixed, is_withheld};

use crate::fixed::fixed_identifier;
use crate::present::{next_rpdo, next_tpdo};
use cia301::{LAST_PDO, rpdo_object, tpdo_object};
use pdo_stations::{AsMade, Stations};
use std::alloc::{AllocError, Global};
use std::collections::BTreeSet;

/// Withholds the fixed identifier of the PDO with a communication object, if it has one.
fn withhold(identifiers: &mut BTreeSet<u16>, device: &AsMade, object: u16) -> Result<(), AllocError>
    ensures { OnOk result ((id : ℕ) → contains nat_cmp identifiers.new id
        ≡ (contains nat_cmp identifiers.old id || has_fixed device.now object id)) }
{
    if let Some(identifier) = fixed_identifier(device, object) {
        identifiers.insert(identifier)?;
    }
    Ok(())
}

/// Withholds the fixed identifiers of a TPDO and an RPDO of one number, up to 512.
fn withhold_both(
    identifiers: &mut BTreeSet<u16>,
    device: &AsMade,
    number: u16,
) -> Result<(), AllocError>
    requires { number ≤ 512 }
    ensures { OnOk result ((id : ℕ) → contains nat_cmp identifiers.new id
        ≡ (contains nat_cmp identifiers.old id
        || (has_fixed device.now (tpdo_object number) id || has_fixed device.now (rpdo_object number) id))) }
{
    withhold(identifiers, device, tpdo_object(number))?;
    withhold(identifiers, device, rpdo_object(number))
}

/// The least number, from a given one on and up to 512, of a TPDO or an RPDO whose communication object a device has;
/// 513 where there is none.
fn next_of_both(device: &AsMade, from: u16) -> u16
    requires { from ≤ 513 }
    ensures low { from ≤ result }
    ensures high { result ≤ 513 }
    ensures before { (number id : ℕ) → from ≤ number → number < result
        → (has_fixed device.now (tpdo_object number) id || has_fixed device.now (rpdo_object number) id) ≡ false }
{
    next_tpdo(device, from).min(next_rpdo(device, from))
}

/// Withholds the fixed identifiers of all PDOs of a device.
fn withhold_all(identifiers: &mut BTreeSet<u16>, device: &AsMade) -> Result<(), AllocError>
    ensures { OnOk result ((id : ℕ) → contains nat_cmp identifiers.new id
        ≡ (contains nat_cmp identifiers.old id || fixes device.now id)) }
{
    let mut number = next_of_both(device, 1);
    'numbers: while number <= LAST_PDO {
        withhold_both(identifiers, device, number)?;
        number = next_of_both(device, number + 1);
    }
    Ok(())
}

/// Withholds the fixed identifiers of all PDOs of a node's device, if it has one.
fn withhold_node(
    identifiers: &mut BTreeSet<u16>,
    stations: &Stations,
    node: u8,
) -> Result<(), AllocError>
    ensures { OnOk result ((id : ℕ) → contains nat_cmp identifiers.new id ≡ (contains nat_cmp identifiers.old id
        || option_map_or (λ device. fixes device id)
        (option_and_then (λ made. made node) (devices_in stations.now).vendor) false)) }
{
    match stations.made(node) {
        Some(device) => withhold_all(identifiers, device),
        None => Ok(()),
    }
}

/// The identifiers that are withheld from automatic choice: in version 3 those that a PDO of a node has as its fixed
/// one, in other versions none. Takes time by the number of nodes and the logarithm of their entries, and memory for
/// the identifiers; want of memory is the only error.
pub(crate) fn withheld_identifiers(
    alloc: Global,
    stations: &Stations,
) -> Result<BTreeSet<u16>, AllocError>
    ensures { IfOk result (λ identifiers. (id : ℕ)
        → contains nat_cmp identifiers id ≡ is_withheld (devices_in stations.now) id) }
{
    let mut identifiers = BTreeSet::new(alloc);
    if !stations.is_three() {
        return Ok(identifiers);
    }
    for node in 1..128 {
        withhold_node(&mut identifiers, stations, node)?;
    }
    Ok(identifiers)
}
