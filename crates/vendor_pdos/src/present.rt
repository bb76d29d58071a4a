//! The PDOs that a device has, by their numbers.
ghost use Rattle.std.specs.Prelude.{◌≤◌, ◌+◌};
ghost use Rattle.cia301.specs.PdoObjects.{rpdo_object, tpdo_object};
ghost use Rattle.vendor_pdos.specs.Present.{IsNextPdo};

use cia301::{LAST_PDO, rpdo_object, tpdo_object};
use pdo_stations::AsMade;

/// The least number of a PDO, from a given one on and up to 512, whose communication object a device has; 513 where
/// there is none. The communication object of a number lies as far above the index `below`.
fn next_pdo(device: &AsMade, below: u16, from: u16) -> u16
    requires below { below ≤ 0xFDFE }
    requires from { from ≤ 513 }
    ensures { IsNextPdo (λ number. below + number) device.now from result }
{
    match device.shape.next_index(below + from) {
        Some(object) if object <= below + LAST_PDO => object - below,
        _ => LAST_PDO + 1,
    }
}

/// The least number of a TPDO, from a given one on and up to 512, whose communication object a device has; 513 where
/// there is none. Takes time by the logarithm of the number of entries.
pub fn next_tpdo(device: &AsMade, from: u16) -> u16
    requires { from ≤ 513 }
    ensures { IsNextPdo tpdo_object device.now from result }
{
    next_pdo(device, tpdo_object(0), from)
}

/// The least number of an RPDO, from a given one on and up to 512, whose communication object a device has; 513 where
/// there is none. Takes time by the logarithm of the number of entries.
pub fn next_rpdo(device: &AsMade, from: u16) -> u16
    requires { from ≤ 513 }
    ensures { IsNextPdo rpdo_object device.now from result }
{
    next_pdo(device, rpdo_object(0), from)
}
