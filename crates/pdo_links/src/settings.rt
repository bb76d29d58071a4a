//! The communication parameters of a PDO, as its device lets them be written.
ghost use Rattle.std.specs.Prelude.{◌≡◌, ◌==◌, ◌&&◌, ◌||◌, not, ◌++◌, OnOk};
ghost use Rattle.vendor_pdos.specs.Parameters.{can_be_set};
ghost use Rattle.pdo_links.specs.VendorWrites.{allows, parameter_write};

use crate::parameters::TRANSMISSION_TYPE;
use crate::put::put_number;
use concise_dcf::Write;
use node_parameters::is_outside;
use pdo_stations::AsMade;
use std::alloc::AllocError;
use vendor_pdos::{can_be_set, parameter_width};

/// Whether a number lies within the limits of a parameter.
pub(crate) fn allows(device: &AsMade, object: u16, sub: u8, number: u32) -> bool
    ensures { result ≡ allows device.now object sub number }
{
    match device.shape.entry(object, sub) {
        Some(entry) => !is_outside(entry, i128::from(number)),
        None => false,
    }
}

/// Whether a parameter is written with a number: it can be set, and a time or start value of 0 is within its
/// limits.
fn is_written(device: &AsMade, object: u16, sub: u8, number: u16) -> bool
    ensures { result ≡ (can_be_set device.now object sub
        && (sub == 2 || not (number == 0) || allows device.now object sub 0)) }
{
    can_be_set(device, object, sub)
        && (sub == TRANSMISSION_TYPE || number != 0 || allows(device, object, sub, 0))
}

/// Adds the write of a parameter of a PDO, where it is written with this number.
pub(crate) fn put_parameter(
    writes: &mut Vec<Write>,
    device: &AsMade,
    object: u16,
    sub: u8,
    number: u16,
) -> Result<(), AllocError>
    ensures { OnOk result (writes.new.items ≡ writes.old.items ++ parameter_write device.now object sub number) }
{
    if is_written(device, object, sub, number) {
        put_number(writes, object, sub, parameter_width(sub), number)?;
    }
    Ok(())
}
