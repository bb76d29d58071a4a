//! The numbers that entries have among values.
ghost use Rattle.std.specs.Prelude.{◌≡◌};
ghost use Rattle.co_values.specs.declared.form.Width.TheVariants.{Bits8, Bits16, Bits32};
ghost use Rattle.project_plan.specs.Values.{number_among};

use co_dict::Dict;
use co_values::{Width, number_8, number_16, number_32};
use eds_device::DataSheet;
use pdo_stations::is_unsigned;

/// The number that an entry has among values, where it is there and UNSIGNED8.
pub fn unsigned_8(device: &DataSheet, values: &Dict, index: u16, sub: u8) -> Option<u8>
    ensures { result ≡ number_among device.now values.now Bits8 (index, sub) }
{
    if !is_unsigned(device.kind(index, sub), Width::Bits8) {
        return None;
    }
    let bytes = values.read(index, sub)?;
    Some(number_8(bytes))
}

/// The number that an entry has among values, where it is there and UNSIGNED16.
pub fn unsigned_16(device: &DataSheet, values: &Dict, index: u16, sub: u8) -> Option<u16>
    ensures { result ≡ number_among device.now values.now Bits16 (index, sub) }
{
    if !is_unsigned(device.kind(index, sub), Width::Bits16) {
        return None;
    }
    let bytes = values.read(index, sub)?;
    Some(number_16(bytes))
}

/// The number that an entry has among values, where it is there and UNSIGNED32.
pub fn unsigned_32(device: &DataSheet, values: &Dict, index: u16, sub: u8) -> Option<u32>
    ensures { result ≡ number_among device.now values.now Bits32 (index, sub) }
{
    if !is_unsigned(device.kind(index, sub), Width::Bits32) {
        return None;
    }
    let bytes = values.read(index, sub)?;
    Some(number_32(bytes))
}
