//! The identifiers that vendors fixed.
ghost use Rattle.std.specs.Prelude.{◌≡◌, ◌<◌, IfSome};
ghost use Rattle.vendor_pdos.specs.Fixed.{fixed_identifier, has_fixed};

use crate::parameters::{COB_ID, has_parameter, is_open};
use cia301::CobId;
use pdo_stations::AsMade;

/// The fixed identifier of the PDO with this communication object: that of its default COB-ID, where this can't be
/// written, is on and has an identifier of 11 bits.
#[tactic(auto, unfolding(crate::specs::Fixed::fixed_identifier))]
pub fn fixed_identifier(device: &AsMade, object: u16) -> Option<u16>
    ensures identifier { result ≡ fixed_identifier device.now object }
    ensures below { IfSome result (λ id. id < 0x800) }
{
    if !has_parameter(device, object, COB_ID) || is_open(device, object) {
        return None;
    }
    let cob_id = CobId::of(device.defaults.number_32(object, COB_ID));
    if cob_id.is_valid() && cob_id.is_of_base_frames() {
        Some(cob_id.identifier().number())
    } else {
        None
    }
}

/// Whether the PDO with this communication object has this fixed identifier.
pub(crate) fn has_fixed(device: &AsMade, object: u16, identifier: u16) -> bool
    ensures { result ≡ has_fixed device.now object identifier }
{
    match fixed_identifier(device, object) {
        Some(fixed) => fixed == identifier,
        None => false,
    }
}
