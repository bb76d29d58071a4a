//! The identifiers that PDOs have by default and keep.
ghost use Rattle.std.specs.Prelude.{◌≡◌, ◌≤◌};
ghost use Rattle.pdo_findings.specs.Findings.{lasting_identifier, sends_on};

use cia301::{CobId, is_restricted, mapping_object};
use co_values::Width;
use pdo_links::is_switched_off;
use pdo_stations::AsMade;
use vendor_pdos::{has_at, has_parameter, parameter_default};

/// The sub-index of the COB-ID.
const COB_ID: u8 = 1;

/// The identifier with which the PDO with this communication object is on by default, where it isn't switched off.
#[tactic(auto, unfolding(crate::specs::Findings::lasting_identifier))]
pub(crate) fn lasting_identifier(device: &AsMade, object: u16) -> Option<u16>
    ensures { result ≡ lasting_identifier device.now object }
{
    if !has_parameter(device, object, COB_ID) {
        return None;
    }
    let cob_id = CobId::of(parameter_default(device, object, COB_ID));
    if cob_id.is_valid() && cob_id.is_of_base_frames() && !is_switched_off(device, object) {
        Some(cob_id.identifier().number())
    } else {
        None
    }
}

/// Whether the TPDO with this communication object sends by default and goes on: its identifier lasts and isn't
/// restricted, and it maps something.
#[tactic(auto, unfolding(crate::specs::Findings::sends_on))]
pub(crate) fn sends_on(device: &AsMade, object: u16) -> bool
    requires { object ≤ 0xFDFF }
    ensures { result ≡ sends_on device.now object }
{
    let Some(identifier) = lasting_identifier(device, object) else {
        return false;
    };
    let mapping = mapping_object(object);
    !is_restricted(identifier)
        && has_at(device, Width::Bits8, mapping, 0)
        && device.defaults.number_8(mapping, 0) != 0
}
