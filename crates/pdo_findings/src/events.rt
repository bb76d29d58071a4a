//! The event times of RPDOs.
ghost use Rattle.std.specs.Prelude.{◌≡◌};
ghost use Rattle.pdo_findings.specs.Findings.{can_have_event};

use cia301::rpdo_object;
use pdo_stations::AsMade;
use vendor_pdos::number_serves;

/// The sub-index of the event timer.
const EVENT: u8 = 5;

/// Whether the RPDO of a number can have an event time in milliseconds: it can be set, or stands by default; 0
/// asks for none.
pub fn can_have_event(device: &AsMade, rpdo: u16, event: u16) -> bool
    ensures { result ≡ can_have_event device.now rpdo event }
{
    event == 0 || matches!(rpdo, 1..=512) && number_serves(device, rpdo_object(rpdo), EVENT, event)
}
