//! The communication parameters of a PDO.

ghost use Rattle.std.specs.Prelude.{◌≡◌, ◌≤◌};
ghost use Rattle.pdo_rules.specs.Working.{event_time, inhibit_time, number_of_unsigned16};
ghost use Rattle.pdo_rules.specs.Working.{sync_start as start_of, transmission_type as type_of};

use cia301::TransmissionType;
use co_dict::{Dict, Shape};

/// The communication parameters of a PDO (CiA 301) that say when it is sent or taken.
#[derive(Clone, Copy, Debug, PartialEq, Eq)]
pub struct Communication {
    /// The transmission type; none where the device has none as UNSIGNED8.
    pub transmission_type: Option<TransmissionType>,
    /// The inhibit time in microseconds; 0 is none.
    pub inhibit_time: u32,
    /// The event time in microseconds; 0 is none.
    pub event_time: u32,
    /// The SYNC start value; 0 is none.
    pub sync_start: u8,
}

/// The number of an UNSIGNED16; 0 where the entry isn't one.
fn unsigned_16(shape: &Shape, dict: &Dict, index: u16, sub: u8) -> u16
    ensures { result ≡ number_of_unsigned16 shape.now dict.now (index, sub) }
{
    if shape.has_unsigned16(index, sub) {
        dict.number_16(index, sub)
    } else {
        0
    }
}

/// The transmission type of the PDO with a communication object: sub-index 2. `None` where that isn't
/// an UNSIGNED8.
#[tactic(auto, unfolding(crate::specs::Working::transmission_type))]
fn transmission_type(shape: &Shape, dict: &Dict, object: u16) -> Option<TransmissionType>
    ensures { result ≡ type_of shape.now dict.now object }
{
    if shape.has_unsigned8(object, 2) {
        Some(TransmissionType::of(dict.number_8(object, 2)))
    } else {
        None
    }
}

/// The SYNC start value of the PDO with a communication object: sub-index 6; 0 where that isn't an
/// UNSIGNED8.
#[tactic(auto, unfolding(crate::specs::Working::sync_start))]
fn sync_start(shape: &Shape, dict: &Dict, object: u16) -> u8
    ensures { result ≡ start_of shape.now dict.now object }
{
    if shape.has_unsigned8(object, 6) {
        dict.number_8(object, 6)
    } else {
        0
    }
}

impl Communication {
    /// Those of the PDO with a communication object: the transmission type is sub-index 2, the inhibit
    /// time sub-index 3 in multiples of 100 microseconds, the event time sub-index 5 in milliseconds, and
    /// the SYNC start value sub-index 6; a time that isn't an UNSIGNED16 is 0, and so is a start value that
    /// isn't an UNSIGNED8.
    #[tactic(auto, unfolding(crate::specs::Working::inhibit_time, crate::specs::Working::event_time))]
    pub fn of(shape: &Shape, dict: &Dict, object: u16) -> Communication
        ensures transmission_type { result.transmission_type ≡ type_of shape.now dict.now object }
        ensures inhibit { result.inhibit_time ≡ inhibit_time shape.now dict.now object }
        ensures event { result.event_time ≡ event_time shape.now dict.now object }
        ensures start { result.sync_start ≡ start_of shape.now dict.now object }
    {
        Communication {
            transmission_type: transmission_type(shape, dict, object),
            inhibit_time: 100 * u32::from(unsigned_16(shape, dict, object, 3)),
            event_time: 1000 * u32::from(unsigned_16(shape, dict, object, 5)),
            sync_start: sync_start(shape, dict, object),
        }
    }
}
