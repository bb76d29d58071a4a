//! The communication parameters of a PDO.
ghost use Rattle.std.specs.Prelude.{◌≡◌};
ghost use Rattle.vendor_pdos.specs.Parameters.{can_be_set, has_at, has_parameter, is_open, number_serves};
ghost use Rattle.vendor_pdos.specs.Parameters.{parameter_default, parameter_width, sends_alike, takes_alike, takes_at};
ghost use Rattle.vendor_pdos.specs.Parameters.{takes_parameter, type_serves};

use cia301::TransmissionType;
use co_values::Width;
use pdo_stations::{AsMade, is_unsigned, takes_unsigned};

/// The sub-index of the COB-ID.
pub(crate) const COB_ID: u8 = 1;

/// The sub-index of the transmission type.
const TYPE: u8 = 2;

/// The sub-index of the event timer.
const EVENT: u8 = 5;

/// Whether a device has an UNSIGNEDn of a width at an index and sub-index.
pub fn has_at(device: &AsMade, width: Width, index: u16, sub: u8) -> bool
    ensures { result ≡ has_at device.now width (index, sub) }
{
    match device.shape.entry(index, sub) {
        Some(entry) => is_unsigned(entry.kind, width),
        None => false,
    }
}

/// Whether a device has an UNSIGNEDn of a width at an index and sub-index that can be written.
pub(crate) fn takes_at(device: &AsMade, width: Width, index: u16, sub: u8) -> bool
    ensures { result ≡ takes_at device.now width (index, sub) }
{
    match device.shape.entry(index, sub) {
        Some(entry) => takes_unsigned(width, entry),
        None => false,
    }
}

/// The width of the communication parameter at a sub-index (CiA 301): 32 bits of the COB-ID (1), 16 of inhibit time (3)
/// and event timer (5), 8 of the others.
pub fn parameter_width(sub: u8) -> Width
    ensures { result ≡ parameter_width sub }
{
    match sub {
        1 => Width::Bits32,
        3 | 5 => Width::Bits16,
        _ => Width::Bits8,
    }
}

/// Whether a PDO has a communication parameter, by the index of its communication object.
pub fn has_parameter(device: &AsMade, object: u16, sub: u8) -> bool
    ensures { result ≡ has_parameter device.now object sub }
{
    has_at(device, parameter_width(sub), object, sub)
}

/// Whether a PDO has a communication parameter that can be written.
fn takes_parameter(device: &AsMade, object: u16, sub: u8) -> bool
    ensures { result ≡ takes_parameter device.now object sub }
{
    takes_at(device, parameter_width(sub), object, sub)
}

/// What stands by default at a communication parameter (CiA 301: sub 1 COB-ID, 2 transmission type, 3 inhibit
/// time, 5 event timer, 6 SYNC start value) of the PDO with this communication object; 0 where nothing does.
pub fn parameter_default(device: &AsMade, object: u16, sub: u8) -> u32
    ensures { result ≡ parameter_default device.now object sub }
{
    let defaults = &device.defaults;
    match sub {
        1 => defaults.number_32(object, sub),
        3 | 5 => u32::from(defaults.number_16(object, sub)),
        _ => u32::from(defaults.number_8(object, sub)),
    }
}

/// Whether the PDO with this communication object is open: its COB-ID can be written. Else it is closed.
pub fn is_open(device: &AsMade, object: u16) -> bool
    ensures { result ≡ is_open device.now object }
{
    takes_parameter(device, object, COB_ID)
}

/// Whether a communication parameter of the PDO with this communication object can be set: it is writable, and of
/// a closed PDO it is the transmission type or the event timer.
pub fn can_be_set(device: &AsMade, object: u16, sub: u8) -> bool
    ensures { result ≡ can_be_set device.now object sub }
{
    takes_parameter(device, object, sub) && (is_open(device, object) || sub == TYPE || sub == EVENT)
}

/// Whether a number serves as inhibit time (sub 3), event timer (5) or SYNC start value (6) of the PDO with this
/// communication object: it can be set, or stands there by default, or is 0 and there is no such parameter.
#[tactic(auto, unfolding(crate::specs::Parameters::number_serves))]
pub fn number_serves(device: &AsMade, object: u16, sub: u8, number: u16) -> bool
    ensures { result ≡ number_serves device.now object sub number }
{
    if can_be_set(device, object, sub) {
        return true;
    }
    if has_parameter(device, object, sub) {
        parameter_default(device, object, sub) == u32::from(number)
    } else {
        number == 0
    }
}

/// Whether a TPDO of one transmission type sends as one of the other.
fn sends_alike(kind: u8, other: u8) -> bool
    ensures { result ≡ sends_alike kind other }
{
    let are_event_driven = TransmissionType::of(kind).is_event_driven()
        && TransmissionType::of(other).is_event_driven();
    are_event_driven || kind == other
}

/// Whether an RPDO of the other transmission type takes as messages of the one are sent.
fn takes_alike(kind: u8, other: u8) -> bool
    ensures { result ≡ takes_alike kind other }
{
    if TransmissionType::of(kind).is_synchronous() {
        TransmissionType::of(other).is_synchronous()
    } else {
        TransmissionType::of(other).is_event_driven()
    }
}

/// Whether a TPDO can send by a transmission type: it can be set, or one like it stands by default.
#[tactic(auto, unfolding(crate::specs::Parameters::type_serves))]
pub(crate) fn sends_by_type(device: &AsMade, object: u16, kind: u8) -> bool
    ensures { result ≡ type_serves sends_alike device.now object kind }
{
    can_be_set(device, object, TYPE)
        || (has_parameter(device, object, TYPE)
            && sends_alike(kind, device.defaults.number_8(object, TYPE)))
}

/// Whether an RPDO can take what is sent by a transmission type: it can be set, or one that takes it stands by
/// default.
#[tactic(auto, unfolding(crate::specs::Parameters::type_serves))]
pub(crate) fn takes_by_type(device: &AsMade, object: u16, kind: u8) -> bool
    ensures { result ≡ type_serves takes_alike device.now object kind }
{
    can_be_set(device, object, TYPE)
        || (has_parameter(device, object, TYPE)
            && takes_alike(kind, device.defaults.number_8(object, TYPE)))
}
