//! Which PDO serves a message.
ghost use Rattle.std.specs.Prelude.{◌≡◌, ◌≤◌, ◌||◌, false, length};
ghost use Rattle.std.specs.Option.{option_map_or};
ghost use Rattle.vendor_pdos.specs.Choices.{sent_choices, taken_choices};
ghost use Rattle.vendor_pdos.specs.Fixed.{has_fixed};
ghost use Rattle.vendor_pdos.specs.Parameters.{is_open};
ghost use Rattle.vendor_pdos.specs.Serving.{has_objects_of, sends, takes};

use crate::fixed::{fixed_identifier, has_fixed};
use crate::mappings::mapping_serves;
use crate::parameters::{
    COB_ID, has_at, has_parameter, is_open, number_serves, sends_by_type, takes_by_type,
};
use crate::wanted::{Sender, Taker};
use cia301::{mapping_object, rpdo_object, tpdo_object};
use co_values::Width;
use pdo_stations::{AsMade, Carried};
use project_messages::Linked;

/// Whether the PDO with a communication object is there: its COB-ID, and the count of its mapping.
fn has_objects_of(device: &AsMade, object: u16) -> bool
    requires { object ≤ 0xFDFF }
    ensures { result ≡ has_objects_of device.now object }
{
    has_parameter(device, object, COB_ID) && has_at(device, Width::Bits8, mapping_object(object), 0)
}

/// Whether the TPDO of a message, up to 512, serves it, with these sources, up to 64: it is there, is open or has a
/// fixed identifier, and its mapping, type, times and start value serve.
#[tactic(auto, unfolding(crate::specs::Serving::sends))]
pub fn sends(device: &AsMade, linked: &Linked, carried: &[Carried]) -> bool
    requires number { linked.now.message.tpdo ≤ 512 }
    requires few { length carried.now ≤ 64 }
    ensures { result ≡ sends device.now linked.now.message linked.now.start (sent_choices carried.now) }
{
    let message = &linked.message;
    let object = tpdo_object(message.tpdo);
    has_objects_of(device, object)
        && (is_open(device, object) || fixed_identifier(device, object).is_some())
        && mapping_serves(device, object, &Sender, carried)
        && sends_by_type(device, object, message.transmission)
        && number_serves(device, object, 3, message.inhibit)
        && number_serves(device, object, 5, message.event)
        && number_serves(device, object, 6, u16::from(linked.start))
}

/// Whether a PDO is open, or has the identifier of a message, if that has one, as its fixed one.
fn has_identifier(device: &AsMade, object: u16, identifier: Option<u16>) -> bool
    ensures { result ≡ (is_open device.now object || option_map_or (has_fixed device.now object) identifier false) }
{
    match identifier {
        Some(identifier) => is_open(device, object) || has_fixed(device, object, identifier),
        None => is_open(device, object),
    }
}

/// Whether an RPDO of a consumer, 1 to 512, serves a message with an identifier, if it has one, a transmission type
/// and these sources, up to 64: it is there, is open or has the identifier as its fixed one, and its mapping and type
/// serve.
#[tactic(auto, unfolding(crate::specs::Serving::takes, crate::specs::Choices::taken_choices))]
pub fn takes(
    taker: &Taker,
    number: u16,
    identifier: Option<u16>,
    transmission: u8,
    carried: &[Carried],
) -> bool
    requires number { number ≤ 512 }
    requires few { length carried.now ≤ 64 }
    ensures { let t = taker.now in result ≡ takes t.device.now number identifier transmission
        (taken_choices t.device.now t.sinks.now t.node carried.now) }
{
    let device = taker.device;
    let object = rpdo_object(number);
    has_objects_of(device, object)
        && has_identifier(device, object, identifier)
        && mapping_serves(device, object, taker, carried)
        && takes_by_type(device, object, transmission)
}
