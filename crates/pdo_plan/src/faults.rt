//! The faults of a message.
ghost use Rattle.std.specs.Prelude.{◌≡◌, ◌≤◌, ◌==◌, ◌&&◌, not, length, is_none, is_some, IfOk};
ghost use Rattle.std.specs.List.{list_any};
ghost use Rattle.pdo_plan.specs.Carried.{has_objects_by};
ghost use Rattle.pdo_choices.specs.Rpdos.{rpdo_by};
ghost use Rattle.pdo_choices.specs.Identifiers.{identifier_for, sought_identifier};
ghost use Rattle.pdo_choices.specs.Consumers.{consumers_of};
ghost use Rattle.pdo_plan.specs.Plan.{faults_that_hold, faults};
ghost use Rattle.project_messages.specs.Messages.{IsLinked};
ghost use Rattle.pdo_stations.specs.Carried.{carried_of, lacks_some};
ghost use Rattle.pdo_stations.specs.Stations.{devices_in};
ghost use Rattle.pdo_choices.specs.Taken.{devices_known, had_in};

use crate::entry_faults::entry_faults;
use crate::message_fault::MessageFault;
use cia301::TransmissionType;
use pdo_choices::{Listed, Taken, Wish, rpdo_by};
use pdo_stations::{Carried, Stations, has_tpdo, lacks_dummy, total_bits};
use project_messages::Sinks;
use std::alloc::{AllocError, Global};
use vendor_pdos::sends;

/// Whether the sender's TPDO, up to 512, has what its writes name, or in version 3 serves the message.
fn has_objects(stations: &Stations, wish: &Wish) -> bool
    requires number { wish.now.linked.now.message.tpdo ≤ 512 }
    requires few { length wish.now.carried.now ≤ 64 }
    ensures { result ≡ has_objects_by (devices_in stations.now) wish.now.linked.now wish.now.carried.now }
{
    let linked = wish.linked;
    let carried = wish.carried;
    if !stations.is_three() {
        return has_tpdo(stations, linked, carried.len());
    }
    match stations.made(linked.message.node) {
        Some(device) => sends(device, linked, carried),
        None => false,
    }
}

/// Whether a consumer has no RPDO for the message.
fn lacks_rpdo(taken: &Taken, wish: &Wish, consumers: &[u8]) -> bool
    requires linked { IsLinked wish.now.linked.now }
    requires few { length wish.now.carried.now ≤ 64 }
    ensures { let w = wish.now in result ≡ list_any (λ node. is_none (rpdo_by (had_in taken.now)
        (devices_known taken.now) w.linked.now w.carried.now w.identifier node)) consumers.now }
{
    consumers
        .iter()
        .any(|node| rpdo_by(taken, wish, *node).is_none())
}

/// Whether a consumer needs a dummy that it doesn't allow.
fn lacks_any_dummy(
    stations: &Stations,
    carried: &[Carried],
    sinks: &Sinks,
    consumers: &[u8],
) -> bool
    ensures { result
        ≡ list_any (λ node. lacks_some (devices_in stations.now) sinks.now node carried.now) consumers.now }
{
    consumers
        .iter()
        .any(|node| lacks_dummy(stations, sinks, *node, carried))
}

/// Of faults with their tests those whose test holds.
fn noted(alloc: Global, tests: &[(bool, MessageFault)]) -> Result<Vec<MessageFault>, AllocError>
    ensures { IfOk result (λ faults. faults.items ≡ faults_that_hold tests.now) }
{
    let mut faults = Vec::new(alloc);
    for test in tests {
        if test.0 {
            faults.push(test.1)?;
        }
    }
    Ok(faults)
}

/// Whether an explicit identifier can't be had.
fn is_bad(cob: u16, has_identifier: bool) -> bool
    ensures { result ≡ (not (cob == 0) && not has_identifier) }
{
    cob != 0 && !has_identifier
}

/// Whether no automatic identifier is free.
fn lacks_identifier(cob: u16, has_identifier: bool) -> bool
    ensures { result ≡ (cob == 0 && not has_identifier) }
{
    cob == 0 && !has_identifier
}

/// All faults of a message with these consumers, which can have an identifier or not.
pub(crate) fn faults(
    alloc: Global,
    taken: &Taken,
    wish: &Wish,
    consumers: &[u8],
    has_identifier: bool,
) -> Result<Listed<MessageFault>, AllocError>
    requires number { wish.now.linked.now.message.tpdo ≤ 512 }
    requires few { length wish.now.carried.now ≤ 64 }
    requires linked { IsLinked wish.now.linked.now }
    requires sources { wish.now.carried.now ≡ carried_of (devices_known taken.now) wish.now.linked.now.message.node
        wish.now.linked.now.sources }
    requires consumers { consumers.now ≡ consumers_of wish.now.linked.now.sinks }
    requires identifier { has_identifier ≡ is_some (identifier_for (had_in taken.now) (devices_known taken.now)
        wish.now.linked.now.message) }
    requires sought { wish.now.identifier ≡ sought_identifier (had_in taken.now) (devices_known taken.now)
        wish.now.linked.now.message }
    ensures { IfOk result (λ found. found ≡ faults (had_in taken.now) (devices_known taken.now) wish.now.linked.now) }
{
    let linked = wish.linked;
    let message = &linked.message;
    let stations = &taken.known.stations;
    let entries = entry_faults(stations, linked, wish.carried);
    let tests = [
        (!has_objects(stations, wish), MessageFault::NoObjects),
        (
            taken.tpdos.contains(&(message.node, message.tpdo)),
            MessageFault::TpdoTaken,
        ),
        (total_bits(wish.carried) > 64, MessageFault::TooManyBits),
        (entries.unmappable, MessageFault::NotMappable),
        (entries.mismatched, MessageFault::Mismatched),
        (lacks_rpdo(taken, wish, consumers), MessageFault::NoRpdo),
        (
            lacks_any_dummy(stations, wish.carried, &linked.sinks, consumers),
            MessageFault::NoDummy,
        ),
        (
            is_bad(message.cob, has_identifier),
            MessageFault::BadIdentifier,
        ),
        (
            lacks_identifier(message.cob, has_identifier),
            MessageFault::NoIdentifier,
        ),
        (
            TransmissionType::of(message.transmission).is_reserved(),
            MessageFault::ReservedType,
        ),
    ];
    let faults = noted(alloc, &tests)?;
    Ok(Listed::from_vec(faults))
}
