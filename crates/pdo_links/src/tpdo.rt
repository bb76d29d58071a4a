//! The writes of a node's TPDOs.
ghost use Rattle.std.specs.Prelude.{◌≡◌, ◌<◌, true, false, [], ◌∷◌, ◌++◌, length, filter_map, OnOk, IfOk};
ghost use Rattle.std.specs.Option.{option_map, option_map_or, option_and_then};
ghost use Rattle.eds_device.specs.Entries.{entry_at};
ghost use Rattle.pdo_stations.specs.Devices.{takes_unsigned};
ghost use Rattle.cia301.specs.PdoObjects.{tpdo_object};
ghost use Rattle.pdo_plan.specs.Plan.{HasPdo, IsMadeFor, clean, clean_of};
ghost use Rattle.pdo_choices.specs.Limits.{IsWithin};
ghost use Rattle.pdo_links.specs.Tables.{AreFew, AreValues, IsTableOf};
ghost use Rattle.pdo_links.specs.PdoWrites.{write_at, tpdo_of};
ghost use Rattle.pdo_links.specs.Writes.{start_write, time_write, tpdo_writes, by_number};

use crate::first::put_first;
use crate::mapping::put_mapping;
use crate::parameters::{COB_ID, EVENT_TIMER, INHIBIT_TIME, SYNC_START, TRANSMISSION_TYPE};
use crate::put::{put_u8, put_u16, put_u32};
use cia301::{CobId, mapping_object, tpdo_object};
use co_values::Width;
use concise_dcf::Write;
use eds_device::DataSheet;
use pdo_plan::{Clean, Outcome, Plan, PlannedMessage};
use pdo_stations::is_unsigned;
use std::alloc::{AllocError, Global};
use std::collections::BTreeMap;

/// Whether an entry is there, an UNSIGNEDn of a width and writable.
fn takes_unsigned(device: &DataSheet, node: u8, width: Width, index: u16, sub: u8) -> bool
    ensures { result ≡ option_map_or (takes_unsigned width) (entry_at device.now node index sub) false }
{
    match device.entry(node, index, sub) {
        Some(entry) => is_unsigned(entry.kind, width) && entry.access.is_writable(),
        None => false,
    }
}

/// Adds the write of a time, where its entry is there, UNSIGNED16 and writable.
fn put_time(
    writes: &mut Vec<Write>,
    device: &DataSheet,
    node: u8,
    object: u16,
    sub: u8,
    time: u16,
) -> Result<(), AllocError>
    ensures { OnOk result (writes.new.items ≡ writes.old.items ++ time_write device.now node object sub time) }
{
    if takes_unsigned(device, node, Width::Bits16, object, sub) {
        put_u16(writes, object, sub, time)?;
    }
    Ok(())
}

/// Adds the write of a SYNC start value, where its entry is there, UNSIGNED8 and writable.
fn put_start(
    writes: &mut Vec<Write>,
    device: &DataSheet,
    node: u8,
    object: u16,
    start: u8,
) -> Result<(), AllocError>
    ensures write { OnOk result (writes.new.items ≡ writes.old.items ++ start_write device.now node object start) }
    ensures range { start < 256 }
{
    if takes_unsigned(device, node, Width::Bits8, object, SYNC_START) {
        put_u8(writes, object, SYNC_START, start)?;
    }
    Ok(())
}

/// Adds the writes that say when a TPDO is sent: transmission type, inhibit time, event timer and
/// SYNC start value.
fn put_timing(
    writes: &mut Vec<Write>,
    device: &DataSheet,
    node: u8,
    object: u16,
    clean: &Clean,
) -> Result<(), AllocError>
    ensures writes { OnOk result (writes.new.items
        ≡ writes.old.items ++ (write_at object 2 (clean.now.message.transmission ∷ [])
        ∷ (time_write device.now node object 3 clean.now.message.inhibit
        ++ time_write device.now node object 5 clean.now.message.event
        ++ start_write device.now node object clean.now.start))) }
    ensures range { OnOk result (clean.now.message.transmission < 256) }
    ensures start { OnOk result (clean.now.start < 256) }
{
    let message = &clean.message;
    put_u8(writes, object, TRANSMISSION_TYPE, message.transmission)?;
    put_time(writes, device, node, object, INHIBIT_TIME, message.inhibit)?;
    put_time(writes, device, node, object, EVENT_TIMER, message.event)?;
    put_start(writes, device, node, object, clean.start)
}

/// Adds the writes of a TPDO: it is switched off; when it is sent, and what it maps; it is switched
/// on.
#[tactic(auto, unfolding(crate::specs::Writes::tpdo_writes))]
fn put_tpdo(
    writes: &mut Vec<Write>,
    device: &DataSheet,
    node: u8,
    clean: &Clean,
) -> Result<(), AllocError>
    requires { IsWithin clean.now }
    ensures writes { OnOk result (writes.new.items
        ≡ writes.old.items ++ tpdo_writes device.now node clean.now) }
    ensures fits { HasPdo device.now node (tpdo_object clean.now.message.tpdo) (length clean.now.mapping)
        → OnOk result (AreValues device.now (tpdo_writes device.now node clean.now)) }
{
    let object = tpdo_object(clean.message.tpdo);
    let identifier = CobId::NO_RTR_BIT + u32::from(clean.identifier);
    put_u32(writes, object, COB_ID, CobId::OFF_BIT + identifier)?;
    put_timing(writes, device, node, object, clean)?;
    put_mapping(writes, mapping_object(object), clean.mapping.as_slice())?;
    put_u32(writes, object, COB_ID, identifier)?;
    Ok(())
}

/// The TPDO by which a node sends a message of a plan.
fn tpdo_of(planned: &PlannedMessage, node: u8) -> Option<&Clean>
    ensures { option_map (λ c. (c.now.message.tpdo, c.now)) result ≡ option_and_then (tpdo_of node)
        (clean_of planned.now.outcome) }
{
    match &planned.outcome {
        Outcome::Planned(clean) if clean.message.node == node => Some(clean),
        _ => None,
    }
}

/// The TPDOs by which a node sends the messages of a plan, by number.
pub(crate) fn tpdos_of(
    alloc: Global,
    messages: &[PlannedMessage],
    node: u8,
) -> Result<BTreeMap<u16, &Clean>, AllocError>
    ensures { IfOk result (λ table. IsTableOf (λ c. c.now) table.entries (filter_map (tpdo_of node)
        (clean messages.now))) }
{
    let mut tpdos = BTreeMap::new(alloc);
    for planned in messages {
        if let Some(clean) = tpdo_of(planned, node) {
            put_first(&mut tpdos, clean.message.tpdo, clean)?;
        }
    }
    Ok(tpdos)
}

/// Adds the writes of the TPDOs that a plan gives a node, by number.
pub(crate) fn put_tpdos(
    alloc: Global,
    writes: &mut Vec<Write>,
    plan: &Plan,
    device: &DataSheet,
    node: u8,
) -> Result<(), AllocError>
    ensures writes { OnOk result (writes.new.items
        ≡ writes.old.items ++ by_number (tpdo_writes device.now node)
        (filter_map (tpdo_of node) (clean plan.now))) }
    ensures few { OnOk result (AreFew (by_number (tpdo_writes device.now node)
        (filter_map (tpdo_of node) (clean plan.now)))) }
    ensures fits { IsMadeFor plan.now device.now node
        → OnOk result (AreValues device.now (by_number (tpdo_writes device.now node)
        (filter_map (tpdo_of node) (clean plan.now)))) }
{
    let tpdos = tpdos_of(alloc, plan.messages(), node)?;
    'pdos: for (_number, clean) in tpdos.iter() {
        put_tpdo(writes, device, node, clean)?;
    }
    Ok(())
}
