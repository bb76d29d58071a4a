//! The writes of a node's TPDOs, as its vendor made them.
ghost use Rattle.std.specs.Prelude.{◌≡◌, ◌<◌, ◌≤◌, ℕ, List, [], ◌++◌, filter_map, None, OnOk, IfSome};
ghost use Rattle.std.specs.Map.{lookup};
ghost use Rattle.std.specs.BTreeMap.{is_at};
ghost use Rattle.std.specs.Option.{option_copied, option_map, option_map_or};
ghost use Rattle.std.specs.Ordering.{nat_cmp};
ghost use Rattle.cia301.specs.PdoObjects.{tpdo_object};
ghost use Rattle.eds_device.specs.Sheets.{Sheet};
ghost use Rattle.pdo_stations.specs.Devices.{as_made};
ghost use Rattle.pdo_choices.specs.Limits.{IsWithin};
ghost use Rattle.pdo_plan.specs.Plan.{clean};
ghost use Rattle.pdo_links.specs.PdoWrites.{tpdo_of};
ghost use Rattle.pdo_links.specs.Tables.{AreFew, AreValues};
ghost use Rattle.pdo_links.specs.VendorWrites.{each_by_number, parameter_write, unused_writes, vendor_tpdo_writes};

use crate::first::next_number;
use crate::parameters::{EVENT_TIMER, INHIBIT_TIME, SYNC_START, TRANSMISSION_TYPE};
use crate::settings::put_parameter;
use crate::switching::{put_off, put_on, put_unused};
use crate::tpdo::tpdos_of;
use cia301::{CobId, LAST_PDO, tpdo_object};
use concise_dcf::Write;
use pdo_plan::{Clean, Plan};
use pdo_stations::AsMade;
use std::alloc::{AllocError, Global};
use std::collections::BTreeMap;
use vendor_pdos::next_tpdo;

/// Adds the writes that say when a TPDO is sent: transmission type, inhibit time, event timer and SYNC start
/// value, each where it is written.
fn put_settings(
    writes: &mut Vec<Write>,
    device: &AsMade,
    object: u16,
    clean: &Clean,
) -> Result<(), AllocError>
    ensures { OnOk result (writes.new.items ≡ writes.old.items
        ++ (parameter_write device.now object 2 clean.now.message.transmission
        ++ parameter_write device.now object 3 clean.now.message.inhibit
        ++ parameter_write device.now object 5 clean.now.message.event
        ++ parameter_write device.now object 6 clean.now.start)) }
{
    let message = &clean.message;
    let kind = u16::from(message.transmission);
    put_parameter(writes, device, object, TRANSMISSION_TYPE, kind)?;
    put_parameter(writes, device, object, INHIBIT_TIME, message.inhibit)?;
    put_parameter(writes, device, object, EVENT_TIMER, message.event)?;
    put_parameter(writes, device, object, SYNC_START, u16::from(clean.start))
}

/// Adds the writes of a TPDO by which a message is sent: an open one is switched off, it is set when it is sent
/// and what it maps, and it is switched on; of a closed one is set when it is sent.
fn put_tpdo(writes: &mut Vec<Write>, device: &AsMade, clean: &Clean) -> Result<(), AllocError>
    requires { IsWithin clean.now }
    ensures writes { OnOk result (writes.new.items ≡ writes.old.items ++ vendor_tpdo_writes device.now clean.now) }
    ensures fits { (sheet : Sheet) (node : ℕ) → device.now ≡ as_made sheet node
        → OnOk result (AreValues sheet (vendor_tpdo_writes device.now clean.now)) }
{
    let object = tpdo_object(clean.message.tpdo);
    let cob = CobId::NO_RTR_BIT + u32::from(clean.identifier);
    put_off(writes, device, object, cob)?;
    put_settings(writes, device, object, clean)?;
    put_on(writes, device, object, cob, clean.mapping.as_slice())?;
    Ok(())
}

/// Adds the writes of the TPDO of a number, which a message may use.
fn put_numbered(
    writes: &mut Vec<Write>,
    device: &AsMade,
    number: u16,
    used: Option<&Clean>,
) -> Result<(), AllocError>
    requires number { number ≤ 512 }
    requires within { IfSome used (λ c. IsWithin c.now) }
    ensures writes { OnOk result (writes.new.items ≡ writes.old.items
        ++ option_map_or (vendor_tpdo_writes device.now) (option_copied used.entry)
        (unused_writes device.now (tpdo_object number))) }
    ensures fits { (sheet : Sheet) (node : ℕ) → device.now ≡ as_made sheet node
        → OnOk result (AreValues sheet (option_map_or (vendor_tpdo_writes device.now) (option_copied used.entry)
        (unused_writes device.now (tpdo_object number)))) }
{
    match used {
        Some(clean) => put_tpdo(writes, device, clean),
        None => put_unused(writes, device, tpdo_object(number)),
    }
}

/// The message of the TPDO of a number.
fn used_at<'a>(tpdos: &BTreeMap<u16, &'a Clean>, number: u16) -> Option<&'a Clean>
    ensures { result ≡ lookup (is_at (nat_cmp number)) tpdos.now.entries }
{
    tpdos.get(&number).copied()
}

/// The least number, from a given one on and up to 512, of a TPDO that a message uses, or whose communication object
/// the device has; 513 where there is none. For no other number is anything written.
fn next_written(tpdos: &BTreeMap<u16, &Clean>, device: &AsMade, from: u16) -> u16
    requires { from ≤ 513 }
    ensures low { from ≤ result }
    ensures high { result ≤ 513 }
    ensures unused { (number : ℕ) → from ≤ number → number < result
        → lookup (is_at (nat_cmp number)) tpdos.now.entries ≡ None }
    ensures nothing { (number : ℕ) → from ≤ number → number < result
        → unused_writes device.now (tpdo_object number) ≡ [] }
{
    next_number(tpdos, from, next_tpdo(device, from))
}

/// Adds the writes of all TPDOs of a node by number: of those by which it sends the messages of a plan, and of
/// those that are switched off.
pub(crate) fn put_vendor_tpdos(
    alloc: Global,
    writes: &mut Vec<Write>,
    plan: &Plan,
    device: &AsMade,
    node: u8,
) -> Result<(), AllocError>
    ensures writes { OnOk result (writes.new.items ≡ writes.old.items
        ++ each_by_number (vendor_tpdo_writes device.now) (λ number. unused_writes device.now (tpdo_object number))
        (filter_map (tpdo_of node) (clean plan.now))) }
    ensures few { OnOk result (AreFew (each_by_number (vendor_tpdo_writes device.now)
        (λ number. unused_writes device.now (tpdo_object number)) (filter_map (tpdo_of node) (clean plan.now)))) }
    ensures fits { (sheet : Sheet) (node_number : ℕ) → device.now ≡ as_made sheet node_number
        → OnOk result (AreValues sheet (each_by_number (vendor_tpdo_writes device.now)
        (λ number. unused_writes device.now (tpdo_object number)) (filter_map (tpdo_of node) (clean plan.now)))) }
{
    let tpdos = tpdos_of(alloc, plan.messages(), node)?;
    let mut number = next_written(&tpdos, device, 1);
    'numbers: while number <= LAST_PDO {
        put_numbered(writes, device, number, used_at(&tpdos, number))?;
        number = next_written(&tpdos, device, number + 1);
    }
    Ok(())
}
