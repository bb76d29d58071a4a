//! The writes of a node's RPDOs, as its vendor made them.
ghost use Rattle.std.specs.Prelude.{◌≡◌, ◌<◌, ◌≤◌, ◌==◌, ℕ, List, [], ◌++◌, filter_map, if◌then◌else◌, None, OnOk};
ghost use Rattle.std.specs.Prelude.{IfSome};
ghost use Rattle.std.specs.Map.{lookup};
ghost use Rattle.std.specs.BTreeMap.{is_at};
ghost use Rattle.std.specs.Option.{option_map, option_map_or};
ghost use Rattle.std.specs.Ordering.{nat_cmp};
ghost use Rattle.cia301.specs.PdoObjects.{rpdo_object};
ghost use Rattle.eds_device.specs.Sheets.{Sheet};
ghost use Rattle.pdo_stations.specs.Devices.{as_made};
ghost use Rattle.pdo_choices.specs.Limits.{IsNumbered};
ghost use Rattle.pdo_plan.specs.Plan.{clean};
ghost use Rattle.pdo_links.specs.PdoWrites.{rpdo_of, taken_type};
ghost use Rattle.pdo_links.specs.Tables.{AreFew, AreValues};
ghost use Rattle.pdo_links.specs.VendorWrites.{each_by_number, parameter_write, unused_writes, vendor_rpdo_writes};

use crate::first::next_number;
use crate::parameters::{EVENT_TIMER, TRANSMISSION_TYPE};
use crate::rpdo::{rpdos_of, taken_type};
use crate::settings::put_parameter;
use crate::switching::{put_off, put_on, put_unused};
use crate::taken::Taken;
use cia301::{LAST_PDO, rpdo_object};
use concise_dcf::Write;
use pdo_plan::{Clean, Consumer, Plan};
use pdo_stations::AsMade;
use std::alloc::{AllocError, Global};
use std::collections::BTreeMap;
use vendor_pdos::next_rpdo;

/// Adds the writes that say when what an RPDO takes counts, and within which time a frame is expected, where the
/// project gives one.
fn put_settings(
    writes: &mut Vec<Write>,
    device: &AsMade,
    object: u16,
    clean: &Clean,
    consumer: &Consumer,
) -> Result<(), AllocError>
    ensures { OnOk result (writes.new.items ≡ writes.old.items
        ++ (parameter_write device.now object 2 (taken_type clean.now.message.transmission)
        ++ (if consumer.now.event == 0 then [] else parameter_write device.now object 5 consumer.now.event))) }
{
    let kind = u16::from(taken_type(clean.message.transmission));
    put_parameter(writes, device, object, TRANSMISSION_TYPE, kind)?;
    if consumer.event != 0 {
        put_parameter(writes, device, object, EVENT_TIMER, consumer.event)?;
    }
    Ok(())
}

/// Adds the writes of an RPDO by which a message is taken: an open one is switched off, it is set when what it
/// takes counts and what it maps, and it is switched on; of a closed one is set when what it takes counts.
fn put_rpdo(
    writes: &mut Vec<Write>,
    device: &AsMade,
    clean: &Clean,
    consumer: &Consumer,
) -> Result<(), AllocError>
    requires { IsNumbered consumer.now.rpdo consumer.now.mapping }
    ensures writes { OnOk result (writes.new.items
        ≡ writes.old.items ++ vendor_rpdo_writes device.now clean.now consumer.now) }
    ensures fits { (sheet : Sheet) (node : ℕ) → device.now ≡ as_made sheet node
        → OnOk result (AreValues sheet (vendor_rpdo_writes device.now clean.now consumer.now)) }
{
    let object = rpdo_object(consumer.rpdo);
    let cob = u32::from(clean.identifier);
    put_off(writes, device, object, cob)?;
    put_settings(writes, device, object, clean, consumer)?;
    put_on(writes, device, object, cob, consumer.mapping.as_slice())?;
    Ok(())
}

/// Adds the writes of the RPDO of a number, by which a message may be taken.
fn put_numbered(
    writes: &mut Vec<Write>,
    device: &AsMade,
    number: u16,
    used: Option<Taken<'_>>,
) -> Result<(), AllocError>
    requires number { number ≤ 512 }
    requires within { IfSome used (λ t. IsNumbered t.consumer.now.rpdo t.consumer.now.mapping) }
    ensures writes { OnOk result (writes.new.items ≡ writes.old.items
        ++ option_map_or (λ t. vendor_rpdo_writes device.now t.clean.now t.consumer.now) used.entry
        (unused_writes device.now (rpdo_object number))) }
    ensures fits { (sheet : Sheet) (node : ℕ) → device.now ≡ as_made sheet node
        → OnOk result (AreValues sheet (option_map_or
        (λ t. vendor_rpdo_writes device.now t.clean.now t.consumer.now) used.entry
        (unused_writes device.now (rpdo_object number)))) }
{
    match used {
        Some(taken) => put_rpdo(writes, device, taken.clean, taken.consumer),
        None => put_unused(writes, device, rpdo_object(number)),
    }
}

/// What is taken by the RPDO of a number.
fn used_at<'a>(rpdos: &BTreeMap<u16, Taken<'a>>, number: u16) -> Option<Taken<'a>>
    ensures { result ≡ lookup (is_at (nat_cmp number)) rpdos.now.entries }
{
    rpdos.get(&number).copied()
}

/// The least number, from a given one on and up to 512, of an RPDO that a message uses, or whose communication object
/// the device has; 513 where there is none. For no other number is anything written.
fn next_written(rpdos: &BTreeMap<u16, Taken<'_>>, device: &AsMade, from: u16) -> u16
    requires { from ≤ 513 }
    ensures low { from ≤ result }
    ensures high { result ≤ 513 }
    ensures unused { (number : ℕ) → from ≤ number → number < result
        → lookup (is_at (nat_cmp number)) rpdos.now.entries ≡ None }
    ensures nothing { (number : ℕ) → from ≤ number → number < result
        → unused_writes device.now (rpdo_object number) ≡ [] }
{
    next_number(rpdos, from, next_rpdo(device, from))
}

/// Adds the writes of all RPDOs of a node by number: of those by which it takes the messages of a plan, and of
/// those that are switched off.
pub(crate) fn put_vendor_rpdos(
    alloc: Global,
    writes: &mut Vec<Write>,
    plan: &Plan,
    device: &AsMade,
    node: u8,
) -> Result<(), AllocError>
    ensures writes { OnOk result (writes.new.items ≡ writes.old.items
        ++ each_by_number (λ t. vendor_rpdo_writes device.now t.0 t.1)
        (λ number. unused_writes device.now (rpdo_object number)) (filter_map (rpdo_of node) (clean plan.now))) }
    ensures few { OnOk result (AreFew (each_by_number (λ t. vendor_rpdo_writes device.now t.0 t.1)
        (λ number. unused_writes device.now (rpdo_object number)) (filter_map (rpdo_of node) (clean plan.now)))) }
    ensures fits { (sheet : Sheet) (node_number : ℕ) → device.now ≡ as_made sheet node_number
        → OnOk result (AreValues sheet (each_by_number (λ t. vendor_rpdo_writes device.now t.0 t.1)
        (λ number. unused_writes device.now (rpdo_object number)) (filter_map (rpdo_of node) (clean plan.now)))) }
{
    let rpdos = rpdos_of(alloc, plan.messages(), node)?;
    let mut number = next_written(&rpdos, device, 1);
    'numbers: while number <= LAST_PDO {
        put_numbered(writes, device, number, used_at(&rpdos, number))?;
        number = next_written(&rpdos, device, number + 1);
    }
    Ok(())
}
