//! PDOs that send or take beside the plan.
ghost use Rattle.std.specs.Prelude.{◌≡◌, ◌≤◌, ◌++◌, ℕ, IfOk, OnOk};
ghost use Rattle.std.specs.BTreeSet.{contains};
ghost use Rattle.std.specs.Ordering.{nat_cmp};
ghost use Rattle.pdo_findings.specs.Findings.{is_sent_to, unplanned_rpdo, unplanned_rpdos, unplanned_tpdo};
ghost use Rattle.pdo_findings.specs.Findings.{unplanned_tpdos, uses_rpdo, uses_tpdo};
ghost use Rattle.pdo_plan.specs.declared.planned_message.PlannedMessage.{PlannedMessage as Said};
ghost use Rattle.std.specs.Prelude.{List};

use crate::lasting::{lasting_identifier, sends_on};
use crate::used::{heard_identifiers, used_rpdos, used_tpdos};
use cia301::{LAST_PDO, rpdo_object, tpdo_object};
use pdo_links::Plan;
use pdo_stations::AsMade;
use std::alloc::{AllocError, Global};
use std::collections::BTreeSet;
use vendor_pdos::{next_rpdo, next_tpdo};

/// Adds the number of a TPDO, up to 512, that sends beside the plan.
fn add_tpdo(
    found: &mut Vec<u16>,
    used: &BTreeSet<u16>,
    device: &AsMade,
    number: u16,
) -> Result<(), AllocError>
    requires { number ≤ 512 }
    ensures { (plan : List Said) (node : ℕ)
        → ((n : ℕ) → contains nat_cmp used.now n ≡ uses_tpdo plan node n)
        → OnOk result (found.new.items ≡ found.old.items ++ unplanned_tpdo plan device.now node number) }
{
    if sends_on(device, tpdo_object(number)) && !used.contains(&number) {
        found.push(number)?;
    }
    Ok(())
}

/// The numbers of the TPDOs of a node that send beside the plan, in order: no clean message is sent by them, and they are
/// on by default and can't be switched off. Takes time by the number of messages and the logarithm of that of the entries.
pub fn unplanned_tpdos(
    alloc: Global,
    plan: &Plan,
    device: &AsMade,
    node: u8,
) -> Result<Vec<u16>, AllocError>
    ensures { IfOk result (λ found. found.items ≡ unplanned_tpdos plan.now device.now node) }
{
    let used = used_tpdos(alloc, plan, node)?;
    let mut found = Vec::new(alloc);
    let mut number = next_tpdo(device, 1);
    'numbers: while number <= LAST_PDO {
        add_tpdo(&mut found, &used, device, number)?;
        number = next_tpdo(device, number + 1);
    }
    Ok(found)
}

/// Adds the number of an RPDO, up to 512, that takes a message that isn't meant for it.
fn add_rpdo(
    found: &mut Vec<u16>,
    used: &BTreeSet<u16>,
    heard: &BTreeSet<u16>,
    device: &AsMade,
    number: u16,
) -> Result<(), AllocError>
    requires { number ≤ 512 }
    ensures { (plan : List Said) (node : ℕ)
        → ((n : ℕ) → contains nat_cmp used.now n ≡ uses_rpdo plan node n)
        → ((n : ℕ) → contains nat_cmp heard.now n ≡ is_sent_to plan node n)
        → OnOk result (found.new.items ≡ found.old.items ++ unplanned_rpdo plan device.now node number) }
{
    let Some(identifier) = lasting_identifier(device, rpdo_object(number)) else {
        return Ok(());
    };
    if heard.contains(&identifier) && !used.contains(&number) {
        found.push(number)?;
    }
    Ok(())
}

/// The numbers of the RPDOs of a node that take a message that isn't meant for them, in order: no clean message is taken by
/// them as planned, and they have the identifier of one of another node by default and can't be switched off. Takes time
/// by the number of messages with their consumers, and the logarithm of that of the entries.
pub fn unplanned_rpdos(
    alloc: Global,
    plan: &Plan,
    device: &AsMade,
    node: u8,
) -> Result<Vec<u16>, AllocError>
    ensures { IfOk result (λ found. found.items ≡ unplanned_rpdos plan.now device.now node) }
{
    let used = used_rpdos(alloc, plan, node)?;
    let heard = heard_identifiers(alloc, plan, node)?;
    let mut found = Vec::new(alloc);
    let mut number = next_rpdo(device, 1);
    'numbers: while number <= LAST_PDO {
        add_rpdo(&mut found, &used, &heard, device, number)?;
        number = next_rpdo(device, number + 1);
    }
    Ok(found)
}
