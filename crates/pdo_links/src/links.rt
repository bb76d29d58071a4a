//! The writes of a node's PDOs.
ghost use Rattle.std.specs.Prelude.{◌≡◌, ◌≤◌, ◌*◌, ◌⊎◌, Bool, IsTrue, All, ◌++◌, length, IfOk, OnOk};
ghost use Rattle.pdo_stations.specs.Devices.{as_made};
ghost use Rattle.pdo_plan.specs.Plan.{IsMadeFor};
ghost use Rattle.concise_dcf.specs.Writes.{IsSized};
ghost use Rattle.pdo_links.specs.Tables.{AreValues, most_pdo_writes};
ghost use Rattle.pdo_links.specs.VendorWrites.{vendor_link_writes};
ghost use Rattle.pdo_links.specs.Writes.{link_writes, set_link_writes};

use crate::rpdo::put_rpdos;
use crate::tpdo::put_tpdos;
use crate::vendor_rpdo::put_vendor_rpdos;
use crate::vendor_tpdo::put_vendor_tpdos;
use concise_dcf::Write;
use eds_device::DataSheet;
use pdo_plan::Plan;
use pdo_stations::AsMade;
use std::alloc::{AllocError, Global};

/// Adds the writes of the PDOs that a plan gives a node, by the rules of versions 1 and 2.
#[tactic(auto, unfolding(crate::specs::Writes::set_link_writes))]
fn put_set_links(
    alloc: Global,
    writes: &mut Vec<Write>,
    plan: &Plan,
    device: &DataSheet,
    node: u8,
) -> Result<(), AllocError>
    ensures writes { OnOk result (writes.new.items
        ≡ writes.old.items ++ set_link_writes plan.now device.now node) }
    ensures fits { IsMadeFor plan.now device.now node
        → OnOk result (AreValues device.now (set_link_writes plan.now device.now node)) }
    ensures sizes { OnOk result (All IsSized (set_link_writes plan.now device.now node)) }
    ensures count { OnOk result (length (set_link_writes plan.now device.now node)
        ≤ most_pdo_writes * 2) }
{
    put_tpdos(alloc, writes, plan, device, node)?;
    put_rpdos(alloc, writes, plan, node)?;
    Ok(())
}

/// The writes that a plan of version 3 gives the PDOs of a node, whose device is as its vendor made it: of its TPDOs and
/// then of its RPDOs, each by number. Takes time by the number of messages with their consumers, and that of the writes;
/// want of memory is the only error.
#[tactic(auto, unfolding(crate::specs::VendorWrites::vendor_link_writes))]
pub fn vendor_link_writes(
    alloc: Global,
    plan: &Plan,
    made: &AsMade,
    node: u8,
) -> Result<Vec<Write>, AllocError>
    ensures writes { IfOk result (λ writes. writes.items ≡ vendor_link_writes plan.now made.now node) }
    ensures sizes { IfOk result (λ writes. All IsSized writes.items) }
{
    let mut writes = Vec::new(alloc);
    put_vendor_tpdos(alloc, &mut writes, plan, made, node)?;
    put_vendor_rpdos(alloc, &mut writes, plan, made, node)?;
    Ok(writes)
}

/// Adds the writes of the PDOs of a node as its vendor made it, by the rules of version 3.
fn put_vendor_links(
    alloc: Global,
    writes: &mut Vec<Write>,
    plan: &Plan,
    device: &DataSheet,
    node: u8,
) -> Result<(), AllocError>
    ensures writes { OnOk result (writes.new.items
        ≡ writes.old.items ++ vendor_link_writes plan.now (as_made device.now node) node) }
    ensures fits { OnOk result (AreValues device.now
        (vendor_link_writes plan.now (as_made device.now node) node)) }
    ensures sizes { OnOk result (All IsSized
        (vendor_link_writes plan.now (as_made device.now node) node)) }
    ensures count { OnOk result (length (vendor_link_writes plan.now (as_made device.now node) node)
        ≤ most_pdo_writes * 2) }
{
    let made = AsMade::of(device, node)?;
    put_vendor_tpdos(alloc, writes, plan, &made, node)?;
    put_vendor_rpdos(alloc, writes, plan, &made, node)?;
    Ok(())
}

/// Adds the writes of the PDOs of a node, by the rules of version 3 or not.
pub(crate) fn put_links(
    alloc: Global,
    writes: &mut Vec<Write>,
    is_three: bool,
    plan: &Plan,
    device: &DataSheet,
    node: u8,
) -> Result<(), AllocError>
    ensures writes { OnOk result (writes.new.items
        ≡ writes.old.items ++ link_writes is_three plan.now device.now node) }
    ensures fits { IsTrue is_three ⊎ IsMadeFor plan.now device.now node
        → OnOk result (AreValues device.now
        (link_writes is_three plan.now device.now node)) }
    ensures sizes { OnOk result (All IsSized (link_writes is_three plan.now device.now node)) }
    ensures count { OnOk result (length (link_writes is_three plan.now device.now node)
        ≤ most_pdo_writes * 2) }
{
    if is_three {
        put_vendor_links(alloc, writes, plan, device, node)
    } else {
        put_set_links(alloc, writes, plan, device, node)
    }
}
