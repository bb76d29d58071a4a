//! What is found in version 3, put at the end of what was found: PDOs beside the plan, writes beside limits and receives
//! that are of no use.
ghost use Rattle.std.specs.Prelude.{◌≡◌, ◌++◌, [], OnOk, map};
ghost use Rattle.std.specs.List.{flat_map};
ghost use Rattle.diag_lines.specs.declared.code.Code.TheVariants.{BesideLimits, UnplannedRpdo, UnplannedTpdo};
ghost use Rattle.diag_lines.specs.declared.subject.Subject.TheVariants as of;
ghost use Rattle.project_plan.specs.Library.{IsRead};
ghost use Rattle.project_plan.specs.Network.{members, plan_of_project};
ghost use Rattle.diag_nodes.specs.Devices.{AreAllRead, of_node};
ghost use Rattle.diag_nodes.specs.Found.{diagnostic};
ghost use Rattle.co_diag.specs.Found.{node_findings, pdo_findings};
ghost use Rattle.co_diag.specs.Found.{vendor_findings};

use crate::useless::find_useless_receives;
use co_project::Node;
use diag_lines::{Code, Diag, Subject};
use diag_nodes::device_of;
use pdo_findings::{refused_places, unplanned_rpdos, unplanned_tpdos};
use pdo_links::vendor_link_writes;
use pdo_plan::Plan;
use pdo_stations::AsMade;
use project_plan::Library;
use std::alloc::{AllocError, Global};

/// Finds these TPDOs of a node to send beside the plan.
fn find_tpdos(found: &mut Vec<Diag>, node: u8, numbers: &[u16]) -> Result<(), AllocError>
    ensures { OnOk result (found.new.items ≡ found.old.items
        ++ map (λ number. diagnostic UnplannedTpdo (of.Tpdo node number)) numbers.now) }
{
    for number in numbers {
        found.push(Diag {
            code: Code::UnplannedTpdo,
            subject: Subject::Tpdo(node, *number),
        })?;
    }
    Ok(())
}

/// Finds these RPDOs of a node to take what isn't meant for them.
fn find_rpdos(found: &mut Vec<Diag>, node: u8, numbers: &[u16]) -> Result<(), AllocError>
    ensures { OnOk result (found.new.items ≡ found.old.items
        ++ map (λ number. diagnostic UnplannedRpdo (of.Rpdo node number)) numbers.now) }
{
    for number in numbers {
        found.push(Diag {
            code: Code::UnplannedRpdo,
            subject: Subject::Rpdo(node, *number),
        })?;
    }
    Ok(())
}

/// Finds these entries of a node to be written beside their limits.
fn find_places(found: &mut Vec<Diag>, node: u8, places: &[(u16, u8)]) -> Result<(), AllocError>
    ensures { OnOk result (found.new.items ≡ found.old.items
        ++ map (λ place. diagnostic BesideLimits (of.Limit node place.0 place.1)) places.now) }
{
    for place in places {
        found.push(Diag {
            code: Code::BesideLimits,
            subject: Subject::Limit(node, place.0, place.1),
        })?;
    }
    Ok(())
}

/// Finds what is wrong with the PDOs of a node by its device as it was made.
fn find_of_pdos(
    found: &mut Vec<Diag>,
    alloc: Global,
    plan: &Plan,
    made: &AsMade,
    node: u8,
) -> Result<(), AllocError>
    ensures { OnOk result (found.new.items ≡ found.old.items ++ pdo_findings plan.now made.now node) }
{
    let tpdos = unplanned_tpdos(alloc, plan, made, node)?;
    find_tpdos(found, node, tpdos.as_slice())?;
    let rpdos = unplanned_rpdos(alloc, plan, made, node)?;
    find_rpdos(found, node, rpdos.as_slice())?;
    let writes = vendor_link_writes(alloc, plan, made, node)?;
    let places = refused_places(alloc, made, writes.as_slice())?;
    find_places(found, node, places.as_slice())?;
    Ok(())
}

/// Finds it of a node, where it has a device.
fn find_of_node(
    found: &mut Vec<Diag>,
    alloc: Global,
    library: &Library<'_>,
    plan: &Plan,
    id: u8,
    node: &Node,
) -> Result<(), AllocError>
    requires { IsRead library.now node.now.eds }
    ensures { OnOk result (found.new.items
        ≡ found.old.items ++ of_node (node_findings plan.now) library.now.project (id, node.now)) }
{
    let Some(device) = device_of(library, node.eds.as_slice()) else {
        return Ok(());
    };
    let made = AsMade::of(device, id)?;
    find_of_pdos(found, alloc, plan, &made, id)?;
    Ok(())
}

/// Finds it of all nodes.
fn find_of_nodes(
    found: &mut Vec<Diag>,
    alloc: Global,
    library: &Library<'_>,
    plan: &Plan,
) -> Result<(), AllocError>
    requires { AreAllRead library.now }
    ensures { OnOk result (found.new.items
        ≡ found.old.items ++ flat_map (node_findings plan.now) (members library.now.project)) }
{
    for (id, node) in library.project().nodes() {
        find_of_node(found, alloc, library, plan, *id, node)?;
    }
    Ok(())
}

/// Finds all of it, in version 3 alone.
#[tactic(auto, unfolding(crate::specs::Found::vendor_findings))]
pub(crate) fn find_in_version_3(
    found: &mut Vec<Diag>,
    alloc: Global,
    library: &Library<'_>,
    plan: &Plan,
) -> Result<(), AllocError>
    requires read { AreAllRead library.now }
    requires plan { plan.now ≡ plan_of_project library.now.project }
    ensures { OnOk result (found.new.items ≡ found.old.items ++ vendor_findings library.now.project) }
{
    if !library.project().version().is_three() {
        return Ok(());
    }
    find_of_nodes(found, alloc, library, plan)?;
    find_useless_receives(found, alloc, library, plan)?;
    Ok(())
}
