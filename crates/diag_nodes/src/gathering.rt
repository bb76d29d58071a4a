//! What is found of all nodes, gathered.
ghost use Rattle.std.specs.Prelude.{◌≡◌, ◌++◌, IfOk, OnOk, false, true};
ghost use Rattle.std.specs.FinMap as map;
ghost use Rattle.std.specs.List.{flat_map};
ghost use Rattle.project_edits.specs.Versions.{is_three};
ghost use Rattle.project_plan.specs.Network.{member_of, members, plan_of_project};
ghost use Rattle.project_plan.specs.Wanted.{sends};
ghost use Rattle.diag_nodes.specs.Alone.{Keeps};
ghost use Rattle.project_plan.specs.Library.{AreRead, IsRead};
ghost use Rattle.diag_nodes.specs.Devices.{AreAllRead, of_node};
ghost use Rattle.diag_nodes.specs.Found.{consumers, counters, identifiers, times, unreadable_defaults};
ghost use Rattle.diag_nodes.specs.Held.{HoldsNoOther};
ghost use Rattle.diag_nodes.specs.Kept.{numbers_by};
ghost use Rattle.diag_nodes.specs.Rules.{consumers_in, counters_in, identifiers_in, times_in};
ghost use Rattle.diag_nodes.specs.Sheets.{faults_of_node};

use crate::devices::shared_device;
use crate::kept::{Kept, keep_values};
use crate::node_found::NodeFound;
use crate::nodes_found::NodesFound;
use base::Shared;
use co_project::Node;
use diag_lines::Diag;
use eds_device::DataSheet;
use pdo_links::vendor_link_writes;
use pdo_plan::Plan;
use pdo_stations::AsMade;
use project_plan::{Library, sends, vendor_wanted_values, wanted_values};
use std::alloc::{AllocError, Global};

/// What is found of nodes beside the faults of their parameters.
#[derive(Drop)]
pub struct Gathered {
    /// The unreadable defaults.
    pub defaults: Vec<Diag>,
    /// What is kept of the nodes once they are configured.
    pub kept: Kept,
}

/// Puts copies of diagnostics at the end of what was found. Takes time and memory by their number and the length of their
/// names; want of memory is the only error.
pub fn add_copies(found: &mut Vec<Diag>, alloc: Global, more: &[Diag]) -> Result<(), AllocError>
    ensures { OnOk result (found.new.items ≡ found.old.items ++ more.now) }
{
    for diag in more {
        let copy = diag.copy(alloc)?;
        found.push(copy)?;
    }
    Ok(())
}

/// Keeps what there is of a node that sends no message, in versions 1 and 2.
fn keep_alone(kept: &mut Kept, plan: &Plan, found: &NodeFound) -> Result<(), AllocError>
    requires { sends plan.now found.now.0 ≡ false }
    ensures { OnOk result (Keeps (numbers_by false plan.now) found.now kept.old kept.new) }
{
    let _ = plan;
    kept.add(found.kept())?;
    Ok(())
}

/// Keeps what there is of a node once it is configured by a plan, in versions 1 and 2.
fn keep_planned(kept: &mut Kept, plan: &Plan, found: &NodeFound) -> Result<(), AllocError>
    ensures { OnOk result (Keeps (numbers_by false plan.now) found.now kept.old kept.new) }
{
    let id = found.id();
    if !sends(plan, id) {
        return keep_alone(kept, plan, found);
    }
    let values = wanted_values(found.given(), plan, id)?;
    keep_values(kept, id, found.device(), &values)?;
    Ok(())
}

/// Keeps it in version 3, where the plan keeps to a device as its vendor made it.
fn keep_as_made(
    kept: &mut Kept,
    alloc: Global,
    plan: &Plan,
    found: &NodeFound,
) -> Result<(), AllocError>
    ensures { OnOk result (Keeps (numbers_by true plan.now) found.now kept.old kept.new) }
{
    let id = found.id();
    let made = AsMade::of(found.device(), id)?;
    let writes = vendor_link_writes(alloc, plan, &made, id)?;
    let values = vendor_wanted_values(found.given(), writes.as_slice())?;
    keep_values(kept, id, found.device(), &values)?;
    Ok(())
}

/// Keeps what there is of a node once it is configured by a plan.
fn keep_found(
    kept: &mut Kept,
    alloc: Global,
    is_three: bool,
    plan: &Plan,
    found: &NodeFound,
) -> Result<(), AllocError>
    ensures { OnOk result (Keeps (numbers_by is_three plan.now) found.now kept.old kept.new) }
{
    if is_three {
        keep_as_made(kept, alloc, plan, found)
    } else {
        keep_planned(kept, plan, found)
    }
}

/// Gathers what is found of a node.
fn gather_found(
    faults: &mut Vec<Diag>,
    gathered: &mut Gathered,
    alloc: Global,
    is_three: bool,
    plan: &Plan,
    found: &NodeFound,
) -> Result<(), AllocError>
    ensures faults { OnOk result (faults.new.items ≡ faults.old.items ++ faults_of_node found.now) }
    ensures defaults { OnOk result (gathered.new.defaults.items
        ≡ gathered.old.defaults.items ++ unreadable_defaults found.now) }
    ensures kept { OnOk result (Keeps (numbers_by is_three plan.now) found.now gathered.old.kept gathered.new.kept) }
{
    add_copies(faults, alloc, found.faults())?;
    add_copies(&mut gathered.defaults, alloc, found.defaults())?;
    keep_found(&mut gathered.kept, alloc, is_three, plan, found)?;
    Ok(())
}

/// Gathers what is found of a node that has this device: what was found of it before, where it didn't change.
fn gather_of(
    faults: &mut Vec<Diag>,
    gathered: &mut Gathered,
    alloc: Global,
    is_three: bool,
    plan: &Plan,
    nodes: &mut NodesFound,
    id: u8,
    node: &Node,
    device: Shared<DataSheet>,
) -> Result<(), AllocError>
    requires { HoldsNoOther nodes.old node.now.eds device }
    ensures faults { OnOk result (faults.new.items
        ≡ faults.old.items ++ faults_of_node (member_of id node.now device)) }
    ensures defaults { OnOk result (gathered.new.defaults.items
        ≡ gathered.old.defaults.items ++ unreadable_defaults (member_of id node.now device)) }
    ensures kept { OnOk result (Keeps (numbers_by is_three plan.now) (member_of id node.now device)
        gathered.old.kept gathered.new.kept) }
    ensures nodes { OnOk result (nodes.new ≡ map.insert nodes.old node.now.eds device) }
{
    if let Some(found) = nodes.current(id, node, device.get()) {
        gather_found(faults, gathered, alloc, is_three, plan, found)?;
        return Ok(());
    }
    let found = nodes.find(alloc, id, node, device)?;
    gather_found(faults, gathered, alloc, is_three, plan, &found)?;
    nodes.put(node, found)?;
    Ok(())
}

/// Gathers it of a node, where it has a device.
fn gather_node(
    faults: &mut Vec<Diag>,
    gathered: &mut Gathered,
    alloc: Global,
    library: &Library<'_>,
    plan: &Plan,
    nodes: &mut NodesFound,
    id: u8,
    node: &Node,
) -> Result<(), AllocError>
    requires read { IsRead library.now node.now.eds }
    requires current { AreRead library.now.project nodes.old }
    ensures faults { OnOk result (faults.new.items
        ≡ faults.old.items ++ of_node faults_of_node library.now.project (id, node.now)) }
    ensures defaults { OnOk result (gathered.new.defaults.items
        ≡ gathered.old.defaults.items ++ of_node unreadable_defaults library.now.project (id, node.now)) }
    ensures identifiers { OnOk result (gathered.new.kept.identifiers.items ≡ gathered.old.kept.identifiers.items
        ++ of_node (identifiers_in (numbers_by (is_three library.now.project.version) plan.now)) library.now.project (id, node.now)) }
    ensures consumers { OnOk result (gathered.new.kept.consumers.items ≡ gathered.old.kept.consumers.items
        ++ of_node (consumers_in (numbers_by (is_three library.now.project.version) plan.now)) library.now.project (id, node.now)) }
    ensures times { OnOk result (gathered.new.kept.times.items ≡ gathered.old.kept.times.items
        ++ of_node (times_in (numbers_by (is_three library.now.project.version) plan.now)) library.now.project (id, node.now)) }
    ensures counters { OnOk result (gathered.new.kept.counters.items ≡ gathered.old.kept.counters.items
        ++ of_node (counters_in (numbers_by (is_three library.now.project.version) plan.now)) library.now.project (id, node.now)) }
    ensures current { OnOk result (AreRead library.now.project nodes.new) }
{
    let Some(device) = shared_device(library, node.eds.as_slice())? else {
        return Ok(());
    };
    let is_three = library.project().version().is_three();
    gather_of(
        faults, gathered, alloc, is_three, plan, nodes, id, node, device,
    )?;
    Ok(())
}

/// Gathers what is found of all nodes: the faults of their parameters at the end of what was found, so that these and
/// the defaults come in order each. What is found of a node by itself is found again where it changed alone.
///
/// Takes time by the length of the text of each data sheet that a node has, the entries and parameters of each node
/// that isn't the same, with the same device, as when it was last found, the parameters of each other, the entries of
/// each node that sends a message, and the messages for each node; in version 3 also for each node the consumers of the
/// messages and 512 PDOs of each kind. Takes memory by what is found, for each node by its parameters and the values
/// that are wanted of it, and for each data sheet by the entries that it gives a parameter or a doubtful default. Want
/// of memory is the only error.
pub fn gather_nodes(
    faults: &mut Vec<Diag>,
    alloc: Global,
    library: &Library<'_>,
    plan: &Plan,
    nodes: &mut NodesFound,
) -> Result<Gathered, AllocError>
    requires read { AreAllRead library.now }
    requires plan { plan.now ≡ plan_of_project library.now.project }
    ensures faults { OnOk result (faults.new.items
        ≡ faults.old.items ++ flat_map faults_of_node (members library.now.project)) }
    ensures defaults { IfOk result (λ g. g.defaults.items
        ≡ flat_map unreadable_defaults (members library.now.project)) }
    ensures identifiers { IfOk result (λ g. g.kept.identifiers.items ≡ identifiers library.now.project) }
    ensures consumers { IfOk result (λ g. g.kept.consumers.items ≡ consumers library.now.project) }
    ensures times { IfOk result (λ g. g.kept.times.items ≡ times library.now.project) }
    ensures counters { IfOk result (λ g. g.kept.counters.items ≡ counters library.now.project) }
{
    nodes.let_go(library);
    let mut gathered = Gathered {
        defaults: Vec::new(alloc),
        kept: Kept::new(alloc),
    };
    for (id, node) in library.project().nodes() {
        gather_node(
            faults,
            &mut gathered,
            alloc,
            library,
            plan,
            nodes,
            *id,
            node,
        )?;
    }
    Ok(gathered)
}
