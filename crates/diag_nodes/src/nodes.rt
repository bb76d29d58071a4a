//! What is wrong with a node by itself, put at the end of what was found.
ghost use Rattle.std.specs.Prelude.{◌≡◌, ◌++◌, OnOk};
ghost use Rattle.diag_nodes.specs.Found.{unreadable_defaults};
ghost use Rattle.diag_nodes.specs.Sheets.{faults_of_node};
ghost use Rattle.project_plan.specs.Network.{member_of};
ghost use Rattle.project_plan.specs.Sheets.{AreEntriesOf};

use crate::defaults::find_unreadable;
use crate::parameters::{find_given, find_own};
use co_project::Node;
use diag_lines::Diag;
use eds_device::DataSheet;
use project_plan::SheetEntries;
use std::alloc::{AllocError, Global};

/// Finds the faults of a node's own parameters, and of those that its data sheet gives.
pub(crate) fn find_faults(
    found: &mut Vec<Diag>,
    alloc: Global,
    id: u8,
    node: &Node,
    device: &DataSheet,
    entries: &SheetEntries,
) -> Result<(), AllocError>
    requires { AreEntriesOf device.now entries.now }
    ensures { OnOk result (found.new.items
        ≡ found.old.items ++ faults_of_node (member_of id node.now device.now)) }
{
    find_own(found, alloc, id, node, device)?;
    find_given(found, alloc, id, node, device, &entries.given)?;
    Ok(())
}

/// Finds a node's unreadable defaults.
pub(crate) fn find_defaults(
    found: &mut Vec<Diag>,
    id: u8,
    node: &Node,
    device: &DataSheet,
    entries: &SheetEntries,
) -> Result<(), AllocError>
    requires { AreEntriesOf device.now entries.now }
    ensures { OnOk result (found.new.items
        ≡ found.old.items ++ unreadable_defaults (member_of id node.now device.now)) }
{
    find_unreadable(found, id, node, device, &entries.doubtful)?;
    Ok(())
}
